//! What the program can be asked to do.

use crate::colours::Colours;
use uv_model::{Extent, Profile};

/// What the program is asked to do.
#[derive(Drop)]
pub enum Job {
    /// To check a text.
    Check {
        /// The text.
        text: String,
        /// The base's text, if there is a base.
        base: Option<String>,
        /// How many of its violations are wanted.
        extent: Extent,
        /// The profile by which it is checked, and the base too.
        profile: Profile,
    },
    /// To say what is wrong with the lines of files.
    Lint(LintJob),
    /// To do that under a name for the standard input, which isn't one of the files.
    LintWithoutInput,
    /// To do that under an empty name for the standard input.
    LintUnnamed,
    /// To report on the lines of the standard input.
    Links {
        /// The base's text, if there is a base.
        base: Option<String>,
        /// The profile by which the lines are checked, and the base too.
        profile: Profile,
    },
    /// To say what to write in place of a text.
    Mend {
        /// The text.
        text: String,
        /// The base's text, if there is a base.
        base: Option<String>,
        /// The profile by which it is checked, and the base too.
        profile: Profile,
    },
    /// To write the lines of the standard input, mended if they can be.
    Filter(FilterJob),
    /// To mend one text by `--only`, `--all-mended` or `--quiet`, which are only for lists.
    FilterOfText,
    /// To mend several texts.
    SeveralTexts,
    /// To mend the lines of files, each in its place.
    InPlace {
        /// The names of the files, or none.
        files: Vec<String>,
        /// How their lines are mended.
        asked: FilterJob,
    },
    /// To run the cases of a file of vectors.
    Vectors {
        /// The file's name.
        file: String,
    },
    /// To say what rules require, or where they are in the URL Standard.
    Explain {
        /// The rules' names, in order, or none if every rule is meant.
        rules: Vec<String>,
        /// What to print about each of them.
        told: Told,
    },
    /// To check by a profile that doesn't exist.
    UnknownProfile {
        /// The name that no profile has.
        name: String,
    },
    /// To report with colours at a time that isn't one of those known.
    UnknownColours {
        /// The name that isn't one.
        name: String,
    },
}

/// What to print about a rule.
#[derive(Clone, Copy)]
pub enum Told {
    /// Its explanation.
    Explanation,
    /// The address of its section of the URL Standard.
    Address,
}

/// The files whose lines are checked, how they are checked, and how what is wrong with them is reported.
#[derive(Drop)]
pub struct LintJob {
    /// The names of the files. `-` is the standard input.
    pub files: Vec<String>,
    /// The base's text, if there is a base.
    pub base: Option<String>,
    /// How many of the violations of a line are wanted.
    pub extent: Extent,
    /// The profile by which the lines are checked, and the base too.
    pub profile: Profile,
    /// The name of the format, if one is named.
    pub format: Option<String>,
    /// The name of what columns count, if one is named.
    pub columns: Option<String>,
    /// Whether each line says where its link is.
    pub located: bool,
    /// When a report that people read has colours.
    pub colours: Colours,
    /// The name under which the standard input is reported, if not as `-`.
    pub stdin_name: Option<String>,
    /// Whether no counts are wanted.
    pub quiet: bool,
}

/// How the lines of the standard input are mended.
#[derive(Drop)]
pub struct FilterJob {
    /// The base's text, if there is a base.
    pub base: Option<String>,
    /// The profile by which the lines are checked, and the base too.
    pub profile: Profile,
    /// The name of the kind of mended texts that are wanted, unless all are.
    pub only: Option<String>,
    /// Whether mended texts that reports don't offer are wanted too.
    pub all: bool,
    /// Whether no counts are wanted.
    pub quiet: bool,
}
