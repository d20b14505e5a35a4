//! The commands of the program, each with its options, its texts and its help, as rows of a table.

use crate::arguments::without_hyphen;
use crate::help;

/// A command of the program.
#[derive(Clone, Copy)]
pub struct CommandRow {
    /// Its name.
    pub name: &'static str,
    /// What it does, in a line.
    pub about: &'static str,
    /// Its usage, if it isn't left to `clap`, which shows options as if they were required.
    pub usage: Option<&'static str>,
    /// Examples, which end the short form of its help.
    pub examples: &'static str,
    /// What it prints, its exit statuses and the examples, which end the long form of its help.
    pub notes: &'static str,
    /// Its options, in the order of the help.
    pub options: &'static [OptionRow],
    /// The texts that it takes, if it takes any.
    pub texts: Option<TextRow>,
}

/// An option of one or more commands.
#[derive(Clone, Copy)]
pub struct OptionRow {
    /// Its long name, without hyphens.
    pub name: &'static str,
    /// Whether it has a value, or a letter that names it too.
    pub form: OptionForm,
    /// The heading of the help under which it is.
    pub heading: &'static str,
    /// The short form of its help.
    pub help: &'static str,
    /// The long form of its help, if that says more.
    pub long_help: Option<&'static str>,
}

impl OptionRow {
    /// Whether this is its name: the long one after two hyphens, or its letter after one.
    pub fn is_named(&self, name: &str) -> bool {
        match (name.strip_prefix("--"), self.form) {
            (Some(long), _) => long == self.name,
            (None, OptionForm::Letter(letter)) => {
                matches!(without_hyphen(name).strip_prefix(letter), Some(""))
            }
            (None, _) => false,
        }
    }

    /// Whether it has a value.
    pub fn has_value(&self) -> bool {
        matches!(self.form, OptionForm::Value(_))
    }
}

/// Whether an option has a value, or a letter that names it too.
#[derive(Clone, Copy)]
pub enum OptionForm {
    /// It has a value, which help calls this.
    Value(&'static str),
    /// It has neither.
    Flag,
    /// It has this letter.
    Letter(char),
}

/// The texts of a command, which aren't options.
#[derive(Clone, Copy)]
pub struct TextRow {
    /// What help calls each of them.
    pub name: &'static str,
    /// Whether there has to be one.
    pub is_required: bool,
    /// Whether there may be several.
    pub is_repeated: bool,
    /// The help.
    pub help: &'static str,
}

// The headings of options in the help.
const INPUT: &str = "Input";

const CHECKS: &str = "Checks";

const OUTPUT: &str = "Output";

const BASE: OptionRow = OptionRow {
    name: "base",
    form: OptionForm::Value("URL"),
    heading: CHECKS,
    help: "Resolve a relative link against this URL",
    long_help: Some("Resolve a relative link against this URL, which is checked first"),
};

const ALL: OptionRow = OptionRow {
    name: "all",
    form: OptionForm::Flag,
    heading: CHECKS,
    help: "Print every violation, not only the first",
    long_help: None,
};

const PROFILE: OptionRow = OptionRow {
    name: "profile",
    form: OptionForm::Value("PROFILE"),
    heading: CHECKS,
    help: help::PROFILE,
    long_help: Some(help::PROFILE_VALUES),
};

const WIDE: OptionRow = OptionRow {
    name: "wide",
    form: OptionForm::Flag,
    heading: CHECKS,
    help: "Short for --profile wide",
    long_help: None,
};

const FORMAT: OptionRow = OptionRow {
    name: "format",
    form: OptionForm::Value("FORMAT"),
    heading: OUTPUT,
    help: help::FORMAT,
    long_help: Some(help::FORMAT_VALUES),
};

const COLUMNS: OptionRow = OptionRow {
    name: "columns",
    form: OptionForm::Value("UNIT"),
    heading: OUTPUT,
    help: help::COLUMNS,
    long_help: Some(help::COLUMNS_VALUES),
};

const LOCATED: OptionRow = OptionRow {
    name: "located",
    form: OptionForm::Flag,
    heading: INPUT,
    help: "Read lines FILE:LINE:COLUMN:LINK",
    long_help: None,
};

const STDIN_NAME: OptionRow = OptionRow {
    name: "stdin-name",
    form: OptionForm::Value("NAME"),
    heading: INPUT,
    help: "Report on - under this name [default: -]",
    long_help: None,
};

const COLOR: OptionRow = OptionRow {
    name: "color",
    form: OptionForm::Value("WHEN"),
    heading: OUTPUT,
    help: help::COLOR,
    long_help: Some(help::COLOR_VALUES),
};

const IN_PLACE: OptionRow = OptionRow {
    name: "in-place",
    form: OptionForm::Letter('i'),
    heading: INPUT,
    help: "Mend the lines of the files that are named",
    long_help: None,
};

const ONLY: OptionRow = OptionRow {
    name: "only",
    form: OptionForm::Value("KIND"),
    heading: OUTPUT,
    help: help::ONLY,
    long_help: Some(help::ONLY_VALUES),
};

const ALL_MENDED: OptionRow = OptionRow {
    name: "all-mended",
    form: OptionForm::Flag,
    heading: OUTPUT,
    help: "Write mended texts too that lint doesn't offer",
    long_help: None,
};

const QUIET: OptionRow = OptionRow {
    name: "quiet",
    form: OptionForm::Letter('q'),
    heading: OUTPUT,
    help: "Leave out the counts on standard error",
    long_help: None,
};

const URL: OptionRow = OptionRow {
    name: "url",
    form: OptionForm::Flag,
    heading: OUTPUT,
    help: "Print only the address of each rule's section of the standard",
    long_help: None,
};

/// The commands, in the order of the help.
pub const COMMANDS: [CommandRow; 6] = [
    CommandRow {
        name: "check",
        about: "Check one text",
        usage: Some("urlcheck check [OPTIONS] <TEXT>"),
        examples: help::CHECK_EXAMPLES,
        notes: help::CHECK_NOTES,
        options: &[BASE, ALL, PROFILE, WIDE],
        texts: Some(TextRow {
            name: "TEXT",
            is_required: true,
            is_repeated: false,
            help: "The text to check, in single quotes; after -- if it begins with -",
        }),
    },
    CommandRow {
        name: "lint",
        about: "Check lists of links, one link a line",
        usage: Some("urlcheck lint [OPTIONS] <FILE>..."),
        examples: help::LINT_EXAMPLES,
        notes: help::LINT_NOTES,
        options: &[
            BASE, ALL, PROFILE, WIDE, FORMAT, COLUMNS, LOCATED, STDIN_NAME, COLOR, QUIET,
        ],
        texts: Some(TextRow {
            name: "FILE",
            is_required: true,
            is_repeated: true,
            help: "A list of links, one a line; - is standard input",
        }),
    },
    CommandRow {
        name: "links",
        about: "Check each line of standard input, and print its URL",
        usage: Some("urlcheck links [OPTIONS]"),
        examples: help::LINKS_EXAMPLES,
        notes: help::LINKS_NOTES,
        options: &[BASE, PROFILE, WIDE],
        texts: None,
    },
    CommandRow {
        name: "mend",
        about: "Print what to write in place of a refused text, or mend a list",
        usage: Some(
            "urlcheck mend [OPTIONS] [TEXT]\n       urlcheck mend --in-place [OPTIONS] <FILE>...",
        ),
        examples: help::MEND_EXAMPLES,
        notes: help::MEND_NOTES,
        options: &[BASE, PROFILE, WIDE, IN_PLACE, ONLY, ALL_MENDED, QUIET],
        texts: Some(TextRow {
            name: "TEXT",
            is_required: false,
            is_repeated: true,
            help: "The text to mend, or files with --in-place; else standard input",
        }),
    },
    CommandRow {
        name: "vectors",
        about: "Run a file of test cases",
        usage: None,
        examples: help::VECTORS_EXAMPLES,
        notes: help::VECTORS_NOTES,
        options: &[],
        texts: Some(TextRow {
            name: "FILE",
            is_required: true,
            is_repeated: false,
            help: "A JSON array of cases",
        }),
    },
    CommandRow {
        name: "explain",
        about: "Explain rules",
        usage: None,
        examples: help::EXPLAIN_EXAMPLES,
        notes: help::EXPLAIN_NOTES,
        options: &[URL],
        texts: Some(TextRow {
            name: "RULE",
            is_required: false,
            is_repeated: true,
            help: "The name of a rule, as reports print it [default: each rule]",
        }),
    },
];
