//! A job and the run that it asks for, over any reader and writer.
ghost use Rattle.std.specs.Prelude.{◌≡◌, ◌-◌, ◌^◌, ◌<◌, chars};
ghost use Rattle.uv_cli.specs.Check.{IsKeptAt, RunsAgainst};
ghost use Rattle.uv_cli.specs.Jobs.{HasChecked, HasDone, HasDoneFilter, HasDoneInPlace, HasDoneLint};
ghost use Rattle.uv_cli.specs.Jobs.{HasRunExplain, HasRunVectors, IsKeptOf, ended};
ghost use Rattle.uv_cli.specs.Mend.{HasMended};
ghost use Rattle.uv_cli.specs.Stream.{stream};

use crate::check::{Checked, RefusedText, check_with_base};
use crate::ends::{End, end_of_check, end_of_explanation, end_of_vectors};
use crate::explain::run_explain;
use crate::filter::filter_lines;
use crate::in_place::mend_files;
use crate::links::list_links;
use crate::lint::lint_files;
use crate::malformed_vectors::said_of_vectors;
use crate::mend::run_mend;
use crate::store::OwnFiles;
use std::alloc::Global;
use std::fs::Files;
use uv_arguments::{FilterJob, Job, LintJob, Told};
use uv_io::{Sink, Source};
use uv_messages::messages::say;
use uv_model::{Extent, Profile};
use uv_vectors::run_cases;

/// How a job ends, and what is kept of the text of a check that is refused.
#[derive(Drop)]
pub struct Done {
    /// The end.
    pub end: End,
    /// What is kept of the refused text, for the sentences on it.
    pub(crate) refused: Option<RefusedText>,
}

impl From<End> for Done {
    ghost from_gives = { λ end done. done ≡ ended end };

    fn from(end: End) -> Done {
        Done { end, refused: None }
    }
}

/// Does what a job asks for. It checks the job's text, against the job's base and under the profile that the job names,
/// or says what to write in its place; it says what is wrong with the lines of the job's files; it reports on the lines
/// of the input, or mends them; it runs the cases of a vector file; or it explains rules, or says where they are in the
/// URL Standard.
///
/// `file` has the bytes of the job's file, which only a run of vectors uses. A lint opens its files itself. The input
/// is read only by a list, by a filter, and by a lint for a file that is named `-`. The output isn't flushed.
pub fn run_job<R: Files + Eprint + AllocGlobal, I: Source, S: Sink>(
    rt: &R,
    job: &Job,
    file: &[u8],
    input: &mut I,
    out: &mut S,
) -> Done
    requires reads { I.failed input.old < 2 ^ 64 - 1 }
    requires writes { S.failed out.old < 2 ^ 64 - 1 }
    ensures done { HasDone job.now file.now result.end
        (stream (I.remaining input.old) (I.failed input.old)) (stream (I.remaining input.new) (I.failed input.new))
        (stream (S.contents out.old) (S.failed out.old)) (stream (S.contents out.new) (S.failed out.new)) }
    ensures kept { IsKeptOf job.now result.refused }
{
    let alloc = rt.alloc();
    let end = match job {
        Job::Check {
            text,
            base,
            extent,
            profile,
        } => return check_text(
            alloc,
            text.as_str(),
            base.as_deref(),
            *extent,
            *profile,
            out,
        ),
        Job::Lint(asked) => lint_asked(rt, asked, input, out),
        Job::LintWithoutInput | Job::LintUnnamed | Job::UnknownColours { .. } => End::Words,
        Job::Links { base, profile } => list_links(alloc, base.as_deref(), *profile, input, out),
        Job::Mend {
            text,
            base,
            profile,
        } => mend_text(alloc, text.as_str(), base.as_deref(), *profile, out),
        Job::Filter(asked) => filter_asked(alloc, asked, input, out),
        Job::FilterOfText | Job::SeveralTexts => End::Words,
        Job::InPlace { files, asked } => files_asked(rt, files.as_slice(), asked),
        Job::Vectors { file: name } => vectors_run(rt, name.as_str(), file, out),
        Job::Explain { rules, told } => explained(alloc, rules.as_slice(), *told, out),
        Job::UnknownProfile { .. } => End::UnknownProfile,
    };
    Done::from(end)
}

// Says what is wrong with the lines of a lint's files.
fn lint_asked<R: Files + Eprint + AllocGlobal, I: Source, S: Sink>(
    rt: &R,
    asked: &LintJob,
    input: &mut I,
    out: &mut S,
) -> End
    requires reads { I.failed input.old < 2 ^ 64 - 1 }
    requires writes { S.failed out.old < 2 ^ 64 - 1 }
    ensures { HasDoneLint asked.now result
        (stream (I.remaining input.old) (I.failed input.old)) (stream (I.remaining input.new) (I.failed input.new))
        (stream (S.contents out.old) (S.failed out.old)) (stream (S.contents out.new) (S.failed out.new)) }
{
    lint_files(
        rt,
        asked,
        asked.base.as_deref(),
        asked.format.as_deref(),
        asked.columns.as_deref(),
        input,
        out,
    )
}

// Mends the lines of the input.
fn filter_asked<I: Source, S: Sink>(
    alloc: Global,
    asked: &FilterJob,
    input: &mut I,
    out: &mut S,
) -> End
    requires reads { I.failed input.old < 2 ^ 64 - 1 }
    requires writes { S.failed out.old < 2 ^ 64 - 1 }
    ensures { HasDoneFilter asked.now result
        (stream (I.remaining input.old) (I.failed input.old)) (stream (I.remaining input.new) (I.failed input.new))
        (stream (S.contents out.old) (S.failed out.old)) (stream (S.contents out.new) (S.failed out.new)) }
{
    filter_lines(
        alloc,
        asked,
        asked.base.as_deref(),
        asked.only.as_deref(),
        input,
        out,
    )
}

// Mends the lines of files in their place, if there are some.
fn files_asked<R: Files + Eprint + AllocGlobal>(rt: &R, files: &[String], asked: &FilterJob) -> End
    ensures { HasDoneInPlace files.now asked.now result }
{
    if files.is_empty() {
        return End::Words;
    }
    mend_files(
        rt,
        &OwnFiles::new(rt),
        files,
        asked,
        asked.base.as_deref(),
        asked.only.as_deref(),
    )
}

// Says what to write in place of a text, alone or against a base.
fn mend_text<S: Sink>(
    alloc: Global,
    text: &str,
    base: Option<&str>,
    profile: Profile,
    out: &mut S,
) -> End
    requires { S.failed out.old < 2 ^ 64 - 1 }
    ensures { HasMended profile base.entry text.now result
        (stream (S.contents out.old) (S.failed out.old)) (stream (S.contents out.new) (S.failed out.new)) }
{
    end_of_check(run_mend(alloc, text, base, profile, out))
}

// Says this about the rules with these names, or about every rule.
fn explained<S: Sink>(alloc: Global, rules: &[String], told: Told, out: &mut S) -> End
    requires { S.failed out.old < 2 ^ 64 - 1 }
    ensures { HasRunExplain rules.now told result
        (stream (S.contents out.old) (S.failed out.old)) (stream (S.contents out.new) (S.failed out.new)) }
{
    end_of_explanation(run_explain(alloc, rules, told, out))
}

// Runs the cases of a vector file with this name, or reports why they aren't checked.
fn vectors_run<R: Eprint + AllocGlobal, S: Sink>(
    rt: &R,
    name: &str,
    file: &[u8],
    out: &mut S,
) -> End
    requires { S.failed out.old < 2 ^ 64 - 1 }
    ensures { HasRunVectors file.now result
        (stream (S.contents out.old) (S.failed out.old)) (stream (S.contents out.new) (S.failed out.new)) }
{
    let gave = run_cases(rt.alloc(), file, out);
    if let Ok(end) = &gave {
        say(rt, said_of_vectors(rt.alloc(), name, file, end));
    }
    end_of_vectors(&gave)
}

// Checks a text, alone or against a base.
fn check_text<S: Sink>(
    alloc: Global,
    text: &str,
    base: Option<&str>,
    extent: Extent,
    profile: Profile,
    out: &mut S,
) -> Done
    requires { S.failed out.old < 2 ^ 64 - 1 }
    ensures checked { HasChecked extent profile base.entry (chars text.now) result.end
        (stream (S.contents out.old) (S.failed out.old)) (stream (S.contents out.new) (S.failed out.new)) }
    ensures kept { IsKeptAt extent profile base.entry (chars text.now) result.refused }
    ensures runs { RunsAgainst profile base.entry (chars text.now) }
{
    match check_with_base(alloc, text, base, profile, extent, out) {
        Ok(Checked::Valid) => Done::from(End::Valid),
        Ok(Checked::Refused(text)) => Done {
            end: End::Refused,
            refused: Some(text),
        },
        Ok(Checked::BaseRefused(refusal)) => Done::from(End::BaseRefused(refusal)),
        Err(fault) => Done::from(End::Fault(fault)),
    }
}
