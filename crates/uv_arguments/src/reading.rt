//! What the arguments of the command line ask for.
ghost use Rattle.std.specs.Prelude.{◌≡◌, IfOk, IfErr, Some, codes, map, option_map, true};
ghost use Rattle.clap.specs.Words.{first_of, found_of, rows_of, subcommand_of, subcommand_rows_of};
ghost use Rattle.clap.specs.Words.{takes};
ghost use Rattle.uv_arguments.specs.Commands.{urlcheck};
ghost use Rattle.uv_arguments.specs.Requests.{asked_by, check_in, checked_in, lint_in};
ghost use Rattle.uv_arguments.specs.Requests.{lint_of, request_by};
ghost use Rattle.uv_arguments.specs.Requests.{explain, filter_by, filter_in, is_filtered, mend_in, rules_in};
ghost use Rattle.uv_arguments.specs.Requests.{request_in, request_of, told_in, vectors, wanted_in, wanted_view, IsFaultOf};
ghost use Rattle.uv_arguments.specs.Requests.{reason_of};

use crate::colours::{Colours, colours_asked};
use crate::commands::urlcheck;
use crate::entries::{copied, copied_all, extent, has, value, values};
use crate::inputs::has_input;
use crate::jobs::{FilterJob, Job, LintJob, Told};
use crate::profile::{Asked, asked_for};
use crate::words_fault::{Reason, WordsFault};
use clap::ArgMatches;
use std::alloc::{AllocError, Global};
use uv_model::Profile;

/// Reads the arguments of a command line, of which the first is the program's name.
///
/// The job has the command, the texts and the options that the arguments give. There is none if `clap` takes the
/// arguments, but they name no command, no TEXT or no FILE, or give both `--wide` and `--profile`. A RULE, a FORMAT, a
/// UNIT, a KIND and a NAME may be any text; a PROFILE that doesn't exist gives the job that says so.
pub fn read_words(alloc: Global, words: &[&str]) -> Result<Option<Job>, WordsFault>
    ensures job { IfOk result (λ job. option_map asked_by job
        ≡ request_of (subcommand_of urlcheck (map (λ word. word.now) words.now))) }
    ensures fault { IfErr result (IsFaultOf (map (λ word. word.now) words.now)) }
    ensures takes { IfErr result (λ fault.
        takes urlcheck (map (λ word. word.now) words.now) ≡ true → reason_of fault ≡ Reason.Memory) }
{
    let matches = match urlcheck(alloc)?.try_get_matches_from(words) {
        Ok(matches) => matches,
        Err(error) => return Err(WordsFault::new(error)),
    };
    Ok(job_of(alloc, &matches)?)
}

// The job that the command of the matches asks for.
fn job_of(alloc: Global, matches: &ArgMatches<'_>) -> Result<Option<Job>, AllocError>
    ensures { IfOk result (λ job. option_map asked_by job ≡ request_of (subcommand_rows_of matches.now)) }
{
    let Some((name, entries)) = matches.subcommand() else {
        return Ok(None);
    };
    job_in(alloc, name, entries)
}

// The job that a command's name and its entries ask for.
#[tactic(auto, unfolding(crate::specs::Requests::request_in))]
fn job_in(alloc: Global, name: &str, entries: &ArgMatches<'_>) -> Result<Option<Job>, AllocError>
    ensures { IfOk result (λ job.
        option_map asked_by job ≡ request_in name.now (rows_of (found_of entries.now))) }
{
    if name == "vectors" {
        return vectors_in(alloc, entries);
    }
    if name == "explain" {
        return explain_in(alloc, entries);
    }
    match profile_asked(entries) {
        Some(Asked::Known(profile)) => checked_in(alloc, name, entries, profile),
        Some(Asked::Unknown(name)) => Ok(Some(Job::UnknownProfile {
            name: name.to_string(alloc)?,
        })),
        None => Ok(None),
    }
}

// The run over vectors that a command's entries ask for.
fn vectors_in(alloc: Global, entries: &ArgMatches<'_>) -> Result<Option<Job>, AllocError>
    ensures { IfOk result (λ job. option_map asked_by job
        ≡ option_map vectors (first_of (codes "FILE") (rows_of (found_of entries.now)))) }
{
    match value(entries, "FILE") {
        Some(file) => Ok(Some(Job::Vectors {
            file: file.to_string(alloc)?,
        })),
        None => Ok(None),
    }
}

// The explanation that a command's entries ask for.
fn explain_in(alloc: Global, entries: &ArgMatches<'_>) -> Result<Option<Job>, AllocError>
    ensures { IfOk result (λ job.
        option_map asked_by job ≡ Some (explain (rules_in (rows_of (found_of entries.now)))
        (told_in (rows_of (found_of entries.now))))) }
{
    let rules = match values(entries, "RULE") {
        Some(rules) => copied_all(alloc, rules)?,
        None => Vec::new(alloc),
    };
    let told = told_by(entries);
    Ok(Some(Job::Explain { rules, told }))
}

// What a command's entries ask to be told about a rule.
fn told_by(entries: &ArgMatches<'_>) -> Told
    ensures { result ≡ told_in (rows_of (found_of entries.now)) }
{
    if has(entries, "url") {
        Told::Address
    } else {
        Told::Explanation
    }
}

// The profile that a command's entries ask for.
fn profile_asked<'a>(entries: &ArgMatches<'a>) -> Option<Asked<'a>>
    ensures { option_map wanted_view result ≡ wanted_in (rows_of (found_of entries.now)) }
{
    asked_for(has(entries, "wide"), value(entries, "profile"))
}

// The job of a command that checks under a profile.
fn checked_in(
    alloc: Global,
    name: &str,
    entries: &ArgMatches<'_>,
    profile: Profile,
) -> Result<Option<Job>, AllocError>
    ensures { IfOk result (λ job.
        option_map asked_by job ≡ checked_in name.now (rows_of (found_of entries.now)) profile) }
{
    if name == "check" {
        return check_in(alloc, entries, profile);
    }
    if name == "lint" {
        return lint_in(alloc, entries, profile);
    }
    if name == "links" {
        let base = copied(alloc, value(entries, "base"))?;
        return Ok(Some(Job::Links { base, profile }));
    }
    if name == "mend" {
        return mend_in(alloc, entries, profile);
    }
    Ok(None)
}

// The check that a command's entries ask for.
fn check_in(
    alloc: Global,
    entries: &ArgMatches<'_>,
    profile: Profile,
) -> Result<Option<Job>, AllocError>
    ensures { IfOk result (λ job.
        option_map asked_by job ≡ check_in (rows_of (found_of entries.now)) profile) }
{
    let Some(text) = value(entries, "TEXT") else {
        return Ok(None);
    };
    Ok(Some(Job::Check {
        text: text.to_string(alloc)?,
        base: copied(alloc, value(entries, "base"))?,
        extent: extent(entries),
        profile,
    }))
}

// The mending that a command's entries ask for.
fn mend_in(
    alloc: Global,
    entries: &ArgMatches<'_>,
    profile: Profile,
) -> Result<Option<Job>, AllocError>
    ensures { IfOk result (λ job.
        option_map asked_by job ≡ mend_in (rows_of (found_of entries.now)) profile) }
{
    let texts = values(entries, "TEXT").unwrap_or(&[]);
    if has(entries, "in-place") {
        return Ok(Some(Job::InPlace {
            files: copied_all(alloc, texts)?,
            asked: filter_in(alloc, entries, profile)?,
        }));
    }
    match texts {
        [] => Ok(Some(Job::Filter(filter_in(alloc, entries, profile)?))),
        [_] if is_filtered(entries) => Ok(Some(Job::FilterOfText)),
        [text] => Ok(Some(Job::Mend {
            text: text.to_string(alloc)?,
            base: copied(alloc, value(entries, "base"))?,
            profile,
        })),
        _ => Ok(Some(Job::SeveralTexts)),
    }
}

// Whether a command's entries have an option that only a filter takes.
fn is_filtered(entries: &ArgMatches<'_>) -> bool
    ensures { result ≡ is_filtered (rows_of (found_of entries.now)) }
{
    has(entries, "quiet") || has(entries, "all-mended") || value(entries, "only").is_some()
}

// How a command's entries ask for lines to be mended.
fn filter_in(
    alloc: Global,
    entries: &ArgMatches<'_>,
    profile: Profile,
) -> Result<FilterJob, AllocError>
    ensures { IfOk result (λ job. filter_by job ≡ filter_in (rows_of (found_of entries.now)) profile) }
{
    Ok(FilterJob {
        base: copied(alloc, value(entries, "base"))?,
        profile,
        only: copied(alloc, value(entries, "only"))?,
        all: has(entries, "all-mended"),
        quiet: has(entries, "quiet"),
    })
}

// The lint that a command's entries ask for.
fn lint_in(
    alloc: Global,
    entries: &ArgMatches<'_>,
    profile: Profile,
) -> Result<Option<Job>, AllocError>
    ensures { IfOk result (λ job.
        option_map asked_by job ≡ lint_in (rows_of (found_of entries.now)) profile) }
{
    let Some(files) = values(entries, "FILE") else {
        return Ok(None);
    };
    match value(entries, "stdin-name") {
        Some("") => return Ok(Some(Job::LintUnnamed)),
        Some(_) if !has_input(files) => return Ok(Some(Job::LintWithoutInput)),
        _ => {}
    }
    match colours_asked(value(entries, "color")) {
        Ok(colours) => Ok(Some(Job::Lint(lint_of(alloc, entries, files, profile, colours)?))),
        Err(name) => Ok(Some(Job::UnknownColours {
            name: name.to_string(alloc)?,
        })),
    }
}

// The lint of these files that a command's entries ask for, with colours as they say.
fn lint_of(
    alloc: Global,
    entries: &ArgMatches<'_>,
    files: &[&str],
    profile: Profile,
    colours: Colours,
) -> Result<LintJob, AllocError>
    ensures { IfOk result (λ job. request_by job
        ≡ lint_of (map (λ t. t.now) files.now) (rows_of (found_of entries.now)) profile colours) }
{
    Ok(LintJob {
        files: copied_all(alloc, files)?,
        base: copied(alloc, value(entries, "base"))?,
        extent: extent(entries),
        profile,
        format: copied(alloc, value(entries, "format"))?,
        columns: copied(alloc, value(entries, "columns"))?,
        located: has(entries, "located"),
        colours,
        stdin_name: copied(alloc, value(entries, "stdin-name"))?,
        quiet: has(entries, "quiet"),
    })
}
