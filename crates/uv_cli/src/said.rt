//! The message on standard error before the last line: about how a job has ended, and about a file that a lint has
//! read.
ghost use Rattle.std.specs.Prelude.{◌≡◌, IfOk, IsOk, [], chars, false, option_copied, true};
ghost use Rattle.uv_grammar.specs.Verdict.{IsRefused};
ghost use Rattle.uv_cli.specs.Jobs.{IsKeptOf};
ghost use Rattle.uv_cli.specs.Said.{ends_silently};

use crate::check::RefusedText;
use crate::ends::{End, status};
use crate::fault::CliFault;
use crate::filtered::Filtered;
use crate::linted::Linted;
use std::alloc::{AllocError, Global};
use std::io::ErrorKind;
use uv_arguments::Job;
use uv_grammar::wider_profile;
use uv_lines::StopFault;
use uv_links::LinkFault;
use uv_lint::LintCounts;
use uv_mend::{Mending, mend_refused};
use uv_messages::hints::{Hint, file_hint, push_text_hint};
use uv_messages::list_contents::{Content, content_line};
use uv_messages::messages::Message;
use uv_messages::unknown::{
    refused_unit, unknown_colours, unknown_format, unknown_kind, unknown_profile, unknown_rules,
    unknown_unit,
};
use uv_messages::unread::{unread, unwritten, unwritten_line};
use uv_model::{Extent, Profile, Record, Refusal, Rule};
use uv_report::{Columns, Format};
use uv_rules::LineViolation;
use uv_sentences::{Checked, KnownText, Wording, is_by_choice, is_offered, message};
use uv_shown::{Escapes, escaped};

// The formats in the order of docs and help.
const FORMATS: [Format; 9] = [
    Format::Gnu,
    Format::Caret,
    Format::Json,
    Format::Github,
    Format::Sarif,
    Format::Checkstyle,
    Format::Junit,
    Format::Gitlab,
    Format::Rdjson,
];

// What columns count, in the order of docs and help.
const COLUMNS: [Columns; 4] = [
    Columns::CodePoints,
    Columns::Bytes,
    Columns::Utf16,
    Columns::Screen,
];

// What standard input is called.
const INPUT: &str = "standard input";

// The message if standard input has a name and isn't read.
const OF_INPUT: &str = "--stdin-name is the name of standard input: one of the FILEs has to be -";

// The message if standard input has an empty name.
const OF_NO_NAME: &str = "--stdin-name is the name of standard input, and may not be empty";

// The message if one text is to be mended by options for lines.
const OF_LINES: &str =
    "--only, --all-mended and --quiet are for the lines of standard input, not for a TEXT";

// The message if files are to be mended in their place, and none is named.
const OF_NO_FILES: &str =
    "--in-place mends the lines of files: name one, or leave it out for standard input";

/// What was noticed about a job's streams, or about a file.
#[derive(Clone, Copy)]
pub(crate) struct Seen {
    /// The kind of the last error of a read, if one failed.
    pub(crate) read: Option<ErrorKind>,
    /// The kind of the last error of a write or a flush, if one failed.
    pub(crate) written: Option<ErrorKind>,
    /// What the bytes that were read look like, if they don't look like lines of links.
    pub(crate) content: Option<Content>,
}

/// The message about a job that ended like this: about a name that doesn't exist, a stream that failed, a base that is
/// refused, and what was likely meant. Standard error may go to a terminal, where people read it.
pub(crate) fn said_at_end(
    alloc: Global,
    job: &Job,
    end: End,
    refused: Option<&RefusedText>,
    seen: Seen,
    is_terminal: bool,
) -> Result<Message, AllocError>
    requires { IsKeptOf job.now (option_copied refused) }
    ensures silent { is_terminal ≡ false → ends_silently job.now end ≡ true
        → IsOk result × IfOk result (λ said. said ≡ []) }
{
    if !is_terminal && ends_silently(job, end) {
        return Ok(Message::nothing(alloc));
    }
    said_to_people(alloc, job, end, refused, seen)
}

// The message about a job that ended like this, if people read it, or if the job doesn't end silently.
fn said_to_people(
    alloc: Global,
    job: &Job,
    end: End,
    refused: Option<&RefusedText>,
    seen: Seen,
) -> Result<Message, AllocError>
    requires { IsKeptOf job.now (option_copied refused) }
{
    match end {
        End::Refused => said_of_refused(alloc, job, refused, seen.content),
        End::BaseRefused(refusal) => said_of_base(alloc, job, refusal),
        End::Linted(linted) => said_of_linted(alloc, linted, seen),
        End::Filtered(filtered) => said_of_filtered(alloc, filtered, seen),
        End::Stopped(LinkFault::Stop(StopFault::Read)) => unread(alloc, INPUT, seen.read),
        End::Stopped(LinkFault::Stop(StopFault::Write)) | End::Fault(CliFault::Write) => {
            unwritten(alloc, seen.written)
        }
        _ => said_of_names(alloc, job, end),
    }
}

// Whether a job that ended like this gets no last line, unless people read it. The output of these commands says
// everything, and a script may take any text on standard error for a failure.
fn ends_silently(job: &Job, end: End) -> bool
    ensures { result ≡ ends_silently job.now end }
{
    match job {
        Job::Check { .. } | Job::Links { .. } | Job::Vectors { .. } => status(end) <= 1,
        _ => false,
    }
}

// The message about a job that names something that doesn't exist, or asks for what doesn't go together; otherwise
// nothing.
fn said_of_names(alloc: Global, job: &Job, end: End) -> Result<Message, AllocError> {
    match (job, end) {
        (Job::LintWithoutInput, _) => Message::of(alloc, OF_INPUT),
        (Job::LintUnnamed, _) => Message::of(alloc, OF_NO_NAME),
        (Job::FilterOfText, _) => Message::of(alloc, OF_LINES),
        (Job::SeveralTexts, _) => Message::of(alloc, Hint::OneTextOfMend.text()),
        (Job::InPlace { .. }, End::Words) => Message::of(alloc, OF_NO_FILES),
        (Job::UnknownProfile { name }, _) => unknown_profile(alloc, name.as_str()),
        (Job::UnknownColours { name }, _) => unknown_colours(alloc, name.as_str()),
        (Job::Explain { rules, .. }, End::UnknownRule) => unknown_rules(alloc, rules.as_slice()),
        (Job::Filter(asked) | Job::InPlace { asked, .. }, End::UnknownKind) => {
            unknown_kind(alloc, or_empty(&asked.only))
        }
        (Job::Lint(asked), End::UnknownFormat) => of_format(alloc, or_empty(&asked.format)),
        (Job::Lint(asked), End::UnknownColumns) => of_unit(alloc, or_empty(&asked.columns)),
        (Job::Lint(asked), End::ColumnsRefused) => of_refused_unit(
            alloc,
            Format::of_name(or_empty(&asked.format)).unwrap_or(Format::Gnu),
            or_empty(&asked.columns),
        ),
        _ => Ok(Message::nothing(alloc)),
    }
}

// The message about a name that no format has.
fn of_format(alloc: Global, name: &str) -> Result<Message, AllocError> {
    let names: Vec<&str> = FORMATS.iter().map(|format| format.name()).collect(alloc)?;
    unknown_format(alloc, names.as_slice(), name)
}

// The message about a name that no unit of columns has.
fn of_unit(alloc: Global, name: &str) -> Result<Message, AllocError> {
    let names: Vec<&str> = COLUMNS.iter().map(|columns| columns.name()).collect(alloc)?;
    unknown_unit(alloc, names.as_slice(), name)
}

// The message about a unit of columns that the format doesn't take.
fn of_refused_unit(alloc: Global, format: Format, name: &str) -> Result<Message, AllocError> {
    let mut taken: Vec<&str> = Vec::new(alloc);
    for columns in &COLUMNS {
        if format.takes_columns(*columns) {
            taken.push(columns.name())?;
        }
    }
    refused_unit(alloc, format.name(), taken.as_slice(), name)
}

// A name, or an empty text if none is given.
fn or_empty(name: &Option<String>) -> &str {
    name.as_deref().unwrap_or("")
}

// The message if a text is refused, or a line of a list of links: what is wrong with a text that is checked, and what
// was likely meant instead.
fn said_of_refused(
    alloc: Global,
    job: &Job,
    refused: Option<&RefusedText>,
    content: Option<Content>,
) -> Result<Message, AllocError>
    requires { IsKeptOf job.now (option_copied refused) }
{
    let mut said = Message::nothing(alloc);
    match job {
        Job::Check {
            text,
            base,
            extent,
            profile,
        } => {
            let (text, base) = (text.as_str(), base.as_deref());
            if let Some(refused) = refused {
                push_refused(alloc, &mut said, text, refused, *extent, *profile)?;
            }
            let (of_input, of_list) = (Hint::InputOfCheck, Hint::ListOfCheck);
            push_text_hint(alloc, &mut said, text, base.is_some(), of_input, of_list)?;
        }
        Job::Mend { text, base, .. } => {
            let (of_input, of_list) = (Hint::InputOfMend, Hint::ListOfMend);
            push_text_hint(
                alloc,
                &mut said,
                text.as_str(),
                base.is_some(),
                of_input,
                of_list,
            )?;
        }
        _ => push_content(alloc, &mut said, INPUT, content, "links")?,
    }
    Ok(said)
}

// Pushes what is wrong with a refused text, in a sentence for each violation that was printed, and what to write in
// place of the text, if that is offered.
fn push_refused(
    alloc: Global,
    said: &mut Message,
    text: &str,
    refused: &RefusedText,
    extent: Extent,
    profile: Profile,
) -> Result<(), AllocError>
    requires { IsRefused profile refused.now.base (chars text.now) refused.now.found.refusal }
{
    let base = refused.base.as_ref();
    let first = [refused.found.refusal];
    let found = match extent {
        Extent::First => &first,
        Extent::All => refused.found.faults.as_slice(),
    };
    let mut known = KnownText::of_several(text);
    for refusal in found {
        known.go_to(refusal.place);
        let sentence = sentence_on(alloc, &known, base, profile, *refusal)?;
        push_sentence(alloc, said, *refusal, sentence.as_str())?;
    }
    let mending = mend_refused(alloc, text, base, profile, refused.found.refusal)?;
    push_offered(alloc, said, &known, &mending)
}

// The sentence on a violation of a text, of which this is known, against a record as base.
fn sentence_on(
    alloc: Global,
    known: &KnownText<'_>,
    base: Option<&Record>,
    profile: Profile,
    refusal: Refusal,
) -> Result<String, AllocError> {
    let violation = LineViolation::Refused(refusal);
    let accepted_by = if is_by_choice(violation) {
        wider_profile(alloc, known.as_str(), base, profile)?
    } else {
        None
    };
    let checked = Checked {
        profile,
        accepted_by,
        wording: Wording::Options,
    };
    Ok(message(alloc, checked, known, violation)?.text)
}

// Pushes a sentence on a violation, with its place. A host is refused at its first code point, whichever one is wrong.
fn push_sentence(
    alloc: Global,
    said: &mut Message,
    refusal: Refusal,
    sentence: &str,
) -> Result<(), AllocError> {
    let place = refusal.place;
    let region = match refusal.rule {
        Rule::HostDomain | Rule::HostNumber | Rule::HostIpv6 => "in the host ",
        _ => "",
    };
    said.push(
        alloc,
        format!(in alloc; "{region}at place {place}: {sentence}")?.as_str(),
    )
}

// Pushes what to write in place of a text, of which this is known, if that is offered.
fn push_offered(
    alloc: Global,
    said: &mut Message,
    known: &KnownText<'_>,
    mending: &Mending,
) -> Result<(), AllocError> {
    match mending {
        Mending::Mended { text, .. } if is_offered(known, text.as_str()) => {
            let text = escaped(alloc, text.as_str(), Escapes::Copied)?;
            let text = text.as_str();
            said.push(alloc, format!(in alloc; "write {text}")?.as_str())
        }
        _ => Ok(()),
    }
}

// Why the job's base is refused. It is checked by itself, so it needs a scheme.
fn said_of_base(alloc: Global, job: &Job, refusal: Refusal) -> Result<Message, AllocError> {
    let (base, profile) = base_of(job);
    let place = refusal.place;
    let mut line = format!(in alloc; "the base is refused at place {place}: ")?;
    match refusal.rule {
        Rule::NoScheme => line.push_str("it has no scheme")?,
        _ => {
            let sentence = sentence_on(alloc, &KnownText::new(base), None, profile, refusal)?;
            line.push_str(sentence.as_str())?;
        }
    }
    Message::of(alloc, line.as_str())
}

// The text of the job's base, and by which profile it is checked.
fn base_of(job: &Job) -> (&str, Profile) {
    let (base, profile) = match job {
        Job::Check { base, profile, .. }
        | Job::Links { base, profile }
        | Job::Mend { base, profile, .. } => (base, *profile),
        Job::Lint(asked) => (&asked.base, asked.profile),
        Job::Filter(asked) | Job::InPlace { asked, .. } => (&asked.base, asked.profile),
        _ => return ("", Profile::Standard),
    };
    (base.as_deref().unwrap_or(""), profile)
}

// The message about a lint: that standard input wasn't read, or the report not written, and what its files look like.
fn said_of_linted(alloc: Global, linted: Linted, seen: Seen) -> Result<Message, AllocError> {
    let mut said = if linted.is_input_unread {
        unread(alloc, INPUT, seen.read)?
    } else {
        Message::nothing(alloc)
    };
    if linted.stopped == Some(StopFault::Write) {
        said.push(alloc, unwritten_line(alloc, seen.written)?.as_str())?;
    }
    if linted.is_document_refused && !linted.is_quiet && !linted.is_stopped() {
        said.push(alloc, Hint::Document.text())?;
    }
    if !linted.is_clean() {
        push_content(alloc, &mut said, INPUT, seen.content, "lint -")?;
    }
    Ok(said)
}

// The message about a filter: that a stream failed, and what its input looks like.
fn said_of_filtered(alloc: Global, filtered: Filtered, seen: Seen) -> Result<Message, AllocError> {
    let mut said = match filtered.stopped {
        Some(StopFault::Read) => unread(alloc, INPUT, seen.read)?,
        Some(StopFault::Write) => unwritten(alloc, seen.written)?,
        _ => Message::nothing(alloc),
    };
    if !filtered.is_clean() {
        push_content(alloc, &mut said, INPUT, seen.content, "mend")?;
    }
    Ok(said)
}

/// The message about a file with this name that a lint has read: that it wasn't read to its end; and if a line of it
/// is refused, what the file looks like, unless it looks like a list of links.
pub(crate) fn said_of_file(
    alloc: Global,
    file: &str,
    counts: LintCounts,
    answer: Result<(), StopFault>,
    seen: Seen,
) -> Result<Message, AllocError> {
    let mut said = match answer {
        Err(StopFault::Read) => said_of_unread(alloc, file, seen.read)?,
        _ => Message::nothing(alloc),
    };
    if counts.refused > 0 {
        push_content(alloc, &mut said, file, seen.content, "lint -")?;
    }
    Ok(said)
}

/// The message about a file that a lint can't read, by the kind of the error, if it is known: why, and a hint.
pub(crate) fn said_of_unread(
    alloc: Global,
    file: &str,
    why: Option<ErrorKind>,
) -> Result<Message, AllocError> {
    let mut said = unread(alloc, file, why)?;
    if let Some(hint) = file_hint(file, why) {
        said.push(alloc, hint.text())?;
    }
    Ok(said)
}

// Pushes what a list with this name looks like, unless it looks like a list of links, for the command that reads it.
fn push_content(
    alloc: Global,
    said: &mut Message,
    name: &str,
    content: Option<Content>,
    reader: &str,
) -> Result<(), AllocError> {
    match content {
        Some(content) => said.push(alloc, content_line(alloc, name, content, reader)?.as_str()),
        None => Ok(()),
    }
}
