//! The program `urlcheck` over a runtime: its arguments, its streams and its exit status.
ghost use Rattle.std.specs.Prelude.{◌≡◌, ◌-◌, ◌^◌, ◌<◌, MatchResult, OnErr, false};
ghost use Rattle.std.specs.IoError.{error_kind};
ghost use Rattle.std.specs.Io.KnownBytes.{Keeps};
ghost use Rattle.uv_arguments.specs.Requests.{reason_of};
ghost use Rattle.uv_cli.specs.Calls.{is_closed_by};
ghost use Rattle.uv_cli.specs.Ends.{status_of};
ghost use Rattle.uv_cli.specs.Flushed.{ended_after, open_end};
ghost use Rattle.uv_cli.specs.Jobs.{IsKeptOf};
ghost use Rattle.uv_cli.specs.Program.{HasAnswered, HasEndedJob, HasFile, HasRun, HasRunOver, HasShown, IsStatus};
ghost use Rattle.uv_cli.specs.Stream.{stream};

use crate::check::RefusedText;
use crate::colours::decided;
use crate::ends::{
    End, end_after_output, end_without_file, end_without_job, fixed_line, numbered_line, status,
};
use crate::fault::CliFault;
use crate::jobs::{Done, run_job};
use crate::said::{Seen, said_at_end};
use crate::vector_file::{FileFault, read_vector_file};
use crate::watched_streams::{WatchedReader, WatchedWriter};
use std::alloc::AllocError;
use std::fs::Files;
use std::io::{ErrorKind, Read, Write};
use std::rt::Env;
use std::{fs, io};
use uv_arguments::arguments::{OwnArguments, refused, words_of};
use uv_arguments::{Job, Reason, WordsFault, read_words};
use uv_io::{FromReader, Source, ToWriter};
use uv_messages::messages::{Message, say};
use uv_messages::refused_words::refused_words;
use uv_messages::unread::{unread, unwritten};

// The message about arguments that are taken one by one, but that ask for nothing.
const NO_JOB: &str = "--wide is short for --profile wide: only one of them may be given";

/// How the program ends, and whether the reader of its output has gone: then the end isn't reported.
#[derive(Clone, Copy)]
pub struct Ended {
    /// The end.
    pub end: End,
    /// Whether the reader of the output has gone.
    pub is_closed: bool,
}

/// Which of the program's streams go to a terminal, where people read them.
#[derive(Clone, Copy)]
pub struct Terminals {
    /// Whether standard output does.
    pub output: bool,
    /// Whether standard error does.
    pub errors: bool,
}

/// Runs the program on the arguments of the runtime, and gives its exit status.
pub fn run<R: Env + Files + Input + Print + Eprint + AllocGlobal>(
    rt: &R,
    terminals: Terminals,
) -> u8 {
    match outcome(rt, terminals) {
        Ok(
            Ended {
                end,
                is_closed: true,
            },
        ) => status(end),
        Ok(ended) => end_with(rt, ended.end),
        Err(AllocError) => end_with(rt, End::Fault(CliFault::Memory)),
    }
}

// Reads the arguments and does what they ask for. An error means that there was no memory for the arguments.
fn outcome<R: Env + Files + Input + Print + Eprint + AllocGlobal>(
    rt: &R,
    terminals: Terminals,
) -> Result<Ended, AllocError> {
    let words = words_of(rt.alloc(), &OwnArguments::new(rt))?;
    let texts: Vec<&str> = words.iter().map(|word| word.as_str()).collect(rt.alloc())?;
    let mut asked = read_words(rt.alloc(), texts.as_slice());
    if let Ok(Some(Job::Lint(lint))) = &mut asked {
        lint.colours = decided(rt, lint.colours, terminals.output);
    }
    let job = match &asked {
        Ok(job) => job.as_ref(),
        Err(_) => None,
    };
    if let Some(said) = refused(words.as_slice(), job) {
        return Ok(refusal(rt, said));
    }
    Ok(answered(rt, texts.as_slice(), &asked, terminals))
}

// Does what these arguments ask for, or says why there is nothing to do.
fn answered<R: Env + Files + Input + Print + Eprint + AllocGlobal>(
    rt: &R,
    words: &[&str],
    asked: &Result<Option<Job>, WordsFault>,
    terminals: Terminals,
) -> Ended
    ensures { HasAnswered asked.now result }
{
    match asked {
        Ok(Some(job)) => done(rt, job, terminals),
        Ok(None) => refusal(rt, NO_JOB),
        Err(fault) => shown(rt, words, fault),
    }
}

// Says why the arguments are refused.
fn refusal<R: Eprint + AllocGlobal>(rt: &R, why: &str) -> Ended
    ensures { result ≡ open_end End.Words }
{
    say(rt, Message::of(rt.alloc(), why));
    open(End::Words)
}

// An end while the output is still read.
fn open(end: End) -> Ended
    ensures { result ≡ open_end end }
{
    Ended {
        end,
        is_closed: false,
    }
}

// Does a job over the runtime's streams.
fn done<R: Env + Files + Input + Print + Eprint + AllocGlobal>(
    rt: &R,
    job: &Job,
    terminals: Terminals,
) -> Ended
    ensures { HasEndedJob job.now result }
{
    let file = match file_of(rt, job) {
        Ok(file) => file,
        Err(fault) => return open(end_without_file(fault)),
    };
    done_into(
        rt,
        job,
        file.as_slice(),
        rt.reader(),
        io::writer(rt),
        terminals,
    )
}

// Does a job over a reader and a writer, and prints what is to be said about its end. (The two hold their buffers, which
// a call would copy.)
#[inline(always)]
fn done_into<R: Files + Eprint + AllocGlobal, I: Read + Drop, W: Write + Drop>(
    rt: &R,
    job: &Job,
    file: &[u8],
    reader: I,
    out: W,
    terminals: Terminals,
) -> Ended
    ensures { HasRunOver job.now file.now (I.remaining reader) (W.contents out) result }
{
    let mut input = FromReader::new(WatchedReader::new(reader));
    let (ended, refused, out) = done_over(rt, job, file, &mut input, out);
    if !ended.is_closed {
        let reader = input.into_reader();
        let seen = Seen {
            read: reader.fault(),
            written: out.fault(),
            content: reader.content(),
        };
        say(
            rt,
            said_at_end(
                rt.alloc(),
                job,
                ended.end,
                refused.as_ref(),
                seen,
                terminals.errors,
            ),
        );
    }
    ended
}

// Does a job over an input and a writer, which is flushed after the last write, and given back, with what is kept of a
// refused text.
fn done_over<R: Files + Eprint + AllocGlobal, I: Source, W: Write + Drop>(
    rt: &R,
    job: &Job,
    file: &[u8],
    input: &mut I,
    writer: W,
) -> (Ended, Option<RefusedText>, WatchedWriter<W>)
    requires { I.failed input.old < 2 ^ 64 - 1 }
    ensures run { HasRun job.now file.now result.0
        (stream (I.remaining input.old) (I.failed input.old)) (stream (I.remaining input.new) (I.failed input.new))
        (W.contents writer) (W.contents result.2.writer) result.2.is_flushed result.2.fault }
    ensures kept { IsKeptOf job.now result.1 }
{
    let mut out = ToWriter::new(WatchedWriter::new(writer));
    let Done { end, refused } = run_job(rt, job, file, input, &mut out);
    let mut out = out.into_writer();
    let ended = finished(end, &mut out);
    (ended, refused, out)
}

// The bytes of the job's file, or none if it has no file. If a file isn't read, the reason is reported.
fn file_of<R: Files + Eprint + AllocGlobal>(rt: &R, job: &Job) -> Result<Vec<u8>, FileFault>
    ensures { OnErr result (HasFile job.now) }
{
    let Job::Vectors { file } = job else {
        return Ok(Vec::new(rt.alloc()));
    };
    let read = read_vector_file(rt, file.as_str());
    if let Err(FileFault::Unread(why)) = &read {
        say(rt, unread(rt.alloc(), file.as_str(), Some(*why)));
    }
    read
}

/// The end once the output is flushed. If that failed, it is the end of a failed write.
pub fn finished<W: Write>(end: End, out: &mut WatchedWriter<W>) -> Ended
    ensures ended { result ≡ ended_after end out.new.is_flushed out.new.fault }
    ensures bytes { Keeps (W.contents out.old.writer) (W.contents out.new.writer) }
{
    let is_out = out.flush().is_ok();
    Ended {
        end: end_after_output(end, is_out),
        is_closed: is_closed_by(out.fault()),
    }
}

// Whether the reader of the output has gone, by the kind of the last error.
fn is_closed_by(fault: Option<ErrorKind>) -> bool
    ensures { result ≡ is_closed_by fault }
{
    matches!(fault, Some(ErrorKind::BrokenPipe))
}

// Shows what the reader of these arguments says: help on standard output, a refusal on standard error.
fn shown<R: Files + Print + Eprint + AllocGlobal>(
    rt: &R,
    words: &[&str],
    fault: &WordsFault,
) -> Ended
    ensures { HasShown (reason_of fault.now) result }
{
    let reason = fault.reason();
    let end = end_without_job(reason);
    match reason {
        Reason::Memory => {}
        Reason::Shown => return printed(rt, end, fault.print(rt)),
        Reason::NoWords => {
            let _ = fault.print(rt);
        }
        _ => {
            let is_folder = reason == Reason::NoCommand && names_folder(rt, words);
            say(rt, refused_words(rt.alloc(), words, fault, is_folder));
        }
    }
    open(end)
}

// Whether the first word after the program's name is the name of a folder.
fn names_folder<R: Files>(rt: &R, words: &[&str]) -> bool {
    match words {
        [_, word, ..] => matches!(fs::metadata(rt, *word), Ok(data) if data.is_dir()),
        _ => false,
    }
}

// The end once help is printed. If that failed, it is the end of a failed write.
fn printed<R: Eprint + AllocGlobal>(rt: &R, end: End, answer: io::Result<()>) -> Ended
    ensures { MatchResult answer (λ done. result ≡ open_end end)
        (λ error. result ≡ ended_after end false (Some (error_kind error))) }
{
    match answer {
        Ok(()) => open(end),
        Err(error) => {
            let kind = Some(error.kind());
            let ended = Ended {
                end: end_after_output(end, false),
                is_closed: is_closed_by(kind),
            };
            if !ended.is_closed {
                say(rt, unwritten(rt.alloc(), kind));
            }
            ended
        }
    }
}

// Says on standard error how the program ends, and gives the exit status. A failed write there has nowhere to be
// reported.
fn end_with<R: Eprint + AllocGlobal>(rt: &R, end: End) -> u8
    ensures { IsStatus end result }
{
    match fixed_line(end) {
        Some(line) => {
            let _ = rt.eprint(line);
            status(end)
        }
        None => said(rt, end, numbered_line(rt.alloc(), end)),
    }
}

// Says the last line, or that there was no memory for it, and gives the exit status, which follows from the end or says
// that there was no memory.
fn said<R: Eprint>(rt: &R, end: End, line: Result<String, AllocError>) -> u8
    ensures { MatchResult line (λ text. result ≡ status_of end)
        (λ fault. result ≡ status_of (End.Fault CliFault.Memory)) }
{
    match line {
        Ok(line) => {
            let _ = rt.eprint(line.as_str());
            status(end)
        }
        Err(AllocError) => {
            let _ = rt.eprintln("memory");
            status(End::Fault(CliFault::Memory))
        }
    }
}
