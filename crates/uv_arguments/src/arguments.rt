//! The arguments of the process.
ghost use Rattle.std.specs.Option.{option_map_or};
ghost use Rattle.std.specs.Prelude.{◌≡◌, ℕ, List, [], Option, IfOk, map, option_copied, option_map, string_bytes};
ghost use Rattle.std.specs.Io.{WritesAtMost};
ghost use Rattle.uv_arguments.specs.Arguments.{AreWords, Fills, IsWord, IsWordAt, count_marked, files_of, first_said};
ghost use Rattle.uv_arguments.specs.Arguments.{has_hyphen, mark_text, refused, said_of, without_hyphen};

use crate::jobs::Job;
use std::alloc::{AllocError, Global};
use std::env::FillError;
use std::rt::Env;
use std::str::from_utf8;

// The end of the text that stands for an argument which isn't UTF-8. No argument of a process can contain it.
const MARK: char = '\0';

// How many bytes of an argument are read at first.
const ROOM: usize = 256;

/// The source of the arguments of a process, each by its number. The first is the program's name.
pub trait Arguments {
    // The argument with a number may be these bytes, or not be there.
    ghost gives: { Self → ℕ → Option (List ℕ) → Type 0 };

    /// Puts an argument at the start of the room, and says how many bytes it has.
    fn argument(&self, number: usize, room: &mut [u8]) -> Result<usize, FillError>
        ensures bound { WritesAtMost result room.new }
        ensures fills { Fills (gives self.now number) result room.new };
}

/// The arguments of this process, as the runtime gives them.
#[derive(Drop)]
pub struct OwnArguments<'a, R> {
    rt: &'a R,
}

impl<'a, R: Env> OwnArguments<'a, R> {
    /// The arguments that this runtime gives.
    pub fn new(rt: &'a R) -> OwnArguments<'a, R> {
        OwnArguments { rt }
    }
}

impl<R: Env> Arguments for OwnArguments<'_, R> {
    // The library doesn't say what the system gives.
    ghost gives = { λ own number argument. Unit {0} };

    fn argument(&self, number: usize, room: &mut [u8]) -> Result<usize, FillError> {
        self.rt.arg(number, room)
    }
}

/// The words of all arguments, in order. In place of an argument that isn't UTF-8 comes a text that says so, by its
/// number, and ends with a NUL: it can't be a file's name.
pub fn words_of<A: Arguments>(alloc: Global, arguments: &A) -> Result<Vec<String>, AllocError>
    ensures { IfOk result (λ words. AreWords (A.gives arguments.now) (map string_bytes words.items)) }
{
    let mut words = Vec::new(alloc);
    let mut room = vec![in alloc; 0u8; ROOM]?;
    for number in 0..usize::MAX {
        match read_word(alloc, arguments, number, &mut room)? {
            Some(word) => words.push(word)?,
            None => return Ok(words),
        }
    }
    Err(AllocError)
}

// Reads the word of the argument with a number, if there is one, into a room that grows until it suffices.
fn read_word<A: Arguments>(
    alloc: Global,
    arguments: &A,
    number: usize,
    room: &mut Vec<u8>,
) -> Result<Option<String>, AllocError>
    ensures { IfOk result (λ word.
        IsWordAt (A.gives arguments.now number) number (option_map string_bytes word)) }
{
    for _ in 0..usize::BITS {
        match arguments.argument(number, room.as_mut_slice()) {
            Ok(count) => {
                let argument = &room.as_slice()[..count];
                return Ok(Some(word_of(alloc, number, argument)?));
            }
            Err(FillError::NotPresent) => return Ok(None),
            Err(FillError::TooLong) => {
                let length = room.len().saturating_mul(2);
                room.resize(length, 0)?;
            }
        }
    }
    Err(AllocError)
}

// The word of an argument.
fn word_of(alloc: Global, number: usize, argument: &[u8]) -> Result<String, AllocError>
    ensures { IfOk result (λ word. IsWord number argument.now (string_bytes word)) }
{
    match from_utf8(argument) {
        Ok(text) => text.to_string(alloc),
        Err(_) => mark(alloc, number, has_hyphen(argument)),
    }
}

// Whether a text begins with a hyphen.
fn has_hyphen(argument: &[u8]) -> bool
    ensures { result ≡ has_hyphen argument.now }
{
    match argument {
        [first, ..] => *first == b'-',
        [] => false,
    }
}

// What stands for an argument that isn't UTF-8.
#[tactic(auto, unfolding(crate::specs::Arguments::mark_text))]
fn mark(alloc: Global, number: usize, hyphen: bool) -> Result<String, AllocError>
    ensures { IfOk result (λ mark. string_bytes mark ≡ mark_text number hyphen) }
{
    if hyphen {
        format!(in alloc; "-argument {number} isn't UTF-8\0")
    } else {
        format!(in alloc; "argument {number} isn't UTF-8\0")
    }
}

/// The message about an argument that isn't UTF-8, by the text that stands for it; nothing for any other text.
pub fn said_of(text: &str) -> Option<&str>
    ensures { option_copied result ≡ said_of text.now }
{
    match text.split_once(MARK) {
        Some((said, _)) => Some(without_hyphen(said)),
        None => None,
    }
}

/// A text without the hyphen that it begins with, if it does.
pub fn without_hyphen(text: &str) -> &str
    ensures { result.now ≡ without_hyphen text.now }
{
    match text.strip_prefix('-') {
        Some(rest) => rest,
        None => text,
    }
}

/// The message about the first argument that isn't UTF-8, unless each such argument is a file of a lint, or one that is
/// mended in its place: the command goes on without it.
pub fn refused<'a>(texts: &'a [String], job: Option<&Job>) -> Option<&'a str>
    ensures { option_copied result
        ≡ refused (map string_bytes texts.now) (option_map_or files_of (option_copied job.entry) []) }
{
    if count_of_files(job) == count(texts) {
        return None;
    }
    first_said(texts)
}

// How many files of a lint, or files that are mended in their place, stand for an argument that isn't UTF-8.
fn count_of_files(job: Option<&Job>) -> usize
    ensures { result ≡ count_marked (option_map_or files_of (option_copied job.entry) []) }
{
    match job {
        Some(Job::Lint(asked)) => count(asked.files.as_slice()),
        Some(Job::InPlace { files, .. }) => count(files.as_slice()),
        _ => 0,
    }
}

// The message about the first of the texts that stands for an argument that isn't UTF-8.
fn first_said(texts: &[String]) -> Option<&str>
    ensures { option_copied result ≡ first_said (map string_bytes texts.now) }
{
    for text in texts {
        let said = said_of(text.as_str());
        if said.is_some() {
            return said;
        }
    }
    None
}

// How many of the texts stand for an argument that isn't UTF-8.
fn count(texts: &[String]) -> usize
    ensures { result ≡ count_marked (map string_bytes texts.now) }
{
    let mut count = 0usize;
    for text in texts {
        if said_of(text.as_str()).is_some() {
            count += 1;
        }
    }
    count
}
