//! A source that plays a list of answers, to try a run over: each read can be made short or made to fail.
ghost use Rattle.std.specs.Prelude.{◌≡◌, IfSome, is_some, not};
ghost use Rattle.std.specs.List.{list_any};
ghost use Rattle.scripted_streams.specs.Script as spec;
ghost use Rattle.scripted_streams.specs.Script.{read_answers};

use std::marker::Model;
use uv_io::{DeviceFault, Source};

/// A source that plays a list of answers: pieces of bytes and failures, and then its end. Contracts see the answers to
/// come, what is left of a begun piece first, and how many reads have failed.
#[derive(Drop)]
pub struct ScriptSource<'a> {
    begun: &'a [u8],
    answers: &'a [Result<&'a [u8], DeviceFault>],
    failures: u64,
}

impl<'a> Model for ScriptSource<'a> {
    ghost use Rattle.std.specs.Prelude.{◌≡◌, false};
    ghost use Rattle.std.specs.List.{list_any};
    ghost use Rattle.scripted_streams.specs.Script.{SourceScript, after, is_empty_piece, read_answers};

    ghost Value = { SourceScript };

    ghost view = { λ s. record {
      answers = after s.begun.now (read_answers s.answers.now);
      failures = s.failures;
    } };

    ghost invariant = { λ s. list_any is_empty_piece s.answers.now ≡ false };
}

impl<'a> ScriptSource<'a> {
    /// The source that plays these answers, or none if a piece of them is empty: that would be the end.
    pub fn new(answers: &'a [Result<&'a [u8], DeviceFault>]) -> Option<ScriptSource<'a>>
        ensures taken { is_some result ≡ not (list_any spec.is_empty_piece answers.now) }
        ensures value { IfSome result (λ source. source ≡ record {
          answers = read_answers answers.now;
          failures = 0;
        }) }
    {
        if has_empty_piece(answers) {
            return None;
        }
        Some(ScriptSource {
            begun: &[],
            answers,
            failures: 0,
        })
    }
}

// Whether one of the answers is an empty piece.
fn has_empty_piece(answers: &[Result<&[u8], DeviceFault>]) -> bool
    ensures { result ≡ list_any spec.is_empty_piece answers.now }
{
    answers.iter().any(|answer| is_empty_piece(answer))
}

// Whether the answer is an empty piece.
fn is_empty_piece(answer: &Result<&[u8], DeviceFault>) -> bool
    ensures { result ≡ spec.is_empty_piece answer.now }
{
    match answer {
        Ok(piece) => piece.is_empty(),
        Err(DeviceFault) => false,
    }
}

impl Source for ScriptSource<'_> {
    ghost use Rattle.std.specs.Prelude.{◌≡◌, ◌+◌, ◌-◌, ◌^◌, ◌<◌, Some, length};
    ghost use Rattle.std.specs.Io.{ReadsAtMost};
    ghost use Rattle.std.specs.Io.KnownBytes.{ReadConsumes};
    ghost use Rattle.uv_io.specs.Stream.{read_failures};
    ghost use Rattle.scripted_streams.specs.Script.{PlaysRead, given};

    ghost remaining = { λ s. Some (given s.answers) };

    ghost failed = { λ s. s.failures };

    /// Answers as the list says. If a piece is longer than the room, its rest comes at the next read.
    fn read(&mut self, into: &mut [u8]) -> Result<usize, DeviceFault>
        requires { self.old.failures < 2 ^ 64 - 1 }
        ensures plays { PlaysRead self.old.answers (length into.old) result self.new.answers }
        ensures bound { ReadsAtMost result into.new }
        ensures bytes { ReadConsumes (Some (given self.old.answers)) (Some (given self.new.answers)) result into.new }
        ensures count { self.new.failures ≡ self.old.failures + read_failures result }
    {
        if self.begun.is_empty() {
            match self.answers {
                [] => return Ok(0),
                [Err(DeviceFault), answers @ ..] => {
                    self.answers = answers;
                    self.failures += 1;
                    return Err(DeviceFault);
                }
                [Ok(piece), answers @ ..] => {
                    self.answers = answers;
                    self.begun = *piece;
                }
            }
        }
        let count = self.begun.len().min(into.len());
        let (prefix, rest) = self.begun.split_at(count);
        into[..count].copy_from_slice(prefix);
        self.begun = rest;
        Ok(count)
    }

    fn failures(&self) -> u64 {
        self.failures
    }
}
