//! A sink that plays a list of answers, to try a run over: each write can be made short or made to fail.
ghost use Rattle.std.specs.Prelude.{◌≡◌, [], IfOk};
ghost use Rattle.scripted_streams.specs.Script.{write_answers};

use std::alloc::{AllocError, Global};
use std::marker::Model;
use uv_io::{DeviceFault, Sink};

/// A sink that plays a list of answers: how many bytes it takes, and failures, and then it fails. It takes no more
/// bytes than it has room for. Contracts see the bytes that it holds, its room for more, the answers to come, and how
/// many writes have failed.
#[derive(Drop)]
pub struct ScriptSink<'a> {
    bytes: Vec<u8>,
    answers: &'a [Result<usize, DeviceFault>],
    failures: u64,
}

impl<'a> Model for ScriptSink<'a> {
    ghost use Rattle.std.specs.Prelude.{◌-◌, vec_capacity, vec_len};
    ghost use Rattle.scripted_streams.specs.Script.{SinkScript, write_answers};

    ghost Value = { SinkScript };

    ghost view = { λ s. record {
      bytes = s.bytes.items;
      room = vec_capacity s.bytes - vec_len s.bytes;
      answers = write_answers s.answers.now;
      failures = s.failures;
    } };
}

impl<'a> ScriptSink<'a> {
    /// The sink that plays these answers and takes up to `room` bytes, whose memory it takes now. An error means that
    /// memory ran out.
    pub fn new(
        alloc: Global,
        room: usize,
        answers: &'a [Result<usize, DeviceFault>],
    ) -> Result<ScriptSink<'a>, AllocError>
        ensures { IfOk result (λ sink. sink ≡ record {
          bytes = [];
          room = room;
          answers = write_answers answers.now;
          failures = 0;
        }) }
    {
        let bytes = Vec::with_capacity(alloc, room)?;
        Ok(ScriptSink {
            bytes,
            answers,
            failures: 0,
        })
    }

    /// The bytes that it has taken.
    pub fn bytes(&self) -> &[u8]
        ensures { result.now ≡ self.now.bytes }
    {
        self.bytes.as_slice()
    }
}

impl Sink for ScriptSink<'_> {
    ghost use Rattle.std.specs.Prelude.{◌≡◌, ◌+◌, ◌-◌, ◌^◌, ◌<◌, Some, length};
    ghost use Rattle.std.specs.Io.{WritesAtMost};
    ghost use Rattle.std.specs.Io.KnownBytes.{WriteAppends};
    ghost use Rattle.uv_io.specs.Stream.{write_failures};
    ghost use Rattle.scripted_streams.specs.Script.{PlaysWrite};

    ghost contents = { λ s. Some s.bytes };

    ghost failed = { λ s. s.failures };

    /// Answers as the list says: takes as many bytes of the piece as the answer allows, the piece has and there is room
    /// for.
    fn write(&mut self, from: &[u8]) -> Result<usize, DeviceFault>
        requires { self.old.failures < 2 ^ 64 - 1 }
        ensures plays { PlaysWrite self.old.answers self.old.room (length from.now) result self.new.answers }
        ensures bound { WritesAtMost result from.now }
        ensures bytes { WriteAppends (Some self.old.bytes) (Some self.new.bytes) result from.now }
        ensures count { self.new.failures ≡ self.old.failures + write_failures result from.now }
    {
        let [answer, answers @ ..] = self.answers else {
            self.failures += 1;
            return Err(DeviceFault);
        };
        self.answers = answers;
        let Ok(count) = *answer else {
            self.failures += 1;
            return Err(DeviceFault);
        };
        let room = self.bytes.capacity() - self.bytes.len();
        let taken = count.min(from.len().min(room));
        if self.bytes.extend_from_slice(&from[..taken]).is_err()
            || (taken == 0 && !from.is_empty())
        {
            self.failures += 1;
        }
        Ok(taken)
    }

    fn failures(&self) -> u64 {
        self.failures
    }
}
