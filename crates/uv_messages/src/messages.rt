//! The message on standard error before the last line.
ghost use Rattle.std.specs.Prelude.{◌≡◌, IfOk, [], string_bytes};
ghost use Rattle.uv_messages.specs.Messages.{IsSaid, message_line};

use std::alloc::{AllocError, Global};
use std::marker::Model;
use uv_shown::push_shown;

/// Lines that begin with the program's name, and contain nothing that controls a terminal; or nothing.
#[derive(Drop)]
pub struct Message {
    text: String,
}

impl Model for Message {
    ghost use Rattle.std.specs.Prelude.{ℕ, List, string_bytes};
    ghost use Rattle.uv_messages.specs.Messages.{IsSaid};

    ghost Value = { List ℕ };

    ghost view = { λ m. string_bytes m.text };

    ghost invariant = { λ m. IsSaid (string_bytes m.text) };
}

impl Message {
    /// Nothing.
    pub fn nothing(alloc: Global) -> Message
        ensures { result ≡ [] }
    {
        Message {
            text: String::new(alloc),
        }
    }

    /// One line, after the program's name and as a terminal may show it.
    pub fn of(alloc: Global, line: &str) -> Result<Message, AllocError> {
        let mut message = Message::nothing(alloc);
        message.push(alloc, line)?;
        Ok(message)
    }

    /// One more line.
    pub fn push(&mut self, alloc: Global, line: &str) -> Result<(), AllocError> {
        let line = line_text(alloc, line)?;
        self.text.push_str(line.as_str())?;
        Ok(())
    }

    /// The lines, each with its end.
    pub fn as_str(&self) -> &str
        ensures text { result.now ≡ self.now }
        ensures said { IsSaid self.now }
    {
        self.text.as_str()
    }
}

// The text of a line.
fn line_text(alloc: Global, line: &str) -> Result<String, AllocError>
    ensures { IfOk result (λ text. string_bytes text ≡ message_line line.now) }
{
    let mut text = String::from_str(alloc, "urlcheck: ")?;
    push_shown(&mut text, line)?;
    text.push_str("\n")?;
    Ok(text)
}

/// Writes a message to standard error, or that there was no memory for it. If that write fails, there is nowhere to
/// report it.
pub fn say<R: Eprint>(rt: &R, message: Result<Message, AllocError>) {
    match message {
        Ok(message) => {
            let _ = rt.eprint(message.as_str());
        }
        Err(AllocError) => {
            let _ = rt.eprintln("memory");
        }
    }
}
