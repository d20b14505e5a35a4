//! Texts of JSON, written piece by piece.
ghost use Rattle.json.specs.Print.{print};
ghost use Rattle.json.specs.Token as token;
ghost use Rattle.std.specs.Prelude.{◌≡◌, ◌∷◌, ◌++◌, [], IfOk, OnOk, decimal, flat_map, string_bytes};
ghost use Rattle.uv_report.specs.Pieces.{piece_tokens};

use json::Writer;
use std::alloc::{AllocError, Global};
use std::marker::Model;
use std::str::from_utf8_unchecked;

/// A piece of a text of JSON: a member of an object, or where an object or an array begins or ends.
#[derive(Clone, Copy)]
pub(crate) enum Piece<'t> {
    /// The beginning of an object that isn't a member.
    Begin,
    /// The end of an object.
    End,
    /// The end of an array.
    EndArray,
    /// The beginning of a member of this name whose value is an object.
    Object(&'t str),
    /// The beginning of a member of this name whose value is an array.
    Array(&'t str),
    /// A member of this name whose value is a text.
    Text(&'t str, &'t str),
    /// A member of this name whose value is a number.
    Number(&'t str, u64),
    /// A member of this name whose value is true or false.
    Boolean(&'t str, bool),
    /// A member of this name whose value is an object with one member, which has this name and is this text.
    ObjectOf(&'t str, &'t str, &'t str),
}

/// A text of JSON, written by its tokens. What comes between two tokens follows from them.
#[derive(Drop)]
pub(crate) struct JsonText {
    writer: Writer,
}

impl Model for JsonText {
    ghost use Rattle.json.specs.Token.{Token, tokens_code};
    ghost use Rattle.std.specs.Prelude.{◌≡◌, [], List};

    ghost Value = { List Token };

    ghost coded = { tokens_code };

    ghost view = { λ s. s.writer.tokens };

    ghost invariant = { λ s. s.writer.before ≡ [] };
}

impl JsonText {
    /// A text without tokens, with room for the tokens of most diagnostics.
    pub(crate) fn new(alloc: Global) -> Result<JsonText, AllocError>
        ensures { IfOk result (λ json. json ≡ []) }
    {
        let room = Vec::with_capacity(alloc, 1_000)?;
        Ok(JsonText {
            writer: Writer::new(room),
        })
    }

    /// Pushes the text.
    pub(crate) fn push_to(self, text: &mut String) -> Result<(), AllocError>
        ensures { OnOk result (string_bytes text.new ≡ string_bytes text.old ++ print self) }
    {
        let JsonText { writer } = self;
        let bytes = writer.into_inner();
        text.push_str(unsafe { from_utf8_unchecked(bytes.as_slice()) })
    }

    /// Writes a text.
    pub(crate) fn string(&mut self, value: &str) -> Result<(), AllocError>
        ensures { OnOk result (self.new ≡ self.old ++ token.string value.now ∷ []) }
    {
        self.writer.string(value)
    }

    /// Writes pieces, one after the other.
    pub(crate) fn write(&mut self, pieces: &[Piece<'_>]) -> Result<(), AllocError>
        ensures { OnOk result (self.new ≡ self.old ++ flat_map piece_tokens pieces.now) }
    {
        for piece in pieces {
            self.write_piece(*piece)?;
        }
        Ok(())
    }

    // Writes a piece.
    fn write_piece(&mut self, piece: Piece<'_>) -> Result<(), AllocError>
        ensures { OnOk result (self.new ≡ self.old ++ piece_tokens piece.entry) }
    {
        match piece {
            Piece::Begin => self.writer.begin_object(),
            Piece::End => self.writer.end_object(),
            Piece::EndArray => self.writer.end_array(),
            Piece::Object(name) => self.begin_object(name),
            Piece::Array(name) => self.begin_array(name),
            Piece::Text(name, value) => self.text(name, value),
            Piece::Number(name, value) => self.number(name, value),
            Piece::Boolean(name, value) => self.boolean(name, value),
            Piece::ObjectOf(name, inner, value) => self.object_of(name, inner, value),
        }
    }

    // Begins a member whose value is an object.
    fn begin_object(&mut self, name: &str) -> Result<(), AllocError>
        ensures { OnOk result (self.new ≡ self.old ++ token.key name.now ∷ token.begin_object ∷ []) }
    {
        self.writer.key(name)?;
        self.writer.begin_object()
    }

    // Begins a member whose value is an array.
    fn begin_array(&mut self, name: &str) -> Result<(), AllocError>
        ensures { OnOk result (self.new ≡ self.old ++ token.key name.now ∷ token.begin_array ∷ []) }
    {
        self.writer.key(name)?;
        self.writer.begin_array()
    }

    /// Writes a member whose value is a text.
    pub(crate) fn text(&mut self, name: &str, value: &str) -> Result<(), AllocError>
        ensures { OnOk result (self.new ≡ self.old ++ token.key name.now ∷ token.string value.now ∷ []) }
    {
        self.writer.key(name)?;
        self.writer.string(value)
    }

    // Writes a member whose value is a number.
    fn number(&mut self, name: &str, value: u64) -> Result<(), AllocError>
        ensures { OnOk result (self.new ≡ self.old ++ token.key name.now ∷ token.number (decimal value) ∷ []) }
    {
        self.writer.key(name)?;
        self.writer.u64(value)
    }

    // Writes a member whose value is true or false.
    fn boolean(&mut self, name: &str, value: bool) -> Result<(), AllocError>
        ensures { OnOk result (self.new ≡ self.old ++ token.key name.now ∷ token.boolean value ∷ []) }
    {
        self.writer.key(name)?;
        self.writer.boolean(value)
    }

    /// Writes a member whose value is an object with one text.
    pub(crate) fn object_of(
        &mut self,
        name: &str,
        inner: &str,
        value: &str,
    ) -> Result<(), AllocError>
        ensures { OnOk result (self.new ≡ self.old ++ token.key name.now ∷ token.begin_object
            ∷ token.key inner.now ∷ token.string value.now ∷ token.end_object ∷ []) }
    {
        self.begin_object(name)?;
        self.text(inner, value)?;
        self.writer.end_object()
    }
}
