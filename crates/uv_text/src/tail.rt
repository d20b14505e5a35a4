//! The rest of a text from a place on.
ghost use Rattle.std.specs.Prelude.{◌≡◌, ◌+◌, ◌^◌, ◌<◌, ◌≤◌, drop, length, take};
ghost use Rattle.std.specs.List.{prefix_len};
ghost use Rattle.std.specs.Str.{IsCharBoundary, IsUtf8};
ghost use Rattle.uv_text.specs.Rows.{HasBitsOf};
ghost use Rattle.uv_text.specs.Splits.{ascii_unit_length, class_has};
ghost use Rattle.uv_text.specs.Tails.{EndsWith};

use crate::lanes::Load;
use crate::units::UnitClass;
use std::marker::Model;

/// The rest of a text from a place on, together with that text, so that a load of its last bytes may begin before the
/// place. Contracts see its bytes.
#[derive(Drop)]
pub struct Tail<'t> {
    whole: &'t str,
    place: usize,
}

impl<'t> Model for Tail<'t> {
    ghost use Rattle.std.specs.Prelude.{ℕ, List, ◌≤◌, drop, length};
    ghost use Rattle.std.specs.Str.{IsUtf8};

    ghost Value = { List ℕ };

    ghost view = { λ t. drop t.place t.whole.now };

    ghost invariant = { λ t. (t.place ≤ length t.whole.now) × IsUtf8 (drop t.place t.whole.now) };
}

impl<'t> Tail<'t> {
    /// The whole of a text.
    #[inline(always)]
    pub fn of(text: &'t str) -> Tail<'t>
        ensures { result ≡ text.now }
    {
        Tail {
            whole: text,
            place: 0,
        }
    }

    /// The text of the tail.
    #[inline(always)]
    pub fn as_str(&self) -> &'t str
        ensures { result.now ≡ self.now }
    {
        &self.whole[self.place..]
    }

    /// The two parts before and after one of its places, in bytes from its start.
    #[inline(always)]
    pub fn split_at(&self, end: usize) -> (&'t str, Tail<'t>)
        requires { IsUtf8 self.now → IsCharBoundary self.now end }
        ensures prefix { result.0.now ≡ take end self.now }
        ensures rest { result.1 ≡ drop end self.now }
    {
        let place = self.place + end;
        let rest = Tail {
            whole: self.whole,
            place,
        };
        (&self.whole[self.place..place], rest)
    }

    // A suffix of it, as a tail of the same text.
    #[inline(always)]
    pub(crate) fn ending(&self, rest: &str) -> Tail<'t>
        requires { EndsWith self.now rest.now }
        ensures { result ≡ rest.now }
    {
        Tail {
            whole: self.whole,
            place: self.whole.len() - rest.len(),
        }
    }

    /// The bytes from a place on, loaded at once.
    #[inline(always)]
    pub fn load(&self, place: usize) -> Load
        requires { place ≤ length self.now }
        ensures bits { HasBitsOf (take 32 (drop place self.now)) result }
        ensures short { length self.now < 2 ^ 64 }
    {
        Load::of(self.whole.as_bytes(), self.place + place)
    }

    // How many bytes at its start are in the class.
    #[inline(always)]
    pub(crate) fn class_run(&self, class: UnitClass) -> usize
        ensures run { result ≡ prefix_len (class_has class) self.now }
        ensures text { IsUtf8 self.now }
    {
        class.run_end(self.whole.as_bytes(), self.place) - self.place
    }

    // How many bytes at its start are in the class or part of percent-encoded bytes.
    pub(crate) fn unit_run(&self, class: UnitClass) -> usize
        ensures run { result ≡ ascii_unit_length (class_has class) self.now }
        ensures text { IsUtf8 self.now }
    {
        class.unit_end(self.whole.as_bytes(), self.place) - self.place
    }
}
