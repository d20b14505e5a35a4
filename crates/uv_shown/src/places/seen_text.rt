//! A text in which places are reported, with what is already known about it: places in ascending order are found in one
//! pass over it.
ghost use Rattle.std.specs.Prelude.{◌≡◌, ◌≤◌, ℕ, List, drop, slice_get};
ghost use Rattle.std.specs.Str.{chars};
ghost use Rattle.uv_shown.specs.Places.SeenText.{IsKnown, IsSpot};
ghost use Rattle.uv_shown.specs.Places.Window as shown;

use crate::places::window::{is_longer, rest_in};
use std::marker::Model;
use uv_model::first_code_point;

// A place of a text, and what comes from there on.
#[derive(Clone, Copy)]
struct Spot<'t> {
    place: usize,
    rest: &'t str,
}

// What doesn't depend on the place in a text.
#[derive(Clone, Copy)]
struct Known {
    is_longer_than_window: bool,
    is_cut: bool,
}

/// A text in which places are reported. It goes on from the place that it was last led to, so that places in ascending
/// order are found in one pass over the text, and what is the same at each of them is found once.
#[derive(Drop)]
pub struct SeenText<'t> {
    text: &'t str,
    last: Spot<'t>,
    // The beginning of what is shown of a long text, for the last place.
    window: Spot<'t>,
    known: Option<Known>,
}

impl<'t> Model for SeenText<'t> {
    ghost use Rattle.std.specs.Prelude.{ℕ, List};
    ghost use Rattle.uv_shown.specs.Places.SeenText.{Sees};

    ghost Value = { List ℕ };

    ghost view = { λ s. s.text.now };

    ghost invariant = { λ s. Sees s.text.now s.last s.window s.known };
}

impl<'t> SeenText<'t> {
    /// A text in which one place is reported: nothing is looked for yet, and nothing is kept.
    pub fn new(text: &'t str) -> SeenText<'t>
        ensures { result ≡ text.entry.now }
    {
        SeenText {
            text,
            last: first_spot(text),
            window: first_spot(text),
            known: None,
        }
    }

    /// A text in which several places are reported. What doesn't depend on the place is found here, once for all.
    pub fn of_several(text: &'t str) -> SeenText<'t>
        ensures { result ≡ text.entry.now }
    {
        SeenText {
            text,
            last: first_spot(text),
            window: first_spot(text),
            known: Some(known_of(text)),
        }
    }

    /// Goes on to a place, if several are reported. The next one is found from there.
    pub fn go_to(&mut self, place: usize)
        ensures { self.new ≡ self.old }
    {
        if self.known.is_some() {
            let start = place.saturating_sub(99);
            self.window = spot_at(start, self.rest_at(start));
            self.last = spot_at(place, self.rest_at(place));
        }
    }

    /// The text.
    pub fn as_str(&self) -> &'t str
        ensures { result.now ≡ self.now }
    {
        self.text
    }

    /// What comes from a place of the text on: nothing if it has no such place.
    pub fn rest_at(&self, place: usize) -> &'t str
        ensures { chars result.now ≡ drop place (chars self.now) }
    {
        if self.last.place <= place {
            return rest_after(self.last, place);
        }
        if self.window.place <= place {
            return rest_after(self.window, place);
        }
        rest_in(self.text, place)
    }

    /// The code point at a place of the text.
    pub fn point_at(&self, place: usize) -> Option<char>
        ensures { result ≡ slice_get (chars self.now) place }
    {
        match first_code_point(self.rest_at(place)) {
            Some((c, _)) => Some(c),
            None => None,
        }
    }

    /// Whether the text has more code points than are shown of it.
    pub fn is_longer_than_window(&self) -> bool
        ensures { result ≡ shown.is_longer 200 self.now }
    {
        match self.known {
            Some(known) => known.is_longer_than_window,
            None => is_longer(self.text, 200),
        }
    }

    /// Whether a report carries only a window of the text.
    pub fn is_cut(&self) -> bool
        ensures { result ≡ shown.is_cut self.now }
    {
        match self.known {
            Some(known) => known.is_cut,
            None => is_longer(self.text, 2_000),
        }
    }
}

// What doesn't depend on the place in a text.
fn known_of(text: &str) -> Known
    ensures { IsKnown text.now result }
{
    Known {
        is_longer_than_window: is_longer(text, 200),
        is_cut: is_longer(text, 2_000),
    }
}

// The place 0.
fn first_spot<'t>(text: &'t str) -> Spot<'t>
    ensures { IsSpot text.entry.now result }
{
    spot_at(0, text)
}

// A place, before what is from there on.
fn spot_at<'t>(place: usize, rest: &'t str) -> Spot<'t>
    ensures { (text : List ℕ) → chars rest.entry.now ≡ drop place (chars text) → IsSpot text result }
{
    Spot { place, rest }
}

// What comes from a place on that isn't before another.
fn rest_after<'t>(spot: Spot<'t>, place: usize) -> &'t str
    requires { spot.place ≤ place }
    ensures { (text : List ℕ) → IsSpot text spot.entry → chars result.now ≡ drop place (chars text) }
{
    rest_in(spot.rest, place - spot.place)
}
