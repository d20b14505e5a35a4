//! A text on which sentences are written, with what is already known about it.
ghost use Rattle.std.specs.Prelude.{◌≡◌};

use crate::sentences::authority::before_query;
use crate::sentences::intention::{Intention, shown_intention};
use crate::sentences::ipv6;
use crate::sentences::message::{has_credentials_in, part_length};
use crate::sentences::scheme::{Start, is_link, scheme_note, start_of};
use std::marker::Model;
use uv_shown::SeenText;

// The places of a text from one up to another, each of which has credentials after it, or none of which has.
#[derive(Clone, Copy)]
struct Part {
    from: usize,
    to: usize,
    has_credentials: bool,
}

/// A text on which sentences are written. Like the text that is shown, it goes on from place to place, and what is the
/// same at each place is found once.
#[derive(Drop)]
pub struct KnownText<'t> {
    seen: SeenText<'t>,
    part: Option<Part>,
    // What the text shows of its author's intention, if that was looked for.
    intention: Option<Option<Intention>>,
    start: Option<Start>,
}

impl<'t> Model for KnownText<'t> {
    ghost use Rattle.std.specs.Prelude.{ℕ, List};

    ghost Value = { List ℕ };

    ghost view = { λ known. known.seen };
}

impl<'t> KnownText<'t> {
    /// A text with a sentence on one place: nothing is looked for yet, and nothing is kept.
    pub fn new(text: &'t str) -> KnownText<'t>
        ensures { result ≡ text.entry.now }
    {
        KnownText {
            seen: SeenText::new(text),
            part: None,
            intention: None,
            start: None,
        }
    }

    /// A refused text with a sentence on one place. What it shows of its author's intention is looked for here.
    pub fn of_refused(text: &'t str) -> KnownText<'t>
        ensures { result ≡ text.entry.now }
    {
        KnownText {
            seen: SeenText::new(text),
            part: None,
            intention: Some(shown_intention(text)),
            start: None,
        }
    }

    /// A text with sentences on several places. What doesn't depend on the place is found here, once for all.
    pub fn of_several(text: &'t str) -> KnownText<'t>
        ensures { result ≡ text.entry.now }
    {
        KnownText {
            seen: SeenText::of_several(text),
            part: None,
            intention: Some(shown_intention(text)),
            start: Some(start_of(text)),
        }
    }

    /// Goes on to a place, if there are sentences on several. The next one is found from there.
    pub fn go_to(&mut self, place: usize)
        ensures { self.new ≡ self.old }
    {
        self.seen.go_to(place);
        if self.start.is_some() {
            self.part = Some(self.part_at(place));
        }
    }

    // The part of the text that has a place: the last one if it has it.
    fn part_at(&self, place: usize) -> Part {
        match self.part {
            Some(part) if part.from <= place && place <= part.to => part,
            _ => part_from(place, self.rest_at(place)),
        }
    }

    /// The text as it is shown.
    pub fn seen(&self) -> &SeenText<'t>
        ensures { result.now ≡ self.now }
    {
        &self.seen
    }

    /// The text.
    pub fn as_str(&self) -> &'t str
        ensures { result.now ≡ self.now }
    {
        self.seen.as_str()
    }

    /// What comes from a place of the text on: nothing if it has no such place.
    pub(crate) fn rest_at(&self, place: usize) -> &'t str {
        self.seen.rest_at(place)
    }

    /// The code point at a place of the text.
    pub(crate) fn point_at(&self, place: usize) -> Option<char> {
        self.seen.point_at(place)
    }

    /// What the text by itself shows of its author's intention.
    pub(crate) fn shown_intention(&self) -> Option<Intention> {
        match self.intention {
            Some(intention) => intention,
            None => shown_intention(self.as_str()),
        }
    }

    /// Whether an `@` comes after a place of a host or a port, before the authority's end.
    pub(crate) fn has_credentials(&self, place: usize) -> bool {
        match self.part {
            Some(part) if part.from <= place && place <= part.to => part.has_credentials,
            _ => has_credentials_in(self.rest_at(place)),
        }
    }

    /// Whether the text's scheme is one that `//` follows in links.
    pub(crate) fn is_link(&self) -> bool {
        match self.start {
            Some(start) => start.is_link,
            None => is_link(self.as_str()),
        }
    }

    /// What the text's scheme requires of what follows it, or nothing.
    pub(crate) fn scheme_note(&self) -> &'static str {
        match self.start {
            Some(start) => start.note,
            None => scheme_note(self.as_str()),
        }
    }

    /// How many bytes come before the query and the fragment.
    pub(crate) fn path_end(&self) -> usize {
        match self.start {
            Some(start) => start.path_end,
            None => before_query(self.as_str()).len(),
        }
    }

    /// Whether the authority of a text that has one is an IPv6 text.
    pub(crate) fn has_bare_ipv6(&self) -> bool {
        match self.start {
            Some(start) => start.has_bare_ipv6,
            None => ipv6::has_bare_ipv6(self.as_str()),
        }
    }
}

// The part that begins at a place, before what is from there on.
fn part_from(place: usize, rest: &str) -> Part {
    Part {
        from: place,
        to: place.saturating_add(part_length(rest)),
        has_credentials: has_credentials_in(rest),
    }
}
