//! The parts of a valid URL string.
ghost use Rattle.std.specs.Prelude.{◌≡◌, ℕ, List, IfOk, option_map};
ghost use Rattle.std.specs.Str.{chars};
ghost use Rattle.std.specs.Iterator.{YieldsFirstBy, item_count};
ghost use Rattle.uv_grammar.specs.Form.{seen_form};
ghost use Rattle.uv_grammar.specs.PartsHost.{referred};
ghost use Rattle.uv_grammar.specs.Slices.{chars_of, chars_of_option};
ghost use Rattle.uv_grammar.specs.Built.{segments_in};
ghost use Rattle.uv_model.specs.Path.{left_segments, segments_of};

use crate::ends::{Ends, part_between, scheme_before};
use crate::form::Form;
use crate::marks::{after_slash, split_at_mark};
use crate::parts_host::{HostRef, PartsHost};
use std::alloc::{AllocError, Global};
use std::marker::{Model, PhantomData};
use uv_model::Host;

/// The parts of a valid URL string, as places in it, and the values of its host and port.
#[derive(Drop)]
pub struct Parts<'t> {
    pub(crate) text: &'t str,
    pub(crate) ends: Ends,
    pub(crate) form: Form,
    pub(crate) host: Option<PartsHost<'t>>,
    pub(crate) port: Option<u16>,
}

impl<'t> Model for Parts<'t> {
    ghost use Rattle.uv_model.specs.Parts.{Parts};
    ghost use Rattle.std.specs.Prelude.{option_map};
    ghost use Rattle.uv_grammar.specs.Ends.{AreEnds, cut_at};
    ghost use Rattle.uv_grammar.specs.Form.{seen_form};
    ghost use Rattle.uv_grammar.specs.PartsHost.{as_host};
    ghost use Rattle.uv_grammar.specs.Built.{built_as};

    ghost Value = { Parts };

    ghost view = { λ p. built_as (seen_form p.form) (cut_at p.text.now p.ends) (option_map as_host p.host) p.port };

    ghost invariant = { λ p. AreEnds p.text.now p.ends };
}

impl<'t> Parts<'t> {
    /// How the text begins.
    pub fn form(&self) -> Form
        ensures { seen_form result ≡ self.now.form }
    {
        self.form
    }

    /// The scheme, in the case in which it is written.
    pub fn scheme(&self) -> Option<&'t str>
        ensures { chars_of_option result ≡ self.now.scheme }
    {
        scheme_before(self.text, self.ends.scheme)
    }

    /// The host's text, where there is an authority.
    pub fn host_text(&self) -> Option<&'t str>
        ensures { chars_of_option result ≡ self.now.host_text }
    {
        part_between(self.text, 2, self.ends.scheme, self.ends.host)
    }

    /// The host, where its value isn't its text: not for an opaque host.
    pub fn host(&self) -> Option<HostRef<'_>>
        ensures { option_map referred result ≡ self.now.host }
    {
        match &self.host {
            Some(host) => Some(host.lent()),
            None => None,
        }
    }

    /// The host given back, where its value isn't its text. It is copied only when it is a slice of the text. The error
    /// is out of memory.
    pub fn into_host(self, alloc: Global) -> Result<Option<Host>, AllocError>
        ensures { IfOk result (λ host. host ≡ self.entry.host) }
    {
        match self.host {
            Some(host) => Ok(Some(host.into_host(alloc)?)),
            None => Ok(None),
        }
    }

    /// The port's text, where there is a `:` of a port.
    pub fn port_text(&self) -> Option<&'t str>
        ensures { chars_of_option result ≡ self.now.port_text }
    {
        part_between(self.text, 1, self.ends.host, self.ends.port)
    }

    /// The port, if it isn't the scheme's default.
    pub fn port(&self) -> Option<u16>
        ensures { result ≡ self.now.port }
    {
        self.port
    }

    /// The path, with its `/` at the start.
    pub fn path_text(&self) -> &'t str
        ensures { chars_of result ≡ self.now.path_text }
    {
        &self.text[self.ends.port..self.ends.path]
    }

    /// The segments of the path: none of an opaque one, and none of an empty one.
    pub fn segments(&self) -> Segments<'_, 't>
        ensures segments { result ≡ self.now.segments }
        ensures text { self.now.segments ≡ segments_in self.now.form self.now.path_text }
    {
        Segments::of(self.form, self.path_text())
    }

    /// The query, without its `?`.
    pub fn query(&self) -> Option<&'t str>
        ensures { chars_of_option result ≡ self.now.query }
    {
        part_between(self.text, 1, self.ends.path, self.ends.query)
    }

    /// The fragment, without its `#`.
    pub fn fragment(&self) -> Option<&'t str>
        ensures { chars_of_option result ≡ self.now.fragment }
    {
        part_between(self.text, 1, self.ends.query, self.text.len())
    }
}

/// The segments of a path that are still to come.
#[derive(Drop)]
pub struct Segments<'p, 't> {
    left: Option<&'t str>,
    path: PhantomData<&'p str>,
}

impl<'p, 't> Model for Segments<'p, 't> {
    ghost use Rattle.std.specs.Prelude.{ℕ, List};
    ghost use Rattle.uv_grammar.specs.Slices.{chars_of_option};
    ghost use Rattle.uv_model.specs.Path.{left_segments};

    ghost Value = { List (List ℕ) };

    ghost view = { λ s. left_segments (chars_of_option s.left) };
}

impl<'p, 't> Segments<'p, 't> {
    // The segments of a path by its form.
    fn of(form: Form, path_text: &'t str) -> Segments<'p, 't>
        ensures { result ≡ segments_in (seen_form form) (chars path_text.now) }
    {
        Segments {
            left: match form {
                Form::SchemeOpaque => None,
                _ => after_first(path_text),
            },
            path: PhantomData,
        }
    }
}

// What is after a `/` at the start of a path that isn't empty.
fn after_first<'t>(path_text: &'t str) -> Option<&'t str>
    ensures { left_segments (chars_of_option result) ≡ segments_of (chars path_text.now) }
{
    if path_text.is_empty() {
        return None;
    }
    match after_slash(path_text) {
        Some(rest) => Some(rest),
        None => Some(path_text),
    }
}

impl<'p, 't> Iterator for Segments<'p, 't> {
    type Item = &'t str;

    ghost next_gives = { YieldsFirstBy chars_of (λ s. s) };

    ghost remaining = { item_count (λ s. s) };

    fn next(&mut self) -> Option<&'t str> {
        match self.left {
            Some(text) => {
                let (first, rest) = split_at_mark(text, '/');
                self.left = rest;
                Some(first)
            }
            None => None,
        }
    }
}
