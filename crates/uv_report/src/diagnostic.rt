//! A diagnostic as data: its texts are made where they are known, and a format only writes them.
ghost use Rattle.std.specs.Cow.{cow_str_bytes};
ghost use Rattle.std.specs.Prelude.{◌≡◌, IfOk, option_map};
ghost use Rattle.uv_report.specs.Diagnostic as spec;
ghost use Rattle.uv_shown.specs.Places.Window as shown;

use std::alloc::{AllocError, Global};
use std::borrow::CowStr;
use uv_model::MendKind;
use uv_shown::{SeenText, carried};

/// Where something is in a file. Lines and columns count from 1. C hands it over in this layout.
#[repr(C)]
#[derive(Clone, Copy)]
pub struct Region {
    /// The line of its first code point.
    pub line: u64,
    /// The column of its first code point.
    pub column: u64,
    /// The line of its last code point.
    pub end_line: u64,
    /// The column after its last code point, in that line.
    pub end_column: u64,
}

/// What to write in place of a text.
#[derive(Clone, Copy)]
pub struct Fix<'a> {
    /// The region of all of that text, if a program may replace it there.
    pub region: Option<Region>,
    /// A valid text.
    pub text: &'a str,
    /// How it relates to the text that it replaces.
    pub kind: MendKind,
    /// Whether it is offered: nothing suggests that something else was meant.
    pub is_offered: bool,
    /// Whether the message says what to write instead. If so, people aren't told of a text that isn't offered.
    pub is_named: bool,
}

/// What is wrong with a line of a file, or with a text that is a part of one.
#[derive(Clone, Copy)]
pub struct Diagnostic<'a> {
    /// The file's name, as it was given.
    pub file: &'a str,
    /// Where in the file it is: from the place at which the text is wrong up to where what is wrong ends.
    pub region: Region,
    /// The name of the violated rule, which may be one that isn't in this library.
    pub rule: &'a str,
    /// The index of that rule among the rules that the report lists, from 0, if it is one of them.
    pub index: Option<u64>,
    /// The address of a page on that rule, or nothing.
    pub uri: &'a str,
    /// What is wrong, as a sentence without its full stop.
    pub message: &'a str,
    /// The text, without its line end. If it isn't UTF-8, U+FFFD stands for what can't be read.
    pub text: &'a SeenText<'a>,
    /// Whether the text is shown: it is what is wrong, and not only in place of what isn't carried.
    pub is_shown: bool,
    /// The place at which it is wrong, in code points from 0.
    pub place: usize,
    /// The place of the code point that the message names, in code points from 0: mostly the same.
    pub named: usize,
    /// How many diagnostics of the file before it have the same rule, place and text, as far as that is counted.
    pub repeat: u64,
    /// What to write in its place, if that is to be said. A format whose `Format::shows_mended` is false leaves it out.
    pub fix: Option<Fix<'a>>,
}

impl<'a> Diagnostic<'a> {
    /// Whether a report carries only a window of the text.
    pub(crate) fn is_cut(&self) -> bool
        ensures { result ≡ shown.is_cut (spec.diagnostic_view self.now).text }
    {
        self.text.is_cut()
    }

    /// What a report carries of the text.
    pub(crate) fn carried(&self, alloc: Global) -> Result<CowStr<'a>, AllocError>
        ensures { IfOk result (λ text. cow_str_bytes text ≡ spec.carried_text (spec.diagnostic_view self.now)) }
    {
        carried(alloc, self.text, self.place)
    }

    /// What to write in place of the text, and where, if that is offered and a program may write there.
    pub(crate) fn edit(&self) -> Option<(Region, Fix<'a>)>
        ensures { option_map spec.edit_view result ≡ spec.edit_of (spec.diagnostic_view self.now).fix }
    {
        match self.fix {
            Some(fix) if fix.is_offered => fix.edit(),
            _ => None,
        }
    }
}

impl<'a> Fix<'a> {
    // What to write in place of the text, and where, if a program may write there.
    fn edit(self) -> Option<(Region, Fix<'a>)>
        ensures { option_map spec.edit_view result ≡ spec.edit_at (spec.fix_view self.entry) }
    {
        match self.region {
            Some(region) => Some((region, self)),
            None => None,
        }
    }
}
