//! Texts of paths of segments, which grow and shrink by one segment at a time.
ghost use Rattle.std.specs.Prelude.{◌≡◌, ◌∷◌, ◌++◌, [], IfOk, IfSome, MatchOption, OnOk, length, option_copied};
ghost use Rattle.std.specs.Prelude.{string_bytes, take, true};
ghost use Rattle.std.specs.Iterator.{YieldsFirstBy, item_count};
ghost use Rattle.std.specs.Str.{IsAscii, chars};
ghost use Rattle.uv_model.specs.Ascii.{slash};
ghost use Rattle.uv_model.specs.Path.{is_without, left_segments, pieces, segments_after, segments_of, without_last};
ghost use Rattle.uv_model.specs.Records.PathText.{IsPathText, IsTextOf, MayBeAsciiText};

use crate::held::Held;
use std::alloc::{AllocError, Global};
use std::marker::Model;

/// The text of a path of segments, which are ASCII, each after a `/` (URL Standard, section 4.5). A short one that is
/// copied takes no memory. Contracts see the segments.
#[derive(Debug, Drop)]
pub struct PathText {
    alloc: Global,
    held: Held<40>,
}

impl Model for PathText {
    ghost use Rattle.std.specs.Prelude.{ℕ, List};
    ghost use Rattle.uv_model.specs.Path.{segments_after};
    ghost use Rattle.uv_model.specs.Records.Held.{held_text};
    ghost use Rattle.uv_model.specs.Records.PathText.{IsPathText};

    ghost Value = { List (List ℕ) };

    ghost view = { λ p. segments_after (held_text p.held) };

    ghost invariant = { λ p. IsPathText (held_text p.held) };
}

impl PathText {
    /// A path without segments. It takes no memory.
    pub fn new(alloc: Global) -> PathText
        ensures { result ≡ [] }
    {
        PathText {
            alloc,
            held: Held::Long(String::new(alloc)),
        }
    }

    /// A path without segments, with room for this many bytes. An error means that memory ran out.
    pub fn with_capacity(alloc: Global, room: usize) -> Result<PathText, AllocError>
        ensures { IfOk result (λ path. path ≡ []) }
    {
        let text = String::with_capacity(alloc, room)?;
        Ok(PathText {
            alloc,
            held: Held::Long(text),
        })
    }

    /// The path of the segments of a path's text, as `push_path` has them. An error means that memory ran out.
    pub fn of(alloc: Global, path: &str) -> Result<PathText, AllocError>
        requires { IsAscii path.now }
        ensures { IfOk result (λ made. made ≡ segments_of path.now) }
    {
        if path.starts_with('/') {
            let held = Held::copy_of(alloc, path)?;
            return Ok(PathText { alloc, held });
        }
        let mut made = PathText::with_capacity(alloc, path.len().saturating_add(1))?;
        made.push_path(path)?;
        Ok(made)
    }

    /// The path of the segments of a path's text, which isn't copied if it begins with `/`. An error means that memory
    /// ran out.
    pub fn of_string(alloc: Global, path: String) -> Result<PathText, AllocError>
        requires { IsAscii (string_bytes path) }
        ensures { IfOk result (λ made. made ≡ segments_of (string_bytes path)) }
    {
        if path.as_str().starts_with('/') {
            return Ok(PathText {
                alloc,
                held: Held::Long(path),
            });
        }
        PathText::of(alloc, path.as_str())
    }

    /// The text: each segment after a `/`.
    #[inline]
    pub fn as_str(&self) -> &str
        ensures { IsTextOf self.now result.now }
    {
        self.held.as_str()
    }

    /// The segments in their order.
    pub fn iter(&self) -> PathSegments<'_>
        ensures { result ≡ self.now }
    {
        PathSegments {
            left: self.after_slash(),
        }
    }

    /// An equal path. An error means that memory ran out.
    pub fn copy(&self, alloc: Global) -> Result<PathText, AllocError>
        ensures { IfOk result (λ path. path ≡ self.now) }
    {
        let held = Held::copy_of(alloc, self.held.as_str())?;
        Ok(PathText { alloc, held })
    }

    /// Appends a segment, which has to be ASCII without `/`. An error means that memory ran out, and perhaps an empty
    /// segment was appended.
    pub fn push(&mut self, segment: &str) -> Result<(), AllocError>
        requires ascii { IsAscii segment.now }
        requires one { is_without slash segment.now ≡ true }
        ensures { OnOk result (self.new ≡ self.old ++ (segment.now ∷ [])) }
    {
        self.push_pieces(segment)
    }

    /// Appends the segments of a path, which has to be ASCII: the texts between its slashes, ignoring a `/` at its
    /// start. An empty path has none. An error means that memory ran out, and perhaps an empty segment was appended.
    pub fn push_path(&mut self, path: &str) -> Result<(), AllocError>
        requires { IsAscii path.now }
        ensures { OnOk result (self.new ≡ self.old ++ segments_of path.now) }
    {
        if path.is_empty() {
            return Ok(());
        }
        match path.strip_prefix('/') {
            Some(rest) => self.push_pieces(rest),
            None => self.push_pieces(path),
        }
    }

    // A `/` and a text after it. Most paths that grow are in an allocation, so where the text is held is asked only
    // once.
    fn push_pieces(&mut self, text: &str) -> Result<(), AllocError>
        requires { IsAscii text.now }
        ensures { OnOk result (self.new ≡ self.old ++ pieces text.now) }
    {
        if let Held::Long(path) = &mut self.held {
            path.push('/')?;
            return path.push_str(text);
        }
        self.held.push_str(self.alloc, "/")?;
        self.held.push_str(self.alloc, text)
    }

    /// Takes the last segment off, if there is one.
    pub fn pop(&mut self)
        ensures { self.new ≡ without_last self.old }
    {
        let kept = without_last_segment(self.held.as_str()).len();
        self.held.truncate(kept);
    }

    // The text between whose slashes the segments are, if there are any.
    fn after_slash(&self) -> Option<&str>
        ensures segments { left_segments (option_copied result) ≡ self.now }
        ensures ascii { MayBeAsciiText (option_copied result) }
    {
        self.held.as_str().strip_prefix('/')
    }
}

/// The text of a path without its last segment and the `/` before that.
pub fn without_last_segment<'p>(path: &'p str) -> &'p str
    requires { IsPathText path.now }
    ensures text { IsTextOf (without_last (segments_after path.now)) result.now }
    ensures prefix { result.now ≡ take (length result.now) path.now }
{
    match path.rfind('/') {
        Some(end) => &path[..end],
        None => path,
    }
}

/// The segments of a path that are still to come.
#[derive(Drop)]
pub struct PathSegments<'p> {
    left: Option<&'p str>,
}

impl<'p> Model for PathSegments<'p> {
    ghost use Rattle.std.specs.Prelude.{ℕ, List, option_copied};
    ghost use Rattle.uv_model.specs.Path.{left_segments};
    ghost use Rattle.uv_model.specs.Records.PathText.{MayBeAsciiText};

    ghost Value = { List (List ℕ) };

    ghost view = { λ s. left_segments (option_copied s.left) };

    ghost invariant = { λ s. MayBeAsciiText (option_copied s.left) };
}

impl<'p> PathSegments<'p> {
    /// The next segment, if there is one.
    pub fn next_text(&mut self) -> Option<&'p str>
        ensures next { MatchOption result ((self.old ≡ []) × (self.new ≡ []))
            (λ text. self.old ≡ text.now ∷ self.new) }
        ensures ascii { IfSome result (λ text. IsAscii text.now) }
        ensures code_points { IfSome result (λ text. chars text.now ≡ text.now) }
    {
        match self.left {
            Some(text) => {
                let (first, rest) = split_first(text);
                self.left = rest;
                Some(first)
            }
            None => None,
        }
    }
}

// What is before the first `/`, and what follows it where there is one.
fn split_first<'p>(text: &'p str) -> (&'p str, Option<&'p str>)
    requires { IsAscii text.now }
    ensures pieces { pieces text.now ≡ result.0.now ∷ left_segments (option_copied result.1) }
    ensures first { IsAscii result.0.now }
    ensures rest { MayBeAsciiText (option_copied result.1) }
{
    match text.split_once('/') {
        Some((first, rest)) => (first, Some(rest)),
        None => (text, None),
    }
}

impl<'p> Iterator for PathSegments<'p> {
    type Item = &'p str;

    ghost next_gives = { YieldsFirstBy (λ text. text.now) (λ s. s) };

    ghost remaining = { item_count (λ s. s) };

    fn next(&mut self) -> Option<&'p str> {
        self.next_text()
    }
}
