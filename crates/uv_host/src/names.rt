//! Names of hosts, by the kinds of bytes in them, which a single walk finds.
ghost use Rattle.idna.specs.declared.options.Hyphens.TheVariants.{Allow, Check};
ghost use Rattle.idna.specs.Labels.{labels_of};
ghost use Rattle.idna.specs.Validity.{passes_hyphens};
ghost use Rattle.std.specs.Char.{is_ascii};
ghost use Rattle.std.specs.List.{list_all};
ghost use Rattle.std.specs.Prelude.{◌≡◌, ◌<◌, slice_index, ◌==◌};
ghost use Rattle.uv_host.specs.Domains.{is_simple};
ghost use Rattle.uv_host.specs.NameKinds.{AreSeen};
ghost use Rattle.uv_model.specs.declared.profile.Profile.TheVariants.{Parser, Standard, Wide};
ghost use Rattle.uv_model.specs.Hosts.Domain as spec;

use idna::uts46::Hyphens;
use std::marker::Model;
use uv_model::Profile;
use uv_text::byte_table;

// The kinds of bytes, each a bit. Lower-case letters except `x`, digits and the full stop have no kind.
const HYPHEN: u8 = 1;

// A capital letter, which ToASCII lowers.
const CAPITAL: u8 = 2;

// `_`, which the wide profile permits.
const LOW_LINE: u8 = 4;

// Any other mark that a form under the parser's profile may hold.
const OTHER_MARK: u8 = 8;

// A forbidden domain code point.
const FORBIDDEN: u8 = 16;

// A byte of a code point beyond ASCII.
const BEYOND_ASCII: u8 = 32;

// The letter with which `xn--` begins.
const LETTER_X: u8 = 64;

// The kind of each byte.
const KINDS: [u8; 256] = byte_table! {
    b'x' => LETTER_X,
    b'a'..=b'z' | b'0'..=b'9' | b'.' => 0,
    b'A'..=b'Z' => CAPITAL,
    b'-' => HYPHEN,
    b'_' => LOW_LINE,
    0x00..=b' ' | b'#' | b'%' | b'/' | b':' | b'<' | b'>' | b'?' | b'@' | b'['..=b'^' | b'|' | 0x7F => FORBIDDEN,
    0x80..=0xFF => BEYOND_ASCII,
    _ => OTHER_MARK,
};

// The kinds other than letters in lower case, digits and full stops.
const BEYOND_SIMPLE: u8 = HYPHEN | BEYOND_STANDARD_FORM;

// The kinds that a form doesn't hold, under each profile.
const BEYOND_STANDARD_FORM: u8 = BEYOND_WIDE_FORM | LOW_LINE;

// The kinds that a form doesn't hold under the wide profile, which permits `_`.
const BEYOND_WIDE_FORM: u8 = BEYOND_PARSER_FORM | OTHER_MARK;

// The kinds that a form doesn't hold under the parser's profile, which permits further marks.
const BEYOND_PARSER_FORM: u8 = CAPITAL | FORBIDDEN | BEYOND_ASCII;

// The kinds that a domain doesn't hold in any case of its letters, under each profile.
const BEYOND_STANDARD: u8 = BEYOND_WIDE | LOW_LINE;

// The kinds that a domain doesn't hold under the wide profile, which permits `_`.
const BEYOND_WIDE: u8 = BEYOND_PARSER | OTHER_MARK;

// The kind that a domain doesn't hold under the parser's profile, which permits further marks.
const BEYOND_PARSER: u8 = FORBIDDEN;

/// The bytes of a name, with the kinds that one walk found in them. Contracts see the bytes.
#[derive(Drop)]
pub(crate) struct Name<'n> {
    bytes: &'n [u8],
    seen: u8,
}

impl<'n> Model for Name<'n> {
    ghost use Rattle.std.specs.Prelude.{ℕ, List};
    ghost use Rattle.uv_host.specs.NameKinds.{AreSeen};

    ghost Value = { List ℕ };

    ghost view = { λ n. n.bytes.now };

    ghost invariant = { λ n. AreSeen n.bytes.now n.seen };
}

impl<'n> Name<'n> {
    /// The name of these bytes.
    #[inline(always)]
    pub(crate) fn of(bytes: &'n [u8]) -> Name<'n>
        ensures { result ≡ bytes.now }
    {
        Name {
            bytes,
            seen: kinds_of(bytes),
        }
    }

    /// Whether it has only lower-case letters, digits and full stops.
    #[inline(always)]
    pub(crate) fn is_simple(&self) -> bool
        ensures { result ≡ list_all is_simple self.now }
    {
        self.seen & BEYOND_SIMPLE == 0
    }

    /// Whether it has only the code points of a form: lower-case letters, digits and the marks of a domain.
    #[inline(always)]
    pub(crate) fn is_form(&self, profile: Profile) -> bool
        ensures { result ≡ list_all (spec.is_form_code_point profile) self.now }
    {
        match profile {
            Profile::Standard => self.seen & BEYOND_STANDARD_FORM == 0,
            Profile::Wide => self.seen & BEYOND_WIDE_FORM == 0,
            Profile::Parser => self.seen & BEYOND_PARSER_FORM == 0,
        }
    }

    /// Whether its ASCII bytes are letters, digits and the marks of a domain.
    #[inline(always)]
    pub(crate) fn is_permitted(&self, profile: Profile) -> bool
        ensures { result ≡ list_all (spec.is_permitted profile) self.now }
    {
        match profile {
            Profile::Standard => self.seen & BEYOND_STANDARD == 0,
            Profile::Wide => self.seen & BEYOND_WIDE == 0,
            Profile::Parser => self.seen & BEYOND_PARSER == 0,
        }
    }

    /// Whether it is ASCII.
    #[inline(always)]
    pub(crate) fn is_ascii(&self) -> bool
        ensures { result ≡ list_all is_ascii self.now }
    {
        self.seen & BEYOND_ASCII == 0
    }

    /// Whether no label begins or ends with a hyphen, or has two as its third and fourth bytes.
    pub(crate) fn has_placed_hyphens(&self) -> bool
        ensures { result ≡ list_all (passes_hyphens Check) (labels_of self.now) }
    {
        self.seen & HYPHEN == 0 || has_placed_hyphens(self.bytes)
    }

    /// Whether no label begins with `xn--`.
    pub(crate) fn is_without_punycode(&self) -> bool
        ensures { result ≡ list_all (passes_hyphens Allow) (labels_of self.now) }
    {
        if self.seen & HYPHEN == 0 || self.seen & LETTER_X == 0 {
            return true;
        }
        is_without_punycode(self.bytes)
    }
}

// The kinds of all bytes.
fn kinds_of(bytes: &[u8]) -> u8
    ensures { AreSeen bytes.now result }
{
    let mut seen = 0;
    for &byte in bytes {
        seen |= KINDS[byte as usize];
    }
    seen
}

// Whether no label of a name begins with `xn--`.
fn is_without_punycode(name: &[u8]) -> bool
    ensures { result ≡ list_all (passes_hyphens Hyphens.Allow) (labels_of name.now) }
{
    name.split(|b| *b == b'.').all(|label| has_no_prefix(label))
}

// Whether a label doesn't begin with `xn--`, after which Punycode stands for other code points.
#[tactic(auto, unfolding(idna::specs::Validity::passes_hyphens, idna::specs::Validity::has_ace_prefix))]
fn has_no_prefix(label: &[u8]) -> bool
    ensures { result ≡ passes_hyphens Hyphens.Allow label.now }
{
    !label.starts_with(b"xn--")
}

// Whether the hyphens of each label are where the strict settings of ToASCII permit them.
fn has_placed_hyphens(name: &[u8]) -> bool
    ensures { result ≡ list_all (passes_hyphens Hyphens.Check) (labels_of name.now) }
{
    name.split(|b| *b == b'.').all(|label| has_placed(label))
}

// Whether no hyphen is first or last in a label, or third and fourth (UTS #46, section 4.1).
#[tactic(auto, unfolding(idna::specs::Validity::passes_hyphens))]
fn has_placed(label: &[u8]) -> bool
    ensures { result ≡ passes_hyphens Hyphens.Check label.now }
{
    let third = is_hyphen_at(label, 2) && is_hyphen_at(label, 3);
    let outer = is_hyphen_at(label, 0) || is_hyphen_at(label, label.len().saturating_sub(1));
    !third & !outer
}

fn is_hyphen_at(label: &[u8], at: usize) -> bool
    ensures { result ≡ (slice_index label.now at == 45) }
{
    at < label.len() && label[at] == b'-'
}
