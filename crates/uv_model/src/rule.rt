//! The rules that a text can violate, and refusals.
ghost use Rattle.std.specs.Prelude.{◌≡◌, MatchOption};
ghost use Rattle.uv_model.specs.Violations.Rule.{IsNoName, named_rule, rule_name, rule_number, rule_sentence};
ghost use Rattle.uv_model.specs.Violations.Rule.{rules_in_order};

// What is wrong at the place of a refusal by each rule.
const NO_SCHEME_SENTENCE: &str = "there is no scheme and no base";

const OPAQUE_BASE_SENTENCE: &str =
    "there is no scheme, the base has an opaque path, and the text isn't # and a fragment";

const TWO_SLASHES_SENTENCE: &str = "// has to follow this scheme";

const HOST_MISSING_SENTENCE: &str = "a host is missing here";

const HOST_DOMAIN_SENTENCE: &str = "the host that begins here is not a valid domain";

const HOST_NUMBER_SENTENCE: &str =
    "the host that begins here ends in a number, and is not an IPv4 address";

const HOST_IPV6_SENTENCE: &str = "the host that begins here is not an IPv6 address in brackets";

const HOST_CODE_POINT_SENTENCE: &str = "this code point is not allowed in a host";

const PORT_DIGIT_SENTENCE: &str = "this code point is not allowed in a port";

const PORT_RANGE_SENTENCE: &str = "the port that begins here is above 65535";

const FIRST_SEGMENT_EMPTY_SENTENCE: &str = "the path begins with //";

const DRIVE_AFTER_HOST_SENTENCE: &str = "the path after this host begins with a drive letter";

const CODE_POINT_SENTENCE: &str = "this code point is not allowed in a URL";

const PERCENT_SENTENCE: &str = "two hex digits have to follow this %";

/// A rule for valid URL strings (URL Standard, sections 3.4 and 4.3) that a text can violate, by number.
#[derive(Clone, Copy, Debug, PartialEq, Eq)]
pub enum Rule {
    /// A text without a scheme has no base.
    NoScheme,
    /// A text without a scheme is more than a fragment, but the base's path is opaque.
    OpaqueBase,
    /// A special scheme and its `:` aren't followed by `//`.
    TwoSlashes,
    /// The host is empty when one is needed.
    HostMissing,
    /// The host isn't a valid domain.
    HostDomain,
    /// The host would be a valid domain, but ends in a number.
    HostNumber,
    /// The host begins with `[` and isn't a bracketed IPv6 address.
    HostIpv6,
    /// A code point that an opaque host can't hold.
    HostCodePoint,
    /// A code point of the port that isn't a digit.
    PortDigit,
    /// The port is above 65535.
    PortRange,
    /// The path's first segment is empty and isn't its only one.
    FirstSegmentEmpty,
    /// The path of a `file` URL with a host begins with `/`, a Windows drive letter and `/`.
    DriveAfterHost,
    /// A code point of the path, query or fragment that is neither a URL code point nor `%`.
    CodePoint,
    /// A `%` that isn't followed by two hex digits.
    Percent,
}

impl Rule {
    /// The rules in the order of their numbers.
    pub fn in_order() -> [Rule; 14]
        ensures { result ≡ rules_in_order }
    {
        [
            Rule::NoScheme,
            Rule::OpaqueBase,
            Rule::TwoSlashes,
            Rule::HostMissing,
            Rule::HostDomain,
            Rule::HostNumber,
            Rule::HostIpv6,
            Rule::HostCodePoint,
            Rule::PortDigit,
            Rule::PortRange,
            Rule::FirstSegmentEmpty,
            Rule::DriveAfterHost,
            Rule::CodePoint,
            Rule::Percent,
        ]
    }

    /// The rule's number, from 1 to 14 in the order of the variants.
    pub fn number(self) -> u8
        ensures { result ≡ rule_number self }
    {
        match self {
            Rule::NoScheme => 1,
            Rule::OpaqueBase => 2,
            Rule::TwoSlashes => 3,
            Rule::HostMissing => 4,
            Rule::HostDomain => 5,
            Rule::HostNumber => 6,
            Rule::HostIpv6 => 7,
            Rule::HostCodePoint => 8,
            Rule::PortDigit => 9,
            Rule::PortRange => 10,
            Rule::FirstSegmentEmpty => 11,
            Rule::DriveAfterHost => 12,
            Rule::CodePoint => 13,
            Rule::Percent => 14,
        }
    }

    /// The rule's name, as it is printed with a refusal.
    pub fn name(self) -> &'static str
        ensures { result.now ≡ rule_name self }
    {
        match self {
            Rule::NoScheme => "no-scheme",
            Rule::OpaqueBase => "opaque-base",
            Rule::TwoSlashes => "two-slashes",
            Rule::HostMissing => "host-missing",
            Rule::HostDomain => "host-domain",
            Rule::HostNumber => "host-number",
            Rule::HostIpv6 => "host-ipv6",
            Rule::HostCodePoint => "host-code-point",
            Rule::PortDigit => "port-digit",
            Rule::PortRange => "port-range",
            Rule::FirstSegmentEmpty => "first-segment-empty",
            Rule::DriveAfterHost => "drive-after-host",
            Rule::CodePoint => "code-point",
            Rule::Percent => "percent",
        }
    }

    /// What is wrong at the place of a refusal by the rule, as a sentence without its full stop.
    pub fn sentence(self) -> &'static str
        ensures { result.now ≡ rule_sentence self }
    {
        match self {
            Rule::NoScheme => NO_SCHEME_SENTENCE,
            Rule::OpaqueBase => OPAQUE_BASE_SENTENCE,
            Rule::TwoSlashes => TWO_SLASHES_SENTENCE,
            Rule::HostMissing => HOST_MISSING_SENTENCE,
            Rule::HostDomain => HOST_DOMAIN_SENTENCE,
            Rule::HostNumber => HOST_NUMBER_SENTENCE,
            Rule::HostIpv6 => HOST_IPV6_SENTENCE,
            Rule::HostCodePoint => HOST_CODE_POINT_SENTENCE,
            Rule::PortDigit => PORT_DIGIT_SENTENCE,
            Rule::PortRange => PORT_RANGE_SENTENCE,
            Rule::FirstSegmentEmpty => FIRST_SEGMENT_EMPTY_SENTENCE,
            Rule::DriveAfterHost => DRIVE_AFTER_HOST_SENTENCE,
            Rule::CodePoint => CODE_POINT_SENTENCE,
            Rule::Percent => PERCENT_SENTENCE,
        }
    }

    /// The rule with this name, or `None` if no rule has it.
    pub fn of_name(name: &str) -> Option<Rule>
        ensures search { result ≡ named_rule name.now }
        ensures exact { MatchOption result (IsNoName name.now) (λ rule. name.now ≡ rule_name rule) }
    {
        match name {
            "no-scheme" => Some(Rule::NoScheme),
            "opaque-base" => Some(Rule::OpaqueBase),
            "two-slashes" => Some(Rule::TwoSlashes),
            "host-missing" => Some(Rule::HostMissing),
            "host-domain" => Some(Rule::HostDomain),
            "host-number" => Some(Rule::HostNumber),
            "host-ipv6" => Some(Rule::HostIpv6),
            "host-code-point" => Some(Rule::HostCodePoint),
            "port-digit" => Some(Rule::PortDigit),
            "port-range" => Some(Rule::PortRange),
            "first-segment-empty" => Some(Rule::FirstSegmentEmpty),
            "drive-after-host" => Some(Rule::DriveAfterHost),
            "code-point" => Some(Rule::CodePoint),
            "percent" => Some(Rule::Percent),
            _ => None,
        }
    }
}

/// The place where a text is refused, and the rule.
#[derive(Clone, Copy, Debug, PartialEq, Eq)]
pub struct Refusal {
    /// The place: a number of code points, counted from 0 at the text's start.
    pub place: usize,
    /// The rule that is violated there.
    pub rule: Rule,
}
