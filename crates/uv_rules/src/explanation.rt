//! What each rule requires, with a text that violates it and a valid one that may have been meant.
ghost use Rattle.std.specs.Prelude.{◌≡◌, ◌≤◌, IfSome, length, option_copied};
ghost use Rattle.uv_shown.specs.Escaping.Printable.{IsLine};
ghost use Rattle.uv_rules.specs.Explanation.{rule_asks, rule_place, rule_uri};

use uv_model::Rule;

/// What a rule requires of a text, and an example. Both texts of the example are read under the standard profile,
/// against `base` if there is one.
#[derive(Clone, Copy)]
pub struct Explanation {
    /// What the rule requires, in a sentence or two.
    pub asks: &'static str,
    /// The section of the URL Standard that has it, and what that section calls it.
    pub section: &'static str,
    /// The address of that section.
    pub address: &'static str,
    /// The base that the example is read against, or `None` if it is read alone.
    pub base: Option<&'static str>,
    /// A text that is refused by the rule.
    pub wrong: &'static str,
    /// The place of that refusal: a number of code points from the text's start, from 0.
    pub place: usize,
    /// A valid text that its author may have meant.
    pub mended: &'static str,
}

/// What a rule requires, and an example with its place, each text as one line of printable ASCII.
pub fn explain(rule: Rule) -> Explanation
    ensures asks { result.asks.now ≡ rule_asks rule }
    ensures section { IsLine result.section.now }
    ensures address { result.address.now ≡ rule_uri rule }
    ensures base { IfSome (option_copied result.base) IsLine }
    ensures wrong { IsLine result.wrong.now }
    ensures place { result.place ≡ rule_place rule }
    ensures within { result.place ≤ length result.wrong.now }
    ensures mended { IsLine result.mended.now }
{
    match rule {
        Rule::NoScheme => NO_SCHEME,
        Rule::OpaqueBase => OPAQUE_BASE,
        Rule::TwoSlashes => TWO_SLASHES,
        Rule::HostMissing => HOST_MISSING,
        Rule::HostDomain => HOST_DOMAIN,
        Rule::HostNumber => HOST_NUMBER,
        Rule::HostIpv6 => HOST_IPV6,
        Rule::HostCodePoint => HOST_CODE_POINT,
        Rule::PortDigit => PORT_DIGIT,
        Rule::PortRange => PORT_RANGE,
        Rule::FirstSegmentEmpty => FIRST_SEGMENT_EMPTY,
        Rule::DriveAfterHost => DRIVE_AFTER_HOST,
        Rule::CodePoint => CODE_POINT,
        Rule::Percent => PERCENT,
    }
}

// The explanation of each rule, in the order of their numbers. The example's place and rule are what the checker finds.
const NO_SCHEME_ASKS: &str = "A text that is read without a base begins with a scheme and a colon.";

const NO_SCHEME: Explanation = Explanation {
    asks: NO_SCHEME_ASKS,
    section: "4.3, relative-URL string",
    address: "https://url.spec.whatwg.org/#relative-url-string",
    base: None,
    wrong: "example.com/a",
    place: 0,
    mended: "https://example.com/a",
};

const OPAQUE_BASE_ASKS: &str =
    "Against a base whose path is opaque, a text without a scheme is # and a fragment, and nothing else.";

const OPAQUE_BASE: Explanation = Explanation {
    asks: OPAQUE_BASE_ASKS,
    section: "4.3 and 4.4, no scheme state",
    address: "https://url.spec.whatwg.org/#no-scheme-state",
    base: Some("urn:isbn:0451450523"),
    wrong: "x",
    place: 0,
    mended: "#x",
};

const TWO_SLASHES_ASKS: &str =
    "The schemes ftp, http, https, ws, wss and file are followed by a colon and //.";

const TWO_SLASHES: Explanation = Explanation {
    asks: TWO_SLASHES_ASKS,
    section: "4.3, absolute-URL string",
    address: "https://url.spec.whatwg.org/#absolute-url-string",
    base: None,
    wrong: "http:/example.com/",
    place: 6,
    mended: "http://example.com/",
};

const HOST_MISSING_ASKS: &str =
    "After //, ftp, http, https, ws and wss have a host, file a host or a path, and a port follows a host.";

const HOST_MISSING: Explanation = Explanation {
    asks: HOST_MISSING_ASKS,
    section: "3.4, 4.3",
    address: "https://url.spec.whatwg.org/#valid-host-string",
    base: None,
    wrong: "https:///example.com/a",
    place: 8,
    mended: "https://example.com/a",
};

const HOST_DOMAIN_ASKS: &str =
    "A domain consists of letters, digits and inner hyphens, in labels of 1 to 63 that ToASCII of UTS 46 accepts.";

const HOST_DOMAIN: Explanation = Explanation {
    asks: HOST_DOMAIN_ASKS,
    section: "3.4, valid domain string",
    address: "https://url.spec.whatwg.org/#valid-domain-string",
    base: None,
    wrong: "http://a..b/",
    place: 7,
    mended: "http://a.b/",
};

const HOST_NUMBER_ASKS: &str =
    "A host that ends in a number is an IPv4 address: four decimal numbers up to 255 without leading zeros.";

const HOST_NUMBER: Explanation = Explanation {
    asks: HOST_NUMBER_ASKS,
    section: "3.5, ends-in-a-number",
    address: "https://url.spec.whatwg.org/#ends-in-a-number-checker",
    base: None,
    wrong: "http://256.0.0.1/",
    place: 7,
    mended: "http://255.0.0.1/",
};

const HOST_IPV6_ASKS: &str =
    "A host in brackets is an IPv6 address: eight pieces of 1 to 4 hex digits, where :: stands for zeros.";

const HOST_IPV6: Explanation = Explanation {
    asks: HOST_IPV6_ASKS,
    section: "3.4, valid IPv6-address string",
    address: "https://url.spec.whatwg.org/#valid-ipv6-address-string",
    base: None,
    wrong: "http://[::1/",
    place: 7,
    mended: "http://[::1]/",
};

const HOST_CODE_POINT_ASKS: &str =
    "Under a scheme that isn't special a host has URL units, but no forbidden host code points.";

const HOST_CODE_POINT: Explanation = Explanation {
    asks: HOST_CODE_POINT_ASKS,
    section: "3.4, valid opaque-host string",
    address: "https://url.spec.whatwg.org/#valid-opaque-host-string",
    base: None,
    wrong: "foo://u@h/",
    place: 7,
    mended: "foo://u%40h/",
};

const PORT_DIGIT_ASKS: &str =
    "A port consists of ASCII digits, and a URL string has no user name or password before its host.";

const PORT_DIGIT: Explanation = Explanation {
    asks: PORT_DIGIT_ASKS,
    section: "4.3, URL-port string",
    address: "https://url.spec.whatwg.org/#url-port-string",
    base: None,
    wrong: "http://h:8a/",
    place: 10,
    mended: "http://h:80/",
};

const PORT_RANGE_ASKS: &str = "A port is at most 65535.";

const PORT_RANGE: Explanation = Explanation {
    asks: PORT_RANGE_ASKS,
    section: "4.3, URL-port string",
    address: "https://url.spec.whatwg.org/#url-port-string",
    base: None,
    wrong: "http://h:65536/",
    place: 9,
    mended: "http://h:65535/",
};

const FIRST_SEGMENT_EMPTY_ASKS: &str =
    "After an authority, a path whose first segment is empty has no other one: it doesn't begin with //.";

const FIRST_SEGMENT_EMPTY: Explanation = Explanation {
    asks: FIRST_SEGMENT_EMPTY_ASKS,
    section: "4.3, path-absolute-URL string",
    address: "https://url.spec.whatwg.org/#path-absolute-url-string",
    base: None,
    wrong: "https://example.com//a",
    place: 20,
    mended: "https://example.com/a",
};

const DRIVE_AFTER_HOST_ASKS: &str =
    "After the host of a file URL, the path doesn't begin with /, a drive letter and /.";

const DRIVE_AFTER_HOST: Explanation = Explanation {
    asks: DRIVE_AFTER_HOST_ASKS,
    section: "4.3, path-absolute-non-Windows-file-URL string",
    address: "https://url.spec.whatwg.org/#path-absolute-non-windows-file-url-string",
    base: None,
    wrong: "file://h/C:/x",
    place: 8,
    mended: "file:///C:/x",
};

const CODE_POINT_ASKS: &str =
    "A path, query and fragment have URL code points and percent-escapes; all else is percent-encoded.";

const CODE_POINT: Explanation = Explanation {
    asks: CODE_POINT_ASKS,
    section: "4.3, URL code points",
    address: "https://url.spec.whatwg.org/#url-code-points",
    base: None,
    wrong: "http://h/a b",
    place: 10,
    mended: "http://h/a%20b",
};

const PERCENT_ASKS: &str =
    "A % is followed by two hex digits. To stand for itself, it is written %25.";

const PERCENT: Explanation = Explanation {
    asks: PERCENT_ASKS,
    section: "4.3, URL units",
    address: "https://url.spec.whatwg.org/#url-units",
    base: None,
    wrong: "http://h/100%",
    place: 12,
    mended: "http://h/100%25",
};
