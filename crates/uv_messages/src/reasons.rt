//! Why each rule is there: what goes wrong for a reader of a link that breaks it. Lines have at most 80 columns.

use uv_model::Rule;

/// Why a rule is there.
pub(crate) fn reason(rule: Rule) -> &'static str {
    match rule {
        Rule::NoScheme => NO_SCHEME,
        Rule::OpaqueBase => OPAQUE_BASE,
        Rule::TwoSlashes => TWO_SLASHES,
        Rule::HostMissing => HOST_MISSING,
        Rule::HostDomain => HOST_DOMAIN,
        Rule::HostNumber => HOST_NUMBER,
        Rule::HostIpv6 => HOST_IPV6,
        Rule::HostCodePoint => HOST_CODE_POINT,
        Rule::PortDigit => PORT_DIGIT,
        Rule::PortRange => PORT_RANGE,
        Rule::FirstSegmentEmpty => FIRST_SEGMENT_EMPTY,
        Rule::DriveAfterHost => DRIVE_AFTER_HOST,
        Rule::CodePoint => CODE_POINT,
        Rule::Percent => PERCENT,
    }
}

const NO_SCHEME: &str =
    "A text without a scheme means something only against a base, such as the address
of its page. A scheme begins with a letter, so a text that begins with a space,
a tab or a byte order mark has none.";

const OPAQUE_BASE: &str =
    "A base such as `mailto:` or `data:` has no path that a relative link could start
from.";

const TWO_SLASHES: &str =
    "Browsers add the missing slashes. Other programs take `https:example.com` for a
relative link, or refuse it.";

const HOST_MISSING: &str =
    "Browsers refuse the link, or take the first segment of its path as the host.";

const HOST_DOMAIN: &str =
    "Browsers open some such names, for example with `_`, but other programs refuse
them. A dot at the end, as in `http://example.com./`, breaks no rule here,
though UTS #46 refuses it if lengths are verified.";

const HOST_NUMBER: &str =
    "Browsers also read short and hexadecimal forms, but rarely as the address that
was meant.";

const HOST_IPV6: &str =
    "The brackets keep the colons of an address apart from the colon before a port.
If they don't enclose an address, no program can repair the link.";

const HOST_CODE_POINT: &str =
    "These code points would end the host, so programs would disagree on which one is
meant.";

const PORT_DIGIT: &str = "Browsers refuse anything else there. If a user name is before a host, its
password is read as a port.";

const PORT_RANGE: &str = "No server can be reached at such a port, and browsers refuse the link.";

const FIRST_SEGMENT_EMPTY: &str =
    "Two slashes after a host usually come from two paths that were joined
carelessly. Servers, caches and proxies disagree on whether they count as one.";

const DRIVE_AFTER_HOST: &str =
    "On Windows a drive letter begins a local path. After a host it isn't clear which
of the two is meant, and browsers disagree. `file://h/C:` is valid, because no
`/` follows the drive letter.";

const CODE_POINT: &str =
    "Browsers percent-encode these code points. Feed readers, mail programs and chats
often end the link there, or don't recognize it at all.";

const PERCENT: &str = "Some programs keep such a `%`, some drop it, and some refuse the link.";
