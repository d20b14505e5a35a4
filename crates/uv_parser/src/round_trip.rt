//! The laws of the round trip: what the URL serializer writes for a URL is parsed as that URL. Each is the contract of
//! a function with an empty body.
ghost use Rattle.uv_parser.specs.Laws.RoundTrip.{DenotedUrlsAreReadBack, ParsedUrlsAreReadBack, StableUrlsAreReadBack};

/// The parser, without a base, makes of the serialized text of every stable URL that is well formed under the parser's
/// profile exactly that URL, within the bound on its steps and without a validation error (URL Standard, sections 4.1,
/// 4.4 and 4.5). A URL is stable if the host parser gives its domain unchanged, which it doesn't for `xn--a`.
pub fn stable_urls_are_read_back()
    ensures { StableUrlsAreReadBack }
{}

/// The URL that the parser makes of a text without a validation error, alone or against a base that is well formed
/// under the parser's profile, is well formed by that profile; it is stable where the base is, and so the parser makes
/// of its serialized text that URL again (URL Standard, sections 4.4 and 4.5).
pub fn parsed_urls_are_read_back()
    ensures { ParsedUrlsAreReadBack }
{}

/// The URL that a valid text of any profile denotes is stable where its base is, and so it is read back from its
/// serialized text (URL Standard, sections 4.3 to 4.5).
pub fn denoted_urls_are_read_back()
    ensures { DenotedUrlsAreReadBack }
{}
