//! Laws over edited texts. Each is the contract of a function with an empty body, so that it is proved and listed like
//! any other contract. What the crate `url` makes of a text is the definition that its contract names.
ghost use Rattle.uv_mend.specs.Escapes.{EscapedTextsAreEscapings};
ghost use Rattle.uv_mend.specs.Readings.{StrippedTextsAreReadAlike, SlashedTextsAreReadAlike};

/// If everything that isn't a unit is written as escapes, the text is the same but for some of its code points, which
/// are the escapes of their UTF-8.
pub fn escaped_texts_are_escapings()
    ensures { EscapedTextsAreEscapings }
{}

/// The crate `url`, alone or against any base of its own, makes of every text what it makes of the text without C0
/// controls and spaces at its ends, tabs, LF and CR: the same URL, or the same error (URL Standard, section 4.4, the
/// first steps of the basic URL parser).
pub fn stripped_texts_are_read_alike()
    ensures { StrippedTextsAreReadAlike }
{}

/// The crate `url`, alone or against any base of its own, makes of every text what it makes of the text with its
/// slashes as they are read: the same URL, or the same error. The record by which the slashes are written has a scheme
/// of the class that the base's scheme has. Excepted is a text that has the special scheme of its base and fewer than
/// two slash marks after that: it is read as one without a scheme (URL Standard, section 4.4, the scheme state).
pub fn slashed_texts_are_read_alike()
    ensures { SlashedTextsAreReadAlike }
{}
