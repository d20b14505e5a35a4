//! Laws of the texts on which the URL parser is silent, which are the valid texts of the parser's profile. Each is the
//! contract of a function with an empty body.
ghost use Rattle.uv_parser.specs.Laws.Differences.{SilentTextsAreValidOrDiffer};
ghost use Rattle.uv_parser.specs.Laws.ValidTexts.{ValidTextsRunSilently};
ghost use Rattle.uv_parser.specs.Rows.SilentDifferences.{SilentDifferenceRows};

/// On every valid text of any profile, alone or against a base that is well formed under the parser's profile, the URL
/// parser runs to its end with no validation error and no failure, and gives exactly the URL that the text's parts
/// denote (URL Standard, section 4.4).
pub fn valid_texts_run_silently()
    ensures { ValidTextsRunSilently }
{}

/// Every valid text of the parser's profile is valid under the standard profile with the same parts, or it has one of
/// the named differences: a foreign host, which an address of fewer than four numbers is too, an empty first segment
/// after an authority, a drive letter after a host, an empty authority of a file URL with no path, or a space in an
/// opaque path; and with a difference it has no valid parts under the standard profile (URL Standard, sections 4.3 and
/// 4.4).
pub fn silent_texts_are_valid_or_differ()
    ensures { SilentTextsAreValidOrDiffer }
{}

/// Each of these texts is valid under the parser's profile, its parts have the difference that is named, and it has no
/// valid parts under the standard profile (URL Standard, sections 4.3 and 4.4).
pub fn silent_difference_rows()
    ensures { SilentDifferenceRows }
{}
