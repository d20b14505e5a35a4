//! Laws over the definitions. Each is the contract of a function with an empty body, so that it is proved and listed
//! like any other contract.
ghost use Rattle.uv_model.specs.Hosts.Address.{AreLibraryTexts};
ghost use Rattle.uv_model.specs.Hosts.Domain.{StandardDomainsAreWide, WideDomainsAreParsers};
ghost use Rattle.uv_model.specs.Laws.Addresses.{AddressesAreReadBack};
ghost use Rattle.uv_model.specs.Laws.CutRows.{CutAndViolationRows};
ghost use Rattle.uv_model.specs.Laws.Cuts.{EveryTextHasOneCut, NearestBracketsDecide, PartsAreUnique};
ghost use Rattle.uv_model.specs.Laws.Cuts.{TextsWithAViolationHaveNoParts, TextsWithASchemeIgnoreTheBase};
ghost use Rattle.uv_model.specs.Laws.Cuts.{ValidTextsAreCutIntoTheirParts};
ghost use Rattle.uv_model.specs.Laws.Wholes.{DenotedRecordsAreWellFormed, UnitsAreFaultless, StandardTextsAreWide};
ghost use Rattle.uv_model.specs.Laws.Wholes.{WideTextsAreParsers};
ghost use Rattle.uv_model.specs.Records.WellFormed.{StandardRecordsAreWide, WideRecordsAreParsers};

/// A text is a concatenation of URL units exactly when no code point of it is a fault of units.
pub fn units_are_faultless()
    ensures { UnitsAreFaultless }
{}

/// Every text has, against every base, exactly one cut into the texts of its parts: the computed one.
pub fn every_text_has_one_cut()
    ensures { EveryTextHasOneCut }
{}

/// A place of an authority is within brackets exactly when the nearest bracket before it is `[`.
pub fn nearest_brackets_decide()
    ensures { NearestBracketsDecide }
{}

/// The cut of a valid text has the texts of its parts.
pub fn valid_texts_are_cut_into_their_parts()
    ensures { ValidTextsAreCutIntoTheirParts }
{}

/// A text that begins with a scheme and `:` has the same cut against every base, and in each profile the same valid
/// parts and violations.
pub fn texts_with_a_scheme_ignore_the_base()
    ensures { TextsWithASchemeIgnoreTheBase }
{}

/// In each profile a valid text has only one form, and only one text and value of each part, whether against any base
/// or against none.
pub fn parts_of_a_valid_text_are_unique()
    ensures { PartsAreUnique }
{}

/// Cuts of given texts, and violations of refused texts, each at its place.
pub fn cut_and_violation_rows()
    ensures { CutAndViolationRows }
{}

/// A text with a violation of a profile has no valid parts in it.
pub fn texts_with_a_violation_have_no_parts()
    ensures { TextsWithAViolationHaveNoParts }
{}

/// The standard library's grammar has the same texts of IPv4 and IPv6 addresses, with the same values (URL Standard,
/// section 3.4; RFC 4291, section 2.2).
pub fn addresses_are_library_texts()
    ensures { AreLibraryTexts }
{}

/// What the host serializer writes for an address denotes that address, and no two addresses have one text (URL
/// Standard, sections 3.4 and 3.6).
pub fn addresses_are_read_back()
    ensures { AddressesAreReadBack }
{}

/// The record that a valid text of any profile denotes, alone or against a base that is well formed under the same
/// profile, is well formed by it (URL Standard, sections 4.1 and 4.3). Against any record it is well formed under the
/// parser's profile.
pub fn denoted_records_are_well_formed()
    ensures { DenotedRecordsAreWellFormed }
{}

/// A valid text of the standard profile is one of the wide profile, alone or against the same base, with the same
/// parts, and so it denotes the same record. A domain of the standard profile is one of the wide profile with the same
/// form, and a record that is well formed under the standard profile is so under the wide profile.
pub fn standard_texts_are_wide()
    ensures texts { StandardTextsAreWide }
    ensures domains { StandardDomainsAreWide }
    ensures records { StandardRecordsAreWide }
{}

/// A valid text of the wide profile is one of the parser's profile, alone or against the same base, with the same
/// parts, and so it denotes the same record. A domain of the wide profile is one of the parser's profile with the same
/// form, and a record that is well formed under the wide profile is so under the parser's profile.
pub fn wide_texts_are_parsers()
    ensures texts { WideTextsAreParsers }
    ensures domains { WideDomainsAreParsers }
    ensures records { WideRecordsAreParsers }
{}
