//! Laws over the URL parser. Each is the contract of a function with an empty body, so that it is proved and listed
//! like any other contract.
ghost use Rattle.uv_parser.specs.HostParser.{DomainsAreParsed, EmptyHostIsParsed, Ipv4HostsAreParsed};
ghost use Rattle.uv_parser.specs.HostParser.{Ipv6HostsAreParsed, OpaqueHostsAreParsed, OtherHostsAreTaken};
ghost use Rattle.uv_parser.specs.HostParser.{SpecialHostsAreTaken};
ghost use Rattle.uv_parser.specs.Ipv4Parser.{Ipv4ParserTakesNumbers, Ipv4TextsAreParsed};
ghost use Rattle.uv_parser.specs.Ipv6Parser.{Ipv6ParserTakesIpv6Texts, Ipv6TextsAreParsed};
ghost use Rattle.uv_parser.specs.Laws.OtherHosts.{SilentOtherHostsAreValid};
ghost use Rattle.uv_parser.specs.Rows.AddressParsers.{AddressParserRows};
ghost use Rattle.uv_parser.specs.Rows.Definitions.{DefinitionRows};
ghost use Rattle.uv_parser.specs.Rows.Denotation.{DenotationRows};
ghost use Rattle.uv_parser.specs.Rows.File.{FileRows};
ghost use Rattle.uv_parser.specs.Rows.HostParser.{HostParserRows};
ghost use Rattle.uv_parser.specs.Rows.Hosts.{HostRows};
ghost use Rattle.uv_parser.specs.Rows.Machine.{MachineRows};
ghost use Rattle.uv_parser.specs.Rows.OpaquePaths.{OpaquePathRows};
ghost use Rattle.uv_parser.specs.Rows.Other.{OtherRows};
ghost use Rattle.uv_parser.specs.Rows.ParserProfile.{ParserProfileRows};
ghost use Rattle.uv_parser.specs.Rows.Profiles.{ProfileRows};
ghost use Rattle.uv_parser.specs.Rows.ReferenceMatrix.{ReferenceMatrixRows};
ghost use Rattle.uv_parser.specs.Rows.References.{ReferenceRows};
ghost use Rattle.uv_parser.specs.Rows.Special.{SpecialRows};
ghost use Rattle.uv_parser.specs.Laws.DecidedTexts.{TextsAreDecided};

/// The run of the parser machine on a text, alone or against a base that is well formed under the parser's profile, is
/// done, with the URL that the parts denote, exactly when the text is valid under the parser's profile with these
/// parts, and otherwise it stops. Both happen within the bound on its steps. ToASCII is the definition of the crate
/// `idna`, which gives nothing above its own limits: 1,000 code points for a label beyond ASCII, and 2,000 bytes for a
/// label's Punycode. Above them the machine stops, while the Standard's parser may be silent.
pub fn texts_are_decided()
    ensures { TextsAreDecided }
{}

/// On every IPv4 text the IPv4 parser gives exactly the text's value (URL Standard, section 3.5).
pub fn ipv4_texts_are_parsed()
    ensures { Ipv4TextsAreParsed }
{}

/// The IPv4 parser takes only one to four shortest decimal numbers of at most 255, and gives exactly their value, in
/// which the last number is the lowest byte and those before it are the highest ones (URL Standard, section 3.5).
pub fn ipv4_parser_takes_numbers()
    ensures { Ipv4ParserTakesNumbers }
{}

/// On every IPv6 text the IPv6 parser gives exactly the text's eight pieces (URL Standard, section 3.5).
pub fn ipv6_texts_are_parsed()
    ensures { Ipv6TextsAreParsed }
{}

/// The IPv6 parser takes only the IPv6 texts: if it gives pieces, the text is an IPv6 text of these pieces (URL
/// Standard, section 3.5).
pub fn ipv6_parser_takes_ipv6_texts()
    ensures { Ipv6ParserTakesIpv6Texts }
{}

/// What both parsers make of given texts, such as the failure on `1::2::3` (URL Standard, section 3.5).
pub fn address_parser_rows()
    ensures { AddressParserRows }
{}

/// For a special URL the host parser makes of every domain that is valid under some profile exactly the domain of its
/// form (URL Standard, section 3.5).
pub fn domains_are_parsed()
    ensures { DomainsAreParsed }
{}

/// For a special URL the host parser makes of every text of an IPv4 address under any profile the address of exactly
/// its value (URL Standard, section 3.5).
pub fn ipv4_hosts_are_parsed()
    ensures { Ipv4HostsAreParsed }
{}

/// For every URL the host parser makes of every IPv6 text in brackets the address of exactly its eight pieces (URL
/// Standard, section 3.5).
pub fn ipv6_hosts_are_parsed()
    ensures { Ipv6HostsAreParsed }
{}

/// For a URL that isn't special the host parser makes of every opaque-host string without brackets the opaque host of
/// exactly the encoded text (URL Standard, section 3.5).
pub fn opaque_hosts_are_parsed()
    ensures { OpaqueHostsAreParsed }
{}

/// For a URL that isn't special the host parser makes of the empty text the empty host (URL Standard, section 3.5).
pub fn empty_host_is_parsed()
    ensures { EmptyHostIsParsed }
{}

/// For a special URL the host parser takes only the hosts of the parser's profile, each with its value: an IPv6 text in
/// brackets, or a text that, percent-decoded, has a form with the parser's settings of ToASCII, which is a domain or
/// one to four numbers (URL Standard, section 3.5).
pub fn special_hosts_are_taken()
    ensures { SpecialHostsAreTaken }
{}

/// For a URL that isn't special the host parser takes nothing but the empty text, an IPv6 text in brackets and an
/// opaque-host string without brackets, each as its host (URL Standard, section 3.5).
pub fn other_hosts_are_taken()
    ensures { OtherHostsAreTaken }
{}

/// As the host of a URL of class Other the URL parser is silent exactly on what is valid there: an opaque-host string,
/// an IPv6 text in brackets, or nothing (URL Standard, sections 3.4 and 4.4).
pub fn silent_other_hosts_are_valid()
    ensures { SilentOtherHostsAreValid }
{}

/// What the parser machine does on one text for each way in which it stops or is done (URL Standard, section 4.4).
pub fn machine_rows()
    ensures { MachineRows }
{}

/// What the parser machine does on texts with an opaque path, and before its first step (URL Standard, section 4.4).
pub fn opaque_path_rows()
    ensures { OpaquePathRows }
{}

/// What the parser machine does on texts with a special scheme other than file (URL Standard, section 4.4).
pub fn special_rows()
    ensures { SpecialRows }
{}

/// What the parser machine, with its host parser, does on texts with domains and addresses (URL Standard, section 3.5).
pub fn host_rows()
    ensures { HostRows }
{}

/// What the parser machine does on texts with a scheme that isn't special, followed by `/` (URL Standard, section 4.4).
pub fn other_rows()
    ensures { OtherRows }
{}

/// What the parser machine does on texts with the scheme file (URL Standard, section 4.4).
pub fn file_rows()
    ensures { FileRows }
{}

/// What the parser machine does on texts against a base (URL Standard, section 4.4).
pub fn reference_rows()
    ensures { ReferenceRows }
{}

/// What the parser machine does on fifteen texts without a scheme against each of nine bases (URL Standard, section
/// 4.4), and the violations of those that are refused.
pub fn reference_matrix_rows()
    ensures { ReferenceMatrixRows }
{}

/// Texts that the parser's profile takes, most of them refused under the standard profile, and texts that it refuses
/// too: what the parser machine does on them, and that they are valid, with parts that denote the machine's URL, or
/// have no valid parts (URL Standard, sections 3.5 and 4.4).
pub fn parser_profile_rows()
    ensures { ParserProfileRows }
{}

/// What the parts of some texts denote, which is what the parser machine is done with, and what some paths become when
/// they are shortened or walked (URL Standard, sections 4.2 and 4.4).
pub fn denotation_rows()
    ensures { DenotationRows }
{}

/// Valid parts, well-formed URLs and violations of given hosts, and parts and URLs that aren't valid or well formed
/// (URL Standard, sections 3.4, 4.1 and 4.3).
pub fn definition_rows()
    ensures { DefinitionRows }
{}

/// Texts on which the profiles differ, and some on which they agree: valid parts, the URL that they denote, and
/// violations.
pub fn profile_rows()
    ensures { ProfileRows }
{}

/// What the host parser makes of given texts, such as `example%2Ecom` (URL Standard, section 3.5).
pub fn host_parser_rows()
    ensures { HostParserRows }
{}
