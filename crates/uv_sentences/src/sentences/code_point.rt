//! What a code point is called: `U+` and its number, and if it is ASCII its name.

use std::alloc::{AllocError, Global};
use uv_shown::is_hidden;

// The ASCII code points, by their numbers: `U+`, the number, and the name (Unicode Character Database).
const ASCII_POINTS: [&str; 128] = [
    "U+0000 NULL",
    "U+0001 START OF HEADING",
    "U+0002 START OF TEXT",
    "U+0003 END OF TEXT",
    "U+0004 END OF TRANSMISSION",
    "U+0005 ENQUIRY",
    "U+0006 ACKNOWLEDGE",
    "U+0007 ALERT",
    "U+0008 BACKSPACE",
    "U+0009 CHARACTER TABULATION",
    "U+000A LINE FEED",
    "U+000B LINE TABULATION",
    "U+000C FORM FEED",
    "U+000D CARRIAGE RETURN",
    "U+000E SHIFT OUT",
    "U+000F SHIFT IN",
    "U+0010 DATA LINK ESCAPE",
    "U+0011 DEVICE CONTROL ONE",
    "U+0012 DEVICE CONTROL TWO",
    "U+0013 DEVICE CONTROL THREE",
    "U+0014 DEVICE CONTROL FOUR",
    "U+0015 NEGATIVE ACKNOWLEDGE",
    "U+0016 SYNCHRONOUS IDLE",
    "U+0017 END OF TRANSMISSION BLOCK",
    "U+0018 CANCEL",
    "U+0019 END OF MEDIUM",
    "U+001A SUBSTITUTE",
    "U+001B ESCAPE",
    "U+001C INFORMATION SEPARATOR FOUR",
    "U+001D INFORMATION SEPARATOR THREE",
    "U+001E INFORMATION SEPARATOR TWO",
    "U+001F INFORMATION SEPARATOR ONE",
    "U+0020 SPACE",
    "U+0021 EXCLAMATION MARK",
    "U+0022 QUOTATION MARK",
    "U+0023 NUMBER SIGN",
    "U+0024 DOLLAR SIGN",
    "U+0025 PERCENT SIGN",
    "U+0026 AMPERSAND",
    "U+0027 APOSTROPHE",
    "U+0028 LEFT PARENTHESIS",
    "U+0029 RIGHT PARENTHESIS",
    "U+002A ASTERISK",
    "U+002B PLUS SIGN",
    "U+002C COMMA",
    "U+002D HYPHEN-MINUS",
    "U+002E FULL STOP",
    "U+002F SOLIDUS",
    "U+0030 DIGIT ZERO",
    "U+0031 DIGIT ONE",
    "U+0032 DIGIT TWO",
    "U+0033 DIGIT THREE",
    "U+0034 DIGIT FOUR",
    "U+0035 DIGIT FIVE",
    "U+0036 DIGIT SIX",
    "U+0037 DIGIT SEVEN",
    "U+0038 DIGIT EIGHT",
    "U+0039 DIGIT NINE",
    "U+003A COLON",
    "U+003B SEMICOLON",
    "U+003C LESS-THAN SIGN",
    "U+003D EQUALS SIGN",
    "U+003E GREATER-THAN SIGN",
    "U+003F QUESTION MARK",
    "U+0040 COMMERCIAL AT",
    "U+0041 LATIN CAPITAL LETTER A",
    "U+0042 LATIN CAPITAL LETTER B",
    "U+0043 LATIN CAPITAL LETTER C",
    "U+0044 LATIN CAPITAL LETTER D",
    "U+0045 LATIN CAPITAL LETTER E",
    "U+0046 LATIN CAPITAL LETTER F",
    "U+0047 LATIN CAPITAL LETTER G",
    "U+0048 LATIN CAPITAL LETTER H",
    "U+0049 LATIN CAPITAL LETTER I",
    "U+004A LATIN CAPITAL LETTER J",
    "U+004B LATIN CAPITAL LETTER K",
    "U+004C LATIN CAPITAL LETTER L",
    "U+004D LATIN CAPITAL LETTER M",
    "U+004E LATIN CAPITAL LETTER N",
    "U+004F LATIN CAPITAL LETTER O",
    "U+0050 LATIN CAPITAL LETTER P",
    "U+0051 LATIN CAPITAL LETTER Q",
    "U+0052 LATIN CAPITAL LETTER R",
    "U+0053 LATIN CAPITAL LETTER S",
    "U+0054 LATIN CAPITAL LETTER T",
    "U+0055 LATIN CAPITAL LETTER U",
    "U+0056 LATIN CAPITAL LETTER V",
    "U+0057 LATIN CAPITAL LETTER W",
    "U+0058 LATIN CAPITAL LETTER X",
    "U+0059 LATIN CAPITAL LETTER Y",
    "U+005A LATIN CAPITAL LETTER Z",
    "U+005B LEFT SQUARE BRACKET",
    "U+005C REVERSE SOLIDUS",
    "U+005D RIGHT SQUARE BRACKET",
    "U+005E CIRCUMFLEX ACCENT",
    "U+005F LOW LINE",
    "U+0060 GRAVE ACCENT",
    "U+0061 LATIN SMALL LETTER A",
    "U+0062 LATIN SMALL LETTER B",
    "U+0063 LATIN SMALL LETTER C",
    "U+0064 LATIN SMALL LETTER D",
    "U+0065 LATIN SMALL LETTER E",
    "U+0066 LATIN SMALL LETTER F",
    "U+0067 LATIN SMALL LETTER G",
    "U+0068 LATIN SMALL LETTER H",
    "U+0069 LATIN SMALL LETTER I",
    "U+006A LATIN SMALL LETTER J",
    "U+006B LATIN SMALL LETTER K",
    "U+006C LATIN SMALL LETTER L",
    "U+006D LATIN SMALL LETTER M",
    "U+006E LATIN SMALL LETTER N",
    "U+006F LATIN SMALL LETTER O",
    "U+0070 LATIN SMALL LETTER P",
    "U+0071 LATIN SMALL LETTER Q",
    "U+0072 LATIN SMALL LETTER R",
    "U+0073 LATIN SMALL LETTER S",
    "U+0074 LATIN SMALL LETTER T",
    "U+0075 LATIN SMALL LETTER U",
    "U+0076 LATIN SMALL LETTER V",
    "U+0077 LATIN SMALL LETTER W",
    "U+0078 LATIN SMALL LETTER X",
    "U+0079 LATIN SMALL LETTER Y",
    "U+007A LATIN SMALL LETTER Z",
    "U+007B LEFT CURLY BRACKET",
    "U+007C VERTICAL LINE",
    "U+007D RIGHT CURLY BRACKET",
    "U+007E TILDE",
    "U+007F DELETE",
];

/// A code point by `U+`, its number, and its name; or if it isn't ASCII and can be seen, the code point itself.
pub(crate) fn point_name(alloc: Global, c: char) -> Result<String, AllocError> {
    let number = u32::from(c);
    match ASCII_POINTS.get(c as usize) {
        Some(name) => String::from_str(alloc, name),
        None if is_noncharacter(c) => format!(in alloc; "U+{number:04X} <noncharacter>"),
        None if is_unseen(c) => format!(in alloc; "U+{number:04X}"),
        None => format!(in alloc; "U+{number:04X} {c}"),
    }
}

// Whether a code point is a noncharacter (Infra Standard, section 4.6).
fn is_noncharacter(c: char) -> bool {
    match c {
        '\u{FDD0}'..='\u{FDEF}' => true,
        _ => u32::from(c) % 0x10000 >= 0xFFFE,
    }
}

/// Whether nothing is seen of a code point by itself: it isn't shown as it is, or is a tab, a space or invisible.
pub(crate) fn is_unseen(c: char) -> bool {
    is_hidden(c) || c == '\t' || is_space(c) || is_invisible(c)
}

// Whether a code point is a space.
fn is_space(c: char) -> bool {
    match c {
        ' ' | '\u{A0}' | '\u{1680}' | '\u{202F}' | '\u{205F}' | '\u{3000}' => true,
        '\u{2000}'..='\u{200A}' => true,
        _ => false,
    }
}

// Whether a code point is a format character, which draws nothing.
fn is_invisible(c: char) -> bool {
    match c {
        '\u{AD}' | '\u{180E}' | '\u{FEFF}' => true,
        '\u{200B}'..='\u{200D}' | '\u{2060}'..='\u{206F}' => true,
        '\u{FFF9}'..='\u{FFFB}' | '\u{E0001}'..='\u{E007F}' => true,
        _ => false,
    }
}
