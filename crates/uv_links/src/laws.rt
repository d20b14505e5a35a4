//! A law over lists of links. It is the contract of a function with an empty body, so that it is proved and listed like
//! any other contract.
ghost use Rattle.uv_links.specs.LineRows.{LineRows};

/// The lines of given lists.
pub fn line_rows()
    ensures { LineRows }
{}
