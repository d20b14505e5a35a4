//! Why a line doesn't say where its link is.
ghost use Rattle.uv_shown.specs.Escaping.Printable.{IsLine};

/// Why a line doesn't say where its link is, like `FILE:LINE:COLUMN:LINK` does. If there aren't two numbers between
/// three colons, LINE is the first number between two colons, or between a colon and the line's end.
#[derive(Clone, Copy)]
pub enum LocatedFault {
    /// FILE is empty, and LINE and COLUMN are there.
    NoFile,
    /// There is no LINE.
    NoLine,
    /// LINE is 0, or above 4294967295.
    LineRange,
    /// There is no COLUMN.
    NoColumn,
    /// COLUMN is 0, or above 4294967295.
    ColumnRange,
    /// There is no LINK.
    NoLink,
}

impl LocatedFault {
    /// What is wrong with such a line, as a sentence without its full stop.
    pub fn sentence(self) -> &'static str
        ensures { IsLine result.now }
    {
        match self {
            LocatedFault::NoFile => "this line isn't FILE:LINE:COLUMN:LINK, since FILE is empty",
            LocatedFault::NoLine => "this line isn't FILE:LINE:COLUMN:LINK, since LINE is missing",
            LocatedFault::LineRange => {
                "this line isn't FILE:LINE:COLUMN:LINK, since LINE isn't from 1 to 4294967295"
            }
            LocatedFault::NoColumn => {
                "this line isn't FILE:LINE:COLUMN:LINK, since COLUMN is missing"
            }
            LocatedFault::ColumnRange => {
                "this line isn't FILE:LINE:COLUMN:LINK, since COLUMN isn't from 1 to 4294967295"
            }
            LocatedFault::NoLink => "this line isn't FILE:LINE:COLUMN:LINK, since LINK is missing",
        }
    }
}
