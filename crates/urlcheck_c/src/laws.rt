//! When a verdict is given. Each law is the contract of a function with an empty body, so that it is proved and listed
//! like the contracts of the exports, which say what a verdict means.
ghost use Rattle.urlcheck_c.specs.Laws.{NoBaseUtf8IsReported, NoProfileIsReported, NoUtf8IsReported};

/// The verdict is 6 whenever no profile has the number, 2 whenever the text isn't UTF-8 in each profile, and 4 whenever
/// the text is UTF-8 and the base isn't. So none of these is ever reported as out of memory.
pub fn what_cannot_be_read_is_reported()
    ensures profile { NoProfileIsReported }
    ensures text { NoUtf8IsReported }
    ensures base { NoBaseUtf8IsReported }
{}
