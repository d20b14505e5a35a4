//! Laws on how many steps the URL parser takes. Each is the contract of a function with an empty body.
ghost use Rattle.uv_parser.specs.Rows.StepCounts.{StepCountRows};
ghost use Rattle.uv_parser.specs.Laws.StepCounts.{BoundIsTaken, RunsEnd, RunsKeepTheirEnd, TextsAreDecidedSoon};

/// Against every base and without one the run of every text, valid or not, has ended after `2n + 5` steps, where `n` is
/// the number of its code points: it is done, or it has stopped (URL Standard, section 4.4).
pub fn runs_end()
    ensures { RunsEnd }
{}

/// More than `2n + 5` steps give what `2n + 5` do.
pub fn runs_keep_their_end()
    ensures { RunsKeepTheirEnd }
{}

/// Within any number of steps from `2n + 5` on the run of a text, alone or against a base that is well formed under the
/// parser's profile, is done, with the URL that the parts denote, exactly when the text is valid under the parser's
/// profile with parts, and otherwise it has stopped.
pub fn texts_are_decided_soon()
    ensures { TextsAreDecidedSoon }
{}

/// No smaller bound holds: for each length from four on there is a text whose run, against `http://h/`, hasn't ended
/// after `2n + 4` steps.
pub fn bound_is_taken()
    ensures { BoundIsTaken }
{}

/// Runs of texts that take exactly `2n + 5` steps.
pub fn step_count_rows()
    ensures { StepCountRows }
{}
