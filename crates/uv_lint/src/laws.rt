//! Laws over reports on files, each as the clause of a function that does nothing.
ghost use Rattle.uv_lint.specs.LocatedRows.{LocatedFaultRows, LocatedRows};
ghost use Rattle.uv_lint.specs.Report.{ForeignColumns};
ghost use Rattle.uv_lint.specs.ReportRows.{LintRows};

/// The lines of a list that is written out, as they are checked, and its counts.
pub fn lint_rows()
    ensures { LintRows }
{}

/// Lines that are written out, with the place that each says its link to be at, or without.
pub fn located_rows()
    ensures { LocatedRows }
{}

/// Lines that don't say it, with the reason.
pub fn located_fault_rows()
    ensures { LocatedFaultRows }
{}

/// The column of a line that isn't UTF-8, in each unit.
pub fn foreign_columns()
    ensures { ForeignColumns }
{}
