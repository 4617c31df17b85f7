//! That a check's report is one. The function has nothing to run.

ghost use Rattle.recheck.specs.Fits.{ReportsFit};

/// The numbers of a report fit together, whatever the blocks hold.
pub fn reports_fit()
    ensures { ReportsFit }
{}
