ghost use Rattle.als_report.specs.declared.report.Report.{Report};

use crate::report::Report;

/// What reports on a node. Every thread that serves requests calls it, so it never waits.
pub trait Reports {
    /// The reports that it may return.
    ghost tells: { Self → Report → Type 0 } = { λ _ _. Unit {0} };

    /// The current report.
    fn report(&self) -> Report
        ensures { tells self.now result };
}

impl<S: Reports> Reports for &S {
    ghost tells = { λ reports report. S.tells reports.now report };

    fn report(&self) -> Report {
        (**self).report()
    }
}
