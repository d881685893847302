//! Laws of the definitions that contracts cite.
ghost use Rattle.lucy_simplex.specs.Laws.{RefutedHasNoPoint, PivotKeepsSolutions, RunsAreOne};

/// Where multipliers refute rows and bounds, no point satisfies them.
pub fn multipliers_refute()
    ensures { RefutedHasNoPoint }
{}

/// A pivot keeps the solutions of a tableau.
pub fn pivot_keeps_solutions()
    ensures { PivotKeepsSolutions }
{}

/// Rows and bounds determine the tableau after so many pivots: the run is one.
pub fn runs_are_one()
    ensures { RunsAreOne }
{}
