//! Laws of the definitions that contracts cite.
ghost use Rattle.lucy_cert.specs.Laws.{RefutedHasNoModel};
ghost use Rattle.lucy_checker.specs.Checkers.{CheckersAreExact};

/// A refuted formula has no model.
pub fn refuted_has_no_model()
    ensures { RefutedHasNoModel }
{}

/// A checker that is given the steps of a proof one by one has the first fault of the proof.
pub fn checkers_are_exact()
    ensures { CheckersAreExact }
{}
