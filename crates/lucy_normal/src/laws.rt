//! Laws of normal conditions and of their clauses.
ghost use Rattle.lucy_normal.specs.Laws.{ClausesSay, ClausesCanHold, ClausesAreNarrow, FlatMeans, NormalMeans, NormalIsSmall};

/// Where the clauses of normal conditions hold, so do these, and the formula behind which they stand.
pub fn clauses_say()
    ensures { ClausesSay }
{}

/// Where normal conditions hold, their clauses do, with the stated numbers of the fresh variables.
pub fn clauses_can_hold()
    ensures { ClausesCanHold }
{}

/// A flattened list holds where the list does.
pub fn flat_means()
    ensures { FlatMeans }
{}

/// The normal condition of a condition holds where the condition does, and its negative where it does not.
pub fn normal_means()
    ensures { NormalMeans }
{}

/// The atoms of its normal conditions are small, and over the variables of the state.
pub fn normal_is_small()
    ensures { NormalIsSmall }
{}

/// The clauses of small normal conditions, over small ranges, make a narrow formula.
pub fn clauses_are_narrow()
    ensures { ClausesAreNarrow }
{}
