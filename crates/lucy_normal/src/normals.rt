use lucy_clauses::Atom;
use sqlite_items::Items;

/// An inequality, or what holds where each of its parts does, or any of them.
#[derive(Debug, Drop)]
pub enum Normal {
    /// It holds where the atom does.
    Atom(Atom),
    /// It holds where each part does. With no part it holds everywhere.
    All(Items<Normal>),
    /// It holds where at least one part does. With no part it holds nowhere.
    Any(Items<Normal>),
}
