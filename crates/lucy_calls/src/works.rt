use lucy_plan::Call;
use sqlite_items::Items;

/// The calls that replicas have to make.
#[derive(Debug, Drop)]
pub struct Work {
    /// One list for each replica, by its number. The calls of a list are made in order.
    pub lists: Items<Items<Call>>,
}
