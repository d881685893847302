use lucy_expr::Id;

/// What a replica answers when it tries the next of its calls.
#[derive(Clone, Copy, Debug, PartialEq, Eq)]
pub enum Submitted {
    /// The call was accepted inside its segment, as this id.
    Done(Id),
    /// The call's result breaks the invariant.
    Broken,
    /// The result satisfies the invariant, but the call is not inside: it waits for a change.
    Wants,
    /// Every call has a reply.
    Ended,
}

/// What a replica answers to what another one sent.
#[derive(Clone, Copy, Debug, PartialEq, Eq)]
pub enum Received {
    /// Its expression and its state are merged with what was sent.
    Merged,
    /// It was sent from another record: nothing changed.
    Stale,
    /// It was sent from the same record, and the deeper of both expressions is at the plan's limit of
    /// depth or past it: nothing changed.
    Deep,
}

/// What a replica answers to the ruling of a change.
#[derive(Clone, Copy, Debug, PartialEq, Eq)]
pub enum Adoption {
    /// It took the new record, which its call opened, as this id.
    Moved(Id),
    /// It took the new record.
    Adopted,
    /// Its call, for which it wanted the change, was refused.
    Refused,
    /// It stays as it was.
    Kept,
}
