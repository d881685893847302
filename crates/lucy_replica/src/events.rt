use lucy_expr::Id;

/// How far a change is.
#[derive(Clone, Copy, Debug, PartialEq, Eq)]
pub enum Stage {
    /// Replicas are being frozen.
    Freezing,
    /// It was decided, and replicas take what was decided.
    Decided,
}

/// What a step is answered.
#[derive(Clone, Copy, Debug, PartialEq, Eq)]
pub enum Event {
    /// A submit: the replica accepted its next call, which has this id.
    Done(Id),
    /// A submit: the result of the next call breaks the invariant.
    Broken,
    /// A submit: the next call is not inside the segment, and waits for a change.
    Wants,
    /// A submit: every call of the replica has a reply.
    Ended,
    /// A send: the packet has this number.
    Sent(u64),
    /// A delivery: the replica merged what it got.
    Merged,
    /// A delivery: the packet is of another record than the replica's.
    Stale,
    /// A delivery: the deeper of both expressions is at the plan's limit of depth or past it.
    Deep,
    /// A delivery: no packet with this number was sent yet.
    NoPacket,
    /// The replica is frozen for a change.
    Held,
    /// A thaw: the replica is not frozen.
    Free,
    /// A freeze, an opening or a thaw: no change is on.
    Idle,
    /// The change that is on is at another stage.
    Busy(Stage),
    /// A begin: the replica wants no change.
    Nothing,
    /// A begin: a change is on.
    Begun,
    /// A freeze: the replica is frozen.
    Frozen,
    /// An opening: the record with this number was opened.
    Opened(u64),
    /// An opening: the wanted call's result breaks the invariant.
    RuledBroken,
    /// An opening: no call is wanted any more.
    RuledNothing,
    /// A thaw: the replica took the new record.
    Adopted,
    /// A thaw: the replica took the new record, which its call with this id opened.
    Moved(Id),
    /// A thaw: the replica's call was refused.
    Refused,
    /// A thaw: the replica stays as it was.
    Kept,
}
