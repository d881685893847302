/// One thing that happens in a run.
#[derive(Clone, Copy, Debug, PartialEq, Eq)]
pub enum Step {
    /// This replica makes its next call.
    Submit(u32),
    /// This replica sends what it has: the packet gets the next number.
    Send(u32),
    /// A replica gets a packet that was sent.
    Deliver {
        /// The replica that gets it.
        to: u32,
        /// The number of the packet.
        packet: u64,
    },
    /// This replica begins a change.
    Begin(u32),
    /// This replica is frozen for the change that is on.
    Freeze(u32),
    /// The change that is on is decided.
    OpenEpoch,
    /// This replica takes what was decided.
    Thaw(u32),
}
