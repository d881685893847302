use lucy_replica::Life;

/// What all replicas of a work come to in the end, when each of their calls has a reply.
#[derive(Drop)]
pub struct Outcome {
    /// Whether threads worked the replicas at the same time; else one thread alone worked them, one
    /// after another.
    pub threads: bool,
    /// The replicas, each at the place of its number.
    pub lives: Vec<Life>,
}
