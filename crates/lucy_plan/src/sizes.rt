//! How large a plan may be, and what is read and run beside it.

ghost use Rattle.std.specs.Prelude.{◌≡◌};
ghost use Rattle.lucy_plan.specs.Sizes as sizes;

/// The version of plans without counters.
pub const FIRST_VERSION: u32 = 1;

/// The version of plans with counters. No such plan is read yet.
pub const SECOND_VERSION: u32 = 2;

/// The greatest number of leaves of a plan of this version.
pub fn most_leaves(version: u32) -> u64
    ensures { result ≡ sizes.most_leaves version }
{
    if version == SECOND_VERSION { 128 } else { 64 }
}

/// The greatest number of condition nodes of a plan.
pub const MOST_NODES: u64 = 4096;

/// The greatest number of parts of a plan's text that are open at once.
pub const MOST_NESTING: u64 = 64;

/// The greatest number of bytes of a name in a plan's text.
pub const MOST_NAME: u64 = 64;

/// The greatest number of transactions of a plan.
pub const MOST_TXNS: u64 = 64;

/// The greatest number of arguments of a transaction.
pub const MOST_ARGUMENTS: u64 = 4;

/// The greatest number of segments of a plan.
pub const MOST_SEGMENTS: u64 = 16;

/// The greatest number of points that the segments of a plan leave out.
pub const MOST_POINTS: u64 = 256;

/// The least depth of a plan.
pub const LEAST_DEPTH: u64 = 16;

/// The greatest depth of a plan.
pub const MOST_DEPTH: u64 = 2048;

/// The depth of a plan that names none.
pub const USUAL_DEPTH: u32 = 1024;

/// The greatest number of replicas that run a plan of this version.
pub fn most_replicas(version: u32) -> u64
    ensures { result ≡ sizes.most_replicas version }
{
    if version == SECOND_VERSION { 32 } else { 16 }
}

/// The greatest number of calls of a replica.
pub const MOST_CALLS: u64 = 4096;

/// The greatest number of bytes of a plan's text.
pub const MOST_PLAN_BYTES: u32 = 1 << 20;

/// The greatest number of bytes of a work text.
pub const MOST_WORK_BYTES: u32 = 1 << 25;

/// The greatest number of bytes of a step script.
pub const MOST_STEP_BYTES: u32 = 1 << 20;
