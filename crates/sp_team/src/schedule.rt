//! The constants of a team's schedule: how long a worker goes on before it looks around, how workers share their entries, and how
//! they wait for one another. They decide how long a run takes, and nothing else: what it returns doesn't depend on them.

/// The number of entries that a worker processes before it checks whether others need some.
pub(crate) const STRETCH: usize = 64;

/// Upper bound on the stretches of entries that a worker processes; never reached in practice. Entries left after it are dropped.
pub(crate) const STRETCHES: u64 = 1 << 60;

/// The number of targets that a worker checks at once, between two stretches.
pub(crate) const GLANCE: usize = 16;

/// A worker starts with buckets whose width is delta divided by 2 to this power.
pub(crate) const FINER: u32 = 3;

/// The fewest entries that are worth a chunk.
pub(crate) const LEAST_PIECE: usize = 16;

/// How many times a thief tries a deque that neither returns an item nor is empty.
pub(crate) const TRIES: u32 = 100;

/// How many buckets ahead of the others a worker may be without waiting for them.
pub(crate) const AHEAD: u64 = 2;

/// How many times a worker that is ahead checks on the others before it continues anyway.
pub(crate) const PATIENCE: u32 = 1000;

/// How many times a worker without entries looks for some before it yields.
pub(crate) const LOOKS: u64 = 1000;

/// How many times it looks before it sleeps.
pub(crate) const YIELDS: u64 = 1010;

/// The longest time that a worker sleeps, in microseconds.
pub(crate) const NAP: u64 = 500;

/// Upper bound on how often a worker looks for another worker's chunk, and for its next entry; never reached in practice.
pub(crate) const MOST_LOOKS: u64 = 1 << 60;
