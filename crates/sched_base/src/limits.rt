//! The limits of the policy and of its texts, each named once.
//!
//! `constants_are_the_limits` in `laws` ties each of them to its number in `specs/`.

/// The number of buckets, each of which has an index below this.
pub const BUCKET_COUNT: usize = 6;

/// The number of timeshare lanes: a bound and an unbound one for each bucket but `Ui`.
pub const LANE_COUNT: usize = 10;

/// The most clusters of a setup, each of which has a number below this.
pub const MOST_CLUSTERS: usize = 8;

/// The most actors of a setup, through all its clusters.
pub const MOST_ACTORS: usize = 16;

/// The most thread groups of a setup.
pub const MOST_GROUPS: usize = 64;

/// The most threads that may live at once, and so the most entries of a queue.
pub const MOST_THREADS: usize = 4_096;

/// The most edges of a setup: one for each pair of unlike clusters.
pub const MOST_EDGES: usize = 56;

/// The most spans of a program of a run; their number is odd.
pub const MOST_SPANS: usize = 15;

/// The highest base of a thread, and the highest priority.
pub const MOST_BASE: u8 = 127;

/// The first number that no line may give a cluster. The setup bounds it further.
pub const CLUSTERS_OF_LINES: usize = 16;

/// The lowest rate of a cluster, in thousandths of a unit of work for each microsecond.
pub const LEAST_RATE: u32 = 100;

/// The highest rate of a cluster: a unit of work for each microsecond.
pub const MOST_RATE: u32 = 1_000;

/// The greatest weight of an edge, in microseconds of load for each processor.
pub const MOST_WEIGHT: u32 = 10_000_000;

/// The first number that is no steal mask, which has a bit for each bucket.
pub const STEAL_MASKS: u8 = 64;

/// The longest WCEL that a setup may state, in microseconds.
pub const MOST_WCEL: u64 = 10_000_000;

/// The longest WARP that a setup may state, in microseconds.
pub const MOST_WARP: u64 = 1_000_000;

/// The shortest QUANTUM that a setup may state, in microseconds.
pub const LEAST_QUANTUM: u64 = 1_000;

/// The longest QUANTUM that a setup may state, in microseconds.
pub const MOST_QUANTUM: u64 = 100_000;

/// The first moment that is too late, in microseconds.
pub const MOMENT_LIMIT: u64 = 1 << 40;

/// How often usage decays, in microseconds.
pub const TICK: u64 = 125_000;

/// The longest span of a program: units of work of a run span, microseconds of a sleep span.
pub const MOST_SPAN: u32 = 10_000_000;

/// The most units of work of all run spans of an input.
pub const MOST_RUN_WORK: u64 = 10_000_000;

/// The most turns of an actor.
pub const MOST_TURNS: u32 = 5_000;

/// The most bytes of a setup line, without its newline.
pub const SETUP_BYTES: usize = 65_536;

/// The most bytes of any other line, without its newline.
pub const LINE_BYTES: usize = 256;

/// The most bytes of an input that count.
pub const INPUT_BYTES: u64 = 67_108_864;

/// The most bytes that are taken from a source at once.
pub const PIECE_BYTES: usize = 4_096;
