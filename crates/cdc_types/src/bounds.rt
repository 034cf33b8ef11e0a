//! The limits of the whole product. Code and definitions refer to them by name, with two exceptions: contracts of a
//! run's actors write 64 for a prefetch, and lists with an element for each client or subscriber have a fixed length.

/// The limits that every crate obeys.
pub struct Limits;

impl Limits {
    /// The greatest timestamp, in nanoseconds: 2^63-1.
    pub const TIMESTAMP: u64 = 9_223_372_036_854_775_807;

    /// The maximum number of items in a batch.
    pub const BATCH_ITEMS: usize = 1_000;

    /// The maximum number of `key=value` pairs in a binding.
    pub const BINDING_PAIRS: usize = 10;

    /// The maximum number of unconfirmed messages of a session.
    pub const WINDOW: usize = 64;

    /// The maximum number of unacknowledged deliveries of a queue.
    pub const PREFETCH: u64 = 64;

    /// The maximum number of subscribers in a script.
    pub const SUBSCRIBERS: usize = 8;

    /// The maximum number of clients in a script.
    pub const CLIENTS: u64 = 4;

    /// The maximum size of a script or a step file, in bytes.
    pub const SCRIPT_BYTES: usize = 1_048_576;

    /// The maximum size of a progress file, in bytes.
    pub const PROGRESS_BYTES: usize = 128;

    /// The maximum length of a line of a stream, in bytes, without its line feed.
    pub const LINE_BYTES: usize = 65_536;

    /// How many bytes of a stream are read at a time, at most.
    pub const BUFFER_BYTES: usize = 65_536;

    /// How many further messages that are ready a turn takes, at most, at an open gate.
    pub const READY_MESSAGES: usize = 64;

    /// The maximum number of random steps: a step file may have 1,048,576 bytes, and a line has fewer than 50.
    pub const RANDOM_STEPS: u32 = 20_000;

    /// The greatest session number: 2^64-1.
    pub const SESSION: u64 = 18_446_744_073_709_551_615;
}
