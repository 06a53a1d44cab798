//! Who watches the progress of a command.

/// What the progress of a command is told to. A watcher may count what it is told, or draw a progress line. It changes
/// neither what the command writes nor its exit status, and it can't fail.
pub trait Watcher {
    /// The command is done with one more blob.
    fn see_blob(&self);

    /// So many bytes more of the input were read.
    fn see_bytes(&self, count: u64);

    /// All that stands before this offset, in bytes, is done.
    fn see_offset(&self, off: u64);

    /// There are so many bytes at least.
    fn see_size(&self, size: u64);

    /// Something is about to be written to standard output.
    fn give_way(&self);

    /// This was written to standard output.
    fn see_output(&self, taken: &[u8]);
}
