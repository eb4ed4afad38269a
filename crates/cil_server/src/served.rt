//! How a session ends.

/// How a session ended.
#[derive(Clone, Copy, Debug, PartialEq, Eq)]
pub enum Served {
    /// The last request was QUIT.
    Quit,
    /// The input ended where a request would begin.
    End,
    /// A fault ended the session: 82 a line that is too long, 83 an input that ends in a line or a body, 84 a body that is too
    /// long, 85 more requests than a session may have; or 0, no memory for its buffers, and then nothing was read.
    Fault(u32),
    /// The reader failed.
    ReadFailed,
    /// The writer failed.
    WriteFailed,
}
