//! What a crash leaves in place of bytes that aren't synced.

/// What stands, after a crash of a site in memory, in place of the bytes that were written since the last sync.
#[derive(Clone, Copy, Debug, PartialEq, Eq)]
pub enum Pick {
    /// The image as it was at the last sync, and as long.
    Old,
    /// The bytes written.
    New,
    /// A zero for each byte written.
    Zeros,
    /// 255 for each byte written.
    Ones,
}
