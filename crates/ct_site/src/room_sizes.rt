//! How much a site in memory can hold.

/// How much a site in memory can hold. A call that would pass one of these fails, and changes nothing.
#[derive(Clone, Copy, Debug, PartialEq, Eq)]
pub struct Rooms {
    /// Bytes of the image.
    pub image: usize,
    /// Bytes said.
    pub said: usize,
    /// Calls of `write_at`, `sync` and `say` that succeed.
    pub calls: usize,
    /// Bytes that `write_at` takes, in all its calls together.
    pub written: usize,
}
