//! The bounds on an entry.

/// How many bytes a key has at most.
pub const KEY_LIMIT: usize = 600;

/// How many bytes a value has at most: 2^26.
pub const VALUE_LIMIT: usize = 67_108_864;
