//! Bounds of parts of a query: before a bound no document has a score, and with no bound none has.

ghost use Rattle.std.specs.Prelude.{◌≡◌};
ghost use Rattle.ix_cursor.specs.Bounding.{later, earlier};

/// The bound of what needs both.
pub(crate) fn later(a: Option<u32>, b: Option<u32>) -> Option<u32>
    ensures { result ≡ later a b }
{
    match (a, b) {
        (Some(x), Some(y)) => Some(x.max(y)),
        _ => None,
    }
}

/// The bound of what needs one of two.
pub(crate) fn earlier(a: Option<u32>, b: Option<u32>) -> Option<u32>
    ensures { result ≡ earlier a b }
{
    match (a, b) {
        (Some(x), Some(y)) => Some(x.min(y)),
        (None, b) => b,
        (a, None) => a,
    }
}
