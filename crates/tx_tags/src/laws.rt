//! What holds of all tags.

ghost use Rattle.tx_tags.specs.Promises.{ClosersAreFirst, NoneCloses};

/// An opening tag is closed by the first later closing tag of its number between which and it as many tags of that number open as
/// close. Where the definition gives no such tag, there is none.
pub fn closing_laws()
    ensures first { ClosersAreFirst }
    ensures none { NoneCloses }
{}
