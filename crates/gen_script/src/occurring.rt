//! Bytes that occur in others.

ghost use Rattle.std.specs.Prelude.{◌≡◌};
ghost use Rattle.gen_script.specs.Occurring.{begins_with, occurs};

fn begins_with(text: &[u8], part: &[u8]) -> bool
    ensures { result ≡ begins_with part.now text.now }
{
    let mut text = text;
    let mut part = part;
    while let [wanted, others @ ..] = part {
        let [byte, later @ ..] = text else {
            return false;
        };
        if *byte != *wanted {
            return false;
        }
        text = later;
        part = others;
    }
    true
}

/// Whether the part occurs in the text. Its cost is the length of the text times that of the part at most.
pub fn occurs(text: &[u8], part: &[u8]) -> bool
    ensures { result ≡ occurs part.now text.now }
{
    let mut rest = text;
    while let [_, later @ ..] = rest {
        if begins_with(rest, part) {
            return true;
        }
        rest = later;
    }
    begins_with(rest, part)
}
