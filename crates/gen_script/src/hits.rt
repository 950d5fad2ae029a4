//! The hits that a run said.

ghost use Rattle.std.specs.Prelude.{◌≡◌};
ghost use Rattle.gen_script.specs.Hits.{after_digits, begins_with_digit, begins_with_hit, begins_with_score, ends_line, hit_count, one_if_hit};

/// The text without the digits that it begins with.
fn after_digits(text: &[u8]) -> &[u8]
    ensures { result.now ≡ after_digits text.now }
{
    let mut rest = text;
    while let [byte, later @ ..] = rest {
        if !byte.is_ascii_digit() {
            return rest;
        }
        rest = later;
    }
    rest
}

fn begins_with_digit(text: &[u8]) -> bool
    ensures { result ≡ begins_with_digit text.now }
{
    match text {
        [byte, ..] => byte.is_ascii_digit(),
        _ => false,
    }
}

/// Whether a line ends where the text begins.
fn ends_line(text: &[u8]) -> bool
    ensures { result ≡ ends_line text.now }
{
    match text {
        [byte, ..] => *byte == b'\n',
        _ => true,
    }
}

/// Whether the text begins with what follows a key in a hit.
fn begins_with_score(text: &[u8]) -> bool
    ensures { result ≡ begins_with_score text.now }
{
    match text {
        [byte, score @ ..] => {
            *byte == b'|' && (begins_with_digit(score) && ends_line(after_digits(score)))
        }
        _ => false,
    }
}

/// Whether the first line of the text is a hit.
fn begins_with_hit(text: &[u8]) -> bool
    ensures { result ≡ begins_with_hit text.now }
{
    begins_with_digit(text) && begins_with_score(after_digits(text))
}

/// How many hits begin where the text begins: one or none.
fn one_if_hit(begins: bool, text: &[u8]) -> u64
    ensures { result ≡ one_if_hit begins text.now }
{
    if begins && begins_with_hit(text) {
        1
    } else {
        0
    }
}

/// How many lines of the text are hits, `key|score`. Its cost is the length of the text.
pub fn hit_count(text: &[u8]) -> u64
    ensures { result ≡ hit_count text.now }
{
    let mut hits = 0u64;
    let mut begins = true;
    let mut rest = text;
    while let [byte, later @ ..] = rest {
        hits += one_if_hit(begins, rest);
        begins = *byte == b'\n';
        rest = later;
    }
    hits
}
