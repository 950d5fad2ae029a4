//! The numbers of a statement.

ghost use Rattle.std.specs.Prelude.{◌≡◌, ◌<◌, ◌^◌, MatchOption};
ghost use Rattle.st_parse.specs.Numbers.{value, number, negated};

use crate::statements::Whole;
use ct_base::Text;

/// The value of the digits; None only where it is over 2^63.
fn magnitude(digits: &[u8]) -> Option<u64>
    ensures { MatchOption result (2 ^ 63 < value digits.now) (λ n. n ≡ value digits.now) }
{
    let mut n: u64 = 0;
    let mut rest = digits;
    'digits: while let [digit, after @ ..] = rest {
        if n > 922_337_203_685_477_580 {
            return None;
        }
        n = n * 10 + u64::from(digit.saturating_sub(b'0'));
        rest = after;
    }
    Some(n)
}

/// The number of digits without a sign. Its cost is how many digits there are.
pub fn number(digits: &Text) -> Whole
    ensures { result ≡ number digits.now }
{
    match magnitude(digits.as_str().as_bytes()) {
        Some(n) if n < 1 << 63 => Whole::Fits(n as i64),
        _ => Whole::Beyond,
    }
}

/// The number of digits after a minus. Its cost is how many digits there are.
pub fn negated(digits: &Text) -> Whole
    ensures { result ≡ negated digits.now }
{
    match magnitude(digits.as_str().as_bytes()) {
        Some(n) if n < 1 << 63 => Whole::Fits(-(n as i64)),
        Some(n) if n == 1 << 63 => Whole::Fits(i64::MIN),
        _ => Whole::Beyond,
    }
}
