//! What a word may stand for.

ghost use Rattle.std.specs.Prelude.{◌≡◌, ◌+◌, ◌*◌, ◌≤◌, List, ◌++◌, ◌∷◌, [], IfOk, map, length, bytes_eq, Some, None, codes, not, ◌||◌};
ghost use Rattle.std.specs.Bool.{if◌then◌else◌};
ghost use Rattle.std.specs.Char.{to_ascii_lowercase};
ghost use Rattle.q_lex.specs.Words.{strict, is_digit_byte, whole, whole_from, tenths, tenths_from, tenth_at, in_range, number_or_zero, is_plain, is_name, name_of, takes_tenths, tenths_of, takes_whole, whole_of, takes_atom, atom_of, is_flag, says, is_plus, is_foreign, within, tenths_within};

use crate::lexemes::Written;
use ct_base::{Memory, Name, NameFault};
use q_tree::SumStep;
use std::alloc::Global;

/// Whether the bytes, in ASCII lower case, are the word.
fn is_lowered(bytes: &[u8], word: &[u8]) -> bool
    ensures { result ≡ bytes_eq (map to_ascii_lowercase bytes.now) word.now }
{
    let mut rest = bytes;
    let mut letters = word;
    while let [byte, others @ ..] = rest {
        let [letter, others_too @ ..] = letters else {
            return false;
        };
        if byte.to_ascii_lowercase() != *letter {
            return false;
        }
        rest = others;
        letters = others_too;
    }
    letters.is_empty()
}

/// Whether this is the plain word, in any ASCII case.
pub(crate) fn says(written: &Written, word: &str) -> bool
    ensures { result ≡ says word.now written.now }
{
    match &written.plain {
        None => false,
        Some(text) => is_lowered(text.as_str().as_bytes(), word.as_bytes()),
    }
}

/// Whether the word has plain characters alone.
pub fn is_plain(written: &Written) -> bool
    ensures { result ≡ is_plain written.now }
{
    match &written.plain {
        None => false,
        Some(_) => true,
    }
}

/// The name that the word is, if it is one.
pub fn read_name(alloc: Global, written: &Written) -> Result<Option<Name>, Memory>
    ensures { IfOk result (λ found. found ≡ (if is_name written.now then Some (name_of written.now) else None)) }
{
    match &written.plain {
        None => Ok(None),
        Some(text) => match Name::read(alloc, text.as_str()) {
            Ok(name) => Ok(Some(name)),
            Err(NameFault::NotAName) => Ok(None),
            Err(NameFault::Memory) => Err(Memory),
        },
    }
}

fn is_digit_byte(byte: u8) -> bool
    ensures { result ≡ is_digit_byte byte }
{
    48 <= byte && byte <= 57
}

/// The number that the digits are, where it is at most `high`.
#[tactic(auto, using(crate::proofs::Numbers::over))]
fn whole_at_most(bytes: &[u8], high: u32) -> Option<u32>
    requires { high ≤ 1000 }
    ensures { result ≡ within high (whole bytes.now) }
{
    if bytes.is_empty() {
        return None;
    }
    let mut number: u32 = 0;
    let mut rest = bytes;
    while let [byte, others @ ..] = rest {
        if !is_digit_byte(*byte) {
            return None;
        }
        number = number * 10 + (*byte as u32 - 48);
        if number > high {
            return None;
        }
        rest = others;
    }
    Some(number)
}

/// The whole number that the word is, where it is in the range.
pub fn whole_in(written: &Written, low: u32, high: u32) -> Option<u32>
    requires { high ≤ 1000 }
    ensures { result ≡ (if takes_whole strict low high written.now then Some (whole_of written.now) else None) }
{
    match &written.plain {
        None => None,
        Some(text) => match whole_at_most(text.as_str().as_bytes(), high) {
            Some(number) if low <= number => Some(number),
            _ => None,
        },
    }
}

/// The number that the word is, in tenths, where it is from 0.1 to 10.
#[tactic(auto, using(crate::proofs::Numbers::tenths_of_word))]
pub fn tenths_in(written: &Written) -> Option<u8>
    ensures { result ≡ (if takes_tenths strict written.now then Some (tenths_of written.now) else None) }
{
    match &written.plain {
        None => None,
        Some(text) => tenths_at_most(text.as_str().as_bytes()),
    }
}

/// The tenths that the bytes are, from 1 to 100.
#[tactic(auto, using(crate::proofs::Numbers::over_tenths))]
fn tenths_at_most(bytes: &[u8]) -> Option<u8>
    ensures { result ≡ tenths_within (tenths bytes.now) }
{
    if bytes.is_empty() {
        return None;
    }
    let mut number: u32 = 0;
    let mut rest = bytes;
    while let [byte, others @ ..] = rest {
        if *byte == 46 {
            return tenth_at(number, others);
        }
        if !is_digit_byte(*byte) {
            return None;
        }
        number = number * 10 + (*byte as u32 - 48);
        if number > 10 {
            return None;
        }
        rest = others;
    }
    small(number * 10)
}

/// The tenths of a number and of one digit behind its point.
fn tenth_at(number: u32, bytes: &[u8]) -> Option<u8>
    requires { number ≤ 10 }
    ensures { result ≡ tenths_within (tenth_at number bytes.now) }
{
    match bytes {
        [digit] => {
            if is_digit_byte(*digit) {
                small(number * 10 + (*digit as u32 - 48))
            } else {
                None
            }
        }
        _ => None,
    }
}

/// The tenths, where they are in the range.
fn small(number: u32) -> Option<u8>
    ensures { result ≡ tenths_within (Some number) }
{
    if 1 <= number && number <= 100 {
        Some(number as u8)
    } else {
        None
    }
}

/// The operand of a sum that the word is.
pub fn atom(written: &Written) -> Option<SumStep>
    ensures { result ≡ (if takes_atom strict written.now then Some (atom_of written.now) else None) }
{
    if says(written, "discrete") {
        return Some(SumStep::Discrete);
    }
    if says(written, "occurrence") {
        return Some(SumStep::Occurrence);
    }
    match whole_in(written, 0, 1000) {
        Some(number) => Some(SumStep::Number(number as u16)),
        None => None,
    }
}

/// Whether the word is the plus of a sum.
pub fn is_plus(written: &Written) -> bool
    ensures { result ≡ is_plus written.now }
{
    says(written, "+")
}

/// Whether the word is one that sums of other products have.
pub fn is_foreign(written: &Written) -> bool
    ensures { result ≡ is_foreign written.now }
{
    says(written, "completion") || says(written, "ignore") || says(written, "relevance")
}

/// Whether the word is TRUE, where it is TRUE or FALSE.
pub fn flag(written: &Written) -> Option<bool>
    ensures { result ≡ (if is_flag written.now then Some (says (codes "true") written.now) else None) }
{
    if says(written, "true") {
        return Some(true);
    }
    if says(written, "false") {
        return Some(false);
    }
    None
}
