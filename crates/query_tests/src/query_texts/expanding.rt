//! Texts of rows, in which long repetitions and characters that don't show are written shorter.

use ct_base::Memory;
use std::alloc::Global;

/// The character of a number in hexadecimal digits.
fn char_of(digits: &str) -> Option<char> {
    let code = u32::from_str_radix(digits, 16).ok()?;
    char::from_u32(code)
}

/// The number and the text of `N X`.
fn count_and_text(short: &str) -> Option<(u16, &str)> {
    let (count, text) = short.split_once(' ')?;
    Some((count.parse::<u16>().ok()?, text))
}

/// Appends a text so many times.
fn put_times(out: &mut String, count: u16, text: &str) -> Result<(), Memory> {
    for _ in 0..count {
        out.push_str(text)?;
    }
    Ok(())
}

/// Appends what stands between the brackets: `U+HHHH` is the character of this number, and `N X` is the text X, N times.
fn put_short(out: &mut String, short: &str) -> Result<(), Memory> {
    match short.strip_prefix("U+") {
        Some(digits) => out.push(char_of(digits).unwrap_or('?'))?,
        None => {
            let (count, text) = count_and_text(short).unwrap_or((1, "a number and a text"));
            put_times(out, count, text)?;
        }
    }
    Ok(())
}

/// The text, in which what stands in ⟨ and ⟩ is written out.
pub(crate) fn expanded(alloc: Global, text: &str) -> Result<String, Memory> {
    let mut out = String::new(alloc);
    for piece in text.split('⟨') {
        match piece.split_once('⟩') {
            None => out.push_str(piece)?,
            Some((short, plain)) => {
                put_short(&mut out, short)?;
                out.push_str(plain)?;
            }
        }
    }
    Ok(out)
}
