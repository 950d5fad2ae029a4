//! Values as printed lines.

ghost use Rattle.std.specs.Prelude.{◌≡◌, ◌++◌, ◌∷◌, [], pos, IfOk, OnOk, OnErr};
ghost use Rattle.std.specs.Fmt.{signed_decimal};
ghost use Rattle.ct_base.specs.declared.lists.Value.TheVariants.{Number, Text};
ghost use Rattle.db_cond.specs.Lines.{line as line_text, fields_behind_bars, printed, printed_byte, printed_text, rows_line as line_of_rows};

use ct_base::{Memory, Value};
use std::alloc::Global;

/// Puts a byte of a text as it is printed.
fn push_byte(out: &mut Vec<u8>, byte: u8) -> Result<(), Memory>
    ensures { OnOk result (out.new.items ≡ out.old.items ++ printed_byte byte) }
{
    match byte {
        b'\\' => out.extend_from_slice(b"\\\\")?,
        b'|' => out.extend_from_slice(b"\\|")?,
        b'\n' => out.extend_from_slice(b"\\n")?,
        b'\r' => out.extend_from_slice(b"\\r")?,
        _ => out.push(byte)?,
    }
    Ok(())
}

/// Puts a text as it is printed.
pub(crate) fn push_text(out: &mut Vec<u8>, text: &[u8]) -> Result<(), Memory>
    ensures { OnOk result (out.new.items ≡ out.old.items ++ printed_text text.now) }
{
    for byte in text {
        push_byte(out, *byte)?;
    }
    Ok(())
}

/// Puts a number in decimal digits.
pub(crate) fn push_number(alloc: Global, out: &mut Vec<u8>, number: i64) -> Result<(), Memory>
    ensures { OnOk result (out.new.items ≡ out.old.items ++ signed_decimal number) }
{
    let digits = format!(in alloc; "{number}")?;
    out.extend_from_slice(digits.as_bytes())?;
    Ok(())
}

/// Puts a value as it is printed.
fn push_value(alloc: Global, out: &mut Vec<u8>, value: &Value) -> Result<(), Memory>
    ensures { OnOk result (out.new.items ≡ out.old.items ++ printed value.now) }
{
    match value {
        Value::Number(number) => push_number(alloc, out, *number),
        Value::Text(text) => push_text(out, text.as_str().as_bytes()),
    }
}

/// Puts values, each after a `|`.
fn push_behind_bars(alloc: Global, out: &mut Vec<u8>, values: &[Value]) -> Result<(), Memory>
    ensures { OnOk result (out.new.items ≡ out.old.items ++ fields_behind_bars values.now) }
{
    for value in values {
        out.push(b'|')?;
        push_value(alloc, out, value)?;
    }
    Ok(())
}

/// Puts the first value, and the others each after a `|`.
fn push_fields(alloc: Global, out: &mut Vec<u8>, fields: &[Value]) -> Result<(), Memory>
    ensures { OnOk result (out.new.items ++ 10 ∷ [] ≡ out.old.items ++ line_text fields.now) }
{
    match fields {
        [] => Ok(()),
        [first, others @ ..] => {
            push_value(alloc, out, first)?;
            push_behind_bars(alloc, out, others)
        }
    }
}

/// Puts the line of some fields, with its newline, after what `out` holds. Where there is no memory, `out` stays as it
/// was. Its cost is the length of the line.
pub fn line(alloc: Global, out: &mut Vec<u8>, fields: &[Value]) -> Result<(), Memory>
    ensures ok { OnOk result (out.new.items ≡ out.old.items ++ line_text fields.now) }
    ensures err { OnErr result (out.new.items ≡ out.old.items) }
{
    let mut text = Vec::new(alloc);
    push_fields(alloc, &mut text, fields)?;
    text.push(b'\n')?;
    out.extend_from_slice(&text)?;
    Ok(())
}

/// Puts the line of a word: its bytes as a text, and two numbers. Where there is no memory, `out` stays as it was.
pub fn word_line(
    alloc: Global,
    out: &mut Vec<u8>,
    word: &[u8],
    first: u32,
    second: u32,
) -> Result<(), Memory>
    ensures ok { OnOk result (out.new.items ≡ out.old.items ++ line_text (Text word.now ∷ Number (pos first) ∷ Number (pos second) ∷ [])) }
    ensures err { OnErr result (out.new.items ≡ out.old.items) }
{
    let mut text = Vec::new(alloc);
    push_text(&mut text, word)?;
    text.push(b'|')?;
    push_number(alloc, &mut text, i64::from(first))?;
    text.push(b'|')?;
    push_number(alloc, &mut text, i64::from(second))?;
    text.push(b'\n')?;
    out.extend_from_slice(&text)?;
    Ok(())
}

/// The line of a statement that changes rows: how many there were, and what was done to them, with its newline.
pub fn rows_line(alloc: Global, rows: usize, done: &[u8]) -> Result<Vec<u8>, Memory>
    ensures { IfOk result (λ line. line.items ≡ line_of_rows done.now rows) }
{
    let mut line = Vec::new(alloc);
    if rows == 1 {
        line.extend_from_slice(b"1 row ")?;
    } else {
        let digits = format!(in alloc; "{rows}")?;
        line.extend_from_slice(digits.as_bytes())?;
        line.extend_from_slice(b" rows ")?;
    }
    line.extend_from_slice(done)?;
    Ok(line)
}
