//! Terms, as they stand in the keys of rows.

ghost use Rattle.std.specs.Prelude.{◌≡◌, ◌≤◌, ◌++◌, OnOk, length};
ghost use Rattle.ix_rows.specs.WordRows.{word_term};
ghost use Rattle.ix_rows.specs.SpanRows.{section_term};

use ct_base::Memory;

/// Puts the term of a token of at most 255 bytes in a stream: the stream, the length of the token in one byte, and the token.
pub fn put_word_term(out: &mut Vec<u8>, stream: u8, token: &[u8]) -> Result<(), Memory>
    requires { length token.now ≤ 255 }
    ensures { OnOk result (out.new.items ≡ out.old.items ++ word_term stream token.now) }
{
    out.push(stream)?;
    out.push(token.len() as u8)?;
    out.extend_from_slice(token)?;
    Ok(())
}

/// Puts the term of a section whose name has at most 255 bytes: the length of the name in one byte, and the name.
pub fn put_section_term(out: &mut Vec<u8>, name: &[u8]) -> Result<(), Memory>
    requires { length name.now ≤ 255 }
    ensures { OnOk result (out.new.items ≡ out.old.items ++ section_term name.now) }
{
    out.push(name.len() as u8)?;
    out.extend_from_slice(name)?;
    Ok(())
}
