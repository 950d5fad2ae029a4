//! How a tag's name is spelt.

ghost use Rattle.std.specs.Prelude.{◌≡◌, Some, IfOk};
ghost use Rattle.std.specs.Option.{option_map};
ghost use Rattle.std.specs.List.{list_all};
ghost use Rattle.std.specs.Str.{chars};
ghost use Rattle.std.specs.String.{string_bytes};
ghost use Rattle.tx_tags.specs.Groups.{is_tag, is_tag_byte};
ghost use Rattle.tx_tags.specs.Tables.{only_tag};
ghost use Rattle.tx_tags.specs.Tags.{name_before_close};

use ct_base::{Memory, push_ascii, split_first};
use std::alloc::Global;

/// How many bytes the name of a tag has at most.
const TAG_LIMIT: usize = 30;

/// Whether the text is a tag's name as a group keeps it: 1 to 30 lower-case ASCII letters, digits, `_` and `-`. Its cost is constant.
pub fn is_tag(text: &str) -> bool
    ensures { result ≡ is_tag text.now }
{
    is_tag_name(text.as_bytes())
}

fn is_tag_name(name: &[u8]) -> bool
    ensures { result ≡ is_tag name.now }
{
    !name.is_empty() && name.len() <= TAG_LIMIT && are_tag_bytes(name)
}

fn are_tag_bytes(name: &[u8]) -> bool
    ensures { result ≡ list_all is_tag_byte name.now }
{
    name.iter().all(|byte| is_tag_char(*byte as char))
}

/// Whether the character may stand in a tag's name.
fn is_tag_char(c: char) -> bool
    ensures { result ≡ is_tag_byte c }
{
    c.is_ascii_lowercase() || c.is_ascii_digit() || c == '_' || c == '-'
}

/// The name before the first `>` in ASCII lower case. None where there is no `>`, or where no tag can have this name. It reads 31
/// characters at most.
pub(crate) fn read_name(alloc: Global, text: &str) -> Result<Option<String>, Memory>
    ensures { IfOk result (λ name. option_map string_bytes name ≡ only_tag (name_before_close (chars text.now))) }
{
    let mut name = String::new(alloc);
    let mut rest = text;
    while let Some((c, after)) = split_first(rest) {
        if c == '>' {
            return Ok(checked(name));
        }
        if name.len() >= TAG_LIMIT || !is_tag_char(c.to_ascii_lowercase()) {
            return Ok(None);
        }
        push_ascii(&mut name, c.to_ascii_lowercase())?;
        rest = after;
    }
    Ok(None)
}

/// The text, if it is a tag's name.
fn checked(name: String) -> Option<String>
    ensures { option_map string_bytes result ≡ only_tag (Some (string_bytes name)) }
{
    if is_tag(name.as_str()) {
        Some(name)
    } else {
        None
    }
}
