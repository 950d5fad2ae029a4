//! Reading the tags of a text.

ghost use Rattle.std.specs.Prelude.{◌≡◌, ◌+◌, ◌<◌, ◌≤◌, ◌++◌, ◌^◌, [], IfOk, OnOk, length, option_to_list, replicate};
ghost use Rattle.std.specs.Char.{len_utf8};
ghost use Rattle.std.specs.Option.{option_and_then};
ghost use Rattle.std.specs.Str.{chars};
ghost use Rattle.std.specs.String.{string_bytes};
ghost use Rattle.tx_tags.specs.Tables.{OverTable, place_parts};
ghost use Rattle.tx_tags.specs.Tags.{blanked, blanked_from, group_tags, kept_or_blank, left_at, named_tag, spelt_tag, tag_at, tag_before_close, tag_of, tags_from, tags_in};

use crate::groups::Group;
use crate::spelling::read_name;
use crate::tables::{TagPlace, TagTable};
use crate::tags::{TagView, TagViews, Tagged};
use ct_base::{Memory, Text, push_char, split_first};
use std::alloc::Global;

/// The tags of the group in a text of at most 2^24 bytes, and the text with a space in place of each byte of a tag.
///
/// Its cost is linear in the length of the text, and for each `<` the logarithm of the number of the group's tags; before, it makes
/// a table of these tags. A group without sections only costs a copy of the text.
pub fn read_tags(alloc: Global, group: &Group, text: &str) -> Result<Tagged, Memory>
    requires { length text.now ≤ 2 ^ 24 }
    ensures tags { IfOk result (λ t. t.tags ≡ tags_in group.now (chars text.now)) }
    ensures blanked { IfOk result (λ t. chars t.blanked ≡ blanked group.now (chars text.now)) }
    ensures length { IfOk result (λ t. length t.blanked ≡ length text.now) }
{
    let sections = group.sections();
    if sections.is_empty() {
        return untagged(alloc, text);
    }
    let table = TagTable::of(alloc, sections)?;
    read_by(alloc, &table, text)
}

/// A text that has no tags.
fn untagged(alloc: Global, text: &str) -> Result<Tagged, Memory>
    ensures tags { IfOk result (λ t. t.tags ≡ []) }
    ensures blanked { IfOk result (λ t. t.blanked ≡ text.now) }
{
    Ok(Tagged {
        blanked: Text::of(alloc, text)?,
        tags: TagViews::empty(alloc),
    })
}

/// The tags of a table in a text, and the text with a space in place of each byte of a tag.
fn read_by(alloc: Global, table: &TagTable, text: &str) -> Result<Tagged, Memory>
    requires { length text.now ≤ 2 ^ 24 }
    ensures tags { IfOk result (λ t. OverTable table.now.places (λ ts. t.tags ≡ tags_from ts 0 (chars text.now))) }
    ensures blanked { IfOk result (λ t. OverTable table.now.places (λ ts. chars t.blanked ≡ blanked_from ts 0 0 (chars text.now))) }
    ensures length { IfOk result (λ t. length t.blanked ≡ length text.now) }
{
    let mut tags = Vec::new(alloc);
    let mut blanked = String::new(alloc);
    let mut left = 0;
    let mut rest = text;
    while let Some((c, after)) = split_first(rest) {
        let place = (text.len() - rest.len()) as u32;
        let found = tag_at(alloc, table, place, rest)?;
        let now = take_tag(&mut tags, found, left)?;
        put(&mut blanked, now, c)?;
        left = now.saturating_sub(1);
        rest = after;
    }
    Ok(Tagged {
        blanked: Text::owned(blanked),
        tags: TagViews::of(tags),
    })
}

/// Takes the tag that was found, and tells how many characters from here on belong to a tag.
fn take_tag(tags: &mut Vec<TagView>, found: Option<TagView>, left: usize) -> Result<usize, Memory>
    ensures tags { OnOk result (tags.new.items ≡ tags.old.items ++ option_to_list found) }
    ensures left { IfOk result (λ n. n ≡ left_at found left) }
{
    match found {
        None => Ok(left),
        Some(tag) => {
            let width = tag.end.saturating_sub(tag.start) as usize;
            tags.push(tag)?;
            Ok(width)
        }
    }
}

/// Puts a character, or spaces in its place.
fn put(blanked: &mut String, left: usize, c: char) -> Result<(), Memory>
    ensures chars { OnOk result (chars (string_bytes blanked.new) ≡ chars (string_bytes blanked.old) ++ kept_or_blank left c) }
    ensures length { OnOk result (length (string_bytes blanked.new) ≡ length (string_bytes blanked.old) + len_utf8 c) }
{
    if left == 0 {
        push_char(blanked, c)
    } else {
        put_spaces(blanked, c.len_utf8())
    }
}

fn put_spaces(blanked: &mut String, count: usize) -> Result<(), Memory>
    ensures chars { OnOk result (chars (string_bytes blanked.new) ≡ chars (string_bytes blanked.old) ++ replicate count 32) }
    ensures length { OnOk result (length (string_bytes blanked.new) ≡ length (string_bytes blanked.old) + count) }
{
    for space in 0..count {
        push_char(blanked, ' ')?;
    }
    Ok(())
}

/// The tag that begins a text, which stands at this place.
fn tag_at(
    alloc: Global,
    table: &TagTable,
    place: u32,
    text: &str,
) -> Result<Option<TagView>, Memory>
    requires { place + length text.now ≤ 2 ^ 24 }
    ensures { IfOk result (λ t. OverTable table.now.places (λ ts. t ≡ tag_at ts place (chars text.now))) }
{
    match split_first(text) {
        Some(('<', after)) => tag_behind(alloc, table, place, after),
        _ => Ok(None),
    }
}

/// The tag whose `<` stands at this place and before this text.
fn tag_behind(
    alloc: Global,
    table: &TagTable,
    place: u32,
    text: &str,
) -> Result<Option<TagView>, Memory>
    requires { place + length text.now ≤ 2 ^ 24 }
    ensures { IfOk result (λ t. OverTable table.now.places (λ ts. t ≡ option_and_then (named_tag ts place) (spelt_tag (chars text.now)))) }
{
    match split_first(text) {
        None => Ok(None),
        Some((c, after)) => {
            if c == '/' {
                tag_named(alloc, table, place, true, after)
            } else {
                tag_named(alloc, table, place, false, text)
            }
        }
    }
}

/// The tag whose name this text begins with.
fn tag_named(
    alloc: Global,
    table: &TagTable,
    place: u32,
    closing: bool,
    text: &str,
) -> Result<Option<TagView>, Memory>
    requires { place ≤ 2 ^ 24 }
    ensures { IfOk result (λ t. OverTable table.now.places (λ ts. t ≡ tag_before_close ts place closing (chars text.now))) }
{
    let Some(name) = read_name(alloc, text)? else {
        return Ok(None);
    };
    let Some(found) = table.find(name.as_str()) else {
        return Ok(None);
    };
    Ok(Some(tag_of(found, closing, place, name.as_str().as_bytes())?))
}

fn tag_of(found: &TagPlace, closing: bool, place: u32, name: &[u8]) -> Result<TagView, Memory>
    requires { place + length name.now + 3 < 2 ^ 32 }
    ensures { IfOk result (λ t. t ≡ tag_of place closing name.now (place_parts found.now)) }
{
    let width = name.len() as u32 + if closing { 3 } else { 2 };
    Ok(TagView {
        section: found.section.clone()?,
        tag: found.number,
        closing,
        start: place,
        end: place + width,
    })
}
