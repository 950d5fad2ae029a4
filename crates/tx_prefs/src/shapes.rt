//! Whether entries of preferences are well shaped.

ghost use Rattle.std.specs.Prelude.{IsTrue, ◌↔◌, IfOk};
ghost use Rattle.ct_entry.specs.declared.kinds.Kind.TheVariants as kind;
ghost use Rattle.tx_prefs.specs.Shapes.{IsPrefShape};

use crate::reading::{group_in, set_in, settings_in, words_in};
use ct_base::Memory;
use ct_entry::Kind;
use std::alloc::Global;

/// Whether an entry of this kind, with this rest of its key and this value, is one of a preference, a stoplist, a section group or
/// an index set and well shaped. That its owner is a name isn't tested. Its cost is the length of the value, and for a section group
/// the square of the number of its tags too.
pub fn is_pref_shape(alloc: Global, kind: Kind, part: &[u8], value: &[u8]) -> Result<bool, Memory>
    ensures { IfOk result (λ is. IsTrue is ↔ IsPrefShape kind part.now value.now) }
{
    match kind {
        Kind::Preferences => is_lexer(alloc, part, value),
        Kind::Stoplists => is_stoplist(alloc, part, value),
        Kind::SectionGroups => is_group(alloc, part, value),
        Kind::IndexSets => is_set(alloc, part, value),
        _ => Ok(false),
    }
}

/// Whether the entry of a lexer preference is well shaped, whose key has no rest.
fn is_lexer(alloc: Global, part: &[u8], value: &[u8]) -> Result<bool, Memory>
    ensures { IfOk result (λ is. IsTrue is ↔ IsPrefShape kind.Preferences part.now value.now) }
{
    if !part.is_empty() {
        return Ok(false);
    }
    let settings = settings_in(alloc, value)?;
    Ok(settings.is_some())
}

/// Whether the entry of a stoplist is well shaped, whose key has no rest.
fn is_stoplist(alloc: Global, part: &[u8], value: &[u8]) -> Result<bool, Memory>
    ensures { IfOk result (λ is. IsTrue is ↔ IsPrefShape kind.Stoplists part.now value.now) }
{
    if !part.is_empty() {
        return Ok(false);
    }
    let words = words_in(alloc, value)?;
    Ok(words.is_some())
}

/// Whether the entry of a section group is well shaped, whose key has no rest.
fn is_group(alloc: Global, part: &[u8], value: &[u8]) -> Result<bool, Memory>
    ensures { IfOk result (λ is. IsTrue is ↔ IsPrefShape kind.SectionGroups part.now value.now) }
{
    if !part.is_empty() {
        return Ok(false);
    }
    let group = group_in(alloc, value)?;
    Ok(group.is_some())
}

/// Whether the entry of an index set is well shaped, whose key has no rest.
fn is_set(alloc: Global, part: &[u8], value: &[u8]) -> Result<bool, Memory>
    ensures { IfOk result (λ is. IsTrue is ↔ IsPrefShape kind.IndexSets part.now value.now) }
{
    if !part.is_empty() {
        return Ok(false);
    }
    let set = set_in(alloc, value)?;
    Ok(set.is_some())
}
