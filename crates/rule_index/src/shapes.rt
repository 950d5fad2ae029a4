//! Which entries of rule indexes are well shaped, each by itself.

ghost use Rattle.std.specs.Prelude.{◌↔◌, ◌≤◌, IfOk, IfSome, IsTrue, length};
ghost use Rattle.std.specs.Option.{option_map};
ghost use Rattle.ct_entry.specs.Keys.{IsPart};
ghost use Rattle.ct_entry.specs.declared.kinds.Kind.TheVariants as kind;
ghost use Rattle.rule_index.specs.Shapes.{BeginsWithAnchor, IsRuleShape, RuleValueAt};

use crate::entries::rules_of;
use ct_base::Memory;
use ct_entry::{Kind, is_row_part};
use q_stored::{StoredFault, decode};
use std::alloc::Global;
use std::str::from_utf8;

/// Whether the value is UTF-8, as the text of a fault is.
fn is_text(value: &[u8]) -> bool
    ensures { IsTrue result ↔ RuleValueAt kind.RuleFaults value.now }
{
    match from_utf8(value) {
        Ok(_) => true,
        Err(_) => false,
    }
}

/// The anchor, after its length, and what stands behind it; None where there is too little.
fn after_anchor(part: &[u8]) -> Option<(&[u8], &[u8])>
    ensures anchor { BeginsWithAnchor part.now (option_map (λ x. (x.0.now, x.1.now)) result) }
    ensures short { IfSome result (λ x. length x.0.now ≤ 255) }
{
    let [length, behind @ ..] = part else {
        return None;
    };
    behind.split_at_checked(usize::from(*length))
}

/// Whether these are the rest of the key of a rule under an anchor: the anchor after its length, and a row.
fn is_anchor_part(part: &[u8]) -> bool
    ensures { IsTrue result ↔ IsPart kind.Anchors part.now }
{
    let Some((_anchor, row)) = after_anchor(part) else {
        return false;
    };
    is_row_part(row)
}

/// Whether a query is stored as these bytes.
fn is_stored(alloc: Global, value: &[u8]) -> Result<bool, Memory>
    ensures { IfOk result (λ is. IsTrue is ↔ RuleValueAt kind.Rules value.now) }
{
    match decode(alloc, value) {
        Ok(_query) => Ok(true),
        Err(StoredFault::BadQuery) => Ok(false),
        Err(StoredFault::Memory) => Err(Memory),
    }
}

/// Whether these are the rest of the key of a rule index, and its entry.
fn is_rules_entry(alloc: Global, part: &[u8], value: &[u8]) -> Result<bool, Memory>
    ensures { IfOk result (λ is. IsTrue is ↔ IsRuleShape kind.Indexes part.now value.now) }
{
    let Some(_entry) = rules_of(alloc, value)? else {
        return Ok(false);
    };
    Ok(part.is_empty())
}

/// Whether these are the rest of the key of a rule, and its query.
fn is_rule(alloc: Global, part: &[u8], value: &[u8]) -> Result<bool, Memory>
    ensures { IfOk result (λ is. IsTrue is ↔ IsRuleShape kind.Rules part.now value.now) }
{
    if !is_row_part(part) {
        return Ok(false);
    }
    is_stored(alloc, value)
}

/// Whether these are the rest of the key of a rule under an anchor, and its value.
fn is_anchor(part: &[u8], value: &[u8]) -> bool
    ensures { IsTrue result ↔ IsRuleShape kind.Anchors part.now value.now }
{
    if !value.is_empty() {
        return false;
    }
    is_anchor_part(part)
}

/// Whether a key of this kind may have this rest, and an entry of a rule index under it this value. No other entry is looked at: there
/// may be no such table, column or row.
///
/// Its cost is the length of both.
pub fn is_rule_shape(alloc: Global, kind: Kind, part: &[u8], value: &[u8]) -> Result<bool, Memory>
    ensures { IfOk result (λ is. IsTrue is ↔ IsRuleShape kind part.now value.now) }
{
    match kind {
        Kind::Indexes => is_rules_entry(alloc, part, value),
        Kind::Pending => Ok(is_row_part(part) && value.is_empty()),
        Kind::Rules => is_rule(alloc, part, value),
        Kind::Anchors => Ok(is_anchor(part, value)),
        Kind::RuleFaults => Ok(is_row_part(part) && is_text(value)),
        _ => Ok(false),
    }
}
