//! What is listed of rule indexes.
#![tactic(auto, using(ct_keep::specs::laws::Composing::reads_on, ct_keep::specs::laws::Composing::reads_short))]

ghost use Rattle.std.specs.Prelude.{◌≡◌, ◌++◌, [], None, Some, true, IfOk, IfSome, map};
ghost use Rattle.ct_keep.specs.KeeperViews.{Finds, OnlyReads, Told};
ghost use Rattle.ct_keep.specs.Looks.{look, scan_looks, LooksAtMost};
ghost use Rattle.ct_entry.specs.declared.kinds.Kind.TheVariants as kind;
ghost use Rattle.ct_entry.specs.Keys.{bytes, key, prefix_of};
ghost use Rattle.tx_settings.specs.Attributes.{can_be_set};
ghost use Rattle.rule_index.specs.RuleIndexes.{faulty};
ghost use Rattle.rule_index.specs.Listed.{errors_of, errors_under, listed_errors, text_in};
ghost use Rattle.rule_index.specs.Sees.{SeesRules};

use crate::entries::read_rules;
use crate::rules::Rules;
use ct_base::{Memory, Name, RowKey, Text};
use ct_entry::{Kind, entries_of, row_in};
use ct_keep::{KeepFault, Keeper};
use std::alloc::Global;
use tx_settings::Prefs;

/// A rule that couldn't be read or reduced, or whose query is over the limits of what is stored.
#[derive(Debug, Drop)]
pub struct RuleError {
    pub key: RowKey,
    /// The text of the fault, without a newline.
    pub fault: Text,
}

/// The text of these bytes; None where they aren't UTF-8.
fn text_in(alloc: Global, bytes: &[u8]) -> Result<Option<Text>, Memory>
    ensures { IfOk result (λ found. found ≡ text_in bytes.now) }
{
    match str::from_utf8(bytes) {
        Ok(text) => Ok(Some(Text::of(alloc, text)?)),
        Err(_) => Ok(None),
    }
}

/// The errors that entries spell, in their order. What is no row key or no text is left out.
fn errors_among(alloc: Global, found: &[(Vec<u8>, Vec<u8>)]) -> Result<Vec<RuleError>, Memory>
    ensures { IfOk result (λ errors. listed_errors errors.items ≡ errors_of (map (λ e. (e.0.items, e.1.items)) found.now)) }
{
    let mut errors = Vec::new(alloc);
    for (rest, value) in found {
        if let Some(key) = row_in(rest) {
            if let Some(fault) = text_in(alloc, value)? {
                errors.push(RuleError { key, fault })?;
            }
        }
    }
    Ok(errors)
}

impl Rules {
    /// The faulty rules of an index, in order of their keys. It costs what it finds, and never answers Full.
    pub fn errors<K: Keeper>(
        alloc: Global,
        keeper: &mut K,
        index: &Name,
    ) -> Result<Vec<RuleError>, KeepFault>
        requires { (K.view keeper.old).ready }
        ensures errors { SeesRules K.view keeper.old index.now result (λ x errors. listed_errors errors.items ≡ faulty x.body) }
        ensures listed { Finds K.view keeper.old result (λ m errors. listed_errors errors.items ≡ errors_under index.now m) }
        ensures reads { OnlyReads K.view keeper.old keeper.new result }
        ensures at_most { Told K.view keeper.old (λ m. LooksAtMost K.view keeper.old keeper.new (scan_looks (prefix_of kind.RuleFaults index.now ++ []) m)) }
    {
        let found = entries_of(alloc, keeper, Kind::RuleFaults, index, &[])?;
        let errors = errors_among(alloc, &found)?;
        Ok(errors)
    }

    /// How a rule index reads rules and documents. None where there is no such index. It takes one look-up, of the index's entry, and
    /// never answers Full.
    pub fn prefs_of<K: Keeper>(
        alloc: Global,
        keeper: &mut K,
        index: &Name,
    ) -> Result<Option<Prefs>, KeepFault>
        requires { (K.view keeper.old).ready }
        ensures prefs { SeesRules K.view keeper.old index.now result (λ x found. found ≡ Some x.prefs) }
        ensures set { IfOk result (λ found. IfSome found (λ prefs. can_be_set prefs.lexer ≡ true)) }
        ensures reads { OnlyReads K.view keeper.old keeper.new result }
        ensures at_most { LooksAtMost K.view keeper.old keeper.new (look (bytes (key kind.Indexes index.now [])) None) }
    {
        match read_rules(alloc, keeper, index)? {
            Some(entry) => Ok(Some(entry.prefs)),
            None => Ok(None),
        }
    }
}
