//! What MATCHES finds in a rule index.
#![tactic(auto, using(ct_keep::specs::laws::Composing::reads_on, ct_keep::specs::laws::Composing::reads_short))]

ghost use Rattle.std.specs.Prelude.{◌≡◌, IfOk, false, length, nat_lt, true};
ghost use Rattle.ct_base.specs.Limits.{text_limit};
ghost use Rattle.ct_keep.specs.KeeperViews.{OnlyReads};
ghost use Rattle.tx_settings.specs.Attributes.{can_be_set};
ghost use Rattle.db_state.specs.States.{OverRules};
ghost use Rattle.db_find.specs.Finding.{FindsByDocument, GivesHeld};
ghost use Rattle.db_find.specs.Looking.{OverRulesBy, ReadsFiled};

use crate::catalogues::{nothing_asked, unscored_hits};
use crate::finding::Found;
use ct_base::{Name, RowKey};
use ct_keep::{KeepFault, Keeper};
use rule_index::Rules;
use std::alloc::Global;
use tx_document::{analyse, document_laws};
use tx_settings::Prefs;

/// The rules that hold of a document of at most 4000 bytes, in order of their keys, in an index that reads texts by these preferences.
fn rules_held<K: Keeper>(
    alloc: Global,
    keeper: &mut K,
    index: &Name,
    prefs: &Prefs,
    document: &str,
) -> Result<Vec<RowKey>, KeepFault>
    requires ready { (K.view keeper.old).ready }
    requires set { can_be_set prefs.now.lexer ≡ true }
    requires short { nat_lt text_limit (length document.now) ≡ false }
    ensures rows { OverRulesBy K.view keeper.old index.now prefs.now (λ ts x. IfOk result (GivesHeld x document.now)) }
    ensures reads { OnlyReads K.view keeper.old keeper.new result }
    ensures rules { OverRulesBy K.view keeper.old index.now prefs.now (λ ts x. ReadsFiled K.view keeper.old keeper.new document.now x) }
{
    document_laws();
    prefs.keep_rules();
    let words = analyse(alloc, prefs, document)?;
    Rules::matches(alloc, keeper, index, &words)
}

/// The same as what a search finds.
fn found_rules<K: Keeper>(
    alloc: Global,
    keeper: &mut K,
    index: &Name,
    prefs: &Prefs,
    document: &str,
) -> Result<Found, KeepFault>
    requires ready { (K.view keeper.old).ready }
    requires set { can_be_set prefs.now.lexer ≡ true }
    requires short { nat_lt text_limit (length document.now) ≡ false }
    ensures found { OverRulesBy K.view keeper.old index.now prefs.now (λ ts x. FindsByDocument ts x document.now result) }
    ensures reads { OnlyReads K.view keeper.old keeper.new result }
    ensures rules { OverRulesBy K.view keeper.old index.now prefs.now (λ ts x. ReadsFiled K.view keeper.old keeper.new document.now x) }
{
    let rows = rules_held(alloc, keeper, index, prefs, document)?;
    let hits = unscored_hits(alloc, rows)?;
    Ok(Found::Rows(hits, nothing_asked(alloc)))
}

/// What a MATCHES finds in a rule index: of the rules that were taken at the last synchronisation those whose query has a score above 0 on
/// the document, in order of their keys. Where there is no such index it finds nothing.
pub(crate) fn find_in_rules<K: Keeper>(
    alloc: Global,
    keeper: &mut K,
    index: &Name,
    document: &str,
) -> Result<Found, KeepFault>
    requires ready { (K.view keeper.old).ready }
    requires short { nat_lt text_limit (length document.now) ≡ false }
    ensures found { OverRules K.view keeper.old index.now (λ m x. FindsByDocument m.tables x document.now result) }
    ensures reads { OnlyReads K.view keeper.old keeper.new result }
    ensures rules { OverRules K.view keeper.old index.now (λ m x. ReadsFiled K.view keeper.old keeper.new document.now x) }
{
    let Some(prefs) = Rules::prefs_of(alloc, keeper, index)? else {
        return Ok(Found::Rows(Vec::new(alloc), nothing_asked(alloc)));
    };
    found_rules(alloc, keeper, index, &prefs, document)
}
