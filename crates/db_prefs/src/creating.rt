//! CTX_DDL.CREATE_PREFERENCE, CREATE_STOPLIST, CREATE_SECTION_GROUP and CREATE_INDEX_SET.
#![tactic(auto, using(ct_keep::specs::laws::Composing::reads_on, ct_keep::specs::laws::Composing::reads_short))]

ghost use Rattle.std.specs.Prelude.{◌≡◌, IfOk, IfSome, Some};
ghost use Rattle.std.specs.Option.{option_map};
ghost use Rattle.ct_base.specs.Names.{IsName};
ghost use Rattle.ct_keep.specs.KeeperViews.{OnlyReads};
ghost use Rattle.ct_entry.specs.Changes.{spell};
ghost use Rattle.ct_entry.specs.Shapes.{AreShaped};
ghost use Rattle.tx_prefs.specs.Sees.{is_kind_full};
ghost use Rattle.tx_prefs.specs.Shapes.{HasPrefValue};
ghost use Rattle.db_state.specs.Lines.{call_done};
ghost use Rattle.db_state.specs.Plans.{IsStorePlan, Plans, PlansWhere};
ghost use Rattle.db_prefs.specs.Defining.{are_new_args as new_args, create, is_null_type as null_type, is_type as type_of_kind, new_changes, new_made};

use crate::lookups::{is_full, is_there};
use ct_base::{Memory, Name};
use ct_keep::{Batch, KeepFault, Keeper};
use db_call::{are_texts, first_fault, spells_word, taken_name, text_at};
use db_cond::Fault;
use db_state::Plan;
use st_parse::Arg;
use std::alloc::Global;
use tx_prefs::{PrefKind, group_changes, lexer_changes, set_changes, stoplist_changes};
use tx_tags::Group;

/// Whether the arguments are a name and a type; a stoplist's type may be left out, and an index set has none.
fn are_new_args(kind: PrefKind, args: &[Arg]) -> bool
    ensures { result ≡ new_args kind args.now }
{
    match kind {
        PrefKind::Lexer | PrefKind::SectionGroup => are_texts(args, 2),
        PrefKind::Stoplist => are_texts(args, 1) || are_texts(args, 2),
        PrefKind::IndexSet => are_texts(args, 1),
    }
}

/// Whether the type is the one of groups without sections.
fn is_null_type(text: Option<&str>) -> bool
    ensures { result ≡ null_type (option_map (λ t. t.now) text.entry) }
{
    spells_word(text, "null_section_group")
}

/// Whether the type is one that the kind has.
fn is_type(kind: PrefKind, text: Option<&str>) -> bool
    ensures { result ≡ type_of_kind kind (option_map (λ t. t.now) text.entry) }
{
    match kind {
        PrefKind::Lexer => spells_word(text, "basic_lexer"),
        PrefKind::Stoplist => text.is_none() || spells_word(text, "basic_stoplist"),
        PrefKind::SectionGroup => is_null_type(text) || spells_word(text, "basic_section_group"),
        PrefKind::IndexSet => true,
    }
}

/// The batch that makes one of the kind.
fn new_batch(
    alloc: Global,
    kind: PrefKind,
    name: &Name,
    is_null: bool,
) -> Result<Option<Batch>, Memory>
    ensures changes { IfOk result (λ found. found ≡ Some (spell (new_changes kind name.now is_null))) }
    ensures shaped { IfOk result (λ found. IfSome found (AreShaped HasPrefValue)) }
{
    match kind {
        PrefKind::Lexer => {
            let settings = Vec::new(alloc);
            lexer_changes(alloc, name, &settings)
        }
        PrefKind::Stoplist => {
            let words = Vec::new(alloc);
            stoplist_changes(alloc, name, &words)
        }
        PrefKind::SectionGroup => {
            let group = Group::empty(alloc, is_null);
            let batch = group_changes(alloc, name, &group)?;
            Ok(Some(batch))
        }
        PrefKind::IndexSet => {
            let set = Vec::new(alloc);
            let batch = set_changes(alloc, name, &set)?;
            Ok(Some(batch))
        }
    }
}

/// What a new one of this name comes to, where no check so far has failed.
fn new_plan<'a>(
    alloc: Global,
    kind: PrefKind,
    name: &Name,
    is_null: bool,
    full: bool,
) -> Result<Plan<'a>, Memory>
    ensures plan { PlansWhere result (λ m. full ≡ is_kind_full kind m.preferences) (λ m. new_made kind is_null m name.now) }
    ensures entries { IfOk result IsStorePlan }
{
    let _named = name.as_str();
    if full {
        return Ok(Plan::Refused(Fault::LimitReached));
    }
    let Some(batch) = new_batch(alloc, kind, name, is_null)? else {
        return Ok(Plan::Refused(Fault::LimitReached));
    };
    Ok(Plan::Done(batch))
}

/// The plan of the four procedures that make a lexer preference, a stoplist, a section group or an index set: a refusal, or the batch that
/// makes it.
pub(crate) fn create_plan<'a, K: Keeper>(
    alloc: Global,
    keeper: &mut K,
    kind: PrefKind,
    name: &'a Option<Name>,
    args: &[Arg],
) -> Result<Plan<'a>, KeepFault>
    requires { (K.view keeper.old).ready }
    ensures plan { Plans K.view keeper.old result (λ m. create kind m name.now args.now) call_done }
    ensures entries { IfOk result IsStorePlan }
    ensures reads { OnlyReads K.view keeper.old keeper.new result }
{
    let there = is_there(alloc, keeper, kind, name)?;
    let full = is_full(alloc, keeper, kind)?;
    let taken = taken_name(there, name);
    if let Some(fault) = first_fault(None, taken, are_new_args(kind, args)) {
        return Ok(Plan::Refused(fault));
    }
    let text = text_at(args, 1);
    if !is_type(kind, text) {
        return Ok(Plan::Refused(Fault::BadValue));
    }
    let Some(name) = name else {
        return Ok(Plan::Refused(Fault::BadValue));
    };
    let plan = new_plan(alloc, kind, name, is_null_type(text), full)?;
    Ok(plan)
}
