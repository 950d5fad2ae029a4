//! CTX_DDL.ADD_SPECIAL_SECTION.
#![tactic(auto, using(ct_keep::specs::laws::Composing::reads_on, ct_keep::specs::laws::Composing::reads_short))]

ghost use Rattle.std.specs.Prelude.{◌≡◌, IfOk, Some};
ghost use Rattle.std.specs.FinMap.{get};
ghost use Rattle.std.specs.Option.{option_map};
ghost use Rattle.ct_keep.specs.KeeperViews.{OnlyReads};
ghost use Rattle.db_state.specs.Lines.{call_done};
ghost use Rattle.db_state.specs.Plans.{IsStorePlan, Plans, PlansWhere};
ghost use Rattle.db_prefs.specs.Defining.{add_special_section, has_special as has_it, special_added, special_name, special_of as special_named, taken_special as special_taken, with_special as with_it};

use crate::lookups::group_of;
use ct_base::{Memory, Name};
use ct_keep::{KeepFault, Keeper};
use db_call::{are_texts, first_fault, missing_name, spells_word, text_at};
use db_cond::Fault;
use db_state::Plan;
use st_parse::Arg;
use std::alloc::Global;
use tx_prefs::group_changes;
use tx_tags::Group;

/// A section that needs no tags.
#[derive(Clone, Copy)]
pub(crate) enum Special {
    Sentence,
    Paragraph,
}

/// Which of the two a word asks for.
fn special_of(text: Option<&str>) -> Option<Special>
    ensures { result ≡ special_named (option_map (λ t. t.now) text.entry) }
{
    if spells_word(text, "sentence") {
        return Some(Special::Sentence);
    }
    if spells_word(text, "paragraph") {
        return Some(Special::Paragraph);
    }
    None
}

impl Special {
    fn name(self) -> &'static str
        ensures { result.now ≡ special_name self }
    {
        match self {
            Special::Sentence => "sentence",
            Special::Paragraph => "paragraph",
        }
    }

    fn is_in(self, group: &Group) -> bool
        ensures { result ≡ has_it group.now self }
    {
        match self {
            Special::Sentence => group.has_sentences(),
            Special::Paragraph => group.has_paragraphs(),
        }
    }

    /// The group with this one.
    fn put_in(self, group: Group) -> Group
        ensures { result ≡ with_it group self }
    {
        match self {
            Special::Sentence => group.with_sentences(),
            Special::Paragraph => group.with_paragraphs(),
        }
    }
}

/// Its name, where the group is there and has it.
fn taken_special(asked: Option<Special>, found: &Option<Group>) -> Option<&'static str>
    ensures { option_map (λ t. t.now) result ≡ special_taken asked found.now }
{
    let Some(group) = found else {
        return None;
    };
    let Some(special) = asked else {
        return None;
    };
    if special.is_in(group) {
        Some(special.name())
    } else {
        None
    }
}

/// The plan of CTX_DDL.ADD_SPECIAL_SECTION for a group that is there.
fn added_plan<'a>(
    alloc: Global,
    name: &Name,
    group: Group,
    special: Special,
) -> Result<Plan<'a>, Memory>
    ensures plan { PlansWhere result (λ m. get m.preferences.groups name.now ≡ Some group) (λ m. special_added special m name.now group) }
    ensures entries { IfOk result IsStorePlan }
{
    let group = special.put_in(group);
    let batch = group_changes(alloc, name, &group)?;
    Ok(Plan::Done(batch))
}

/// The plan of CTX_DDL.ADD_SPECIAL_SECTION: a refusal, or the batch by which sentences or paragraphs become sections of the group.
pub(crate) fn special_plan<'a, K: Keeper>(
    alloc: Global,
    keeper: &mut K,
    name: &'a Option<Name>,
    args: &[Arg],
) -> Result<Plan<'a>, KeepFault>
    requires { (K.view keeper.old).ready }
    ensures plan { Plans K.view keeper.old result (λ m. add_special_section m name.now args.now) call_done }
    ensures entries { IfOk result IsStorePlan }
    ensures reads { OnlyReads K.view keeper.old keeper.new result }
{
    let found = group_of(alloc, keeper, name)?;
    let asked = special_of(text_at(args, 1));
    let unknown = missing_name(found.is_some(), name);
    let taken = taken_special(asked, &found);
    if let Some(fault) = first_fault(unknown, taken, are_texts(args, 2)) {
        return Ok(Plan::Refused(fault));
    }
    let Some(special) = asked else {
        return Ok(Plan::Refused(Fault::BadValue));
    };
    let Some(name) = name else {
        return Ok(Plan::Refused(Fault::BadValue));
    };
    let Some(group) = found else {
        return Ok(Plan::Refused(Fault::BadValue));
    };
    let plan = added_plan(alloc, name, group, special)?;
    Ok(plan)
}
