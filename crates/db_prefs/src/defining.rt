//! The procedures by their names.
#![tactic(auto, using(ct_keep::specs::laws::Composing::reads_on, ct_keep::specs::laws::Composing::reads_short, ct_keep::specs::laws::Composing::accepts_on))]

ghost use Rattle.std.specs.Prelude.{◌≡◌, ◌||◌, IfOk, Some};
ghost use Rattle.ct_keep.specs.KeeperViews.{OnlyReads};
ghost use Rattle.db_call.specs.Arguments.{are_texts as are_so_many_texts, argument_name as name_there};
ghost use Rattle.db_state.specs.Lines.{call_done};
ghost use Rattle.db_state.specs.Plans.{IsStorePlan, Plans, Replies, line_for_all};
ghost use Rattle.db_state.specs.Shapes.{AcceptsStatements};
ghost use Rattle.db_prefs.specs.Arguments.{are_texts_and_flag as texts_and_flag, lower_at as lower_there};
ghost use Rattle.db_prefs.specs.Defining.{define as define_effect, define_by, field_kind as kind_of_field};

use crate::arguments::{are_texts_and_flag, is_flagged, lower_at};
use crate::attributes::attribute_plan;
use crate::creating::create_plan;
use crate::sections::section_plan;
use crate::special_sections::special_plan;
use crate::stopwords::stopword_plan;
use crate::sub_indexes::sub_index_plan;
use ct_base::{Memory, Name, Text};
use ct_keep::{KeepFault, Keeper};
use db_call::{are_texts, name_at};
use db_state::{Plan, carry_out};
use st_parse::{Arg, Definition};
use std::alloc::Global;
use tx_prefs::PrefKind;
use tx_tags::SectionKind;

/// What a refusal may show.
#[derive(Drop)]
struct Shown {
    /// The name that the first argument spells.
    name: Option<Name>,
    /// The name that the second argument spells.
    section: Option<Name>,
    /// The third argument in lower case.
    tag: Option<Text>,
}

/// What a refusal of a procedure with these arguments may show.
fn shown_by(alloc: Global, args: &[Arg]) -> Result<Shown, Memory>
    ensures name { IfOk result (λ shown. shown.name ≡ name_there 0 args.now) }
    ensures section { IfOk result (λ shown. shown.section ≡ name_there 1 args.now) }
    ensures tag { IfOk result (λ shown. shown.tag ≡ lower_there 2 args.now) }
{
    let name = name_at(alloc, args, 0)?;
    let section = name_at(alloc, args, 1)?;
    let tag = lower_at(alloc, args, 2)?;
    Ok(Shown { name, section, tag })
}

/// Whether the arguments are those of a field: three texts, and whether it can be seen, which may be left out.
fn are_field_args(args: &[Arg]) -> bool
    ensures { result ≡ (are_so_many_texts 3 args.now || texts_and_flag args.now) }
{
    are_texts(args, 3) || are_texts_and_flag(args)
}

/// What the fourth argument makes of a field.
fn field_kind(args: &[Arg]) -> SectionKind
    ensures { result ≡ kind_of_field args.now }
{
    if is_flagged(args) {
        SectionKind::VisibleField
    } else {
        SectionKind::Field
    }
}

/// What a procedure comes to.
fn define_plan<'a, K: Keeper>(
    alloc: Global,
    keeper: &mut K,
    procedure: Definition,
    shown: &'a Shown,
    args: &'a [Arg],
) -> Result<Plan<'a>, KeepFault>
    requires { (K.view keeper.old).ready }
    ensures plan { Plans K.view keeper.old result (λ m. define_by m procedure shown.now.name shown.now.section shown.now.tag args.now) call_done }
    ensures entries { IfOk result IsStorePlan }
    ensures reads { OnlyReads K.view keeper.old keeper.new result }
{
    let Shown { name, section, tag } = shown;
    match procedure {
        Definition::CreatePreference => create_plan(alloc, keeper, PrefKind::Lexer, name, args),
        Definition::SetAttribute => attribute_plan(alloc, keeper, name, args),
        Definition::CreateStoplist => create_plan(alloc, keeper, PrefKind::Stoplist, name, args),
        Definition::AddStopword => stopword_plan(alloc, keeper, name, args),
        Definition::CreateSectionGroup => {
            create_plan(alloc, keeper, PrefKind::SectionGroup, name, args)
        }
        Definition::AddZoneSection => {
            let shaped = are_texts(args, 3);
            section_plan(alloc, keeper, SectionKind::Zone, shaped, name, section, tag)
        }
        Definition::AddFieldSection => {
            let shaped = are_field_args(args);
            section_plan(alloc, keeper, field_kind(args), shaped, name, section, tag)
        }
        Definition::AddSpecialSection => special_plan(alloc, keeper, name, args),
        Definition::CreateIndexSet => create_plan(alloc, keeper, PrefKind::IndexSet, name, args),
        Definition::AddIndex => sub_index_plan(alloc, keeper, name, args),
    }
}

/// Carries out one of the ten procedures of CTX_DDL that define lexer preferences, stoplists, section groups and index sets, by at most
/// one commit.
///
/// It is refused, in this order, where a name is unknown; where what it makes exists already; where its arguments are too few, too
/// many or of other kinds; where a type, an attribute, a value, a word, a tag, a name or a list of columns is bad; and where a limit would
/// be passed: 256 of each kind, 4096 words in a stoplist, 64 zones, 64 fields and 256 tags in a group, and 16 sub-indexes of 3 columns in
/// an index set. Whether a table has the columns isn't asked.
///
/// Its cost is linear in the length of the entry, and where something new is made of all entries of its kind; for a section group it is
/// the square of the number of its tags, of which there are at most 256. Since each call reads and writes the whole entry, n stopwords
/// that are added one by one cost the square of n.
pub fn define<K: Keeper>(
    alloc: Global,
    keeper: &mut K,
    procedure: Definition,
    args: &[Arg],
) -> Result<Vec<u8>, KeepFault>
    requires { AcceptsStatements (K.view keeper.old) }
    ensures { Replies K.view keeper.old keeper.new result (λ m. define_effect m procedure args.now) (Some (line_for_all call_done)) }
{
    let shown = shown_by(alloc, args)?;
    match define_plan(alloc, keeper, procedure, &shown, args) {
        Ok(plan) => carry_out(
            alloc,
            keeper,
            plan,
            b"PL/SQL procedure successfully completed.\n",
        ),
        Err(fault) => Err(fault),
    }
}
