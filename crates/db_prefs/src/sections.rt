//! CTX_DDL.ADD_ZONE_SECTION and ADD_FIELD_SECTION.
#![tactic(auto, using(ct_keep::specs::laws::Composing::reads_on, ct_keep::specs::laws::Composing::reads_short))]

ghost use Rattle.std.specs.Prelude.{◌≡◌, IfOk, false};
ghost use Rattle.std.specs.Option.{option_map};
ghost use Rattle.ct_keep.specs.KeeperViews.{OnlyReads};
ghost use Rattle.tx_tags.specs.Groups.{is_among, is_reserved as name_reserved, tag_names};
ghost use Rattle.tx_prefs.specs.Promises.{kind_count as count_of_kind};
ghost use Rattle.db_state.specs.Lines.{call_done};
ghost use Rattle.db_state.specs.Plans.{IsStorePlan, Plans};
ghost use Rattle.db_prefs.specs.Defining.{PlansSection, add_section, is_full_group as group_full, is_good_section as good_section, is_same_kind as same_kind, of_other_kind as name_of_other_kind, taken_section as section_taken, taken_tag as tag_taken};

use crate::lookups::group_of;
use ct_base::{Memory, Name, Text};
use ct_keep::{KeepFault, Keeper};
use db_call::{first_fault, missing_name};
use db_cond::Fault;
use db_state::Plan;
use std::alloc::Global;
use tx_prefs::group_changes;
use tx_tags::{Group, SectionKind, is_tag};

/// How many zones, and how many fields, a group has at most.
const SECTION_LIMIT: usize = 64;

/// How many tags a group has at most.
const TAGS_LIMIT: usize = 256;

fn is_same_kind(kind: SectionKind, other: SectionKind) -> bool
    ensures { result ≡ same_kind kind other }
{
    match kind {
        SectionKind::Zone => matches!(other, SectionKind::Zone),
        SectionKind::Field => matches!(other, SectionKind::Field),
        SectionKind::VisibleField => matches!(other, SectionKind::VisibleField),
    }
}

/// The name, where a section of it is one of another kind.
fn of_other_kind<'a>(group: &Group, kind: SectionKind, name: &'a Option<Name>) -> Option<&'a str>
    ensures { option_map (λ n. n.now) result ≡ name_of_other_kind group.now kind name.now }
{
    let Some(name) = name else {
        return None;
    };
    let Some(other) = group.kind_of(name) else {
        return None;
    };
    if is_same_kind(kind, other) {
        None
    } else {
        Some(name.as_str())
    }
}

/// The tag, where the group has it.
fn taken_tag<'a>(group: &Group, tag: &'a Option<Text>) -> Option<&'a str>
    ensures { option_map (λ t. t.now) result ≡ tag_taken group.now tag.now }
{
    let Some(tag) = tag else {
        return None;
    };
    if group.has_tag(tag.as_str()) {
        Some(tag.as_str())
    } else {
        None
    }
}

/// What is there already: the section as one of another kind, or else the tag.
fn taken_section<'a>(
    kind: SectionKind,
    name: &'a Option<Name>,
    tag: &'a Option<Text>,
    found: &Option<Group>,
) -> Option<&'a str>
    ensures { option_map (λ t. t.now) result ≡ section_taken kind name.now tag.now found.now }
{
    let Some(group) = found else {
        return None;
    };
    match of_other_kind(group, kind, name) {
        Some(name) => Some(name),
        None => taken_tag(group, tag),
    }
}

/// Whether the name is kept for sentences or paragraphs.
fn is_reserved(name: &str) -> bool
    ensures { result ≡ name_reserved name.now }
{
    name == "sentence" || name == "paragraph"
}

/// Whether the group may have the section with the tag, unless it is full.
fn is_good_section(group: &Group, name: &Name, tag: &str) -> bool
    ensures { result ≡ good_section group.now name.now tag.now }
{
    !group.is_null() && !is_reserved(name.as_str()) && is_tag(tag)
}

/// How many sections of the kind there are: zones, or fields.
fn kind_count(group: &Group, kind: SectionKind) -> usize
    ensures { result ≡ count_of_kind kind group.now.sections }
{
    match kind {
        SectionKind::Zone => group.zone_count(),
        SectionKind::Field | SectionKind::VisibleField => group.field_count(),
    }
}

/// Whether the group has as many tags as there may be, or as many sections of the kind, where this is a new one.
fn is_full_group(group: &Group, kind: SectionKind, name: &Name) -> bool
    ensures { result ≡ group_full group.now kind name.now }
{
    group.tag_count() >= TAGS_LIMIT
        || (group.kind_of(name).is_none() && kind_count(group, kind) >= SECTION_LIMIT)
}

/// What a section with a tag comes to, of a group that is there.
fn added_plan<'a>(
    alloc: Global,
    kind: SectionKind,
    name: &Name,
    group: Group,
    section: &Name,
    tag: &str,
) -> Result<Plan<'a>, Memory>
    ensures plan { is_among tag.now (tag_names group.sections) ≡ false → PlansSection result kind name.now group section.now tag.now }
    ensures entries { IfOk result IsStorePlan }
{
    let _named = section.as_str();
    if !is_good_section(&group, section, tag) {
        return Ok(Plan::Refused(Fault::BadValue));
    }
    if is_full_group(&group, kind, section) {
        return Ok(Plan::Refused(Fault::LimitReached));
    }
    let Some(group) = group.with_tag(alloc, section, kind, tag)? else {
        return Ok(Plan::Refused(Fault::LimitReached));
    };
    let batch = group_changes(alloc, name, &group)?;
    Ok(Plan::Done(batch))
}

/// The plan of CTX_DDL.ADD_ZONE_SECTION and ADD_FIELD_SECTION: a refusal, or the batch that adds the section with the tag, where `shaped` tells whether the arguments are as
/// many and of such kinds as the procedure takes.
pub(crate) fn section_plan<'a, K: Keeper>(
    alloc: Global,
    keeper: &mut K,
    kind: SectionKind,
    shaped: bool,
    name: &'a Option<Name>,
    section: &'a Option<Name>,
    tag: &'a Option<Text>,
) -> Result<Plan<'a>, KeepFault>
    requires { (K.view keeper.old).ready }
    ensures plan { Plans K.view keeper.old result (λ m. add_section kind shaped m name.now section.now tag.now) call_done }
    ensures entries { IfOk result IsStorePlan }
    ensures reads { OnlyReads K.view keeper.old keeper.new result }
{
    let found = group_of(alloc, keeper, name)?;
    let unknown = missing_name(found.is_some(), name);
    let taken = taken_section(kind, section, tag, &found);
    if let Some(fault) = first_fault(unknown, taken, shaped) {
        return Ok(Plan::Refused(fault));
    }
    let Some(name) = name else {
        return Ok(Plan::Refused(Fault::BadValue));
    };
    let Some(group) = found else {
        return Ok(Plan::Refused(Fault::BadValue));
    };
    let Some(section) = section else {
        return Ok(Plan::Refused(Fault::BadValue));
    };
    let Some(tag) = tag else {
        return Ok(Plan::Refused(Fault::BadValue));
    };
    let plan = added_plan(alloc, kind, name, group, section, tag.as_str())?;
    Ok(plan)
}
