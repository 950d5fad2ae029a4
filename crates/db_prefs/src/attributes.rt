//! CTX_DDL.SET_ATTRIBUTE.
#![tactic(auto, using(ct_keep::specs::laws::Composing::reads_on, ct_keep::specs::laws::Composing::reads_short))]

ghost use Rattle.std.specs.Prelude.{◌≡◌, IfOk, IfSome, Some, true};
ghost use Rattle.std.specs.FinMap.{get};
ghost use Rattle.std.specs.Option.{option_map};
ghost use Rattle.ct_keep.specs.KeeperViews.{OnlyReads};
ghost use Rattle.tx_settings.specs.Attributes.{takes_value};
ghost use Rattle.tx_settings.specs.PrefsBytes.{are_settings, is_short};
ghost use Rattle.db_state.specs.Lines.{call_done};
ghost use Rattle.db_state.specs.Plans.{IsStorePlan, Plans, PlansWhere};
ghost use Rattle.db_prefs.specs.Defining.{attribute_set, set_attribute, setting_of as setting_named};

use crate::lookups::settings_of;
use ct_base::{Memory, Name, Text};
use ct_keep::{KeepFault, Keeper};
use db_call::{are_texts, first_fault, missing_name, text_at};
use db_cond::Fault;
use db_state::Plan;
use st_parse::Arg;
use std::alloc::Global;
use tx_prefs::{lexer_changes, with_setting};
use tx_settings::{Attribute, Setting};

/// An attribute with a value that it takes.
fn setting(alloc: Global, attribute: Attribute, value: &str) -> Result<Setting, Memory>
    requires { takes_value attribute value.now ≡ true }
    ensures is { IfOk result (λ s. s ≡ record { attribute = attribute; value = value.now }) }
    ensures short { IfOk result (λ s. is_short s.value ≡ true) }
{
    let value = Text::of(alloc, value)?;
    Ok(Setting { attribute, value })
}

/// The attribute of a name with a value, which are both read from the arguments; None where it isn't one that takes the value.
fn setting_of(
    alloc: Global,
    attribute: Option<&str>,
    value: Option<&str>,
) -> Result<Option<Setting>, Memory>
    ensures is { IfOk result (λ found. found ≡ setting_named (option_map (λ t. t.now) attribute.entry) (option_map (λ t. t.now) value.entry)) }
    ensures short { IfOk result (λ found. IfSome found (λ s. is_short s.value ≡ true)) }
    ensures takes { IfOk result (λ found. IfSome found (λ s. takes_value s.attribute s.value ≡ true)) }
{
    let Some(text) = attribute else {
        return Ok(None);
    };
    let Some(attribute) = Attribute::named(text) else {
        return Ok(None);
    };
    let Some(value) = value else {
        return Ok(None);
    };
    if !attribute.takes(value) {
        return Ok(None);
    }
    Ok(Some(setting(alloc, attribute, value)?))
}

/// What an attribute that is set comes to, of a preference that is there with these settings.
fn set_plan<'a>(
    alloc: Global,
    name: &Name,
    settings: Vec<Setting>,
    setting: Setting,
) -> Result<Plan<'a>, Memory>
    requires are { are_settings settings.items ≡ true }
    requires short { is_short setting.value ≡ true }
    requires takes { takes_value setting.attribute setting.value ≡ true }
    ensures plan { PlansWhere result (λ m. get m.preferences.lexers name.now ≡ Some settings.items) (λ m. attribute_set setting m name.now settings.items) }
    ensures entries { IfOk result IsStorePlan }
{
    let settings = with_setting(alloc, settings, setting)?;
    let Some(batch) = lexer_changes(alloc, name, &settings)? else {
        return Ok(Plan::Refused(Fault::LimitReached));
    };
    Ok(Plan::Done(batch))
}

/// The plan of CTX_DDL.SET_ATTRIBUTE: a refusal, or the batch that sets the attribute of the lexer preference of this name.
pub(crate) fn attribute_plan<'a, K: Keeper>(
    alloc: Global,
    keeper: &mut K,
    name: &'a Option<Name>,
    args: &[Arg],
) -> Result<Plan<'a>, KeepFault>
    requires { (K.view keeper.old).ready }
    ensures plan { Plans K.view keeper.old result (λ m. set_attribute m name.now args.now) call_done }
    ensures entries { IfOk result IsStorePlan }
    ensures reads { OnlyReads K.view keeper.old keeper.new result }
{
    let found = settings_of(alloc, keeper, name)?;
    let unknown = missing_name(found.is_some(), name);
    let taken: Option<&'a str> = None;
    if let Some(fault) = first_fault(unknown, taken, are_texts(args, 3)) {
        return Ok(Plan::Refused(fault));
    }
    let Some(setting) = setting_of(alloc, text_at(args, 1), text_at(args, 2))? else {
        return Ok(Plan::Refused(Fault::BadValue));
    };
    let Some(name) = name else {
        return Ok(Plan::Refused(Fault::BadValue));
    };
    let Some(settings) = found else {
        return Ok(Plan::Refused(Fault::BadValue));
    };
    let plan = set_plan(alloc, name, settings, setting)?;
    Ok(plan)
}
