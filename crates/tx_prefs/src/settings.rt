//! Settings of lexer preferences, in the order of their attributes.

ghost use Rattle.std.specs.Prelude.{◌≡◌, true, IfOk};
ghost use Rattle.tx_settings.specs.Attributes.{is_taken};
ghost use Rattle.tx_settings.specs.PrefsBytes.{are_lexer_settings, are_settings, is_short};
ghost use Rattle.tx_prefs.specs.Preferences.{PutsNext, with_setting};

use ct_base::Memory;
use std::alloc::Global;
use tx_settings::Setting;

/// The settings with this one: in the order of attributes, and in place of the value that its attribute had. Its cost is linear in
/// the number of settings.
pub fn with_setting(
    alloc: Global,
    settings: Vec<Setting>,
    setting: Setting,
) -> Result<Vec<Setting>, Memory>
    ensures setting { IfOk result (λ v. v.items ≡ with_setting setting settings.items) }
    ensures kept { is_short setting.value ≡ true → are_settings settings.items ≡ true → IfOk result (λ v. are_settings v.items ≡ true) }
    ensures taken { is_taken setting ≡ true → are_lexer_settings settings.items ≡ true → IfOk result (λ v. are_lexer_settings v.items ≡ true) }
{
    let _utf8 = setting.value.as_str();
    merged(alloc, settings, setting)
}

/// The same, whatever the settings are.
fn merged(alloc: Global, settings: Vec<Setting>, setting: Setting) -> Result<Vec<Setting>, Memory>
    ensures { IfOk result (λ v. v.items ≡ with_setting setting settings.items) }
{
    let mut more = Vec::new(alloc);
    let mut waiting = Some(setting);
    for next in settings {
        waiting = put_next(&mut more, waiting, next)?;
    }
    if let Some(last) = waiting {
        more.push(last)?;
    }
    Ok(more)
}

/// Puts the next of the settings at the end; before it the one that waits, if its place is there, or in its place. What waits then.
fn put_next(
    more: &mut Vec<Setting>,
    waiting: Option<Setting>,
    next: Setting,
) -> Result<Option<Setting>, Memory>
    ensures { IfOk result (PutsNext more.old.items more.new.items waiting next) }
{
    let Some(setting) = waiting else {
        more.push(next)?;
        return Ok(None);
    };
    let place = setting.attribute.place();
    let next_place = next.attribute.place();
    if next_place < place {
        more.push(next)?;
        return Ok(Some(setting));
    }
    more.push(setting)?;
    if next_place != place {
        more.push(next)?;
    }
    Ok(None)
}
