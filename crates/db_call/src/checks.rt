//! The checks that come first in each procedure.

ghost use Rattle.std.specs.Prelude.{◌≡◌};
ghost use Rattle.std.specs.Option.{option_map};
ghost use Rattle.db_state.specs.Effects.{Effect, Checks};
ghost use Rattle.db_call.specs.Checks.{check, taken_name as name_taken, missing_name as name_unknown};

use ct_base::Name;
use db_cond::Fault;

/// The name, where something has it.
pub fn taken_name(there: bool, name: &Option<Name>) -> Option<&str>
    ensures { option_map (λ n. n.now) result ≡ name_taken there name.now }
{
    match name {
        Some(name) if there => Some(name.as_str()),
        _ => None,
    }
}

/// The name, where nothing has it.
pub fn missing_name(there: bool, name: &Option<Name>) -> Option<&str>
    ensures { option_map (λ n. n.now) result ≡ name_unknown there name.now }
{
    match name {
        Some(name) if !there => Some(name.as_str()),
        _ => None,
    }
}

/// The first check that fails: of a name that nothing has, of what exists already, and of the number and kinds of the arguments.
pub fn first_fault<'a>(
    unknown: Option<&'a str>,
    taken: Option<&'a str>,
    shaped: bool,
) -> Option<Fault<'a>>
    ensures { (done : Effect) → Checks result (check (option_map (λ n. n.now) unknown.entry) (option_map (λ n. n.now) taken.entry) shaped done) done }
{
    if let Some(name) = unknown {
        return Some(Fault::UnknownName(name));
    }
    if let Some(name) = taken {
        return Some(Fault::ExistsAlready(name));
    }
    if !shaped {
        return Some(Fault::WrongValues);
    }
    None
}
