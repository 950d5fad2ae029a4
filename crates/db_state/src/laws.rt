//! What holds of all contents. Each function here only states laws, which its contract proves.

ghost use Rattle.db_state.specs.Promises.{OneState, StoresAreWell, StoresAreWithinRoom};

/// A content stands for at most one state, but for what is wasted.
pub fn one_state()
    ensures { OneState }
{}

/// Each entry of a content that stands for a state is one that a store has.
pub fn stores_are_well()
    ensures { StoresAreWell }
{}

/// No content weighs more than the room of a state that it stands for.
pub fn stores_are_within_room()
    ensures { StoresAreWithinRoom }
{}
