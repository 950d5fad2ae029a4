//! What holds of all indexes. Each function here only states laws, which its contract proves.

ghost use Rattle.db_names.specs.Promises.{EntriesHaveOneHead, HeadsAreRead, IndexesOnAreRead, IndexesOfAreRead};

/// An entry spells one head at most. Where entries stand for indexes, what is read of them are their heads.
pub fn heads_are_exact()
    ensures one { EntriesHaveOneHead }
    ensures by_name { HeadsAreRead }
    ensures by_target { IndexesOnAreRead }
    ensures by_table { IndexesOfAreRead }
{}
