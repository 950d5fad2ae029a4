//! What holds of all thesauri. Each function here only states laws, which its contract proves.

ghost use Rattle.th_store.specs.Promises.{CreatedStand, CreatedStay, EntriesAreCounted, PairEntriesAreWell, NamesAreCounted, OnePairMore, OneThesauri, OthersLeaveThesauri, RelatedStand, RelatedStay};

/// Where entries spell thesauri, the changes of a new thesaurus or of one pair more make them spell the thesauri with it; and changes of
/// entries of other kinds leave them.
pub fn changes_stand()
    ensures created { CreatedStand }
    ensures related { RelatedStand }
    ensures others { OthersLeaveThesauri }
{}

/// The entries spell one state at most; those of pairs are well shaped; and all of them are among those that the room of thesauri counts.
pub fn entries_are_exact()
    ensures one { OneThesauri }
    ensures well { PairEntriesAreWell }
    ensures counted { EntriesAreCounted }
    ensures names { NamesAreCounted }
{}

/// A pair more is among the pairs, with those that were there. Thesauri with a new one, and a thesaurus with a pair that wasn't known,
/// keep their rules where there is room.
pub fn rules_stay()
    ensures more { OnePairMore }
    ensures created { CreatedStay }
    ensures related { RelatedStay }
{}
