//! What holds of all reductions. The functions here only state laws, which their contracts prove.

ghost use Rattle.q_reduce.specs.Promises.{JoinedKeysAreThoseOfWords, JoinedKeysRise, NoAnyAtEnds, OnlyAnyIsDropped, PlainStopwordsFindNothing, ReducedIsSound, StopwordsFindNothing};

/// What a query that keeps the limits is reduced to is sound.
pub fn reduced_is_sound()
    ensures { ReducedIsSound }
{}

/// A slot of words that EQUIV joins has the keys of these words that are no stopwords, and no other; they rise, each once.
pub fn joined_key_laws()
    ensures words { JoinedKeysAreThoseOfWords }
    ensures rise { JoinedKeysRise }
{}

/// Of a phrase no slot is dropped but those at the front and at the end that take any word, and all of these are.
pub fn trimming_laws()
    ensures only_any { OnlyAnyIsDropped }
    ensures ends { NoAnyAtEnds }
{}

/// A query of stopwords alone finds nothing where none of the thesauri that it names is there; so one that names none finds nothing.
pub fn stopwords_find_nothing()
    ensures where_none_is_there { StopwordsFindNothing }
    ensures plain { PlainStopwordsFindNothing }
{}
