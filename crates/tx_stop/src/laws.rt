//! What holds of all stop keys. The function here only states a law, which its contract proves.

ghost use Rattle.tx_stop.specs.Promises.{StopKeysAreThoseOfWords};

/// A key is a stop key exactly where it is that of one of the words, and not empty.
pub fn stop_keys_are_those_of_words()
    ensures { StopKeysAreThoseOfWords }
{}
