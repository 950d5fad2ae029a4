//! What holds of all arguments. The function here only states it, which its contract proves.

ghost use Rattle.db_arguments.specs.Promises.{OneReading};

/// Arguments ask for at most one thing.
pub fn one_reading()
    ensures { OneReading }
{}
