//! What holds of the bytes of everything that is written. Each function here only states laws, which its contract proves.

ghost use Rattle.ct_bytes.specs.Promises.{NoVarintBeginsAnother, PlacesHaveOneVarint, VarintsAreReadBack, NoTextBeginsAnother, PlacesHaveOneText, TextsAreReadBack, VarintsAreSums, VarintsHaveTopBits, VarintsEndInNoZero, KeysHaveEightBytes, KeysHaveTheirOwnBytes, BytesAreInKeyOrder, TwoBytesAreOneNumber, FourBytesAreOneNumber, TwoBytesAreInOrder, FourBytesAreInOrder};

/// No varint begins another, a place has one at most, and each number below 2^32 is read back from its bytes.
pub fn varints_are_exact()
    ensures apart { NoVarintBeginsAnother }
    ensures one { PlacesHaveOneVarint }
    ensures read_back { VarintsAreReadBack }
{}

/// Each number below 2^32 is the sum of the seven low bits of its bytes, of which each counts 128 times as much as the one
/// before it; the top bit is set on each byte but the last; and the last isn't 0, unless it is the only one.
pub fn varints_are_sums()
    ensures sums { VarintsAreSums }
    ensures top_bits { VarintsHaveTopBits }
    ensures no_zero { VarintsEndInNoZero }
{}

/// The same of texts after their lengths.
pub fn texts_are_exact()
    ensures apart { NoTextBeginsAnother }
    ensures one { PlacesHaveOneText }
    ensures read_back { TextsAreReadBack }
{}

/// Each row key has eight bytes of its own, and these compare as the keys do.
pub fn row_keys_are_exact()
    ensures eight { KeysHaveEightBytes }
    ensures one { KeysHaveTheirOwnBytes }
    ensures order { BytesAreInKeyOrder }
{}

/// Each number of fixed width has its own bytes, and these compare as the numbers do.
pub fn numbers_are_exact()
    ensures two { TwoBytesAreOneNumber }
    ensures four { FourBytesAreOneNumber }
    ensures two_order { TwoBytesAreInOrder }
    ensures four_order { FourBytesAreInOrder }
{}
