//! What holds of the bytes of all preferences. Each function here only states laws, which its contract proves.

ghost use Rattle.tx_settings.specs.PrefsPromises.{DefaultsCanBeSet, GroupsAreShort, KeptSettingsMayBeWritten, KeptWordsMayBeWritten, NoGroupBeginsAnother, NoPrefsBeginOthers, NoSettingsBeginOthers, NoWordsBeginOthers, OptionsAreMadeAgain, OptionsHaveSettings, PrefsAreShort, SetOptionsAreTaken, SettingsAreShort, TakenOptionsCanBeSet, ValuesAreShort, WordsAreShort};

/// No spelling of settings, words, groups and preferences begins another.
pub fn spellings_are_exact()
    ensures settings { NoSettingsBeginOthers }
    ensures words { NoWordsBeginOthers }
    ensures groups { NoGroupBeginsAnother }
    ensures prefs { NoPrefsBeginOthers }
{}

/// The settings of options make these options, and stand in the order of their attributes with texts as values. Options can be
/// set exactly where their settings are taken: the default ones, those that taken settings make, and no others.
pub fn options_are_exact()
    ensures again { OptionsAreMadeAgain }
    ensures settings { OptionsHaveSettings }
    ensures defaults { DefaultsCanBeSet }
    ensures made { TakenOptionsCanBeSet }
    ensures taken { SetOptionsAreTaken }
{}

/// Settings and words as they are kept may be written.
pub fn kept_may_be_written()
    ensures settings { KeptSettingsMayBeWritten }
    ensures words { KeptWordsMayBeWritten }
{}

/// How many bytes spellings have. A value that an attribute takes has at most 256. Settings with such values have fewer than 2^12,
/// 4096 words of at most 64 bytes fewer than 2^19, and a group fewer than 2^14. Preferences have fewer than 2^21.
pub fn spellings_are_short()
    ensures values { ValuesAreShort }
    ensures settings { SettingsAreShort }
    ensures words { WordsAreShort }
    ensures groups { GroupsAreShort }
    ensures prefs { PrefsAreShort }
{}
