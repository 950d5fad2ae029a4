//! What holds of all preferences. Each function here only states laws, which its contract proves.

ghost use Rattle.ct_entry.specs.declared.kinds.Kind.TheVariants as kind;
ghost use Rattle.tx_prefs.specs.Promises.{EntriesAreWell, FlagsStay, GroupsStand, GroupsStay, LexersStand, OnePreferences, OthersLeaveThem, SectionsKeepTheirKind, SetsStand, SettingsStayInOrder, SettingsStayTaken, StoplistsStand, StopwordsStay, TagsJoinTheirSection, TheLastValueCounts};

/// Where entries spell preferences, the changes of a lexer preference, a stoplist, a section group or an index set make them spell
/// the preferences with it; and changes of entries of other kinds leave them.
pub fn changes_stand()
    ensures lexers { LexersStand }
    ensures stoplists { StoplistsStand }
    ensures groups { GroupsStand }
    ensures sets { SetsStand }
    ensures others { OthersLeaveThem }
{}

/// The entries spell one state at most, and each has a value of its kind that isn't longer than a value may be.
pub fn entries_are_exact()
    ensures one { OnePreferences }
    ensures lexers { EntriesAreWell kind.Preferences }
    ensures stoplists { EntriesAreWell kind.Stoplists }
    ensures groups { EntriesAreWell kind.SectionGroups }
    ensures sets { EntriesAreWell kind.IndexSets }
{}

/// Settings with one more, stopwords with one more, and a section group with one tag more or with other flags keep their rules,
/// where what is added keeps its own and there is room.
pub fn rules_stay()
    ensures order { SettingsStayInOrder }
    ensures taken { SettingsStayTaken }
    ensures stopwords { StopwordsStay }
    ensures groups { GroupsStay }
    ensures flags { FlagsStay }
{}

/// An attribute that is set has its last value, and a tag that is added stands behind the others of its section; what else there is
/// stays as it is.
pub fn others_stay()
    ensures values { TheLastValueCounts }
    ensures tags { TagsJoinTheirSection }
    ensures kinds { SectionsKeepTheirKind }
{}
