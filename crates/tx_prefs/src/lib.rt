//! Lexer preferences, stoplists, section groups and index sets as stored entries, and the preferences that an index copies from them.
#![tactic(auto)]

mod changes;
mod copying;
mod kinds;
mod laws;
mod lookups;
mod parameters;
mod reading;
mod requests;
mod settings;
mod shapes;
mod unknown_names;
mod words;

pub use changes::{group_changes, lexer_changes, set_changes, stoplist_changes};
pub use copying::copy;
pub use kinds::PrefKind;
pub use laws::{changes_stand, entries_are_exact, others_stay, rules_stay};
pub use lookups::{
    has_named, index_set, is_kind_full, lexer_settings, section_group, stoplist_words,
};
pub use parameters::Parameters;
pub use requests::{Request, asks_only, read_requests, requested_parameters, requested_set};
pub use settings::with_setting;
pub use shapes::is_pref_shape;
pub use unknown_names::unknown_request;
