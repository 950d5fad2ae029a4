//! Settings: the attributes of lexer preferences with their values, and the preferences by which texts are read; and how these,
//! stoplists and section groups are written as bytes.
#![tactic(auto)]

mod attributes;
mod group_reading;
mod preferences;
mod prefs_laws;
mod reading;
mod setting_reading;
mod settings;
mod word_reading;
mod writing;

pub use attributes::{Attribute, Setting, Settings};
pub use group_reading::read_group;
pub use preferences::{Prefs, keep_names};
pub use prefs_laws::{
    kept_may_be_written, options_are_exact, spellings_are_exact, spellings_are_short,
};
pub use setting_reading::read_settings;
pub use settings::{are_taken, options_of, settings_of};
pub use word_reading::read_words;
pub use writing::{put_group, put_settings, put_words};
