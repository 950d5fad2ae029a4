//! Section groups, and the tags of a text.
#![tactic(auto)]

mod groups;
mod laws;
mod pairing;
mod reading;
mod rules;
mod sections;
mod spelling;
mod tables;
mod tags;

pub use groups::{Group, Section, SectionKind, Tags};
pub use laws::closing_laws;
pub use pairing::{Span, Spans, all_spans, spans};
pub use reading::read_tags;
pub use spelling::is_tag;
pub use tags::{TagView, TagViews, Tagged};
