//! What a CREATE INDEX asks for.

use ct_base::Name;

/// The names of a lexer preference, a stoplist and a section group; None is the default.
#[derive(Debug, Drop)]
pub struct Parameters {
    pub lexer: Option<Name>,
    pub stoplist: Option<Name>,
    pub group: Option<Name>,
}
