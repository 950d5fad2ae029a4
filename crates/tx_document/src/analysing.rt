//! Reading a document.

ghost use Rattle.std.specs.Prelude.{◌≡◌, ◌≤◌, ◌+◌, ◌<◌, ◌^◌, IfOk, length};
ghost use Rattle.std.specs.Str.{chars};
ghost use Rattle.tx_document.specs.Documents.{document, document_by};
ghost use Rattle.tx_document.specs.Fields.{fields as field_count};
ghost use Rattle.tx_document.specs.Ranges.{AreRising};

use crate::extents::{Extent, extents};
use crate::fields::fields;
use crate::instances::instances;
use crate::ordering::rising;
use crate::views::{DocView, SectionViews, WordViews};
use crate::words::words;
use ct_base::Memory;
use std::alloc::Global;
use tx_lexer::{Token, tokens_by};
use tx_settings::Prefs;
use tx_tags::read_tags;

/// The document that a text of at most 2^24 bytes is.
///
/// Its cost is linear in the length of the text, and once more in the number of words for each field whose tags stand in it. Each
/// `<` and each instance of a section adds a logarithm. Each call makes a table of the group's tags.
pub fn analyse(alloc: Global, prefs: &Prefs, text: &str) -> Result<DocView, Memory>
    requires { length text.now ≤ 2 ^ 24 }
    ensures { IfOk result (λ d. d ≡ document prefs.now (chars text.now)) }
{
    let tagged = read_tags(alloc, &prefs.group, text)?;
    let tokens = tokens_by(alloc, &prefs.lexer, tagged.blanked.as_str())?;
    let extents = extents(
        alloc,
        tagged.tags.as_slice(),
        prefs.group.sections(),
        text.len() as u32,
    )?;
    document_by(alloc, prefs, &extents, &tokens)
}

/// The document with these spans of sections and these tokens.
fn document_by(
    alloc: Global,
    prefs: &Prefs,
    extents: &[Extent],
    tokens: &[Token],
) -> Result<DocView, Memory>
    requires short { length tokens.now + 1 < 2 ^ 32 }
    requires few { field_count extents.now ≤ 64 }
    requires order { AreRising tokens.now }
    ensures { IfOk result (λ d. d ≡ document_by prefs.now extents.now tokens.now) }
{
    let fields = fields(alloc, extents, tokens)?;
    let words = words(alloc, &prefs.stop, &fields, tokens)?;
    let found = instances(alloc, &prefs.group, extents, tokens)?;
    let sections = rising(found)?;
    Ok(DocView {
        words: WordViews::of(words),
        sections: SectionViews::of(sections),
    })
}
