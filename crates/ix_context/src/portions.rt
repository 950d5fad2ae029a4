//! The texts of rows that become documents, read by several threads at once, a portion after the other.
#![tactic(auto, using(ct_keep::specs::laws::Composing::reads_on, ct_keep::specs::laws::Composing::reads_short))]

ghost use Rattle.std.specs.Prelude.{◌≡◌, ◌+◌, ◌++◌, ◌∷◌, [], ◌<◌, ◌^◌, IfOk, OnOk, length, map, true};
ghost use Rattle.ct_keep.specs.KeeperViews.{OnlyReads};
ghost use Rattle.tx_settings.specs.Attributes.{can_be_set};
ghost use Rattle.ix_context.specs.GatheredRows.{AreGathered};
ghost use Rattle.ix_context.specs.GatheringPortions.{ArePortion, GathersRows, IsSomeOf, posting_of, text_or_empty};
ghost use Rattle.ix_context.specs.Indexes.{target_text};
ghost use Rattle.ix_context.specs.Sees.{SeesTables};

use crate::gathering::{INDEXED_TEXT_LIMIT, IndexRows, seen_text};
use ct_base::{DocId, Memory, RowKey, Text};
use ct_keep::{KeepFault, Keeper};
use ix_invert::{Piece, Posting};
use std::alloc::Global;
use std::thread::Threads;
use tb_table::Target;
use tx_document::{Entry, analyse};
use tx_settings::Prefs;

/// How many bytes the texts of a portion take, unless they are the last: where a text makes them as many, the portion ends with it.
const PORTION_BYTES: usize = 1 << 20;

/// What a text takes beside its own bytes.
const TEXT_BYTES: usize = 64;

/// Reads texts as documents, by these preferences. Threads share it.
#[derive(Drop)]
pub(crate) struct DocumentTexts<'a> {
    pub(crate) prefs: &'a Prefs,
}

impl Piece for DocumentTexts<'_> {
    ghost use Rattle.ix_context.specs.GatheringPortions.{postings_as};

    ghost postings = { λ reader number text. postings_as reader.prefs.now number text };

    fn entries(&self, alloc: Global, number: u32, text: &str) -> Result<Vec<Posting>, Memory> {
        if text.len() > INDEXED_TEXT_LIMIT {
            return Ok(Vec::new(alloc));
        }
        let document_text = analyse(alloc, self.prefs, text)?;
        let entries = document_text.entries(alloc)?;
        postings_of(alloc, number, entries)
    }
}

/// The entries of a document as postings, without a copy.
fn postings_of(alloc: Global, document: u32, entries: Vec<Entry>) -> Result<Vec<Posting>, Memory>
    ensures { IfOk result (λ postings. postings.items ≡ map (posting_of document) entries.items) }
{
    let mut postings = Vec::new(alloc);
    for entry in entries {
        postings.push(Posting {
            stream: entry.stream,
            token: entry.token,
            doc: DocId(document),
            places: entry.places,
        })?;
    }
    Ok(postings)
}

/// The text, or an empty one.
fn text_or_empty(alloc: Global, text: Option<Text>) -> Result<Text, Memory>
    ensures { IfOk result (λ found. found ≡ text_or_empty text) }
{
    match text {
        Some(text) => Ok(text),
        None => Text::of(alloc, ""),
    }
}

/// The text of a row that an index on this target sees; an empty one where it sees none.
fn row_text<K: Keeper>(
    alloc: Global,
    keeper: &mut K,
    target: &Target,
    row: RowKey,
) -> Result<Text, KeepFault>
    requires { (K.view keeper.old).ready }
    ensures text { SeesTables K.view keeper.old result (λ ts text. text ≡ text_or_empty (target_text ts target.now row.0)) }
    ensures reads { OnlyReads K.view keeper.old keeper.new result }
{
    let text = seen_text(alloc, keeper, target, row)?;
    let text = text_or_empty(alloc, text)?;
    Ok(text)
}

/// Adds a text to some.
fn add_text(texts: &mut Vec<Text>, text: Text) -> Result<(), Memory>
    ensures { OnOk result (texts.new.items ≡ texts.old.items ++ text ∷ []) }
{
    texts.push(text)?;
    Ok(())
}

/// The texts of the first of these rows, which make a portion: at least one, where there are rows.
fn portion<K: Keeper>(
    alloc: Global,
    keeper: &mut K,
    target: &Target,
    rows: &[RowKey],
) -> Result<Vec<Text>, KeepFault>
    requires { (K.view keeper.old).ready }
    ensures texts { SeesTables K.view keeper.old result (λ ts texts. ArePortion ts target.now rows.now texts.items) }
    ensures some { IfOk result (λ texts. IsSomeOf rows.now (length texts.items)) }
    ensures reads { OnlyReads K.view keeper.old keeper.new result }
{
    let mut texts = Vec::new(alloc);
    let mut bytes: usize = 0;
    for row in rows {
        if bytes >= PORTION_BYTES {
            return Ok(texts);
        }
        let text = row_text(alloc, keeper, target, *row)?;
        bytes = bytes
            .saturating_add(text.as_str().len())
            .saturating_add(TEXT_BYTES);
        add_text(&mut texts, text)?;
    }
    Ok(texts)
}

/// Gathers the text of the first of these rows, which becomes this document, and tells how many rows this is: one, where there is one.
fn gather_first<K: Keeper>(
    gathered: &mut IndexRows,
    alloc: Global,
    keeper: &mut K,
    target: &Target,
    prefs: &Prefs,
    document: u32,
    rows: &[RowKey],
) -> Result<usize, KeepFault>
    requires ready { (K.view keeper.old).ready }
    requires set { can_be_set prefs.now.lexer ≡ true }
    ensures gathers { SeesTables K.view keeper.old result (λ ts. GathersRows ts target.now prefs.now document rows.now gathered.old gathered.new) }
    ensures grown { OnOk result (AreGathered gathered.old → AreGathered gathered.new) }
    ensures some { IfOk result (IsSomeOf rows.now) }
    ensures reads { OnlyReads K.view keeper.old keeper.new result }
{
    let Some(row) = rows.first() else {
        return Ok(0);
    };
    gathered.put_row(alloc, keeper, target, prefs, document, *row)?;
    Ok(1)
}

/// Gathers the texts of the first of these rows, the first of which becomes this document, and tells how many rows these are: at least
/// one, where there are rows. Of one thread it is one row; of several it holds the texts of a portion and their postings.
pub(crate) fn gather_next<R: Threads + Sync, K: Keeper>(
    gathered: &mut IndexRows,
    rt: &R,
    alloc: Global,
    degree: u32,
    keeper: &mut K,
    target: &Target,
    prefs: &Prefs,
    first: u32,
    rows: &[RowKey],
) -> Result<usize, KeepFault>
    requires ready { (K.view keeper.old).ready }
    requires room { first + length rows.now < 2 ^ 32 }
    requires set { can_be_set prefs.now.lexer ≡ true }
    ensures gathers { SeesTables K.view keeper.old result (λ ts. GathersRows ts target.now prefs.now first rows.now gathered.old gathered.new) }
    ensures grown { OnOk result (AreGathered gathered.old → AreGathered gathered.new) }
    ensures some { IfOk result (IsSomeOf rows.now) }
    ensures reads { OnlyReads K.view keeper.old keeper.new result }
{
    if degree <= 1 {
        return gather_first(gathered, alloc, keeper, target, prefs, first, rows);
    }
    let texts = portion(alloc, keeper, target, rows)?;
    gathered.put_portion(rt, alloc, degree, prefs, first, &texts)?;
    Ok(texts.len())
}
