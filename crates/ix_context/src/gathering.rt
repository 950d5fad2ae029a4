//! Gathering the postings of rows that become documents.
#![tactic(auto, using(ct_keep::specs::laws::Composing::reads_on, ct_keep::specs::laws::Composing::reads_short))]

ghost use Rattle.std.specs.Prelude.{◌≡◌, ◌+◌, ◌<◌, ◌^◌, [], All, IfOk, OnOk, IsTrue, IsFalse, length, true};
ghost use Rattle.ct_keep.specs.KeeperViews.{OnlyReads};
ghost use Rattle.ix_posting.specs.Forms.{counted_bytes, number_form, pair_form};
ghost use Rattle.ix_rows.specs.WordRows.{word_term};
ghost use Rattle.ix_rows.specs.SpanRows.{section_term};
ghost use Rattle.tx_settings.specs.Attributes.{can_be_set};
ghost use Rattle.ix_context.specs.Changes.{Adds};
ghost use Rattle.ix_context.specs.Gathering.{nothing_gathered, with_word_entry, with_section_entry, with_entry, with_entries, with_text, gathering_changes};
ghost use Rattle.ix_context.specs.GatheredRows.{AreGathered};
ghost use Rattle.ix_context.specs.GatheringPortions.{Comes, entry_in, entry_places, entry_term, with_portion, with_postings, with_term_run};
ghost use Rattle.ix_context.specs.Indexes.{target_text};
ghost use Rattle.ix_context.specs.Postings.{IsWord, IsSection, IsPosting, IsShortOrNone, if_short};
ghost use Rattle.ix_rows.specs.Firsts.{first_positions};
ghost use Rattle.ix_context.specs.Sees.{ToldTables, SeesTables};

use crate::portions::DocumentTexts;
use ct_base::{Memory, Name, RowKey, Text};
use ct_entry::Kind;
use ct_keep::{Batch, KeepFault, Keeper};
use ix_invert::{Posting, invert};
use ix_posting::put_places;
use ix_rows::{Run, TermRows, put_firsts, put_section_term, put_word_term};
use std::alloc::Global;
use std::marker::Model;
use std::thread::Threads;
use tb_table::{Target, text_of};
use tx_document::{Entry, analyse};
use tx_settings::Prefs;

/// How many bytes of text a document may have: far more than a text of a table.
pub(crate) const INDEXED_TEXT_LIMIT: usize = 1 << 19;

/// The stream of sections, which is none of words.
const SECTIONS: u8 = 255;

/// The bytes of a term and of a document's places under it, in memory that is used again for each.
#[derive(Drop)]
struct Spelling {
    term: Vec<u8>,
    places: Vec<u8>,
}

/// Spells a key in its stream, as it stands in a row's key, and its positions.
fn spell_word(spelling: &mut Spelling, word: &Entry) -> Result<(), Memory>
    requires { IsWord word.now }
    ensures term { OnOk result (spelling.new.term.items ≡ word_term word.now.stream word.now.token) }
    ensures places { OnOk result (spelling.new.places.items ≡ counted_bytes number_form (first_positions word.now.places)) }
{
    let token = word.token.as_slice();
    spelling.term.clear();
    spelling.places.clear();
    put_word_term(&mut spelling.term, word.stream, token)?;
    put_firsts(&mut spelling.places, word.places.as_slice())
}

/// Spells a section, as it stands in a row's key, and its pairs.
fn spell_section(spelling: &mut Spelling, section: &Entry) -> Result<(), Memory>
    requires { IsSection section.now }
    ensures term { OnOk result (spelling.new.term.items ≡ section_term section.now.token) }
    ensures places { OnOk result (spelling.new.places.items ≡ counted_bytes pair_form section.now.places) }
{
    let name = section.token.as_slice();
    spelling.term.clear();
    spelling.places.clear();
    put_section_term(&mut spelling.term, name)?;
    put_places(&mut spelling.places, section.places.as_slice())
}

/// Spells an entry: its term, as it stands in a row's key, and its places.
fn spell_entry(spelling: &mut Spelling, entry: &Entry) -> Result<(), Memory>
    requires { IsPosting entry.now }
    ensures term { OnOk result (spelling.new.term.items ≡ entry_term entry.now) }
    ensures places { OnOk result (spelling.new.places.items ≡ entry_places entry.now) }
{
    if entry.stream == SECTIONS {
        spell_section(spelling, entry)
    } else {
        spell_word(spelling, entry)
    }
}

/// What came to one term, until a posting of another term comes.
#[derive(Drop)]
struct TermRun {
    is_section: bool,
    term: Vec<u8>,
    documents: Run,
}

impl TermRun {
    /// Nothing of no term. It takes no memory.
    fn new(alloc: Global) -> TermRun
        ensures { result.documents ≡ [] }
    {
        TermRun {
            is_section: false,
            term: Vec::new(alloc),
            documents: Run::new(alloc),
        }
    }

    /// Whether it is one of this term.
    fn is_of(&self, is_section: bool, term: &[u8]) -> bool
        ensures yes { IsTrue result → (self.now.is_section ≡ is_section) × (self.now.term.items ≡ term.now) }
        ensures no { IsFalse result → self.now.is_section ≡ is_section → self.now.term.items ≡ term.now → ⊥ }
    {
        self.is_section == is_section && self.term.as_slice() == term
    }

    /// Begins anew with this term, without documents.
    fn begin(&mut self, is_section: bool, term: &[u8]) -> Result<(), Memory>
        ensures kind { OnOk result (self.new.is_section ≡ is_section) }
        ensures term { OnOk result (self.new.term.items ≡ term.now) }
        ensures none { OnOk result (self.new.documents ≡ []) }
    {
        self.is_section = is_section;
        self.term.clear();
        self.documents.clear();
        self.term.extend_from_slice(term)?;
        Ok(())
    }
}

/// The rows of postings of words and of sections, of documents that come in rising order: their bytes, and nothing else of the texts.
#[derive(Drop)]
pub(crate) struct IndexRows {
    words: TermRows,
    sections: TermRows,
}

impl Model for IndexRows {
    ghost use Rattle.ix_context.specs.Gathering.{IndexRowsView, index_rows_code};

    ghost Value = { IndexRowsView };

    ghost coded = { index_rows_code };

    ghost view = { λ g. record { words = g.words; sections = g.sections } };
}

impl IndexRows {
    /// Nothing yet. It takes no memory.
    pub(crate) fn new(alloc: Global) -> IndexRows
        ensures { result ≡ nothing_gathered }
    {
        IndexRows {
            words: TermRows::new(alloc),
            sections: TermRows::new(alloc),
        }
    }

    /// A key of a document in its stream comes.
    fn put_word(
        &mut self,
        alloc: Global,
        spelling: &mut Spelling,
        document: u32,
        word: &Entry,
    ) -> Result<(), Memory>
        requires { IsWord word.now }
        ensures { OnOk result (self.new ≡ with_word_entry self.old document word.now) }
    {
        spell_word(spelling, word)?;
        self.words
            .put(alloc, &spelling.term, document, &spelling.places)
    }

    /// A section of a document comes.
    fn put_section(
        &mut self,
        alloc: Global,
        spelling: &mut Spelling,
        document: u32,
        section: &Entry,
    ) -> Result<(), Memory>
        requires { IsSection section.now }
        ensures { OnOk result (self.new ≡ with_section_entry self.old document section.now) }
    {
        spell_section(spelling, section)?;
        self.sections
            .put(alloc, &spelling.term, document, &spelling.places)
    }

    /// An entry of a document comes.
    fn put_entry(
        &mut self,
        alloc: Global,
        spelling: &mut Spelling,
        document: u32,
        entry: &Entry,
    ) -> Result<(), Memory>
        requires { IsPosting entry.now }
        ensures { OnOk result (self.new ≡ with_entry self.old document entry.now) }
    {
        if entry.stream == SECTIONS {
            self.put_section(alloc, spelling, document, entry)
        } else {
            self.put_word(alloc, spelling, document, entry)
        }
    }

    /// The entries of a document come.
    fn put_entries(
        &mut self,
        alloc: Global,
        document: u32,
        entries: Vec<Entry>,
    ) -> Result<(), Memory>
        requires { All IsPosting entries.items }
        ensures { OnOk result (self.new ≡ with_entries self.old document entries.items) }
    {
        let mut spelling = Spelling {
            term: Vec::new(alloc),
            places: Vec::new(alloc),
        };
        for entry in entries {
            self.put_entry(alloc, &mut spelling, document, &entry)?;
        }
        Ok(())
    }

    /// The words and the sections of a document's text of at most 2^19 bytes come, if it has one.
    fn put_text(
        &mut self,
        alloc: Global,
        prefs: &Prefs,
        document: u32,
        text: Option<Text>,
    ) -> Result<(), Memory>
        requires short { IsShortOrNone text }
        requires set { can_be_set prefs.now.lexer ≡ true }
        ensures gathers { OnOk result (self.new ≡ with_text prefs.now self.old document text) }
        ensures grown { OnOk result (AreGathered self.old → AreGathered self.new) }
    {
        prefs.keep_rules();
        let Some(text) = text else {
            return Ok(());
        };
        let document_text = analyse(alloc, prefs, text.as_str())?;
        let entries = document_text.entries(alloc)?;
        self.put_entries(alloc, document, entries)
    }

    /// Gathers the words and the sections of the text of a row that an index on this target sees; the row becomes this document.
    pub(crate) fn put_row<K: Keeper>(
        &mut self,
        alloc: Global,
        keeper: &mut K,
        target: &Target,
        prefs: &Prefs,
        document: u32,
        row: RowKey,
    ) -> Result<(), KeepFault>
        requires ready { (K.view keeper.old).ready }
        requires set { can_be_set prefs.now.lexer ≡ true }
        ensures gathers { ToldTables K.view keeper.old (λ ts. OnOk result (self.new ≡ with_text prefs.now self.old document (target_text ts target.now row.0))) }
        ensures grown { OnOk result (AreGathered self.old → AreGathered self.new) }
        ensures reads { OnlyReads K.view keeper.old keeper.new result }
    {
        let text = seen_text(alloc, keeper, target, row)?;
        self.put_text(alloc, prefs, document, text)?;
        Ok(())
    }

    /// The documents of a run come to the rows of its term.
    fn put_run(&mut self, alloc: Global, run: &TermRun) -> Result<(), Memory>
        ensures { OnOk result (self.new ≡ with_term_run self.old run.now.is_section run.now.term.items run.now.documents) }
    {
        if run.is_section {
            self.sections.put_run(alloc, &run.term, &run.documents)
        } else {
            self.words.put_run(alloc, &run.term, &run.documents)
        }
    }

    /// The run becomes one of this term. The documents of another term come to its rows before.
    fn turn_to(
        &mut self,
        alloc: Global,
        run: &mut TermRun,
        is_section: bool,
        term: &[u8],
    ) -> Result<(), Memory>
        ensures gathers { OnOk result (with_term_run self.new run.new.is_section run.new.term.items run.new.documents ≡ with_term_run self.old run.old.is_section run.old.term.items run.old.documents) }
        ensures kind { OnOk result (run.new.is_section ≡ is_section) }
        ensures term { OnOk result (run.new.term.items ≡ term.now) }
    {
        if run.is_of(is_section, term) {
            return Ok(());
        }
        self.put_run(alloc, run)?;
        run.begin(is_section, term)
    }

    /// A posting comes behind the run: to it, if it is of the run's term.
    fn put_posting(
        &mut self,
        alloc: Global,
        spelling: &mut Spelling,
        run: &mut TermRun,
        posting: Posting,
    ) -> Result<(), Memory>
        requires { Comes posting }
        ensures { OnOk result (with_term_run self.new run.new.is_section run.new.term.items run.new.documents ≡ with_entry (with_term_run self.old run.old.is_section run.old.term.items run.old.documents) posting.doc.0 (entry_in posting)) }
    {
        let document = posting.doc.0;
        let entry = Entry {
            stream: posting.stream,
            token: posting.token,
            places: posting.places,
        };
        spell_entry(spelling, &entry)?;
        self.turn_to(alloc, run, entry.stream == SECTIONS, &spelling.term)?;
        run.documents.push(document, &spelling.places)
    }

    /// Postings come, each of its document. A term is looked up once for each run of its postings.
    fn put_postings(&mut self, alloc: Global, postings: Vec<Posting>) -> Result<(), Memory>
        requires { All Comes postings.items }
        ensures { OnOk result (self.new ≡ with_postings self.old postings.items) }
    {
        let mut spelling = Spelling {
            term: Vec::new(alloc),
            places: Vec::new(alloc),
        };
        let mut run = TermRun::new(alloc);
        for posting in postings {
            self.put_posting(alloc, &mut spelling, &mut run, posting)?;
        }
        self.put_run(alloc, &run)
    }

    /// The words and the sections of a portion of texts come, the first of which becomes this document. Up to so many threads read a
    /// part of the texts each. It holds the postings of all these texts, and while they are put in order half as many once more.
    pub(crate) fn put_portion<R: Threads + Sync>(
        &mut self,
        rt: &R,
        alloc: Global,
        degree: u32,
        prefs: &Prefs,
        first: u32,
        texts: &[Text],
    ) -> Result<(), Memory>
        requires room { first + length texts.now < 2 ^ 32 }
        requires set { can_be_set prefs.now.lexer ≡ true }
        ensures gathers { OnOk result (self.new ≡ with_portion prefs.now self.old first texts.now) }
        ensures grown { OnOk result (AreGathered self.old → AreGathered self.new) }
    {
        prefs.keep_rules();
        let reader = DocumentTexts { prefs };
        let postings = invert(rt, alloc, &reader, first, texts, degree)?;
        self.put_postings(alloc, postings)
    }

    /// Adds the changes that put all rows, in the order of their keys.
    pub(crate) fn into_changes(
        self,
        alloc: Global,
        batch: &mut Batch,
        index: &Name,
    ) -> Result<(), Memory>
        ensures { Adds batch.old batch.new result (gathering_changes index.now self) }
    {
        let gathered = self;
        gathered
            .words
            .into_changes(alloc, batch, Kind::Postings, index)?;
        gathered
            .sections
            .into_changes(alloc, batch, Kind::Spans, index)
    }
}

/// The text, unless it has over 2^19 bytes.
fn if_short(text: Option<Text>) -> Option<Text>
    ensures { result ≡ if_short text }
{
    match text {
        Some(text) if text.as_str().len() <= INDEXED_TEXT_LIMIT => Some(text),
        _ => None,
    }
}

/// The text of a row that an index on this target sees. One of over 2^19 bytes, which no table has, counts as none.
pub(crate) fn seen_text<K: Keeper>(
    alloc: Global,
    keeper: &mut K,
    target: &Target,
    row: RowKey,
) -> Result<Option<Text>, KeepFault>
    requires { (K.view keeper.old).ready }
    ensures text { SeesTables K.view keeper.old result (λ ts text. text ≡ target_text ts target.now row.0) }
    ensures short { IfOk result (λ text. IsShortOrNone text) }
    ensures reads { OnlyReads K.view keeper.old keeper.new result }
{
    let text = text_of(alloc, keeper, &target.table, target.column, row)?;
    Ok(if_short(text))
}
