//! What a query reads of an index.
#![tactic(auto, using(ct_keep::specs::laws::Composing::reads_on, ct_keep::specs::laws::Composing::reads_short))]

ghost use Rattle.std.specs.Prelude.{◌≡◌, ◌++◌, ◌∷◌, [], List, IfOk, OnOk, MatchOption};
ghost use Rattle.ct_keep.specs.KeeperViews.{Finds, OnlyReads, Told};
ghost use Rattle.ct_keep.specs.Looks.{LooksAtMost};
ghost use Rattle.ct_base.specs.Names.{IsName};
ghost use Rattle.ct_entry.specs.Keys.{IsToken};
ghost use Rattle.ct_entry.specs.Lists.{EachIs};
ghost use Rattle.ix_posting.specs.Rows.{WordDocument, DocumentsRise};
ghost use Rattle.ix_posting.specs.Forms.{number_form, pair_form};
ghost use Rattle.ix_posting.specs.Lists.{posting_list};
ghost use Rattle.ix_rows.specs.WordRows.{word_term};
ghost use Rattle.ix_rows.specs.SpanRows.{section_term};
ghost use Rattle.q_tree.specs.ReducedQueries.{reduced_of};
ghost use Rattle.ix_cursor.specs.Reading.{TokensRise, SlotFeedsRise, SectionFeedsRise, FeedsRise};
ghost use Rattle.ix_tokens.specs.Looking.{key_looks};
ghost use Rattle.ix_tokens.specs.Tokens.{KeyRows, HoldsKey};
ghost use Rattle.ix_search.specs.Parts.{keys_of, patterns_of};
ghost use Rattle.ix_search.specs.Looking.{keys_looks, patterns_looks, slot_looks, slots_looks, name_looks, names_looks, query_looks};
ghost use Rattle.ix_search.specs.Reading.{NameRows, HoldsTokens, HoldsName, CanBeRead, IsSlotFeed, AreRowsOfKeys, AreRowsInStream, AreFeedsOfSlots, AreFeedsOfSections, AreFeedsOfQuery, section_feed, section_names};

use crate::wanting::{Wanted, want_names, want_slots};
use ct_base::{Listed, Memory, Name};
use ct_entry::Kind;
use ct_keep::{KeepFault, Keeper};
use ix_cursor::{Feeds, SectionFeed, SlotFeed};
use ix_posting::EncodedRows;
use ix_rows::{put_section_term, put_word_term, rows_of};
use ix_slots::SlotList;
use ix_tokens::rows_of_pattern;
use q_tree::{Flat, Pattern, Slot};
use std::alloc::Global;
use tx_chars::Key;

/// The term of a key in a stream, as it stands in the keys of its rows. None for a key of no byte or of over 255, which has no rows.
fn word_term(alloc: Global, stream: u8, key: &Key) -> Result<Option<Vec<u8>>, Memory>
    ensures { IfOk result (λ term. MatchOption term (IsToken key.now → ⊥) (λ v. v.items ≡ word_term stream key.now)) }
{
    let key = key.as_slice();
    if key.is_empty() || key.len() > 255 {
        return Ok(None);
    }
    let mut term = Vec::new(alloc);
    put_word_term(&mut term, stream, key)?;
    Ok(Some(term))
}

/// The rows of a key in a stream.
fn read_key<K: Keeper>(
    alloc: Global,
    keeper: &mut K,
    index: &Name,
    stream: u8,
    key: &Key,
) -> Result<EncodedRows<u32>, KeepFault>
    requires { (K.view keeper.old).ready }
    ensures rise { IfOk result (λ rows. DocumentsRise number_form 0 (posting_list rows)) }
    ensures rows { Finds K.view keeper.old result (λ m rows. (held : List (List WordDocument)) → HoldsKey m index.now stream key.now held → rows ≡ held) }
    ensures reads { OnlyReads K.view keeper.old keeper.new result }
    ensures at_most { Told K.view keeper.old (λ m. LooksAtMost K.view keeper.old keeper.new (key_looks m index.now stream key.now)) }
{
    let Some(term) = word_term(alloc, stream, key)? else {
        return Ok(EncodedRows::of(alloc, Vec::new(alloc))?);
    };
    rows_of(alloc, keeper, Kind::Postings, index, &term)
}

/// Puts the rows of a token behind those of others.
fn put_one(tokens: &mut Vec<EncodedRows<u32>>, rows: EncodedRows<u32>) -> Result<(), Memory>
    ensures { OnOk result (tokens.new.items ≡ tokens.old.items ++ rows ∷ []) }
{
    tokens.push(rows)?;
    Ok(())
}

/// The rows of each of some keys in a stream.
fn read_keys<K: Keeper>(
    alloc: Global,
    keeper: &mut K,
    index: &Name,
    stream: u8,
    keys: &[Key],
) -> Result<Vec<EncodedRows<u32>>, KeepFault>
    requires { (K.view keeper.old).ready }
    ensures rise { IfOk result (λ tokens. TokensRise tokens.items) }
    ensures rows { Finds K.view keeper.old result (λ m tokens. AreRowsOfKeys m index.now stream keys.now tokens.items) }
    ensures reads { OnlyReads K.view keeper.old keeper.new result }
    ensures at_most { Told K.view keeper.old (λ m. LooksAtMost K.view keeper.old keeper.new (keys_looks m index.now stream keys.now)) }
{
    let mut tokens = Vec::new(alloc);
    for key in keys {
        let rows = read_key(alloc, keeper, index, stream, key)?;
        put_one(&mut tokens, rows)?;
    }
    Ok(tokens)
}

/// Puts the rows of some tokens behind those of others.
fn put_all(tokens: &mut Vec<EncodedRows<u32>>, found: Vec<EncodedRows<u32>>) -> Result<(), Memory>
    ensures { OnOk result (tokens.new.items ≡ tokens.old.items ++ found.items) }
{
    let mut found = found;
    tokens.append(&mut found)?;
    Ok(())
}

/// The rows of the tokens that each of some patterns takes in a stream, each row by itself.
fn read_patterns<K: Keeper>(
    alloc: Global,
    keeper: &mut K,
    index: &Name,
    stream: u8,
    patterns: &[Pattern],
) -> Result<Vec<EncodedRows<u32>>, KeepFault>
    requires { (K.view keeper.old).ready }
    ensures rise { IfOk result (λ tokens. TokensRise tokens.items) }
    ensures rows { Finds K.view keeper.old result (λ m tokens. AreRowsInStream m index.now stream patterns.now tokens.items) }
    ensures reads { OnlyReads K.view keeper.old keeper.new result }
    ensures at_most { Told K.view keeper.old (λ m. LooksAtMost K.view keeper.old keeper.new (patterns_looks m index.now stream patterns.now)) }
{
    let mut tokens = Vec::new(alloc);
    for pattern in patterns {
        let found = rows_of_pattern(alloc, keeper, index, stream, pattern.as_slice())?;
        put_all(&mut tokens, found)?;
    }
    Ok(tokens)
}

/// The keys of a slot; of one that takes any word there are none.
fn keys_of(slot: &Slot) -> &[Key]
    ensures { result.now ≡ keys_of slot.now }
{
    match slot {
        Slot::Any => &[],
        Slot::Takes { keys, .. } => keys.as_slice(),
    }
}

/// The patterns of a slot; of one that takes any word there are none.
fn patterns_of(slot: &Slot) -> &[Pattern]
    ensures { result.now ≡ patterns_of slot.now }
{
    match slot {
        Slot::Any => &[],
        Slot::Takes { patterns, .. } => patterns.as_slice(),
    }
}

/// The rows of the keys and patterns of a slot in its stream.
fn read_slot<K: Keeper>(
    alloc: Global,
    keeper: &mut K,
    index: &Name,
    wanted: Wanted,
) -> Result<SlotFeed, KeepFault>
    requires { (K.view keeper.old).ready }
    ensures rise { IfOk result (λ feed. TokensRise feed.tokens) }
    ensures rows { Finds K.view keeper.old result (λ m feed. (held : KeyRows) → HoldsTokens m index.now held → CanBeRead wanted → IsSlotFeed held wanted feed) }
    ensures reads { OnlyReads K.view keeper.old keeper.new result }
    ensures at_most { Told K.view keeper.old (λ m. LooksAtMost K.view keeper.old keeper.new (slot_looks m index.now wanted)) }
{
    let Wanted { stream, slot } = wanted;
    let mut tokens = read_keys(alloc, keeper, index, stream, keys_of(&slot))?;
    let found = read_patterns(alloc, keeper, index, stream, patterns_of(&slot))?;
    put_all(&mut tokens, found)?;
    Ok(SlotFeed {
        stream,
        slot,
        tokens: Listed::of(tokens),
    })
}

fn read_slots<K: Keeper>(
    alloc: Global,
    keeper: &mut K,
    index: &Name,
    wanted: Vec<Wanted>,
) -> Result<SlotList<SlotFeed>, KeepFault>
    requires { (K.view keeper.old).ready }
    ensures rise { IfOk result (λ feeds. SlotFeedsRise feeds) }
    ensures rows { Finds K.view keeper.old result (λ m feeds. AreFeedsOfSlots m index.now wanted.items feeds) }
    ensures reads { OnlyReads K.view keeper.old keeper.new result }
    ensures at_most { Told K.view keeper.old (λ m. LooksAtMost K.view keeper.old keeper.new (slots_looks m index.now wanted.items)) }
{
    let mut feeds = SlotList::empty(alloc);
    for want in wanted {
        let feed = read_slot(alloc, keeper, index, want)?;
        feeds = feeds.with(alloc, feed)?;
    }
    Ok(feeds)
}

/// The term of a section, as it stands in the keys of its rows.
fn section_term(alloc: Global, name: &str) -> Result<Vec<u8>, Memory>
    requires { IsName name.now }
    ensures { IfOk result (λ v. v.items ≡ section_term name.now) }
{
    let mut term = Vec::new(alloc);
    put_section_term(&mut term, name.as_bytes())?;
    Ok(term)
}

/// The rows of a section.
fn read_name<K: Keeper>(
    alloc: Global,
    keeper: &mut K,
    index: &Name,
    name: Name,
) -> Result<SectionFeed, KeepFault>
    requires { (K.view keeper.old).ready }
    ensures named { IfOk result (λ _. IsName name) }
    ensures rise { IfOk result (λ feed. DocumentsRise pair_form 0 (posting_list feed.rows)) }
    ensures rows { Finds K.view keeper.old result (λ m feed. (held : NameRows) → HoldsName m index.now held name → feed ≡ section_feed held name) }
    ensures reads { OnlyReads K.view keeper.old keeper.new result }
    ensures at_most { Told K.view keeper.old (λ m. LooksAtMost K.view keeper.old keeper.new (name_looks m index.now name)) }
{
    let term = section_term(alloc, name.as_str())?;
    let rows = rows_of(alloc, keeper, Kind::Spans, index, &term)?;
    Ok(SectionFeed {
        section: name,
        rows,
    })
}

fn read_names<K: Keeper>(
    alloc: Global,
    keeper: &mut K,
    index: &Name,
    names: Vec<Name>,
) -> Result<Listed<SectionFeed>, KeepFault>
    requires { (K.view keeper.old).ready }
    ensures named { IfOk result (λ _. EachIs IsName names.items) }
    ensures rise { IfOk result (λ feeds. SectionFeedsRise feeds) }
    ensures rows { Finds K.view keeper.old result (λ m feeds. AreFeedsOfSections m index.now names.items feeds) }
    ensures reads { OnlyReads K.view keeper.old keeper.new result }
    ensures at_most { Told K.view keeper.old (λ m. LooksAtMost K.view keeper.old keeper.new (names_looks m index.now names.items)) }
{
    let mut feeds = Listed::empty(alloc);
    for name in names {
        let feed = read_name(alloc, keeper, index, name)?;
        feeds = feeds.with(feed)?;
    }
    Ok(feeds)
}

/// The rows that a query needs: those of each of its keys and of the tokens that each of its patterns takes, in each stream where it is
/// looked for, and those of each of its sections. Each is read once.
pub(crate) fn read<K: Keeper>(
    alloc: Global,
    keeper: &mut K,
    index: &Name,
    flat: &Flat,
) -> Result<Feeds, KeepFault>
    requires { (K.view keeper.old).ready }
    ensures named { IfOk result (λ _. EachIs IsName (section_names (reduced_of flat.now))) }
    ensures rise { IfOk result (λ feeds. FeedsRise feeds) }
    ensures rows { Finds K.view keeper.old result (λ m feeds. AreFeedsOfQuery m index.now (reduced_of flat.now) feeds) }
    ensures reads { OnlyReads K.view keeper.old keeper.new result }
    ensures at_most { Told K.view keeper.old (λ m. LooksAtMost K.view keeper.old keeper.new (query_looks m index.now (reduced_of flat.now))) }
{
    let wanted = want_slots(alloc, flat, 0, SlotList::empty(alloc))?;
    let mut names = Vec::new(alloc);
    want_names(alloc, flat, &mut names)?;
    let slots = read_slots(alloc, keeper, index, wanted.into_vec())?;
    let sections = read_names(alloc, keeper, index, names)?;
    Ok(Feeds { slots, sections })
}
