//! What is read for a query.

ghost use Rattle.std.specs.Prelude.{◌≡◌, IfOk};
ghost use Rattle.ix_posting.specs.Lists.{posting_list};
ghost use Rattle.ix_cursor.specs.Reading.{tokens_read, rows_read, documents_of, TokensRise, SlotFeedsRise, SectionFeedsRise};

use crate::sources::Source;
use ct_base::{Listed, Memory, Name, Pair};
use ix_lists::Postings;
use ix_posting::EncodedRows;
use ix_slots::{InStream, SlotList};
use q_tree::Slot;
use std::alloc::Global;

/// The rows of each token that a slot takes in a stream. The documents of each token rise from one row to the next.
#[derive(Drop)]
pub struct SlotFeed {
    /// 0 for the main stream, else the number of a field.
    pub stream: u8,
    pub slot: Slot,
    pub tokens: Listed<EncodedRows<u32>>,
}

/// The rows of a section, whose documents rise from one row to the next. `sentence` and `paragraph` are the names of those.
#[derive(Drop)]
pub struct SectionFeed {
    pub section: Name,
    pub rows: EncodedRows<Pair>,
}

impl InStream for SlotFeed {
    ghost at = { λ feed. record { stream = feed.stream; slot = feed.slot } };

    fn stream(&self) -> u8 {
        self.stream
    }

    fn slot(&self) -> &Slot {
        &self.slot
    }
}

/// What was read for a query. Of a slot or a section that isn't among them there are no postings. A slot is found at the cost of the
/// logarithm of their number; a section at that of the number of sections, of which a query has at most 64.
#[derive(Drop)]
pub struct Feeds {
    pub slots: SlotList<SlotFeed>,
    pub sections: Listed<SectionFeed>,
}

/// The documents of each of some tokens. It shares their rows.
fn shared(alloc: Global, tokens: &[EncodedRows<u32>]) -> Result<Vec<Postings<u32>>, Memory>
    requires { TokensRise tokens.now }
    ensures { IfOk result (λ v. v.items ≡ documents_of tokens.now) }
{
    let mut postings = Vec::new(alloc);
    for rows in tokens {
        postings.push(Postings::of(rows.share()?))?;
    }
    Ok(postings)
}

/// The documents of each token that a slot takes in a stream. Its cost is the logarithm of the number of slots that were read, the length
/// of the slot, and the number of its tokens.
fn postings_of(
    alloc: Global,
    feeds: &SlotList<SlotFeed>,
    stream: u8,
    slot: &Slot,
) -> Result<Vec<Postings<u32>>, Memory>
    requires { SlotFeedsRise feeds.now }
    ensures { IfOk result (λ v. v.items ≡ documents_of (tokens_read feeds.now stream slot.now)) }
{
    match feeds.find(alloc, stream, slot)? {
        Some(feed) => shared(alloc, feed.tokens.as_slice()),
        None => Ok(Vec::new(alloc)),
    }
}

/// The documents of a section.
fn section_of(alloc: Global, feeds: &[SectionFeed], name: &str) -> Result<Postings<Pair>, Memory>
    requires { SectionFeedsRise feeds.now }
    ensures { IfOk result (λ p. p ≡ posting_list (rows_read feeds.now name.now)) }
{
    for feed in feeds {
        if feed.section.as_str() == name {
            return Ok(Postings::of(feed.rows.share()?));
        }
    }
    Ok(Postings::of(EncodedRows::of(alloc, Vec::new(alloc))?))
}

impl Source for Feeds {
    ghost use Rattle.ix_cursor.specs.Reading.{postings_read, FeedsRise};

    ghost postings = { postings_read };

    ghost well = { FeedsRise };

    fn tokens(&self, alloc: Global, stream: u8, slot: &Slot) -> Result<Vec<Postings<u32>>, Memory> {
        postings_of(alloc, &self.slots, stream, slot)
    }

    fn section(&self, alloc: Global, name: &str) -> Result<Postings<Pair>, Memory> {
        section_of(alloc, self.sections.as_slice(), name)
    }
}
