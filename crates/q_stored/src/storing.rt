//! Stored queries.

ghost use Rattle.std.specs.Prelude.{◌≡◌, ◌∷◌, [], ℕ, List, Option, bytes_eq, true, Err, IfOk, IfSome, MatchOption};
ghost use Rattle.std.specs.Option.{option_map};
ghost use Rattle.q_tree.specs.Soundness.{is_sound};
ghost use Rattle.q_tree.specs.ReducedQueries.{Reduced, reduced_of};
ghost use Rattle.q_stored.specs.declared.heads.Head.{Head as AnyHead};
ghost use Rattle.q_stored.specs.Reading.{AreHeads};
ghost use Rattle.q_stored.specs.Storing.{Encodes, SpellsQuery};

use crate::building::build;
use crate::faults::StoredFault;
use crate::heads::Head;
use crate::reading::read_head;
use crate::writing::{BYTE_LIMIT, put_query};
use ct_base::Memory;
use q_tree::Flat;
use std::alloc::Global;

/// How many nodes a stored query has at most.
const NODE_LIMIT: usize = 1024;

/// The bytes of a sound query, or of one that finds nothing, as they are stored. None exactly where it has over 1024 nodes, or over
/// 2^26 bytes.
///
/// Its cost is linear in the bytes, of which it makes no more than 2^26 and those of one key or text. It goes as deep as the query, and
/// never deeper than 1024.
pub fn encode(alloc: Global, query: &Option<Flat>) -> Result<Option<Vec<u8>>, Memory>
    requires sound { IfSome query.now (λ q. is_sound (reduced_of q) ≡ true) }
    ensures bytes { IfOk result (λ found. Encodes (option_map reduced_of query.now) (option_map (λ v. v.items) found)) }
{
    let mut out = Vec::new(alloc);
    match query {
        None => {
            out.push(0)?;
            Ok(Some(out))
        }
        Some(query) => match put_query(&mut out, query, NODE_LIMIT)? {
            Some(_) => Ok(Some(out)),
            None => Ok(None),
        },
    }
}

/// Whether the bytes are those of the query that finds nothing.
fn is_nothing(bytes: &[u8]) -> bool
    ensures { result ≡ bytes_eq bytes.now (0 ∷ []) }
{
    bytes == [0].as_slice()
}

/// The heads whose bytes these are, at most 1024. None where they are those of none, or of more.
fn read_heads(alloc: Global, bytes: &[u8]) -> Result<Option<Vec<Head>>, Memory>
    ensures { IfOk result (λ found. MatchOption found ((hs : List AnyHead) → AreHeads bytes.now hs → ⊥) (λ v. AreHeads bytes.now v.items)) }
{
    let mut heads = Vec::new(alloc);
    let mut place = 0;
    'heads: while place < bytes.len() {
        if heads.len() >= NODE_LIMIT {
            return Ok(None);
        }
        let Some((head, next)) = read_head(alloc, bytes, place)? else {
            return Ok(None);
        };
        heads.push(head)?;
        place = next;
    }
    Ok(Some(heads))
}

/// The query whose prefix form these bytes are, where it may be stored.
fn decode_query(alloc: Global, bytes: &[u8]) -> Result<Option<Flat>, Memory>
    ensures { IfOk result (λ found. MatchOption found ((q : Reduced) → SpellsQuery bytes.now (Some q) → ⊥) (λ q. SpellsQuery bytes.now (Some (reduced_of q)))) }
{
    if bytes.len() > BYTE_LIMIT {
        return Ok(None);
    }
    let Some(heads) = read_heads(alloc, bytes)? else {
        return Ok(None);
    };
    let Some(query) = build(alloc, heads)? else {
        return Ok(None);
    };
    if query.is_sound() {
        Ok(Some(query))
    } else {
        Ok(None)
    }
}

/// The query whose bytes these are; None is the one that finds nothing. BadQuery exactly where they are those of no query that may be
/// stored: one that is sound, with at most 1024 nodes and 2^26 bytes.
///
/// Its cost is linear in the bytes. They are read in a loop, and what is built of them is never deeper than 1024, so no bytes take much
/// stack.
pub fn decode(alloc: Global, bytes: &[u8]) -> Result<Option<Flat>, StoredFault>
    ensures query { IfOk result (λ found. SpellsQuery bytes.now (option_map reduced_of found)) }
    ensures bad { result ≡ Err StoredFault.BadQuery → (q : Option Reduced) → SpellsQuery bytes.now q → ⊥ }
{
    if is_nothing(bytes) {
        return Ok(None);
    }
    match decode_query(alloc, bytes)? {
        Some(query) => Ok(Some(query)),
        None => Err(StoredFault::BadQuery),
    }
}
