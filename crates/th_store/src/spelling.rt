//! The rests of the keys of pairs.

ghost use Rattle.std.specs.Prelude.{◌≡◌, ◌++◌, ◌∷◌, IfOk, OnOk};
ghost use Rattle.ct_entry.specs.Keys.{counted_bytes};
ghost use Rattle.th_graph.specs.Pairs.{term_pair, kind_number};
ghost use Rattle.th_store.specs.Thesauri.{pair_part};

use ct_base::Memory;
use std::alloc::Global;
use th_graph::{PairKind, Term};

/// Puts a term after its length.
fn put_counted(bytes: &mut Vec<u8>, term: &Term) -> Result<(), Memory>
    ensures { OnOk result (bytes.new.items ≡ bytes.old.items ++ counted_bytes term.now) }
{
    let text = term.as_str().as_bytes();
    bytes.push(text.len() as u8)?;
    bytes.extend_from_slice(text)?;
    Ok(())
}

/// What the key of a pair has behind the name of its thesaurus, where a term follows.
pub(crate) fn first_bytes(alloc: Global, kind: PairKind, first: &Term) -> Result<Vec<u8>, Memory>
    ensures { IfOk result (λ v. v.items ≡ kind_number kind ∷ counted_bytes first.now) }
{
    let mut bytes = Vec::new(alloc);
    bytes.push(kind.number())?;
    put_counted(&mut bytes, first)?;
    Ok(bytes)
}

/// The rest of the key of a pair.
pub(crate) fn pair_bytes(
    alloc: Global,
    kind: PairKind,
    first: &Term,
    second: &Term,
) -> Result<Vec<u8>, Memory>
    ensures { IfOk result (λ v. v.items ≡ pair_part (term_pair kind first.now second.now)) }
{
    let mut bytes = first_bytes(alloc, kind, first)?;
    put_counted(&mut bytes, second)?;
    Ok(bytes)
}
