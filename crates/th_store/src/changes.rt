//! What calls put into a batch.

ghost use Rattle.std.specs.Prelude.{◌≡◌, ◌++◌, OnOk, OnErr};
ghost use Rattle.ct_entry.specs.Changes.{spell};
ghost use Rattle.ct_entry.specs.Shapes.{AreShaped};
ghost use Rattle.th_graph.specs.Pairs.{term_pair, stated_pair};
ghost use Rattle.th_store.specs.Shapes.{HasThesaurusValue};
ghost use Rattle.th_store.specs.Spelling.{pair_changes, thesaurus_changes};

use crate::spelling::pair_bytes;
use ct_base::{Memory, Name};
use ct_entry::{Kind, put_entry};
use ct_keep::Batch;
use q_tree::Relation;
use std::alloc::Global;
use th_graph::{PairKind, Term, stated_pair};

/// Adds the change by which there is a thesaurus of this name, without pairs. Whether there is one already isn't asked. The batch is
/// unchanged where there is no memory.
pub fn create(alloc: Global, batch: &mut Batch, name: &Name) -> Result<(), Memory>
    ensures ok { OnOk result (batch.new ≡ batch.old ++ spell (thesaurus_changes name.now)) }
    ensures err { OnErr result (batch.new ≡ batch.old) }
    ensures shaped { OnOk result (AreShaped HasThesaurusValue (spell (thesaurus_changes name.now))) }
{
    let _named = name.as_str();
    put_thesaurus(alloc, batch, name)
}

/// Adds the change by which there is a thesaurus of this name.
fn put_thesaurus(alloc: Global, batch: &mut Batch, name: &Name) -> Result<(), Memory>
    ensures ok { OnOk result (batch.new ≡ batch.old ++ spell (thesaurus_changes name.now)) }
    ensures err { OnErr result (batch.new ≡ batch.old) }
{
    put_entry(alloc, batch, Kind::Thesauri, name, &[], Vec::new(alloc))
}

/// Adds the change by which the thesaurus of this name has the pair which states that `b` is a synonym of `a`, broader or narrower than
/// it, or preferred to it. Whether the thesaurus is there, and has the pair already, isn't asked. The batch is unchanged where there is no
/// memory.
pub fn relate(
    alloc: Global,
    batch: &mut Batch,
    name: &Name,
    a: &Term,
    relation: Relation,
    b: &Term,
) -> Result<(), Memory>
    ensures ok { OnOk result (batch.new ≡ batch.old ++ spell (pair_changes name.now (stated_pair relation a.now b.now))) }
    ensures err { OnErr result (batch.new ≡ batch.old) }
    ensures shaped { OnOk result (AreShaped HasThesaurusValue (spell (pair_changes name.now (stated_pair relation a.now b.now)))) }
{
    let _named = name.as_str();
    let _of_a = a.as_str();
    let _of_b = b.as_str();
    let (kind, first, second) = stated_pair(relation, a, b);
    put_pair(alloc, batch, name, kind, first, second)
}

/// Adds the change by which a thesaurus has this pair.
fn put_pair(
    alloc: Global,
    batch: &mut Batch,
    name: &Name,
    kind: PairKind,
    first: &Term,
    second: &Term,
) -> Result<(), Memory>
    ensures ok { OnOk result (batch.new ≡ batch.old ++ spell (pair_changes name.now (term_pair kind first.now second.now))) }
    ensures err { OnErr result (batch.new ≡ batch.old) }
{
    let part = pair_bytes(alloc, kind, first, second)?;
    put_entry(alloc, batch, Kind::Relations, name, &part, Vec::new(alloc))
}
