//! Documents that come to one term, one behind the other.

ghost use Rattle.std.specs.Prelude.{◌≡◌, ◌++◌, ◌∷◌, [], IfOk, OnOk, length, ◌==◌};
ghost use Rattle.ix_rows.specs.Growing.{nothing_yet};
ghost use Rattle.ix_rows.specs.Runs.{grown_run};

use crate::growing::GrowingRows;
use ct_base::Memory;
use std::alloc::Global;
use std::marker::Model;

/// A document, and how many bytes its places take.
#[derive(Clone, Copy, Debug)]
pub(crate) struct RunDocument {
    pub(crate) document: u32,
    pub(crate) len: usize,
}

/// Documents in the order in which they come to one term, each with the bytes of its places: how many there are, and their steps. It is
/// seen as the list of these pairs.
#[derive(Debug, Drop)]
pub struct Run {
    documents: Vec<RunDocument>,
    bytes: Vec<u8>,
}

impl Model for Run {
    ghost use Rattle.std.specs.Prelude.{ℕ, List, ◌≡◌, length};
    ghost use Rattle.ix_rows.specs.Runs.{run_len, run_documents};

    ghost Value = { List (ℕ × List ℕ) };

    ghost view = { λ r. run_documents r.documents.items r.bytes.items };

    ghost invariant = { λ r. length r.bytes.items ≡ run_len r.documents.items };
}

impl Run {
    /// No documents. It takes no memory.
    pub fn new(alloc: Global) -> Run
        ensures { result ≡ [] }
    {
        Run {
            documents: Vec::new(alloc),
            bytes: Vec::new(alloc),
        }
    }

    /// Leaves all documents, and keeps the memory for others.
    pub fn clear(&mut self)
        ensures { self.new ≡ [] }
    {
        self.documents.clear();
        self.bytes.clear();
    }

    /// A document comes, with the bytes of its places.
    pub fn push(&mut self, document: u32, places: &[u8]) -> Result<(), Memory>
        ensures { OnOk result (self.new ≡ self.old ++ (document, places.now) ∷ []) }
    {
        self.documents.reserve(1)?;
        self.bytes.extend_from_slice(places)?;
        self.documents.push_reserved(RunDocument {
            document,
            len: places.len(),
        });
        Ok(())
    }

    /// Whether it has no documents.
    pub fn is_empty(&self) -> bool
        ensures { result ≡ (length self.now == 0) }
    {
        self.documents.as_slice().is_empty()
    }

    /// The documents come to the rows of a term, one behind the other.
    pub(crate) fn add_to(&self, alloc: Global, rows: &mut GrowingRows) -> Result<(), Memory>
        ensures { OnOk result (rows.new ≡ grown_run rows.old self.now) }
    {
        let mut rest = self.documents.as_slice();
        let mut bytes = self.bytes.as_slice();
        while let [document, later @ ..] = rest {
            let (places, behind) = bytes.split_at(document.len);
            rows.add(alloc, document.document, places)?;
            rest = later;
            bytes = behind;
        }
        Ok(())
    }
}

/// The rows of a term to which these documents came.
pub(crate) fn rows_of_run(alloc: Global, run: &Run) -> Result<GrowingRows, Memory>
    ensures { IfOk result (λ rows. rows ≡ grown_run nothing_yet run.now) }
{
    let mut rows = GrowingRows::new(alloc);
    run.add_to(alloc, &mut rows)?;
    Ok(rows)
}
