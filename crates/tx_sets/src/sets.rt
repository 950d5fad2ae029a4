//! Index sets, and their limits.

ghost use Rattle.std.specs.Prelude.{◌≡◌, true};
ghost use Rattle.std.specs.List.{list_all};
ghost use Rattle.ct_base.specs.Names.{is_kept};
ghost use Rattle.tx_sets.specs.Sets.{are_sub_indexes, is_sub_index};

use ct_base::{Listed, Name};

/// The columns of a sub-index, by their names, in the order in which entries have their values.
pub type SubIndex = Listed<Name>;

/// The sub-indexes of an index set, in the order in which they were added: the first has the number 1.
pub type IndexSet = Listed<Listed<Name>>;

/// How many columns a sub-index has at most.
const SUB_COLUMN_LIMIT: usize = 3;

/// How many sub-indexes an index set has at most.
const SUB_INDEX_LIMIT: usize = 16;

/// Whether there is a column, and there are no more than a sub-index may have.
fn is_sub_index(names: &[Name]) -> bool
    ensures { result ≡ is_sub_index names.now }
{
    !names.is_empty() && names.len() <= SUB_COLUMN_LIMIT
}

/// Whether each has as many columns as a sub-index may have.
fn are_each(set: &[Listed<Name>]) -> bool
    ensures { result ≡ list_all is_sub_index set.now }
{
    let mut rest = set;
    while let [names, others @ ..] = rest {
        if !is_sub_index(names.as_slice()) {
            return false;
        }
        rest = others;
    }
    true
}

/// Whether these are as many sub-indexes as an index may have, each with as many columns as one may have.
pub fn are_sub_indexes(set: &[Listed<Name>]) -> bool
    ensures { result ≡ are_sub_indexes set.now }
{
    set.len() <= SUB_INDEX_LIMIT && are_each(set)
}

/// States that each name is spelt as names are stored. Its cost is linear in the number of names.
fn keep_columns(names: &[Name])
    ensures { list_all is_kept names.now ≡ true }
{
    let mut rest = names;
    while let [name, later @ ..] = rest {
        keep_name(name);
        rest = later;
    }
}

/// States that a name is spelt as names are stored.
#[tactic(auto, using(ct_base::specs::laws::Names::name_is_kept))]
fn keep_name(name: &Name)
    ensures { is_kept name.now ≡ true }
{
    let _named = name.as_str();
}

/// States that the name of each column of each sub-index is spelt as names are stored. Its cost is linear in the number of names.
pub fn keep_names(set: &[Listed<Name>])
    ensures { list_all (list_all is_kept) set.now ≡ true }
{
    let mut rest = set;
    while let [names, later @ ..] = rest {
        keep_columns(names.as_slice());
        rest = later;
    }
}
