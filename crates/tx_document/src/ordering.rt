//! The rising list of instances.

ghost use Rattle.std.specs.Prelude.{◌≡◌, IfOk, IsPermutation, IsSorted, OnOk};
ghost use Rattle.std.specs.List.{dedup};
ghost use Rattle.std.specs.Ordering.{is_eq};
ghost use Rattle.tx_document.specs.Documents.{rising, section_cmp};

use crate::views::SectionView;
use ct_base::Memory;
use std::cmp::Ordering;

/// The instances in rising order, each once. Its cost is that of sorting them.
pub(crate) fn rising(found: Vec<SectionView>) -> Result<Vec<SectionView>, Memory>
    ensures { IfOk result (λ v. v.items ≡ rising found.items) }
{
    let mut sorted = found;
    sort(&mut sorted)?;
    drop_equal(&mut sorted);
    Ok(sorted)
}

/// Puts instances in order.
fn sort(instances: &mut Vec<SectionView>) -> Result<(), Memory>
    ensures permutation { IsPermutation instances.old.items instances.new.items }
    ensures sorted { OnOk result (IsSorted section_cmp instances.new.items) }
{
    instances.sort_by(|a, b| section_cmp(a, b))?;
    Ok(())
}

/// Drops instances that equal the one before them.
fn drop_equal(instances: &mut Vec<SectionView>)
    ensures { instances.new.items ≡ dedup (λ a b. is_eq (section_cmp a b)) instances.old.items }
{
    instances.dedup_by(|a, b| is_same(a, b));
}

fn is_same(a: &SectionView, b: &SectionView) -> bool
    ensures { result ≡ is_eq (section_cmp a.now b.now) }
{
    section_cmp(a, b).is_eq()
}

/// Which of two instances comes first: by the bytes of the section's name, the first position, the last one.
fn section_cmp(a: &SectionView, b: &SectionView) -> Ordering
    ensures { result ≡ section_cmp a.now b.now }
{
    let names = a.section.as_str().cmp(b.section.as_str());
    names.then(a.first.cmp(&b.first).then(a.last.cmp(&b.last)))
}
