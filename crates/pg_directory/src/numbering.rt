//! The numbers of pages that are to be written.

ghost use Rattle.std.specs.Prelude.{All, ◌≡◌, ◌≤◌, ◌<◌, ◌^◌, IfOk};
ghost use Rattle.pg_directory.specs.Numbering.{number_taken, numbers_from};

use ct_base::Memory;
use std::alloc::Global;

/// The number of the page that is taken behind so many others: a free one, of which there are these, counted from the first page behind
/// the root, or else one behind all pages.
fn number_at(free: &[usize], homes: u32, before: usize) -> u32
    requires free { All (λ at. at < 2 ^ 31) free.now }
    requires homes { homes ≤ 2 ^ 31 }
    requires few { before < 2 ^ 31 }
    ensures { result ≡ number_taken free.now homes before }
{
    if before < free.len() {
        free[before] as u32 + 3
    } else {
        homes + (before - free.len()) as u32
    }
}

/// The numbers of so many pages: those of these free ones, which are counted from the first page behind the root, and then those behind
/// all pages.
pub fn numbers_from(
    alloc: Global,
    free: &[usize],
    homes: u32,
    count: usize,
) -> Result<Vec<u32>, Memory>
    requires free { All (λ at. at < 2 ^ 31) free.now }
    requires homes { homes ≤ 2 ^ 31 }
    requires few { count ≤ 2 ^ 31 }
    ensures { IfOk result (λ numbers. numbers.items ≡ numbers_from free.now homes count) }
{
    let mut numbers = Vec::new(alloc);
    for i in 0..count {
        numbers.push(number_at(free, homes, i))?;
    }
    Ok(numbers)
}
