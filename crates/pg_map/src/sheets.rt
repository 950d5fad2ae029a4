//! The pages behind the root, by their kinds, as they are read from their bytes.

ghost use Rattle.std.specs.Prelude.{◌≡◌, ◌≤◌, ◌+◌, length};
ghost use Rattle.pg_journal.specs.Pages.{root_page};
ghost use Rattle.ct_site.specs.Images.{written};
ghost use Rattle.pg_map.specs.Kinds.{Long, IsKind, bytes_of_kind};
ghost use Rattle.pg_map.specs.Sheets.{sheet_kind, head_of_long};

use pg_page::Page;

/// A page behind the root.
#[derive(Debug, Drop)]
pub enum Sheet {
    Free,
    Slotted(Page),
    /// A page of a long value: the next one's number, or 0, and the bytes that this one has.
    Long { next: u32, bytes: Vec<u8> },
}

impl Sheet {
    /// The bytes of the page.
    #[tactic(auto, unfolding(crate::specs::Kinds::bytes_of_kind))]
    pub fn bytes(&self) -> [u8; 4096]
        requires { IsKind (sheet_kind self.now) }
        ensures { result ≡ bytes_of_kind (sheet_kind self.now) }
    {
        match self {
            Sheet::Free => [0; 4096],
            Sheet::Slotted(page) => *page.bytes(),
            Sheet::Long { next, bytes } => long_bytes(*next, bytes),
        }
    }
}

/// Puts bytes at a place.
fn put_at(page: &mut [u8; 4096], at: usize, bytes: &[u8])
    requires { at + length bytes.now ≤ 4096 }
    ensures { page.new ≡ written at bytes.now page.old }
{
    page[at..at + bytes.len()].copy_from_slice(bytes);
}

/// The first bytes of a long page.
fn long_head(next: u32, count: u16) -> [u8; 8]
    ensures { result ≡ head_of_long next count }
{
    let [a, b, c, d] = next.to_be_bytes();
    let [e, f] = count.to_be_bytes();
    [2, a, b, c, d, e, f, 0]
}

/// The bytes of a long page.
pub fn long_bytes(next: u32, bytes: &[u8]) -> [u8; 4096]
    requires { length bytes.now ≤ 4088 }
    ensures { result ≡ bytes_of_kind (Long next bytes.now) }
{
    let mut page = [0; 4096];
    put_at(&mut page, 0, &long_head(next, bytes.len() as u16));
    put_at(&mut page, 8, bytes);
    page
}

/// The bytes of a root that names no directory.
pub fn root_bytes(homes: u32) -> [u8; 4096]
    ensures { result ≡ root_page homes 0 }
{
    pg_journal::root_bytes(homes, 0)
}
