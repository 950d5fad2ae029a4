//! The pages behind the root, as far as they are in memory.

ghost use Rattle.std.specs.Prelude.{◌≡◌, []};
ghost use Rattle.ct_base.specs.Zeros.{zeros};
ghost use Rattle.pg_page.specs.Pages.{page_bytes};
ghost use Rattle.pg_map.specs.Kinds.{IsKind, bytes_of_kind};
ghost use Rattle.pg_window.specs.Sheets.{sheet_kind};

use pg_map::long_bytes;
use pg_page::Page;

/// A page behind the root. A place of it takes 32 bytes, and its strings or its bytes lie elsewhere.
#[derive(Debug, Drop)]
pub enum Sheet {
    Free,
    /// A page that isn't in memory: one of entries, of a value, or of the directory.
    Away,
    Slotted(Box<Page>),
    /// A page of a long value: the next one's number, or 0, and the bytes that this one has.
    Long { next: u32, bytes: Vec<u8> },
}

impl Sheet {
    /// The bytes of the page. One that isn't in memory is as a page of entries that has none.
    pub fn bytes(&self) -> [u8; 4096]
        requires { IsKind (sheet_kind self.now) }
        ensures { result ≡ bytes_of_kind (sheet_kind self.now) }
    {
        match self {
            Sheet::Free => free_bytes(),
            Sheet::Away => empty_bytes(),
            Sheet::Slotted(page) => *page.bytes(),
            Sheet::Long { next, bytes } => long_bytes(*next, bytes),
        }
    }
}

/// The bytes of a free page.
fn free_bytes() -> [u8; 4096]
    ensures { result ≡ zeros 4096 }
{
    [0; 4096]
}

/// The bytes of a page of entries that has none.
fn empty_bytes() -> [u8; 4096]
    ensures { result ≡ page_bytes [] }
{
    *Page::empty().bytes()
}
