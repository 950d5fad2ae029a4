//! Which pages of entries are offered as ones with room.

use pg_page::{Page, Slot};

/// Loading a page of entries means loading all long pages of their values: one with so many such entries isn't offered.
const FAR_LIMIT: usize = 16;

/// Whether a page of entries may be offered as one with room: it has fewer than sixteen entries whose values stand on long pages.
pub fn is_roomy(page: &Page) -> bool {
    let mut left = FAR_LIMIT;
    for i in 0..page.count() {
        let Some(string) = page.get(Slot(i as u16)) else {
            unreachable!()
        };
        if !string.is_empty() && string[0] != 0 {
            left = left.saturating_sub(1);
        }
    }
    left > 0
}
