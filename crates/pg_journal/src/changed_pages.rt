//! Pages that are to be committed together, wherever their bytes come from.

ghost use Rattle.std.specs.Prelude.{◌≡◌, ◌<◌, ◌^◌, List, length};
ghost use Rattle.pg_journal.specs.BatchStates.{image_at, numbers_in, root_in};
ghost use Rattle.pg_journal.specs.Pages.{AreBetween, Numbered};
ghost use Rattle.pg_journal.specs.Standing.{homes_with};

/// Pages that are to be committed together, in order of their numbers. The image of a page, its 4096 bytes, is made when it is
/// written: so a commit itself has one image in memory at a time, however many pages there are.
pub trait ChangedPages {
    /// The number and the image of each page.
    ghost pages: { Self → List Numbered };

    /// The numbers of the pages, each greater than the one before.
    fn numbers(&self) -> &[u32]
        ensures numbers { result.now ≡ numbers_in (pages self.now) }
        ensures between { AreBetween 2 (2 ^ 32) (pages self.now) };

    /// The image of the page whose number is the one at this index. It takes no memory.
    fn image(&self, index: usize) -> [u8; 4096]
        requires { index < length (pages self.now) }
        ensures { result ≡ image_at index (pages self.now) };
}

/// The image of page 2, where it is one of the pages.
pub(crate) fn root_image<B: ChangedPages>(batch: &B) -> Option<[u8; 4096]>
    ensures { result ≡ root_in (B.pages batch.now) }
{
    let numbers = batch.numbers();
    if numbers.is_empty() || numbers[0] != 2 {
        return None;
    }
    Some(batch.image(0))
}

/// How many home pages there are with these pages, where there are so many without them.
pub(crate) fn homes_with<B: ChangedPages>(batch: &B, homes: u32) -> u32
    ensures { result ≡ homes_with homes (B.pages batch.now) }
{
    let Some(root) = root_image(batch) else {
        return homes;
    };
    let [_, _, _, _, a, b, c, d, ..] = root;
    u32::from_be_bytes([a, b, c, d])
}
