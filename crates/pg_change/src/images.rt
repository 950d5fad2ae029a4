//! Pages of the directory that are to be written, by their numbers.

ghost use Rattle.std.specs.Prelude.{◌≡◌, ◌≤◌, ◌<◌, ◌∷◌, ◌++◌, All, [], IsFalse, IsTrue, OnErr, OnOk, IfOk, map, unwrap_or};
ghost use Rattle.std.specs.List.Sorted.{IsStrictlyIncreasing};
ghost use Rattle.std.specs.Option.{option_copied};
ghost use Rattle.pg_directory.specs.Building.{above_of};
ghost use Rattle.pg_directory.specs.Leaves.{leaf_at};
ghost use Rattle.pg_directory.specs.Making.{above_writes, directory_writes, leaf_writes};
ghost use Rattle.pg_directory.specs.Pages.{Leaf, Inner, directory_bytes, IsChild, IsDirectoryPage, IsEntryAt};
ghost use Rattle.pg_directory.specs.Trees.{bytes_of_page, Directory, StorePage};
ghost use Rattle.pg_directory.specs.Written.{write_numbers, write_over};
ghost use Rattle.pg_change.specs.DirectoryImages.{AreGood, AreSameWrites, FitsPage};
ghost use Rattle.pg_change.specs.ImagePages.{image_page};

use ct_base::Memory;
use pg_directory::{Child, EntryAt, InnerPage, LeafPage, inner_page, leaf_page};
use std::alloc::Global;
use std::collections::BTreeMap;
use std::marker::Model;

/// How many entries a leaf names at most.
const ENTRIES: usize = 681;

/// How many pages a page above the leaves names at most.
const CHILDREN: usize = 408;

/// What a page of the directory is to be.
#[derive(Drop)]
pub enum DirectoryImage {
    /// A leaf: where the entries stand that it names.
    Leaf(Vec<EntryAt>),
    /// A page above the leaves: how far it is above them, and the pages that it names.
    Inner { level: u8, children: Vec<Child> },
}

impl DirectoryImage {
    /// The bytes of the page.
    pub fn bytes(&self) -> [u8; 4096]
        requires { FitsPage (image_page self.now) }
        ensures { result ≡ directory_bytes (image_page self.now) }
    {
        match self {
            DirectoryImage::Leaf(entries) => leaf_page(entries),
            DirectoryImage::Inner { level, children } => inner_page(*level, children),
        }
    }
}

/// A page of the directory with its bytes, which are made once; seen as the page.
#[derive(Drop)]
pub struct PageImage {
    image: DirectoryImage,
    bytes: Box<[u8; 4096]>,
}

impl Model for PageImage {
    ghost use Rattle.std.specs.Prelude.{◌≡◌};
    ghost use Rattle.pg_directory.specs.Pages.{DirectoryPage, directory_bytes};
    ghost use Rattle.pg_change.specs.ImagePages.{image_page};

    ghost Value = { DirectoryPage };

    ghost view = { λ p. image_page p.image };

    ghost invariant = { λ p. p.bytes.value ≡ directory_bytes (image_page p.image) };
}

impl PageImage {
    /// Makes the bytes of a page.
    fn new(alloc: Global, image: DirectoryImage) -> Result<PageImage, Memory>
        requires { FitsPage (image_page image) }
        ensures { IfOk result (λ page. page ≡ image_page image) }
    {
        let bytes = Box::new(alloc, image.bytes())?;
        Ok(PageImage { image, bytes })
    }

    /// The bytes of the page.
    fn bytes(&self) -> &[u8; 4096]
        ensures { result.now ≡ directory_bytes self.now }
    {
        &self.bytes
    }
}

/// Pages of the directory that are to be written, at most one of each number, seen as a list in order of the numbers.
#[derive(Drop)]
pub struct DirectoryImages {
    alloc: Global,
    pages: BTreeMap<u32, PageImage>,
}

impl Model for DirectoryImages {
    ghost use Rattle.std.specs.Prelude.{List};
    ghost use Rattle.std.specs.BTreeMap.{IsOrdered};
    ghost use Rattle.std.specs.Ordering.{nat_cmp};
    ghost use Rattle.pg_directory.specs.Written.{PageWrite};
    ghost use Rattle.pg_change.specs.DirectoryImages.{images_seen};

    ghost Value = { List PageWrite };

    ghost view = { λ d. images_seen d.pages.entries };

    ghost invariant = { λ d. IsOrdered nat_cmp d.pages };
}

impl DirectoryImages {
    /// No pages. It takes no memory.
    pub fn new(alloc: Global) -> DirectoryImages
        ensures { result ≡ [] }
    {
        DirectoryImages {
            alloc,
            pages: BTreeMap::new(alloc),
        }
    }

    /// Puts the page of a number, in place of the one that is there. It makes its bytes, and takes memory for these; besides, its cost is the
    /// logarithm of the number of pages.
    pub fn put(&mut self, number: u32, image: DirectoryImage) -> Result<(), Memory>
        requires { FitsPage (image_page image) }
        ensures ok { OnOk result (AreSameWrites self.new ((number, Directory (image_page image)) ∷ self.old)) }
        ensures err { OnErr result (self.new ≡ self.old) }
    {
        let page = PageImage::new(self.alloc, image)?;
        self.pages.insert(number, page)?;
        Ok(())
    }

    /// The bytes of the page of a number, if it is to be written. Its cost is the logarithm of the number of pages.
    pub fn page(&self, number: u32) -> Option<&[u8; 4096]>
        ensures is { (p : StorePage) → bytes_of_page (write_over self.now number p) ≡ unwrap_or (option_copied result) (bytes_of_page p) }
        ensures rise { IsStrictlyIncreasing (write_numbers self.now) }
    {
        match self.pages.get(&number) {
            Some(page) => Some(page.bytes()),
            None => None,
        }
    }
}

/// What the types say of an entry: its numbers fit their bytes. The function only states this law, which is known of an entry once it is
/// read.
fn keep_entry(entry: EntryAt)
    ensures { IsEntryAt entry }
{
    let _page = entry.page;
    let _slot = entry.slot;
}

/// So it is with a page and the least entry below it.
fn keep_child(child: Child)
    ensures { IsChild child }
{
    let _page = child.page;
    keep_entry(child.least);
}

/// So it is with each of these entries. Its cost is their number.
fn keep_entries(entries: &[EntryAt])
    ensures { All IsEntryAt entries.now }
{
    for entry in entries {
        keep_entry(*entry);
    }
}

/// So it is with each of these pages. Its cost is their number.
fn keep_children(children: &[Child])
    ensures { All IsChild children.now }
{
    for child in children {
        keep_child(*child);
    }
}

/// A level fits its byte, as the type says.
fn keep_level(level: u8)
    ensures { level < 256 }
{}

/// Whether a leaf may name so many entries.
fn may_name(count: usize) -> bool
    ensures yes { IsTrue result → (1 ≤ count) × (count ≤ 681) }
    ensures no { IsFalse result → 1 ≤ count → count ≤ 681 → ⊥ }
{
    count >= 1 && count <= ENTRIES
}

/// Whether a page so far above the leaves may name so many pages.
fn may_name_pages(level: u8, count: usize) -> bool
    ensures yes { IsTrue result → (1 ≤ level) × (1 ≤ count) × (count ≤ 408) }
    ensures no { IsFalse result → 1 ≤ level → 1 ≤ count → count ≤ 408 → ⊥ }
{
    level >= 1 && count >= 1 && count <= CHILDREN
}

/// Whether a leaf may stand in a store. Its cost is the number of its entries.
fn is_leaf(leaf: &LeafPage) -> bool
    ensures yes { IsTrue result → IsDirectoryPage (Leaf leaf.now.entries.items) }
    ensures no { IsFalse result → IsDirectoryPage (Leaf leaf.now.entries.items) → ⊥ }
{
    keep_entries(&leaf.entries);
    may_name(leaf.entries.len())
}

/// Whether a page above the leaves may stand in a store. Its cost is the number of the pages that it names.
fn is_inner(page: &InnerPage) -> bool
    ensures yes { IsTrue result → IsDirectoryPage (Inner page.now.level page.now.children.items) }
    ensures no { IsFalse result → IsDirectoryPage (Inner page.now.level page.now.children.items) → ⊥ }
{
    keep_level(page.level);
    keep_children(&page.children);
    may_name_pages(page.level, page.children.len())
}

/// Puts leaves among the pages that are to be written, where they replace those of the same numbers. Where one of them couldn't stand in a
/// store it answers Memory, too.
fn put_leaves(images: &mut DirectoryImages, leaves: Vec<LeafPage>) -> Result<(), Memory>
    ensures same { OnOk result (AreSameWrites images.new (leaf_writes (map leaf_at leaves.items) ++ images.old)) }
    ensures good { OnOk result (AreGood images.old → AreGood images.new) }
{
    let mut leaves = leaves;
    while let Some(leaf) = leaves.pop() {
        if !is_leaf(&leaf) {
            return Err(Memory);
        }
        images.put(leaf.number, DirectoryImage::Leaf(leaf.entries))?;
    }
    Ok(())
}

/// Puts pages above the leaves among those that are to be written, where they replace those of the same numbers. Where one of them couldn't
/// stand in a store it answers Memory, too.
fn put_upper(images: &mut DirectoryImages, upper: Vec<InnerPage>) -> Result<(), Memory>
    ensures same { OnOk result (AreSameWrites images.new (above_writes (map above_of upper.items) ++ images.old)) }
    ensures good { OnOk result (AreGood images.old → AreGood images.new) }
{
    let mut upper = upper;
    while let Some(page) = upper.pop() {
        if !is_inner(&page) {
            return Err(Memory);
        }
        let image = DirectoryImage::Inner {
            level: page.level,
            children: page.children,
        };
        images.put(page.number, image)?;
    }
    Ok(())
}

/// The leaves and the pages above them that are to be written. Where what is to be written couldn't stand in a store, as over the bytes of no
/// store, it answers Memory, too. What they name isn't copied; with its bytes, which are made here, it takes some 4,200 bytes a page, and goes
/// over what they name once.
pub fn directory_images(
    alloc: Global,
    leaves: Vec<LeafPage>,
    upper: Vec<InnerPage>,
) -> Result<DirectoryImages, Memory>
    ensures same { IfOk result (λ images. AreSameWrites images (directory_writes (map leaf_at leaves.items) (map above_of upper.items))) }
    ensures good { IfOk result AreGood }
{
    let mut images = DirectoryImages::new(alloc);
    put_upper(&mut images, upper)?;
    put_leaves(&mut images, leaves)?;
    Ok(images)
}
