//! Tags.

use ct_base::{Listed, Name, Text};

/// A tag of a text.
#[derive(Debug, Drop)]
pub struct TagView {
    /// The section that the tag belongs to.
    pub section: Name,
    /// Which of the group's tags it is, counted from 0 through all sections.
    pub tag: usize,
    /// Whether it has a `/`.
    pub closing: bool,
    /// The byte offset of its `<`.
    pub start: u32,
    /// The byte offset after its `>`.
    pub end: u32,
}

/// The tags of a text, in their order.
pub type TagViews = Listed<TagView>;

/// A text with its tags.
#[derive(Debug, Drop)]
pub struct Tagged {
    /// The text with a space in place of each byte of a tag.
    pub blanked: Text,
    pub tags: TagViews,
}
