//! Section groups.

ghost use Rattle.std.specs.Prelude.{◌≡◌, true, IfOk, length};
ghost use Rattle.tx_tags.specs.Groups.{IsGroupOf, field_count, is_among, is_group, kind_of, no_sections, tag_names, with_tag, zone_count};

use crate::rules::{field_count, have_tag, keep_rules, tag_count, zone_count};
use crate::sections::{kind_among, sections_with_tag};
use ct_base::{Listed, Memory, Name, Text};
use std::alloc::Global;
use std::marker::Model;

/// What the words of a section are searched as.
#[derive(Clone, Copy, Debug, PartialEq, Eq)]
pub enum SectionKind {
    /// A stretch of the text.
    Zone,
    /// A stream of its own, whose words aren't in the main one.
    Field,
    /// A stream of its own, whose words are in the main one too.
    VisibleField,
}

/// The names of tags.
pub type Tags = Listed<Text>;

/// A section, and the tags that enclose it.
#[derive(Clone, Debug, Drop)]
pub struct Section {
    pub name: Name,
    pub kind: SectionKind,
    /// The names of its tags in lower case.
    pub tags: Tags,
}

/// A section group: the sections of a document, in the order in which they were added, and whether sentences and paragraphs are
/// sections too.
///
/// It has at most 64 zones, 64 fields and 256 tags, and none where it is null. Each section's name stands once and is neither
/// `sentence` nor `paragraph`; each tag stands once and has 1 to 30 lower-case ASCII letters, digits, `_` and `-`.
#[derive(Clone, Debug, Drop)]
pub struct Group {
    is_null: bool,
    sections: Vec<Section>,
    sentence: bool,
    paragraph: bool,
}

impl Model for Group {
    ghost use Rattle.std.specs.Prelude.{◌≡◌, true};
    ghost use Rattle.tx_tags.specs.Groups.{SectionGroup, is_group};

    ghost Value = { SectionGroup };

    ghost view = { λ g. record { is_null = g.is_null; sections = g.sections.items; sentence = g.sentence; paragraph = g.paragraph } };

    ghost invariant = { λ g. is_group (record { is_null = g.is_null; sections = g.sections.items; sentence = g.sentence; paragraph = g.paragraph }) ≡ true };
}

impl Group {
    /// The group without sections and flags. It takes no memory.
    pub fn empty(alloc: Global, is_null: bool) -> Group
        ensures { result ≡ record no_sections { is_null = is_null } }
    {
        Group {
            is_null,
            sections: Vec::new(alloc),
            sentence: false,
            paragraph: false,
        }
    }

    /// The group of these parts. None exactly where they break a rule of groups. Its cost is the square of the number of tags and
    /// of sections; where there are too many, it is linear.
    pub fn of(
        alloc: Global,
        is_null: bool,
        sections: Vec<Section>,
        sentence: bool,
        paragraph: bool,
    ) -> Result<Option<Group>, Memory>
        ensures { IfOk result (λ o. IsGroupOf (record { is_null = is_null; sections = sections.items; sentence = sentence; paragraph = paragraph }) o) }
    {
        if !keep_rules(is_null, sections.as_slice()) {
            return Ok(None);
        }
        Ok(Some(Group {
            is_null,
            sections,
            sentence,
            paragraph,
        }))
    }

    /// The group with one more tag, which must be given in lower case. The tag goes to the section of this name, whose kind stays
    /// whatever `kind` is. If there is no such section, a new one of this kind comes last. None exactly where the result breaks a
    /// rule of groups. Its cost is the square of the number of tags and of sections.
    pub fn with_tag(
        self,
        alloc: Global,
        name: &Name,
        kind: SectionKind,
        tag: &str,
    ) -> Result<Option<Group>, Memory>
        ensures { IfOk result (λ o. IsGroupOf (record self { sections = with_tag name.now kind tag.now self.sections }) o) }
    {
        let Group {
            is_null,
            sections,
            sentence,
            paragraph,
        } = self;
        let sections = sections_with_tag(alloc, sections, name, kind, tag)?;
        Group::of(alloc, is_null, sections, sentence, paragraph)
    }

    /// The group whose sentences are sections.
    pub fn with_sentences(self) -> Group
        ensures { result ≡ record self { sentence = true } }
    {
        Group {
            is_null: self.is_null,
            sections: self.sections,
            sentence: true,
            paragraph: self.paragraph,
        }
    }

    /// The group whose paragraphs are sections.
    pub fn with_paragraphs(self) -> Group
        ensures { result ≡ record self { paragraph = true } }
    {
        Group {
            is_null: self.is_null,
            sections: self.sections,
            sentence: self.sentence,
            paragraph: true,
        }
    }

    pub fn is_null(&self) -> bool
        ensures { result ≡ self.now.is_null }
    {
        self.is_null
    }

    /// The sections, in the order in which they were added.
    pub fn sections(&self) -> &[Section]
        ensures sections { result.now ≡ self.now.sections }
        ensures rules { is_group self.now ≡ true }
    {
        self.sections.as_slice()
    }

    /// Whether sentences are sections.
    pub fn has_sentences(&self) -> bool
        ensures { result ≡ self.now.sentence }
    {
        self.sentence
    }

    /// Whether paragraphs are sections.
    pub fn has_paragraphs(&self) -> bool
        ensures { result ≡ self.now.paragraph }
    {
        self.paragraph
    }

    /// The kind of the section of this name. Its cost is linear in the number of sections.
    pub fn kind_of(&self, name: &Name) -> Option<SectionKind>
        ensures { result ≡ kind_of name.now self.now.sections }
    {
        kind_among(self.sections.as_slice(), name.as_str())
    }

    /// Whether a section has the tag, which is given in lower case. Its cost is linear in the number of tags.
    pub fn has_tag(&self, tag: &str) -> bool
        ensures { result ≡ is_among tag.now (tag_names self.now.sections) }
    {
        have_tag(self.sections.as_slice(), tag)
    }

    /// How many zones it has.
    pub fn zone_count(&self) -> usize
        ensures { result ≡ zone_count self.now.sections }
    {
        zone_count(self.sections.as_slice())
    }

    /// How many fields it has, those whose words can be seen among them.
    pub fn field_count(&self) -> usize
        ensures { result ≡ field_count self.now.sections }
    {
        field_count(self.sections.as_slice())
    }

    /// How many tags its sections have.
    pub fn tag_count(&self) -> usize
        ensures { result ≡ length (tag_names self.now.sections) }
    {
        tag_count(self.sections())
    }
}
