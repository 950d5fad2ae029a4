//! The tags of a group by their names.

ghost use Rattle.std.specs.Prelude.{◌≡◌, ◌≤◌, ◌+◌, true, IfOk, OnOk, length};
ghost use Rattle.std.specs.Option.{option_map};
ghost use Rattle.std.specs.List.{list_all};
ghost use Rattle.tx_tags.specs.Groups.{is_tag, tag_names};
ghost use Rattle.tx_tags.specs.Tables.{AddsTag, AddsTags, IsTableOf, tag_in_table, place_parts};

use crate::groups::Section;
use ct_base::{Memory, Name, Text};
use std::alloc::Global;
use std::collections::BTreeMap;

/// Where a tag belongs: its section, and its number through the whole group.
#[derive(Drop)]
pub(crate) struct TagPlace {
    pub(crate) section: Name,
    pub(crate) number: usize,
}

impl TagPlace {
    fn of(section: &Name, number: usize) -> Result<TagPlace, Memory>
        ensures { IfOk result (λ p. place_parts p ≡ (section.now, number)) }
    {
        Ok(TagPlace {
            section: section.clone()?,
            number,
        })
    }
}

/// The places of tags by their names.
#[derive(Drop)]
pub(crate) struct TagTable {
    places: BTreeMap<String, TagPlace>,
}

impl TagTable {
    /// The table of the tags of these sections. Its cost is the number of tags, times its logarithm.
    pub(crate) fn of(alloc: Global, sections: &[Section]) -> Result<TagTable, Memory>
        requires few { length (tag_names sections.now) ≤ 256 }
        requires spelt { list_all is_tag (tag_names sections.now) ≡ true }
        ensures { IfOk result (λ table. IsTableOf sections.now table.places) }
    {
        let mut table = TagTable {
            places: BTreeMap::new(alloc),
        };
        let mut number = 0;
        let mut rest = sections;
        while let [section, later @ ..] = rest {
            table.put_section(alloc, section, number)?;
            number += section.tags.as_slice().len();
            rest = later;
        }
        Ok(table)
    }

    /// Puts the tags of a section, where the first one has this number through the group.
    fn put_section(&mut self, alloc: Global, section: &Section, first: usize) -> Result<(), Memory>
        requires { first + length section.now.tags ≤ 256 }
        ensures { OnOk result (AddsTags self.old.places self.new.places section.now.name section.now.tags first) }
    {
        let mut number = first;
        let mut rest = section.tags.as_slice();
        while let [tag, later @ ..] = rest {
            self.put(alloc, &section.name, tag, number)?;
            number += 1;
            rest = later;
        }
        Ok(())
    }

    /// Puts a tag, unless one has its name already.
    fn put(
        &mut self,
        alloc: Global,
        section: &Name,
        tag: &Text,
        number: usize,
    ) -> Result<(), Memory>
        ensures { OnOk result (AddsTag self.old.places self.new.places section.now tag.now number) }
    {
        if !self.places.contains_key(tag.as_str()) {
            let place = TagPlace::of(section, number)?;
            self.places
                .insert(String::from_str(alloc, tag.as_str())?, place)?;
        }
        Ok(())
    }

    /// The place of the tag of this name. Its cost is the logarithm of the number of tags.
    pub(crate) fn find(&self, name: &str) -> Option<&TagPlace>
        ensures { option_map (λ p. place_parts p.now) result ≡ tag_in_table name.now self.now.places }
    {
        self.places.get(name)
    }
}
