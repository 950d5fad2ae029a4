//! Lists whose items are found by their slot and stream.

ghost use Rattle.std.specs.Prelude.{◌≡◌, ◌++◌, ◌∷◌, [], IfOk};
ghost use Rattle.std.specs.Option.{option_copied};
ghost use Rattle.ix_slots.specs.SlotLists.{StreamSlot, first_in, at_places};

use crate::noted_places::NotedPlaces;
use crate::slot_bytes::slot_bytes;
use ct_base::Memory;
use q_tree::{Slot, same_slot};
use std::alloc::Global;
use std::marker::Model;

/// What is of a slot in a stream.
pub trait InStream: Drop {
    /// The slot and its stream.
    ghost at: { Self → StreamSlot };

    /// 0 for the main stream, else the number of a field.
    fn stream(&self) -> u8
        ensures { result ≡ (at self.now).stream };

    fn slot(&self) -> &Slot
        ensures { result.now ≡ (at self.now).slot };
}

/// Items in their order, which are found by their slot and stream. Contracts see it as the list of the items.
#[derive(Drop)]
pub struct SlotList<T: InStream> {
    items: Vec<T>,
    places: NotedPlaces,
}

impl<T: InStream> Model for SlotList<T> {
    ghost use Rattle.std.specs.Prelude.{List};
    ghost use Rattle.ix_slots.specs.SlotLists.{AreNoted};

    ghost Value = { List T };

    ghost view = { λ l. l.items.items };

    ghost invariant = { λ l. AreNoted T.at l.places.places l.items.items };
}

/// The item at a place, if it is of this slot in this stream.
fn item_in<'a, T: InStream>(items: &'a [T], place: usize, stream: u8, slot: &Slot) -> Option<&'a T>
    ensures { option_copied result ≡ first_in T.at stream slot.now (at_places items.now (place ∷ [])) }
{
    let item = items.get(place)?;
    if item.stream() == stream && same_slot(item.slot(), slot) {
        return Some(item);
    }
    None
}

/// The first item at these places that is of this slot in this stream.
fn first_at<'a, T: InStream>(
    items: &'a [T],
    places: &[usize],
    stream: u8,
    slot: &Slot,
) -> Option<&'a T>
    ensures { option_copied result ≡ first_in T.at stream slot.now (at_places items.now places.now) }
{
    let mut rest = places;
    while let [place, later @ ..] = rest {
        if let Some(item) = item_in(items, *place, stream, slot) {
            return Some(item);
        }
        rest = later;
    }
    None
}

impl<T: InStream> SlotList<T> {
    /// The list without items. It takes no memory.
    pub fn empty(alloc: Global) -> SlotList<T>
        ensures { result ≡ [] }
    {
        SlotList {
            items: Vec::new(alloc),
            places: NotedPlaces::new(alloc),
        }
    }

    /// The list with one item more at its end. Its cost is the logarithm of the number of items, and the length of the slot.
    pub fn with(self, alloc: Global, item: T) -> Result<SlotList<T>, Memory>
        ensures { IfOk result (λ more. more ≡ self ++ item ∷ []) }
    {
        let mut items = self.items;
        let mut places = self.places;
        let bytes = slot_bytes(alloc, item.stream(), item.slot())?;
        places.note(alloc, bytes, items.len())?;
        items.push(item)?;
        Ok(SlotList { items, places })
    }

    /// The first item of a slot in a stream. Its cost is the logarithm of the number of items, and the length of the slot.
    pub fn find(&self, alloc: Global, stream: u8, slot: &Slot) -> Result<Option<&T>, Memory>
        ensures { IfOk result (λ found. option_copied found ≡ first_in T.at stream slot.now self.now) }
    {
        let bytes = slot_bytes(alloc, stream, slot)?;
        let places = self.places.under(bytes.as_slice());
        Ok(first_at(self.items.as_slice(), places, stream, slot))
    }

    /// The items in their order, without a copy.
    pub fn into_vec(self) -> Vec<T>
        ensures { result.items ≡ self }
    {
        self.items
    }
}
