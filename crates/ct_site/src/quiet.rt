//! A site in memory that fails only where a room is too small.

ghost use Rattle.std.specs.Prelude.{◌≡◌, ◌≤◌, ◌<◌, ◌+◌, ◌++◌, ◌↔◌, ℕ, List, Some, Ok, IfOk, OnOk, OnErr, IsOk, IsErr, IsTrue, length, take, drop, min, vec_len};
ghost use Rattle.ct_base.specs.Told.{took, IsNothing};
ghost use Rattle.ct_site.specs.FaultCounts.{CountsFaults, ends_after};
ghost use Rattle.ct_site.specs.Disks.{IsSame, IsSync, Works, Hears, Says};
ghost use Rattle.ct_site.specs.Writing.{IsWrite};

use crate::fault_lists::Faults;
use crate::memory::MemSite;
use crate::outside::{Disk, Failed, Site};
use crate::room_sizes::Rooms;
use ct_base::Memory;
use std::alloc::Global;
use std::marker::Model;

/// A site in memory. Its calls take no memory, and fail exactly where they would pass a room, or a write would end past
/// 2^43 bytes. Where a call fails nothing changes but the counts of calls and of faults.
#[derive(Debug, Drop)]
pub struct QuietSite {
    site: MemSite,
}

impl Model for QuietSite {
    ghost use Rattle.std.specs.Prelude.{◌≡◌};
    ghost use Rattle.ct_site.specs.Memory.{MemState, no_faults};

    ghost Value = { MemState };

    ghost view = { λ q. q.site };

    ghost invariant = { λ q. q.site.faults ≡ no_faults };
}

impl QuietSite {
    ghost use Rattle.ct_site.specs.Memory.{fresh, image_of, said_of, no_faults};

    /// A site with this script and this image, on which no call was made. It takes the memory that `MemSite` takes.
    pub fn new(
        alloc: Global,
        script: Vec<u8>,
        image: Vec<u8>,
        rooms: Rooms,
    ) -> Result<QuietSite, Memory>
        requires { vec_len image ≤ rooms.image }
        ensures { IfOk result (λ site. site ≡ fresh script.items image.items no_faults rooms) }
    {
        let site = MemSite::new(alloc, script, image, Faults::none(alloc), rooms)?;
        Ok(QuietSite { site })
    }

    /// The bytes said so far.
    pub fn said(&self) -> &[u8]
        ensures { result.now ≡ said_of self.now }
    {
        self.site.said()
    }

    /// The image as a read gives it.
    pub fn image(&self) -> &[u8]
        ensures { result.now ≡ image_of self.now }
    {
        self.site.image()
    }
}

impl Disk for QuietSite {
    ghost use Rattle.ct_site.specs.Memory.{image_of, memory_view, change_passes, write_passes, disk_failed, sync_failed, looked, wrote, after_sync};
    ghost use Rattle.ct_site.specs.Changing.{may_stay, counts_now, only_now};

    ghost disk = { memory_view };

    /// How many bytes the image has. It never fails.
    fn size(&mut self) -> Result<u64, Failed>
        ensures size { (image : List ℕ) → (memory_view self.old).image ≡ Some image → IfOk result (λ n. n ≡ length image) }
        ensures same { IsSame (memory_view self.old) (memory_view self.new) }
        ensures works { Works (memory_view self.old) (memory_view self.new) result }

        ensures succeeds { IsOk result }
        ensures done { IfOk result (λ n. (n ≡ length (image_of self.old)) × (self.new ≡ looked self.old)) }
    {
        self.site.size()
    }

    /// Reads as many bytes as `into` has, from the byte `at` on. It never fails.
    fn read(&mut self, at: u64, into: &mut [u8]) -> Result<(), Failed>
        requires within { (image : List ℕ) → (memory_view self.old).image ≡ Some image → at + length into.old ≤ length image }
        ensures bytes { (image : List ℕ) → (memory_view self.old).image ≡ Some image → OnOk result (into.new ≡ take (length into.old) (drop at image)) }
        ensures same { IsSame (memory_view self.old) (memory_view self.new) }
        ensures works { Works (memory_view self.old) (memory_view self.new) result }

        ensures succeeds { IsOk result }
        ensures done { OnOk result (self.new ≡ looked self.old) }
    {
        self.site.read(at, into)
    }

    /// Writes the bytes at this place, and lengthens the image where they end past it.
    fn write_at(&mut self, at: u64, bytes: &[u8]) -> Result<(), Failed>
        requires within { (image : List ℕ) → (memory_view self.old).image ≡ Some image → at ≤ length image }
        requires some { 0 < length bytes.now }
        ensures write { IsWrite at bytes.now (memory_view self.old) (memory_view self.new) result }

        ensures fails { IsErr result ↔ IsTrue (write_passes self.old at (length bytes.now)) }
        ensures done { OnOk result (self.new ≡ wrote self.old at bytes.now) }
        ensures failed { OnErr result (self.new ≡ disk_failed self.old) }
    {
        self.site.write_at(at, bytes)
    }

    /// Makes what was written last.
    fn sync(&mut self) -> Result<(), Failed>
        ensures sync { IsSync (memory_view self.old) (memory_view self.new) result }

        ensures fails { IsErr result ↔ IsTrue (change_passes self.old) }
        ensures done { OnOk result (self.new ≡ after_sync self.old) }
        ensures failed { OnErr result (self.new ≡ sync_failed self.old) }
    {
        self.site.sync()
    }

    ghost may_stay = { may_stay };

    ghost counts_now = { counts_now };

    ghost only_now = { only_now };
}

impl Site for QuietSite {
    ghost use Rattle.ct_site.specs.Memory.{memory_view, say_passes, say_failed, heard, after_say};

    /// Takes bytes of the script into the beginning of `into`: as many as there are and fit. It never fails.
    fn hear(&mut self, into: &mut [u8]) -> Result<usize, Failed>
        requires { 0 < length into.old }
        ensures bound { IfOk result (λ count. count ≤ length into.old) }
        ensures hears { Hears (took result into.new) (memory_view self.old) (memory_view self.new) }
        ensures end { result ≡ Ok 0 → IsNothing (memory_view self.new).beside.left }
        ensures ends { (memory_view self.new).beside.ends ≡ ends_after result (memory_view self.old).beside.ends }
        ensures cause { CountsFaults self.old.hear_faults self.new.hear_faults result }

        ensures succeeds { IsOk result }
        ensures count { IfOk result (λ count. count ≡ min (length into.old) (length self.old.left)) }
        ensures bytes { IfOk result (λ count. into.new ≡ take count self.old.left ++ drop count into.old) }
        ensures done { IfOk result (λ count. self.new ≡ heard self.old count) }
    {
        self.site.hear(into)
    }

    /// Says all the bytes.
    fn say(&mut self, bytes: &[u8]) -> Result<usize, Failed>
        requires { 0 < length bytes.now }
        ensures bound { IfOk result (λ count. count ≤ length bytes.now) }
        ensures some { IfOk result (λ count. 0 < count) }
        ensures says { Says (took result bytes.now) (memory_view self.old) (memory_view self.new) }
        ensures cause { CountsFaults self.old.say_faults self.new.say_faults result }

        ensures fails { IsErr result ↔ IsTrue (say_passes self.old (length bytes.now)) }
        ensures done { IfOk result (λ count. (count ≡ length bytes.now) × (self.new ≡ after_say self.old bytes.now)) }
        ensures failed { OnErr result (self.new ≡ say_failed self.old) }
    {
        self.site.say(bytes)
    }
}
