//! A site in memory, whose calls fail where they are listed to, and all of them after a stop.

ghost use Rattle.std.specs.Prelude.{◌≡◌, ◌≤◌, ◌<◌, ◌+◌, ◌++◌, ◌↔◌, ℕ, List, Option, Some, Ok, IfOk, OnOk, OnErr, IsErr, IsTrue, length, take, drop, min, not, vec_len};
ghost use Rattle.std.specs.Vec.{vec_capacity};
ghost use Rattle.ct_base.specs.Told.{took, IsNothing};
ghost use Rattle.ct_site.specs.FaultCounts.{CountsFaults, ends_after};
ghost use Rattle.ct_site.specs.Images.{written};
ghost use Rattle.ct_site.specs.Disks.{IsSame, IsSync, Works, Hears, Says};
ghost use Rattle.ct_site.specs.Writing.{IsWrite};

use crate::counts::{count_call, count_end, count_fault, count_one, count_stop};
use crate::fault_lists::Faults;
use crate::logs::Log;
use crate::outside::{Disk, Failed, LONGEST, Site};
use crate::picks::Pick;
use crate::places::{Place, keep_place, places_for};
use crate::room_sizes::Rooms;
use ct_base::Memory;
use std::alloc::Global;
use std::marker::Model;

/// A site in memory. Its calls take no memory, and fail exactly where their number is listed, or the last call before the
/// stop was made, or they would pass a room, or a write would end past 2^43 bytes. Where a call fails nothing changes but the
/// counts of calls and of faults.
#[derive(Debug, Drop)]
pub struct MemSite {
    script: Vec<u8>,
    taken: usize,
    first: Vec<u8>,
    image: Vec<u8>,
    log: Log,
    /// The calls of `hear` before the last byte was heard or said, and whether there was one since.
    hearings: Vec<Place>,
    has_asked: bool,
    faults: Faults,
    calls: u64,
    hear_calls: u64,
    say_calls: u64,
    disk_calls: u64,
    hear_faults: u64,
    say_faults: u64,
    disk_faults: u64,
    syncs: u64,
    ends: u64,
}

impl Model for MemSite {
    ghost use Rattle.ct_site.specs.Memory.{MemState};

    ghost Value = { MemState };

    ghost use Rattle.ct_site.specs.MemoryFields.{state_of, IsKept};

    ghost view = { state_of };

    ghost invariant = { IsKept };
}

impl MemSite {
    ghost use Rattle.ct_site.specs.Memory.{fresh, image_of, said_of, memory_view, change_passes, say_passes, write_passes, hear_fails, say_faulty, look_fails, hear_counted, say_counted, disk_counted, sync_counted};
    ghost use Rattle.ct_site.specs.Crashes.{crashed};

    /// A site with this script and this image, on which no call was made. It takes all the memory that its rooms need, that of
    /// the image once more, and for the calls of `hear` 16 bytes for each byte of the script and each call that there is room for.
    pub fn new(
        alloc: Global,
        script: Vec<u8>,
        image: Vec<u8>,
        faults: Faults,
        rooms: Rooms,
    ) -> Result<MemSite, Memory>
        requires { vec_len image ≤ rooms.image }
        ensures { IfOk result (λ site. site ≡ fresh script.items image.items faults rooms) }
    {
        let first = Vec::from_slice(alloc, &image)?;
        let mut image = image;
        image.reserve_exact(rooms.image - image.len())?;
        let hearings = places_for(alloc, script.len(), rooms.calls)?;
        Ok(MemSite {
            script,
            taken: 0,
            first,
            image,
            log: Log::new(alloc, rooms)?,
            hearings,
            has_asked: false,
            faults,
            calls: 0,
            hear_calls: 0,
            say_calls: 0,
            disk_calls: 0,
            hear_faults: 0,
            say_faults: 0,
            disk_faults: 0,
            syncs: 0,
            ends: 0,
        })
    }

    /// The bytes said so far.
    pub fn said(&self) -> &[u8]
        ensures { result.now ≡ said_of self.now }
    {
        self.log.said()
    }

    /// The image as a read gives it.
    pub fn image(&self) -> &[u8]
        ensures { result.now ≡ image_of self.now }
    {
        self.image.as_slice()
    }

    /// The image that a crash leaves now, where these stand in place of the bytes that aren't synced. It takes memory for
    /// two images.
    pub fn crash(self, alloc: Global, pick: Pick) -> Result<Vec<u8>, Memory>
        ensures left { IfOk result (λ image. image.items ≡ crashed pick self.first self.log) }
        ensures may { IfOk result (λ image. (memory_view self).may_leave image.items) }
    {
        self.log.crash(alloc, &self.first, pick)
    }

    /// Counts a hearing, and tells whether it fails.
    fn count_hear(&mut self) -> bool
        ensures counted { self.new ≡ hear_counted self.old }
        ensures fails { result ≡ hear_fails self.old }
    {
        let is_past = count_stop(&mut self.calls, self.faults.stop);
        let is_listed = count_call(&mut self.hear_calls, &self.faults.hear);
        is_past || is_listed
    }

    /// Counts a saying, and tells whether it fails, however many bytes it has.
    fn count_say(&mut self) -> bool
        ensures counted { self.new ≡ say_counted self.old }
        ensures fails { result ≡ say_faulty self.old }
    {
        let is_past = count_stop(&mut self.calls, self.faults.stop);
        let is_listed = count_call(&mut self.say_calls, &self.faults.say);
        is_past || is_listed
    }

    /// Counts a call of the disk, and tells whether it fails, whatever it is.
    fn count_disk(&mut self) -> bool
        ensures counted { self.new ≡ disk_counted self.old }
        ensures fails { result ≡ look_fails self.old }
    {
        let is_past = count_stop(&mut self.calls, self.faults.stop);
        let is_listed = count_call(&mut self.disk_calls, &self.faults.disk);
        is_past || is_listed
    }

    /// Counts a sync, and tells whether it fails, whatever is to be synced.
    fn count_sync(&mut self) -> bool
        ensures counted { self.new ≡ sync_counted self.old }
        ensures fails { result ≡ look_fails self.old }
    {
        count_one(&mut self.syncs);
        self.count_disk()
    }

    /// Whether saying so many bytes passes no room.
    fn may_say(&self, count: usize) -> bool
        ensures { result ≡ not (say_passes self.now count) }
    {
        self.log.may_change() && self.log.may_say(count)
    }

    /// Whether writing so many bytes at this place passes no room, and ends at 2^43 bytes at most.
    fn may_write(&self, at: u64, count: usize) -> bool
        requires { at ≤ length (image_of self.now) }
        ensures { result ≡ not (write_passes self.now at count) }
    {
        self.log.may_change()
            && self.log.may_write(count)
            && count <= self.log.rooms().image - at as usize
            && at + count as u64 <= LONGEST
    }
}

/// Puts bytes at this place, and lengthens the image where they end past it, in memory that is there.
fn overwrite(image: &mut Vec<u8>, at: usize, bytes: &[u8])
    requires within { at ≤ vec_len image.old }
    requires room { at + length bytes.now ≤ vec_capacity image.old }
    ensures items { image.new.items ≡ written at bytes.now image.old.items }
    ensures capacity { vec_capacity image.old ≤ vec_capacity image.new }
{
    if bytes.len() <= image.len() - at {
        image[at..at + bytes.len()].copy_from_slice(bytes);
    } else {
        image.truncate(at);
        let _ = image.extend_from_slice(bytes);
    }
}

impl Disk for MemSite {
    ghost use Rattle.ct_site.specs.Memory.{image_of, memory_view, look_fails, write_fails, sync_fails, disk_failed, sync_failed, looked, wrote, after_sync};
    ghost use Rattle.ct_site.specs.Changing.{may_stay, counts_now, only_now};

    ghost disk = { memory_view };

    /// How many bytes the image has.
    fn size(&mut self) -> Result<u64, Failed>
        ensures size { (image : List ℕ) → (memory_view self.old).image ≡ Some image → IfOk result (λ n. n ≡ length image) }
        ensures same { IsSame (memory_view self.old) (memory_view self.new) }
        ensures works { Works (memory_view self.old) (memory_view self.new) result }

        ensures fails { IsErr result ↔ IsTrue (look_fails self.old) }
        ensures done { IfOk result (λ n. (n ≡ length (image_of self.old)) × (self.new ≡ looked self.old)) }
        ensures failed { OnErr result (self.new ≡ disk_failed self.old) }
    {
        if self.count_disk() {
            return Err(count_fault(&mut self.disk_faults));
        }
        Ok(self.image.len() as u64)
    }

    /// Reads as many bytes as `into` has, from the byte `at` on. Where it fails, `into` is as before.
    fn read(&mut self, at: u64, into: &mut [u8]) -> Result<(), Failed>
        requires within { (image : List ℕ) → (memory_view self.old).image ≡ Some image → at + length into.old ≤ length image }
        ensures bytes { (image : List ℕ) → (memory_view self.old).image ≡ Some image → OnOk result (into.new ≡ take (length into.old) (drop at image)) }
        ensures same { IsSame (memory_view self.old) (memory_view self.new) }
        ensures works { Works (memory_view self.old) (memory_view self.new) result }

        ensures fails { IsErr result ↔ IsTrue (look_fails self.old) }
        ensures done { OnOk result (self.new ≡ looked self.old) }
        ensures failed { OnErr result ((self.new ≡ disk_failed self.old) × (into.new ≡ into.old)) }
    {
        if self.count_disk() {
            return Err(count_fault(&mut self.disk_faults));
        }
        let at = at as usize;
        into.copy_from_slice(&self.image[at..at + into.len()]);
        Ok(())
    }

    /// Writes the bytes at this place, and lengthens the image where they end past it.
    fn write_at(&mut self, at: u64, bytes: &[u8]) -> Result<(), Failed>
        requires within { (image : List ℕ) → (memory_view self.old).image ≡ Some image → at ≤ length image }
        requires some { 0 < length bytes.now }
        ensures write { IsWrite at bytes.now (memory_view self.old) (memory_view self.new) result }

        ensures fails { IsErr result ↔ IsTrue (write_fails self.old at (length bytes.now)) }
        ensures done { OnOk result (self.new ≡ wrote self.old at bytes.now) }
        ensures failed { OnErr result (self.new ≡ disk_failed self.old) }
    {
        if self.count_disk() || !self.may_write(at, bytes.len()) {
            return Err(count_fault(&mut self.disk_faults));
        }
        overwrite(&mut self.image, at as usize, bytes);
        self.log.write(at, bytes);
        Ok(())
    }

    /// Makes what was written last.
    fn sync(&mut self) -> Result<(), Failed>
        ensures sync { IsSync (memory_view self.old) (memory_view self.new) result }

        ensures fails { IsErr result ↔ IsTrue (sync_fails self.old) }
        ensures done { OnOk result (self.new ≡ after_sync self.old) }
        ensures failed { OnErr result (self.new ≡ sync_failed self.old) }
    {
        if self.count_sync() || !self.log.may_change() {
            return Err(count_fault(&mut self.disk_faults));
        }
        self.log.sync();
        Ok(())
    }

    ghost may_stay = { may_stay };

    ghost counts_now = { counts_now };

    ghost only_now = { only_now };
}

impl Site for MemSite {
    ghost use Rattle.ct_site.specs.Memory.{memory_view, hear_fails, say_fails, hear_failed, say_failed, heard, after_say};

    /// Takes bytes of the script into the beginning of `into`: as many as there are and fit.
    fn hear(&mut self, into: &mut [u8]) -> Result<usize, Failed>
        requires { 0 < length into.old }
        ensures bound { IfOk result (λ count. count ≤ length into.old) }
        ensures hears { Hears (took result into.new) (memory_view self.old) (memory_view self.new) }
        ensures end { result ≡ Ok 0 → IsNothing (memory_view self.new).beside.left }
        ensures ends { (memory_view self.new).beside.ends ≡ ends_after result (memory_view self.old).beside.ends }
        ensures cause { CountsFaults self.old.hear_faults self.new.hear_faults result }

        ensures fails { IsErr result ↔ IsTrue (hear_fails self.old) }
        ensures count { IfOk result (λ count. count ≡ min (length into.old) (length self.old.left)) }
        ensures bytes { IfOk result (λ count. into.new ≡ take count self.old.left ++ drop count into.old) }
        ensures done { IfOk result (λ count. self.new ≡ heard self.old count) }
        ensures failed { OnErr result ((self.new ≡ hear_failed self.old) × (into.new ≡ into.old)) }
    {
        if self.count_hear() {
            self.has_asked = true;
            return Err(count_fault(&mut self.hear_faults));
        }
        let count = into.len().min(self.script.len() - self.taken);
        into[..count].copy_from_slice(&self.script[self.taken..self.taken + count]);
        let here = Place {
            taken: self.taken,
            said: self.log.said_count(),
        };
        keep_place(&mut self.hearings, count > 0, here);
        count_end(&mut self.ends, count);
        self.has_asked = count == 0;
        self.taken += count;
        Ok(count)
    }

    /// Says all the bytes.
    fn say(&mut self, bytes: &[u8]) -> Result<usize, Failed>
        requires { 0 < length bytes.now }
        ensures bound { IfOk result (λ count. count ≤ length bytes.now) }
        ensures some { IfOk result (λ count. 0 < count) }
        ensures says { Says (took result bytes.now) (memory_view self.old) (memory_view self.new) }
        ensures cause { CountsFaults self.old.say_faults self.new.say_faults result }

        ensures fails { IsErr result ↔ IsTrue (say_fails self.old (length bytes.now)) }
        ensures done { IfOk result (λ count. (count ≡ length bytes.now) × (self.new ≡ after_say self.old bytes.now)) }
        ensures failed { OnErr result (self.new ≡ say_failed self.old) }
    {
        if self.count_say() || !self.may_say(bytes.len()) {
            return Err(count_fault(&mut self.say_faults));
        }
        let here = Place {
            taken: self.taken,
            said: self.log.said_count(),
        };
        keep_place(&mut self.hearings, self.has_asked, here);
        self.has_asked = false;
        self.log.say(bytes);
        Ok(bytes.len())
    }
}
