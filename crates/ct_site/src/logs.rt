//! What a site in memory did.

ghost use Rattle.std.specs.Prelude.{◌≡◌, ◌≤◌, ◌+◌, ◌++◌, ◌∷◌, [], IfOk, OnOk, length, replicate, not, nat_lt, vec_len};
ghost use Rattle.std.specs.Vec.{vec_capacity};
ghost use Rattle.ct_site.specs.Images.{written};
ghost use Rattle.ct_site.specs.Histories.{Wrote, Synced, Said, said_by};
ghost use Rattle.ct_site.specs.Logs.{all_said, all_written, changes_of};
ghost use Rattle.ct_site.specs.Crashes.{crashed, left_with};

use crate::picks::Pick;
use crate::room_sizes::Rooms;
use ct_base::Memory;
use std::alloc::Global;
use std::marker::Model;

/// A call that changed something. Its bytes are the next ones of those written, or of those said.
#[derive(Clone, Copy, Debug)]
pub(crate) enum Entry {
    Write { at: u64, count: usize },
    Sync,
    Say { count: usize },
}

/// The calls that changed something, in order, with their bytes, in memory that is there from the beginning.
#[derive(Debug, Drop)]
pub(crate) struct Log {
    entries: Vec<Entry>,
    written: Vec<u8>,
    said: Vec<u8>,
    rooms: Rooms,
}

impl Model for Log {
    ghost use Rattle.ct_site.specs.Logs.{LogState, log_of, IsLog};

    ghost Value = { LogState };

    ghost view = { log_of };

    ghost invariant = { IsLog };
}

/// Puts bytes at the end, in memory that is there.
fn append(list: &mut Vec<u8>, bytes: &[u8])
    requires { vec_len list.old + length bytes.now ≤ vec_capacity list.old }
    ensures items { list.new.items ≡ list.old.items ++ bytes.now }
    ensures capacity { vec_capacity list.old ≤ vec_capacity list.new }
{
    let _ = list.extend_from_slice(bytes);
}

/// Puts bytes at this place of an image, or at its end where the place lies past it.
fn put_at(image: &mut Vec<u8>, at: u64, bytes: &[u8]) -> Result<(), Memory>
    ensures { OnOk result (image.new.items ≡ written at bytes.now image.old.items) }
{
    let at = (at as usize).min(image.len());
    if bytes.len() <= image.len() - at {
        image[at..at + bytes.len()].copy_from_slice(bytes);
    } else {
        image.truncate(at);
        image.extend_from_slice(bytes)?;
    }
    Ok(())
}

/// So many times the byte.
fn filled(alloc: Global, byte: u8, count: usize) -> Result<Vec<u8>, Memory>
    ensures { IfOk result (λ bytes. bytes.items ≡ replicate count byte) }
{
    Ok(Vec::from_elem(alloc, byte, count)?)
}

/// Puts what a pick leaves in place of bytes that were written at this place.
fn leave_at(
    alloc: Global,
    left: &mut Vec<u8>,
    at: u64,
    bytes: &[u8],
    pick: Pick,
) -> Result<(), Memory>
    ensures { OnOk result (left.new.items ≡ left_with pick left.old.items at bytes.now) }
{
    match pick {
        Pick::Old => Ok(()),
        Pick::New => put_at(left, at, bytes),
        Pick::Zeros => put_at(left, at, &filled(alloc, 0, bytes.len())?),
        Pick::Ones => put_at(left, at, &filled(alloc, 255, bytes.len())?),
    }
}

/// What a crash leaves of a first image, by a pick, after the calls of these entries, with the bytes written and said in them.
fn crash_after(
    alloc: Global,
    first: &[u8],
    entries: &[Entry],
    written: &[u8],
    said: &[u8],
    pick: Pick,
) -> Result<Vec<u8>, Memory>
    requires written { all_written entries.now ≡ length written.now }
    requires said { all_said entries.now ≡ length said.now }
    ensures { IfOk result (λ left. left.items ≡ crashed pick first.now (changes_of entries.now written.now said.now)) }
{
    let mut image = Vec::from_slice(alloc, first)?;
    let mut left = Vec::from_slice(alloc, first)?;
    let mut written = written;
    let mut said = said;
    let mut rest = entries;
    while let [entry, others @ ..] = rest {
        match *entry {
            Entry::Write { at, count } => {
                let (bytes, more) = written.split_at(count);
                leave_at(alloc, &mut left, at, bytes, pick)?;
                put_at(&mut image, at, bytes)?;
                written = more;
            }
            Entry::Sync => left = Vec::from_slice(alloc, &image)?,
            Entry::Say { count } => said = &said[count..],
        }
        rest = others;
    }
    Ok(left)
}

impl Log {
    /// No calls yet. It takes all the memory that the rooms need.
    pub(crate) fn new(alloc: Global, rooms: Rooms) -> Result<Log, Memory>
        ensures { IfOk result (λ log. log ≡ record { changes = []; rooms = rooms; written_bytes = 0 }) }
    {
        Ok(Log {
            entries: Vec::with_capacity(alloc, rooms.calls)?,
            written: Vec::with_capacity(alloc, rooms.written)?,
            said: Vec::with_capacity(alloc, rooms.said)?,
            rooms,
        })
    }

    /// How much the site can hold.
    pub(crate) fn rooms(&self) -> Rooms
        ensures { result ≡ self.now.rooms }
    {
        self.rooms
    }

    /// The bytes said so far.
    pub(crate) fn said(&self) -> &[u8]
        ensures { result.now ≡ said_by self.now.changes }
    {
        self.said.as_slice()
    }

    /// How many bytes were said so far. The calls that are noted pass no room.
    pub(crate) fn said_count(&self) -> usize
        ensures count { result ≡ length (said_by self.now.changes) }
        ensures room { length self.now.changes ≤ self.now.rooms.calls }
    {
        self.said.len()
    }

    /// Whether one more change passes no room.
    pub(crate) fn may_change(&self) -> bool
        ensures { result ≡ not (nat_lt self.now.rooms.calls (length self.now.changes + 1)) }
    {
        self.entries.len() < self.rooms.calls
    }

    /// Whether saying so many bytes passes no room for bytes said.
    pub(crate) fn may_say(&self, count: usize) -> bool
        ensures { result ≡ not (nat_lt self.now.rooms.said (length (said_by self.now.changes) + count)) }
    {
        count <= self.rooms.said - self.said.len()
    }

    /// Whether writing so many bytes passes no room for bytes written.
    pub(crate) fn may_write(&self, count: usize) -> bool
        ensures { result ≡ not (nat_lt self.now.rooms.written (self.now.written_bytes + count)) }
    {
        count <= self.rooms.written - self.written.len()
    }

    /// Notes a write.
    pub(crate) fn write(&mut self, at: u64, bytes: &[u8])
        requires calls { length self.old.changes + 1 ≤ self.old.rooms.calls }
        requires written { self.old.written_bytes + length bytes.now ≤ self.old.rooms.written }
        ensures { self.new ≡ record self.old { changes = self.old.changes ++ Wrote at bytes.now ∷ []; written_bytes = self.old.written_bytes + length bytes.now } }
    {
        append(&mut self.written, bytes);
        self.entries.push_reserved(Entry::Write {
            at,
            count: bytes.len(),
        });
    }

    /// Notes a sync.
    pub(crate) fn sync(&mut self)
        requires { length self.old.changes + 1 ≤ self.old.rooms.calls }
        ensures { self.new ≡ record self.old { changes = self.old.changes ++ Synced ∷ [] } }
    {
        self.entries.push_reserved(Entry::Sync);
    }

    /// Notes what was said.
    pub(crate) fn say(&mut self, bytes: &[u8])
        requires calls { length self.old.changes + 1 ≤ self.old.rooms.calls }
        requires said { length (said_by self.old.changes) + length bytes.now ≤ self.old.rooms.said }
        ensures { self.new ≡ record self.old { changes = self.old.changes ++ Said bytes.now ∷ [] } }
    {
        append(&mut self.said, bytes);
        self.entries
            .push_reserved(Entry::Say { count: bytes.len() });
    }

    /// What a crash leaves of a first image after these calls, by a pick.
    pub(crate) fn crash(&self, alloc: Global, first: &[u8], pick: Pick) -> Result<Vec<u8>, Memory>
        ensures { IfOk result (λ left. left.items ≡ crashed pick first.now self.now.changes) }
    {
        let entries = self.entries.as_slice();
        crash_after(alloc, first, entries, &self.written, &self.said, pick)
    }
}
