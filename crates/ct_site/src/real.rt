//! A site over standard input, standard output and a file.

ghost use Rattle.std.specs.Prelude.{◌≡◌, ◌≤◌, ◌<◌, ◌+◌, ℕ, List, Some, Ok, IfOk, OnOk, IsNone, is_some, false, length, take, drop};
ghost use Rattle.ct_base.specs.Told.{took, IsNothing};
ghost use Rattle.ct_site.specs.FaultCounts.{CountsFaults, ends_after, raised};
ghost use Rattle.ct_site.specs.Disks.{IsSame, IsSync, Works, Hears, Says};
ghost use Rattle.ct_site.specs.Writing.{IsWrite};

use crate::counts::{count_end, count_fault, count_one};
use crate::outside::{Disk, Failed, LONGEST, Site};
use std::fs::{OpenFile, OpenOptions};
use std::io;
use std::io::{Read, Seek, SeekFrom, Write};
use std::marker::Model;
use std::rt::Files;

/// The trusted edge: standard input is the script, what is said goes to standard output, and the disk is the file at a path.
/// Nothing is known of their bytes. Each `Err` raises the count of its kind, up to 2^64 - 1; syncs are counted, and how often
/// the end of the script was told.
#[derive(Drop)]
pub struct RealSite<'a, R: Input + Print + Files> {
    rt: &'a R,
    path: Option<&'a str>,
    input: Option<R::Reader>,
    file: Option<R::File>,
    hear_faults: u64,
    say_faults: u64,
    disk_faults: u64,
    syncs: u64,
    ends: u64,
}

impl<'a, R: Input + Print + Files> Model for RealSite<'a, R> {
    ghost use Rattle.std.specs.Prelude.{is_some};
    ghost use Rattle.ct_site.specs.Real.{RealState};

    ghost Value = { RealState };

    ghost view = { λ s. record { has_path = is_some s.path; hear_faults = s.hear_faults; say_faults = s.say_faults; disk_faults = s.disk_faults; syncs = s.syncs; ends = s.ends } };
}

impl<'a, R: Input + Print + Files> RealSite<'a, R> {
    ghost use Rattle.ct_site.specs.Real.{unused};

    /// A site whose disk is the file at this path; without a path every call of the disk fails. Nothing is opened or read
    /// yet, and no memory is taken.
    pub fn new(rt: &'a R, path: Option<&'a str>) -> RealSite<'a, R>
        ensures { result ≡ unused (is_some path.entry) }
    {
        RealSite {
            rt,
            path,
            input: None,
            file: None,
            hear_faults: 0,
            say_faults: 0,
            disk_faults: 0,
            syncs: 0,
            ends: 0,
        }
    }
}

/// Opens the file at the path for reading and writing, and makes it where there is none.
fn open<R: Files>(rt: &R, path: &str) -> Option<R::File> {
    let mut options = OpenOptions::new();
    options.read(true).write(true).create(true);
    options.open(rt, path).ok()
}

/// The file at the path, which is opened where it isn't open yet.
fn opened<'f, R: Files>(
    rt: &R,
    path: Option<&str>,
    file: &'f mut Option<R::File>,
) -> Option<&'f mut R::File>
    ensures { is_some path.entry ≡ false → IsNone result }
{
    let path = path?;
    if file.is_none() {
        *file = open(rt, path);
    }
    file.as_mut()
}

fn read_from<F: Read + Seek>(file: &mut F, at: u64, into: &mut [u8]) -> io::Result<()> {
    file.seek(SeekFrom::Start(at))?;
    file.read_exact(into)
}

fn write_to<F: Write + Seek>(file: &mut F, at: u64, bytes: &[u8]) -> io::Result<()> {
    file.seek(SeekFrom::Start(at))?;
    file.write_all(bytes)
}

fn sync_all<F: Write + OpenFile>(file: &mut F) -> io::Result<()> {
    file.flush()?;
    file.sync_all()
}

impl<R: Input + Print + Files> Disk for RealSite<'_, R> {
    ghost use Rattle.ct_site.specs.Real.{real_view, UsesFile, may_stay};

    ghost disk = { real_view };

    /// How many bytes the file has.
    fn size(&mut self) -> Result<u64, Failed>
        ensures size { (image : List ℕ) → (real_view self.old).image ≡ Some image → IfOk result (λ n. n ≡ length image) }
        ensures same { IsSame (real_view self.old) (real_view self.new) }
        ensures works { Works (real_view self.old) (real_view self.new) result }
        ensures uses { UsesFile self.old self.new result }
    {
        if let Some(file) = opened(self.rt, self.path, &mut self.file)
            && let Ok(metadata) = file.metadata()
        {
            return Ok(metadata.len());
        }
        Err(count_fault(&mut self.disk_faults))
    }

    /// Reads as many bytes as `into` has, from the byte `at` on.
    fn read(&mut self, at: u64, into: &mut [u8]) -> Result<(), Failed>
        requires within { (image : List ℕ) → (real_view self.old).image ≡ Some image → at + length into.old ≤ length image }
        ensures bytes { (image : List ℕ) → (real_view self.old).image ≡ Some image → OnOk result (into.new ≡ take (length into.old) (drop at image)) }
        ensures same { IsSame (real_view self.old) (real_view self.new) }
        ensures works { Works (real_view self.old) (real_view self.new) result }
        ensures uses { UsesFile self.old self.new result }
    {
        if let Some(file) = opened(self.rt, self.path, &mut self.file)
            && read_from(file, at, into).is_ok()
        {
            return Ok(());
        }
        Err(count_fault(&mut self.disk_faults))
    }

    /// Writes the bytes at this place, and lengthens the file where they end past it.
    fn write_at(&mut self, at: u64, bytes: &[u8]) -> Result<(), Failed>
        requires within { (image : List ℕ) → (real_view self.old).image ≡ Some image → at ≤ length image }
        requires some { 0 < length bytes.now }
        ensures write { IsWrite at bytes.now (real_view self.old) (real_view self.new) result }
        ensures uses { UsesFile self.old self.new result }
    {
        if bytes.len() as u64 <= LONGEST.saturating_sub(at)
            && let Some(file) = opened(self.rt, self.path, &mut self.file)
            && write_to(file, at, bytes).is_ok()
        {
            return Ok(());
        }
        Err(count_fault(&mut self.disk_faults))
    }

    /// Makes what was written last. The entry of a new file in its folder isn't made last by it.
    fn sync(&mut self) -> Result<(), Failed>
        ensures sync { IsSync (real_view self.old) (real_view self.new) result }
        ensures uses { UsesFile (record self.old { syncs = raised self.old.syncs }) self.new result }
    {
        count_one(&mut self.syncs);
        if let Some(file) = opened(self.rt, self.path, &mut self.file)
            && sync_all(file).is_ok()
        {
            return Ok(());
        }
        Err(count_fault(&mut self.disk_faults))
    }

    ghost may_stay = { may_stay };

    ghost counts_now = { λ s t image said le now. now.0 };

    ghost only_now = { λ s image said now. absurd now };
}

impl<R: Input + Print + Files> Site for RealSite<'_, R> {
    ghost use Rattle.ct_site.specs.FaultCounts.{faults_after};
    ghost use Rattle.ct_site.specs.Real.{real_view};

    /// One read of standard input. A read that fails or is interrupted is a fault.
    fn hear(&mut self, into: &mut [u8]) -> Result<usize, Failed>
        requires { 0 < length into.old }
        ensures bound { IfOk result (λ count. count ≤ length into.old) }
        ensures hears { Hears (took result into.new) (real_view self.old) (real_view self.new) }
        ensures end { result ≡ Ok 0 → IsNothing (real_view self.new).beside.left }
        ensures ends { (real_view self.new).beside.ends ≡ ends_after result (real_view self.old).beside.ends }
        ensures cause { CountsFaults self.old.hear_faults self.new.hear_faults result }
        ensures faults_after { self.new ≡ record self.old { hear_faults = faults_after result self.old.hear_faults; ends = ends_after result self.old.ends } }
    {
        if self.input.is_none() {
            self.input = Some(self.rt.reader());
        }
        if let Some(input) = &mut self.input
            && let Ok(count) = input.read(into)
        {
            count_end(&mut self.ends, count);
            return Ok(count);
        }
        Err(count_fault(&mut self.hear_faults))
    }

    /// One write to standard output, which keeps no bytes back: what was said has left the program. A write that fails, is
    /// interrupted or takes nothing is a fault.
    fn say(&mut self, bytes: &[u8]) -> Result<usize, Failed>
        requires { 0 < length bytes.now }
        ensures bound { IfOk result (λ count. count ≤ length bytes.now) }
        ensures some { IfOk result (λ count. 0 < count) }
        ensures says { Says (took result bytes.now) (real_view self.old) (real_view self.new) }
        ensures cause { CountsFaults self.old.say_faults self.new.say_faults result }
        ensures faults_after { self.new ≡ record self.old { say_faults = faults_after result self.old.say_faults } }
    {
        match self.rt.write_some(bytes) {
            Ok(count) if count > 0 => Ok(count),
            _ => Err(count_fault(&mut self.say_faults)),
        }
    }
}
