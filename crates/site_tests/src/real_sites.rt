//! The real site over a runtime of the tests' own, whose devices do at each call as little as they may.

use ct_site::{Disk, RealSite, Site};
use std::alloc::Allocator;
use std::cell::Cell;
use std::fmt::Display;
use std::fs::{File, Metadata, OpenFile, OpenOptions};
use std::io::{BufRead, ErrorKind, Read, Seek, SeekFrom, Write};
use std::rt::Files;
use std::test::Fail;
use std::{env, fs, io, process};

/// What of a file fails each time.
#[derive(Clone, Copy, PartialEq, Eq)]
enum Failing {
    Nothing,
    Opening,
    Reading,
    Syncing,
}

/// How often something was called.
#[derive(Drop)]
struct Counts {
    readers: Cell<u64>,
    sayings: Cell<u64>,
    openings: Cell<u64>,
    syncs: Cell<u64>,
}

impl Counts {
    fn new() -> Counts {
        Counts {
            readers: Cell::new(0),
            sayings: Cell::new(0),
            openings: Cell::new(0),
            syncs: Cell::new(0),
        }
    }
}

fn count(calls: &Cell<u64>) {
    calls.set(calls.get().saturating_add(1));
}

/// Files of the host, each of whose writes takes one byte; a standard input that is read once, then ends, and then fails; and a
/// standard output that takes one byte, then none, and then fails.
#[derive(Drop)]
struct Outside<'a> {
    host: &'a HostRuntime,
    failing: Failing,
    counts: &'a Counts,
}

#[derive(Drop)]
struct ByteFile<'a> {
    file: File,
    failing: Failing,
    counts: &'a Counts,
}

impl Read for ByteFile<'_> {
    fn read(&mut self, buf: &mut [u8]) -> io::Result<usize> {
        match self.failing {
            Failing::Reading => Err(unsupported()),
            _ => self.file.read(buf),
        }
    }
}

impl Write for ByteFile<'_> {
    fn write(&mut self, buf: &[u8]) -> io::Result<usize> {
        let count = buf.len().min(1);
        self.file.write(&buf[..count])
    }

    fn flush(&mut self) -> io::Result<()> {
        self.file.flush()
    }
}

impl Seek for ByteFile<'_> {
    fn seek(&mut self, to: SeekFrom) -> io::Result<u64> {
        self.file.seek(to)
    }
}

impl OpenFile for ByteFile<'_> {
    fn metadata(&self) -> io::Result<Metadata> {
        self.file.metadata()
    }

    fn set_len(&self, size: u64) -> io::Result<()> {
        self.file.set_len(size)
    }

    fn sync_all(&self) -> io::Result<()> {
        count(&self.counts.syncs);
        match self.failing {
            Failing::Syncing => Err(unsupported()),
            _ => self.file.sync_all(),
        }
    }

    fn sync_data(&self) -> io::Result<()> {
        self.file.sync_data()
    }
}

impl<'a> Files for Outside<'a> {
    type File = ByteFile<'a>;

    type Dir = <HostRuntime as Files>::Dir;

    fn open_file(&self, how: &OpenOptions, path: &str) -> io::Result<ByteFile<'a>> {
        count(&self.counts.openings);
        if self.failing == Failing::Opening {
            return Err(unsupported());
        }
        let file = self.host.open_file(how, path)?;
        Ok(ByteFile {
            file,
            failing: self.failing,
            counts: self.counts,
        })
    }

    fn open_dir(&self, path: &str) -> io::Result<Self::Dir> {
        self.host.open_dir(path)
    }

    fn metadata(&self, path: &str) -> io::Result<Metadata> {
        Files::metadata(self.host, path)
    }

    fn symlink_metadata(&self, path: &str) -> io::Result<Metadata> {
        Files::symlink_metadata(self.host, path)
    }

    fn copy(&self, _from: &str, _to: &str) -> io::Result<u64> {
        Err(unsupported())
    }

    fn rename(&self, _from: &str, _to: &str) -> io::Result<()> {
        Err(unsupported())
    }

    fn remove_file(&self, _path: &str) -> io::Result<()> {
        Err(unsupported())
    }

    fn create_dir(&self, _path: &str) -> io::Result<()> {
        Err(unsupported())
    }

    fn remove_dir(&self, _path: &str) -> io::Result<()> {
        Err(unsupported())
    }

    fn remove_dir_all<B: Allocator>(&self, _alloc: B, _path: &str) -> io::Result<()> {
        Err(unsupported())
    }
}

fn unsupported() -> io::Error {
    io::Error::from(ErrorKind::Unsupported)
}

/// What is read of standard input: `first` at the first call, its end at the second, and then a fault.
#[derive(Drop)]
struct Once {
    first: &'static [u8],
    reads: u64,
}

impl Read for Once {
    fn read(&mut self, buf: &mut [u8]) -> io::Result<usize> {
        self.reads = self.reads.saturating_add(1);
        match self.reads {
            1 => {
                let count = self.first.len().min(buf.len());
                buf[..count].copy_from_slice(&self.first[..count]);
                Ok(count)
            }
            2 => Ok(0),
            _ => Err(unsupported()),
        }
    }
}

impl BufRead for Once {
    fn fill_buf(&mut self) -> io::Result<&[u8]> {
        Ok(b"")
    }

    fn consume(&mut self, _amount: usize) {}
}

impl Input for Outside<'_> {
    type Reader = Once;

    fn read_line<A: Allocator + Clone>(&self, _buf: &mut String<A>) -> io::Result<usize> {
        Err(unsupported())
    }

    fn lines<A: Allocator>(&self, alloc: A) -> io::Lines<Once, A> {
        self.reader().lines(alloc)
    }

    fn reader(&self) -> Once {
        count(&self.counts.readers);
        Once {
            first: b"abc",
            reads: 0,
        }
    }
}

impl Print for Outside<'_> {
    fn print<D: Display + Drop>(&self, _value: D) -> io::Result<()> {
        Err(unsupported())
    }

    fn println<D: Display + Drop>(&self, _value: D) -> io::Result<()> {
        Err(unsupported())
    }

    fn write_all(&self, _bytes: &[u8]) -> io::Result<()> {
        Err(unsupported())
    }

    fn write_some(&self, bytes: &[u8]) -> io::Result<usize> {
        count(&self.counts.sayings);
        match self.counts.sayings.get() {
            1 => Ok(bytes.len().min(1)),
            2 => Ok(0),
            _ => Err(unsupported()),
        }
    }
}

/// A path for a file of this process, in the folder of temporary files.
pub(crate) fn temp_path(rt: &HostRuntime, name: &str) -> Result<String, Fail> {
    let folder = env::temp_dir(rt)?;
    let id = process::id(rt.process());
    Ok(format!(in rt.alloc(); "{}/ct_site_{id}.{name}", folder.as_str())?)
}

/// What four hearings answer, a fault as None, and what the first one put into its buffer.
fn hearings(outside: &Outside<'_>) -> ([Option<usize>; 4], [u8; 4]) {
    let mut site = RealSite::new(outside, None);
    let mut into = [0u8; 4];
    let mut other = [0u8; 4];
    let first = site.hear(&mut into).ok();
    let second = site.hear(&mut other).ok();
    let third = site.hear(&mut other).ok();
    let fourth = site.hear(&mut other).ok();
    ([first, second, third, fourth], into)
}

/// The same, and how many readers of standard input were taken.
fn counted_hearings(host: &HostRuntime) -> ([Option<usize>; 4], [u8; 4], u64) {
    let counts = Counts::new();
    let outside = Outside {
        host,
        failing: Failing::Nothing,
        counts: &counts,
    };
    let (answers, into) = hearings(&outside);
    (answers, into, counts.readers.get())
}

/// The end is told by the read that finds it, and a read that fails is no end.
#[test]
fn each_hearing_is_one_read_of_the_one_reader(rt: HostRuntime) {
    assert_eq!(rt;
        counted_hearings(&rt),
        ([Some(3), Some(0), None, None], *b"abc\0", 1)
    );
}

/// What three sayings answer, a fault as None.
fn sayings(outside: &Outside<'_>) -> [Option<usize>; 3] {
    let mut site = RealSite::new(outside, None);
    let first = site.say(b"abc").ok();
    let second = site.say(b"bc").ok();
    let third = site.say(b"bc").ok();
    [first, second, third]
}

/// The same, and how often something was written to standard output.
fn counted_sayings(host: &HostRuntime) -> ([Option<usize>; 3], u64) {
    let counts = Counts::new();
    let outside = Outside {
        host,
        failing: Failing::Nothing,
        counts: &counts,
    };
    let answers = sayings(&outside);
    (answers, counts.sayings.get())
}

#[test]
fn a_sink_that_takes_nothing_is_a_fault(rt: HostRuntime) {
    assert_eq!(rt; counted_sayings(&rt), ([Some(1), None, None], 3));
}

/// Writes a file by one site, and then reads it by another; gives its size and the bytes.
fn twice(outside: &Outside<'_>, path: &str) -> (Option<u64>, [u8; 5]) {
    let mut site = RealSite::new(outside, Some(path));
    let _ = site.write_at(0, b"wxyz");
    let _ = site.write_at(3, b"12");
    let _ = site.sync();
    let mut again = RealSite::new(outside, Some(path));
    let mut bytes = [0u8; 5];
    let _ = again.read(0, &mut bytes);
    (again.size().ok(), bytes)
}

/// The same over files that never fail.
fn twice_over(host: &HostRuntime, path: &str) -> (Option<u64>, [u8; 5]) {
    let counts = Counts::new();
    let outside = Outside {
        host,
        failing: Failing::Nothing,
        counts: &counts,
    };
    twice(&outside, path)
}

#[test]
fn a_file_holds_all_of_each_write_when_it_is_opened_again(rt: HostRuntime) -> Result<(), Fail> {
    let path = temp_path(&rt, "bytes")?;
    let found = twice_over(&rt, path.as_str());
    let _ = fs::remove_file(&rt, path.as_str());
    assert_eq!(rt; found, (Some(5), *b"wxy12"));
    Ok(())
}

/// Whether a write, two syncs and a read of a file succeed.
fn file_calls(outside: &Outside<'_>, path: &str) -> [bool; 4] {
    let mut site = RealSite::new(outside, Some(path));
    let mut bytes = [0u8; 2];
    let is_written = site.write_at(0, b"wxyz").is_ok();
    let is_synced = site.sync().is_ok();
    let is_read = site.read(1, &mut bytes).is_ok();
    let is_synced_again = site.sync().is_ok();
    [is_written, is_synced, is_read, is_synced_again]
}

/// The same, and how often a file was opened and synced.
fn counted_calls(host: &HostRuntime, path: &str, failing: Failing) -> ([bool; 4], u64, u64) {
    let counts = Counts::new();
    let outside = Outside {
        host,
        failing,
        counts: &counts,
    };
    let answers = file_calls(&outside, path);
    (answers, counts.openings.get(), counts.syncs.get())
}

/// What fails, the answers of `file_calls`, and how often the file was opened, which is tried anew where it failed, and synced.
const FAILING: &[(Failing, [bool; 4], u64, u64)] = &[
    (Failing::Nothing, [true, true, true, true], 1, 2),
    (Failing::Opening, [false, false, false, false], 4, 0),
    (Failing::Reading, [true, true, false, true], 1, 2),
    (Failing::Syncing, [true, false, true, false], 1, 2),
];

#[test]
fn a_file_that_fails_is_a_fault_and_each_sync_reaches_it(rt: HostRuntime) -> Result<(), Fail> {
    let path = temp_path(&rt, "failing")?;
    for (failing, answers, openings, syncs) in FAILING {
        let found = counted_calls(&rt, path.as_str(), *failing);
        let _ = fs::remove_file(&rt, path.as_str());
        assert_eq!(rt; found, (*answers, *openings, *syncs));
    }
    Ok(())
}
