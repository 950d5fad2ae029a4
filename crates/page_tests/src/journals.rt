//! A store in memory: stopped at each call, on a disk of which each call fails in turn, and loaded from damaged images.

ghost use Rattle.std.specs.Prelude.{◌≤◌, ℕ, IfOk};
ghost use Rattle.pg_journal.specs.Standing.{MayCommit};

use ct_base::{Memory, Numbers};
use ct_site::{Disk, Faults, MemSite, Pick, Rooms};
use pg_journal::{Journal, PageBatch};
use pg_map::root_bytes;
use std::alloc::Global;
use std::test::Fail;

const ROOMS: Rooms = Rooms {
    image: 100000,
    said: 0,
    calls: 100,
    written: 200000,
};

const PICKS: [Pick; 4] = [Pick::Old, Pick::New, Pick::Zeros, Pick::Ones];

fn stopped(alloc: Global, image: &[u8], stop: Option<u64>) -> Result<MemSite, Memory> {
    let mut faults = Faults::none(alloc);
    faults.stop = stop;
    let count = image.len().min(ROOMS.image);
    let image = Vec::from_slice(alloc, &image[..count])?;
    MemSite::new(alloc, Vec::new(alloc), image, faults, ROOMS)
}

/// A batch that makes four homes of three; the page behind the old ones is full of sevens.
fn grown(alloc: Global) -> Result<PageBatch, Memory>
    ensures { IfOk result (λ batch. (homes : ℕ) → 3 ≤ homes → MayCommit homes batch.pages) }
{
    let mut batch = PageBatch::new(alloc, 2)?;
    batch.put(3, &[7; 4096]);
    batch.put(2, &root_bytes(4));
    Ok(batch)
}

/// Whether the batch was committed to the store that is there.
fn is_committed(alloc: Global, site: &mut MemSite, batch: &PageBatch) -> bool
    requires { (homes : ℕ) → 3 ≤ homes → MayCommit homes batch.now.pages }
{
    match Journal::load(alloc, site) {
        Ok(mut journal) => {
            let _homes = journal.homes();
            journal.commit(site, batch).is_ok()
        }
        Err(_) => false,
    }
}

/// How many homes a store has, 3 or 4; 1 where it has four and page 3 isn't whole.
fn homes_of(image: &[u8]) -> u8 {
    let Some(homes) = image.get(8199) else {
        return 0;
    };
    if *homes == 4 && image.get(12288..16384) != Some(&[7; 4096][..]) {
        return 1;
    }
    *homes
}

/// What a stop at this call and a crash leave.
fn left(alloc: Global, stop: u64, pick: Pick) -> Result<Vec<u8>, Memory> {
    let batch = grown(alloc)?;
    let mut site = stopped(alloc, b"", Some(stop))?;
    let _ = is_committed(alloc, &mut site, &batch);
    site.crash(alloc, pick)
}

/// How many homes a store has that is loaded; 0 where it is none.
fn loaded_homes(alloc: Global, site: &mut MemSite) -> u8 {
    match Journal::load(alloc, site) {
        Ok(_) => homes_of(site.image()),
        Err(_) => 0,
    }
}

/// What is loaded after a stop at this call and a crash; 0 where it is no store.
fn outcome(alloc: Global, stop: u64, pick: Pick) -> Result<u8, Memory> {
    let left = left(alloc, stop, pick)?;
    let mut site = stopped(alloc, &left, None)?;
    Ok(loaded_homes(alloc, &mut site))
}

/// How often the old pages are loaded, how often the new ones, and how often something else, over all stops and picks.
fn outcomes(alloc: Global) -> Result<[u64; 3], Memory> {
    let mut old = 0u64;
    let mut new = 0u64;
    let mut others = 0u64;
    for stop in 0..30 {
        for pick in PICKS {
            match outcome(alloc, stop, pick)? {
                3 => old = old.saturating_add(1),
                4 => new = new.saturating_add(1),
                _ => others = others.saturating_add(1),
            }
        }
    }
    Ok([old, new, others])
}

#[test]
fn a_stop_leaves_the_old_pages_or_the_new_ones(rt: HostRuntime) -> Result<(), Fail> {
    let [old, new, others] = outcomes(rt.alloc())?;
    assert!(rt; old > 0 && new > 0 && others == 0, "{old} {new} {others}");
    Ok(())
}

/// An empty disk of which this call fails.
fn failing(alloc: Global, call: u64) -> Result<MemSite, Memory> {
    let mut faults = Faults::none(alloc);
    faults.disk = Numbers::of(Vec::from_slice(alloc, &[call])?);
    MemSite::new(alloc, Vec::new(alloc), Vec::new(alloc), faults, ROOMS)
}

/// Whether a load from an empty image or a commit fails where this call of the disk fails, and the store stands after another
/// load.
fn is_mended(alloc: Global, call: u64) -> Result<bool, Memory> {
    let batch = grown(alloc)?;
    let mut site = failing(alloc, call)?;
    let is_committed = is_committed(alloc, &mut site, &batch);
    Ok(!is_committed && loaded_homes(alloc, &mut site) >= 3)
}

/// The first call whose failing isn't told, or leaves no store.
fn unmended(alloc: Global) -> Result<Option<u64>, Memory> {
    for call in 1..30 {
        if !is_mended(alloc, call)? {
            return Ok(Some(call));
        }
    }
    Ok(None)
}

/// A load of an empty image and a commit of two pages call the disk twenty-one times.
#[test]
fn each_call_that_fails_is_told(rt: HostRuntime) -> Result<(), Fail> {
    assert_eq!(rt; unmended(rt.alloc())?, Some(22));
    Ok(())
}

/// A new store of which a byte is another, with so many home pages in its root, without its last bytes, or with some behind it.
struct Damaged {
    at: usize,
    byte: u8,
    homes: u8,
    cut: usize,
    more: usize,
    fill: u8,
    /// Whether it is loaded, and whether the image is then as before.
    is_store: bool,
    stays: bool,
}

const STORE: Damaged = Damaged {
    at: 0,
    byte: 1,
    homes: 3,
    cut: 0,
    more: 0,
    fill: 0,
    is_store: true,
    stays: true,
};

const NONE: Damaged = Damaged {
    is_store: false,
    ..STORE
};

const IMAGES: &[Damaged] = &[
    STORE,
    Damaged { cut: 1, ..NONE },
    Damaged {
        byte: 0,
        stays: false,
        ..STORE
    },
    Damaged { byte: 2, ..STORE },
    Damaged {
        at: 8,
        byte: b'X',
        ..NONE
    },
    Damaged {
        at: 4096,
        byte: 1,
        ..NONE
    },
    Damaged {
        at: 4096,
        byte: 2,
        ..STORE
    },
    Damaged {
        at: 8192,
        byte: 5,
        ..NONE
    },
    Damaged { homes: 4, ..NONE },
    Damaged {
        more: 4096,
        fill: 0xff,
        ..STORE
    },
    Damaged {
        homes: 4,
        more: 4096,
        fill: 0xff,
        ..STORE
    },
    Damaged {
        homes: 4,
        more: 4096,
        ..STORE
    },
    Damaged {
        homes: 4,
        more: 4095,
        ..NONE
    },
    Damaged { homes: 2, ..NONE },
    Damaged {
        at: 4095,
        byte: 1,
        ..NONE
    },
    Damaged {
        at: 8193,
        byte: 1,
        ..NONE
    },
    Damaged {
        at: 12287,
        byte: 1,
        ..NONE
    },
];

fn image_of(alloc: Global, damaged: &Damaged) -> Result<Vec<u8>, Memory> {
    let mut image = Vec::new(alloc);
    image.resize(12288, 0)?;
    image[0] = 1;
    image[1..9].copy_from_slice(b"CTXSTORE");
    image[8192] = 4;
    image[8199] = damaged.homes;
    if let Some(byte) = image.get_mut(damaged.at) {
        *byte = damaged.byte;
    }
    image.resize(12288 + damaged.more.min(4096), damaged.fill)?;
    image.truncate(image.len() - damaged.cut.min(1));
    Ok(image)
}

/// Whether an image is a store, and whether it is as before once it was loaded.
fn is_loaded(alloc: Global, image: &[u8]) -> Result<(bool, bool), Memory> {
    let mut site = stopped(alloc, image, None)?;
    let is_store = Journal::load(alloc, &mut site).is_ok();
    Ok((is_store, site.image() == image))
}

fn is_damaged_loaded(alloc: Global, damaged: &Damaged) -> Result<(bool, bool), Memory> {
    let image = image_of(alloc, damaged)?;
    is_loaded(alloc, &image)
}

#[test]
fn damaged_images_are_no_store(rt: HostRuntime) -> Result<(), Fail> {
    for damaged in IMAGES {
        assert!(rt; is_damaged_loaded(rt.alloc(), damaged)? == (damaged.is_store, damaged.stays));
    }
    Ok(())
}

/// Images that are no damaged stores, whether they are loaded, and whether they are as before then.
const OTHERS: &[(&[u8], bool, bool)] = &[(b"hello world\n", false, true), (b"\x07", true, false)];

#[test]
fn other_images(rt: HostRuntime) -> Result<(), Fail> {
    for (image, is_store, stays) in OTHERS {
        assert!(rt; is_loaded(rt.alloc(), image)? == (*is_store, *stays));
    }
    Ok(())
}

/// Which of the pages 3, 4, 5 and 7 a batch of three pages has.
fn pages_put(alloc: Global) -> Result<[bool; 4], Memory> {
    let mut batch = PageBatch::new(alloc, 3)?;
    batch.put(7, &[7; 4096]);
    batch.put(3, &[3; 4096]);
    batch.put(5, &[5; 4096]);
    Ok([batch.has(3), batch.has(4), batch.has(5), batch.has(7)])
}

#[test]
fn a_batch_has_the_pages_that_were_put(rt: HostRuntime) -> Result<(), Fail> {
    assert!(rt; pages_put(rt.alloc())? == [true, false, true, true]);
    Ok(())
}

/// Whether a batch is empty before a page is put, and then.
fn are_empty(alloc: Global) -> Result<[bool; 2], Memory> {
    let mut batch = PageBatch::new(alloc, 1)?;
    let before = batch.is_empty();
    batch.put(7, &[7; 4096]);
    Ok([before, batch.is_empty()])
}

#[test]
fn a_batch_is_empty_until_a_page_is_put(rt: HostRuntime) -> Result<(), Fail> {
    assert!(rt; are_empty(rt.alloc())? == [true, false]);
    Ok(())
}
