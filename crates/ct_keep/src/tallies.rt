//! The counts that every keeper keeps.

ghost use Rattle.std.specs.Prelude.{◌≡◌};
ghost use Rattle.std.specs.Option.{option_map};
ghost use Rattle.ct_keep.specs.Handed.{handed};
ghost use Rattle.ct_keep.specs.KeeperViews.{counted, fault_of, is_full, is_kind, is_either, looked_up, committed};

use crate::keepers::KeepFault;
use std::marker::Model;

/// The kinds of entries whose look-ups are counted: the first byte of their keys.
const TEXT: u8 = 0x03;

const TOKEN_ROW: u8 = 0x24;

const SECTION_ROW: u8 = 0x25;

const RULE: u8 = 0x2a;

/// How often entries of some kinds were asked for or handed out, how often a commit was refused for want of room, and how often
/// one was called. Each count stands still at its type's end.
#[derive(Debug, Drop)]
pub struct Tally {
    texts: u64,
    rows: u64,
    rules: u64,
    fulls: u64,
    commits: u64,
}

impl Model for Tally {
    ghost use Rattle.ct_keep.specs.KeeperViews.{Counts};

    ghost Value = { Counts };

    ghost view = { λ t. record { texts = t.texts; rows = t.rows; rules = t.rules; fulls = t.fulls; commits = t.commits } };
}

/// Whether the key is one of this kind.
fn is_kind(kind: u8, key: &[u8]) -> bool
    ensures { result ≡ is_kind kind key.now }
{
    match key {
        [] => false,
        [first, ..] => *first == kind,
    }
}

/// Whether an entry of this kind was asked for or handed out.
fn is_either(kind: u8, asked: &[u8], handed: Option<&[u8]>) -> bool
    ensures { result ≡ is_either kind asked.now (option_map (λ k. k.now) handed.entry) }
{
    match handed {
        Some(key) => is_kind(kind, asked) || is_kind(kind, key),
        None => is_kind(kind, asked),
    }
}

/// Whether a commit was refused for want of room.
fn is_full(done: &Result<(), KeepFault>) -> bool
    ensures { result ≡ is_full (fault_of done.now) }
{
    match done {
        Err(KeepFault::Full) => true,
        Err(KeepFault::Memory | KeepFault::Disk) | Ok(()) => false,
    }
}

/// One more, where it is counted.
fn counted(here: bool, count: u64) -> u64
    ensures { result ≡ counted here count }
{
    if here { count.saturating_add(1) } else { count }
}

impl Tally {
    /// Nothing was counted yet.
    pub fn new() -> Tally
        ensures { result ≡ record { texts = 0; rows = 0; rules = 0; fulls = 0; commits = 0 } }
    {
        Tally {
            texts: 0,
            rows: 0,
            rules: 0,
            fulls: 0,
            commits: 0,
        }
    }

    /// Counts a look-up that asked for a key, and handed out the entry of another, if it did.
    pub fn look_up(&mut self, asked: &[u8], handed: Option<&[u8]>)
        ensures { self.new ≡ looked_up asked.now (option_map (λ k. k.now) handed.entry) self.old }
    {
        let row = is_either(TOKEN_ROW, asked, handed) || is_either(SECTION_ROW, asked, handed);
        self.texts = counted(is_either(TEXT, asked, handed), self.texts);
        self.rows = counted(row, self.rows);
        self.rules = counted(is_either(RULE, asked, handed), self.rules);
    }

    /// Counts a look-up that asked for a key, and ended so.
    pub fn hand_out(&mut self, asked: &[u8], found: &Result<Option<(Vec<u8>, Vec<u8>)>, KeepFault>)
        ensures { self.new ≡ looked_up asked.now (handed found.now) self.old }
    {
        let handed = match found {
            Ok(Some((key, _))) => Some(key.as_slice()),
            Ok(None) | Err(_) => None,
        };
        self.look_up(asked, handed);
    }

    /// Counts a commit, which ended so.
    pub fn commit(&mut self, done: &Result<(), KeepFault>)
        ensures { self.new ≡ committed (fault_of done.now) self.old }
    {
        self.fulls = counted(is_full(done), self.fulls);
        self.commits = counted(true, self.commits);
    }
}
