//! Cutting a script that comes byte by byte.

ghost use Rattle.std.specs.Prelude.{◌≡◌, true, None, ◌<◌, ◌≤◌, ◌+◌, ◌++◌, ◌∷◌, [], ℕ, List, IsSome, is_some, IfOk, length, take};
ghost use Rattle.std.specs.Vec.{vec_capacity};
ghost use Rattle.st_cut.specs.Cut.{first_statement, is_blank_byte};
ghost use Rattle.st_cut.specs.Seen.{ShowsText, StandsOpen, next_stop};

use ct_base::Memory;
use std::alloc::Global;
use std::marker::Model;

/// The bytes that follow the last statement that has ended. Of these it keeps the first `limit`.
#[derive(Drop)]
pub struct Cutter {
    limit: usize,
    kept: Vec<u8>,
    count: usize,
    stop: Option<usize>,
}

impl Model for Cutter {
    ghost use Rattle.std.specs.Prelude.{◌≡◌, ◌≤◌, ◌+◌, min, length};
    ghost use Rattle.std.specs.Vec.{vec_capacity};
    ghost use Rattle.st_cut.specs.Seen.{Seen, IsStopWithin};

    ghost Value = { Seen };

    ghost view = { λ c. record { limit = c.limit; kept = c.kept.items; count = c.count; stop = c.stop } };

    ghost invariant = { λ c. (c.limit ≤ vec_capacity c.kept) × (length c.kept.items ≡ min c.count c.limit) × (c.count ≤ c.limit + 1) × IsStopWithin c.stop c.count };
}

fn is_blank_byte(byte: u8) -> bool
    ensures { result ≡ is_blank_byte byte }
{
    byte == b' ' || byte == b'\t' || byte == b'\r'
}

/// Where a statement would end after this byte.
fn stop_after(stop: Option<usize>, count: usize, byte: u8) -> Option<usize>
    ensures { result ≡ next_stop stop count byte }
{
    if byte == b';' {
        Some(count)
    } else if is_blank_byte(byte) {
        stop
    } else {
        None
    }
}

/// Keeps the byte where it is one of the first `limit`.
fn keep(limit: usize, kept: &mut Vec<u8>, byte: u8)
    requires room { limit ≤ vec_capacity kept.old }
    requires within { length kept.old.items ≤ limit }
    ensures items { kept.new.items ≡ take limit (kept.old.items ++ byte ∷ []) }
    ensures room { limit ≤ vec_capacity kept.new }
{
    if kept.len() < limit {
        let _ = kept.push(byte);
    }
}

impl Cutter {
    /// Reserves all that it needs, so no later call takes memory. A text of over `limit` bytes is not kept whole.
    pub fn new(alloc: Global, limit: usize) -> Result<Cutter, Memory>
        ensures { IfOk result (λ cutter. StandsOpen limit cutter []) }
    {
        Ok(Cutter {
            limit,
            kept: Vec::with_capacity(alloc, limit)?,
            count: 0,
            stop: None,
        })
    }

    /// Whether a newline, or the end of the script, would end a statement now.
    pub fn is_ending(&self) -> bool
        ensures { result ≡ is_some self.now.stop }
    {
        self.stop.is_some()
    }

    /// Takes a byte that ends no statement.
    pub fn push(&mut self, byte: u8)
        requires { byte ≡ 10 → self.old.stop ≡ None }
        ensures { (limit : ℕ) (held : List ℕ) → StandsOpen limit self.old held → StandsOpen limit self.new (held ++ byte ∷ []) }
    {
        self.stop = stop_after(self.stop, self.count, byte);
        keep(self.limit, &mut self.kept, byte);
        self.count = (self.count + 1).min(self.limit + 1);
    }

    /// The statement that ends now, without its `;`, or nothing where it has over `limit` bytes.
    pub fn statement(&self) -> Option<&[u8]>
        requires { IsSome self.now.stop }
        ensures { (limit : ℕ) (held statement : List ℕ) → StandsOpen limit self.now held → first_statement true held ≡ Some (statement, [])
            → ShowsText limit result statement }
    {
        match self.stop {
            Some(stop) if stop <= self.limit => Some(&self.kept[..stop]),
            _ => None,
        }
    }

    /// All bytes since the last statement, or nothing where these are over `limit` bytes.
    pub fn rest(&self) -> Option<&[u8]>
        ensures { (limit : ℕ) (held : List ℕ) → StandsOpen limit self.now held → ShowsText limit result held }
    {
        if self.count <= self.limit {
            Some(&self.kept)
        } else {
            None
        }
    }

    /// Forgets all bytes: a statement has ended.
    pub fn clear(&mut self)
        ensures { StandsOpen self.old.limit self.new [] }
    {
        self.kept.clear();
        self.count = 0;
        self.stop = None;
    }
}
