//! What every device promises, real or in memory.

ghost use Rattle.std.specs.Prelude.{◌≡◌, ◌≤◌, ◌<◌, ◌+◌, ℕ, List, Some, Ok, IfOk, OnOk, length, take, drop};
ghost use Rattle.ct_base.specs.Told.{took, IsNothing};
ghost use Rattle.ct_site.specs.FaultCounts.{CountsFaults, ends_after};
ghost use Rattle.ct_site.specs.Disks.{DiskView, IsNow, IsSame, IsSync, Works, Hears, Says};
ghost use Rattle.ct_site.specs.Writing.{IsWrite};

use thiserror::Error;

/// A fault of a device. It comes exactly where the device's count of such faults rises by one in this call, or stands at its last
/// value.
#[derive(Clone, Copy, Debug, PartialEq, Eq, Error)]
#[error("a device failed")]
pub struct Failed;

/// How many bytes an image has at most.
pub(crate) const LONGEST: u64 = 1 << 43;

/// A disk of one image, a list of bytes.
pub trait Disk {
    /// What is known of the disk, and of what stands beside it.
    ghost disk: { Self → DiskView };

    /// How many bytes the image has.
    fn size(&mut self) -> Result<u64, Failed>
        ensures size { (image : List ℕ) → (disk self.old).image ≡ Some image → IfOk result (λ n. n ≡ length image) }
        ensures same { IsSame (disk self.old) (disk self.new) }
        ensures works { Works (disk self.old) (disk self.new) result };

    /// Reads as many bytes as `into` has, from the byte `at` on.
    fn read(&mut self, at: u64, into: &mut [u8]) -> Result<(), Failed>
        requires within { (image : List ℕ) → (disk self.old).image ≡ Some image → at + length into.old ≤ length image }
        ensures bytes { (image : List ℕ) → (disk self.old).image ≡ Some image → OnOk result (into.new ≡ take (length into.old) (drop at image)) }
        ensures same { IsSame (disk self.old) (disk self.new) }
        ensures works { Works (disk self.old) (disk self.new) result };

    /// Writes the bytes at this place, and lengthens the image where they end past it. No image is longer than 2^43 bytes.
    /// Until a sync succeeds, a crash may leave any bytes in the range and past the old end.
    /// Where it fails, the image has a length between the old one and the one that the write would have given.
    fn write_at(&mut self, at: u64, bytes: &[u8]) -> Result<(), Failed>
        requires within { (image : List ℕ) → (disk self.old).image ≡ Some image → at ≤ length image }
        requires some { 0 < length bytes.now }
        ensures { IsWrite at bytes.now (disk self.old) (disk self.new) result };

    /// Makes what was written last: after it a crash leaves what a read gives.
    fn sync(&mut self) -> Result<(), Failed>
        ensures { IsSync (disk self.old) (disk self.new) result };

    /// A crash may leave what a read gives.
    ghost may_stay: { (d : Self) (image : List ℕ) → (disk d).image ≡ Some image → (disk d).may_leave image };

    /// The present is a moment since each earlier time.
    ghost counts_now: { (d : Self) (t : ℕ) (image said : List ℕ) → t ≤ (disk d).time.clock → IsNow (disk d) image said → (disk d).time.since t image said };

    /// Since now there is no other moment.
    ghost only_now: { (d : Self) (image said : List ℕ) → (disk d).time.since (disk d).time.clock image said → IsNow (disk d) image said };
}

/// A disk beside which a script is heard and replies are said.
pub trait Site: Disk {
    /// Takes bytes of the script into the beginning of `into`, and answers how many. 0 means the end of the script.
    fn hear(&mut self, into: &mut [u8]) -> Result<usize, Failed>
        requires { 0 < length into.old }
        ensures bound { IfOk result (λ count. count ≤ length into.old) }
        ensures hears { Hears (took result into.new) (Self.disk self.old) (Self.disk self.new) }
        ensures end { result ≡ Ok 0 → IsNothing (Self.disk self.new).beside.left }
        ensures ends { (Self.disk self.new).beside.ends ≡ ends_after result (Self.disk self.old).beside.ends }
        ensures cause { CountsFaults (Self.disk self.old).beside.hear_faults (Self.disk self.new).beside.hear_faults result };

    /// Says bytes from the beginning of `bytes`, at least one, and answers how many.
    fn say(&mut self, bytes: &[u8]) -> Result<usize, Failed>
        requires { 0 < length bytes.now }
        ensures bound { IfOk result (λ count. count ≤ length bytes.now) }
        ensures some { IfOk result (λ count. 0 < count) }
        ensures says { Says (took result bytes.now) (Self.disk self.old) (Self.disk self.new) }
        ensures cause { CountsFaults (Self.disk self.old).beside.say_faults (Self.disk self.new).beside.say_faults result };
}
