ghost use Rattle.std.specs.Prelude.{◌≡◌, ℕ, ◌<◌, ◌≤◌, List, length, take, drop, IfOk, IfSome, OnErr, OnOk};
ghost use Rattle.disk_model.specs.Crashes.{IsDurable};
ghost use Rattle.disk_model.specs.Effects.{HasFailed, WritesNothing, WritesSome};
ghost use Rattle.disk_model.specs.Traces.{DiskTrace};
ghost use Rattle.disk_model.specs.Writes.{Writes};

use wan_edge::Failed;

/// A row of bytes that outlives a crash, as far as it was synced.
pub trait Disk {
    /// What it tells of itself.
    ghost told: { Self → DiskTrace };

    /// How many bytes there are.
    fn len(&mut self) -> Result<u64, Failed>
        ensures answer { IfOk result (λ n. IfSome (told self.old).bytes (λ all. n ≡ length all)) }
        ensures nothing { WritesNothing (told self.old) (told self.new) }
        ensures cause { OnErr result (HasFailed (told self.old) (told self.new)) };

    /// Reads some of the bytes from `at` on into the front of `into` and says how many; 0 only at the
    /// end or past it. What stands in `into` after them is not said.
    fn read_at(&mut self, at: u64, into: &mut [u8]) -> Result<usize, Failed>
        requires room { 0 < length into.old }
        ensures within { IfOk result (λ n. n ≤ length into.old) }
        ensures given { IfOk result
            (λ n. IfSome (told self.old).bytes (λ all. take n into.new ≡ take n (drop at all))) }
        ensures end { IfOk result
            (λ n. n ≡ 0 → IfSome (told self.old).bytes (λ all. length all ≤ at)) }
        ensures nothing { WritesNothing (told self.old) (told self.new) }
        ensures cause { OnErr result (HasFailed (told self.old) (told self.new)) };

    /// Writes all the bytes from `at` on, over what is there and past the end. A gap between the old end
    /// and `at` is filled with zeros. A write that fails may have been done in part.
    fn write_at(&mut self, at: u64, from: &[u8]) -> Result<(), Failed>
        ensures written { OnOk result
            (Writes at from.now (told self.old).bytes (told self.new).bytes) }
        ensures some { WritesSome at (length from.now) (told self.old) (told self.new) }
        ensures cause { OnErr result (HasFailed (told self.old) (told self.new)) };

    /// After it a crash leaves what a read gives.
    fn sync(&mut self) -> Result<(), Failed>
        ensures durable { OnOk result (IsDurable (told self.new).bytes (told self.new).may_leave) }
        ensures nothing { WritesNothing (told self.old) (told self.new) }
        ensures cause { OnErr result (HasFailed (told self.old) (told self.new)) };

    /// What a read gives is one of the images that a crash now may leave.
    ghost shows_one: { (disk : Self) → IfSome (told disk).bytes (told disk).may_leave };

    /// This moment is one of those since an earlier one.
    ghost counts_now: { (disk : Self) (t : ℕ) (c : List ℕ)
        → t ≤ (told disk).moment
        → (told disk).may_leave c
        → (told disk).left_since t c };

    /// Since this moment there is no other.
    ghost only_now: { (disk : Self) (c : List ℕ)
        → (told disk).left_since (told disk).moment c
        → (told disk).may_leave c };
}
