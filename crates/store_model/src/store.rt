//! A disk of areas numbered by u32, which may stop at any moment, also within a call. `memory_store.rt` has one.
ghost use Rattle.std.specs.Prelude.{◌≡◌, ◌+◌, ◌^◌, ◌≤◌, ℕ, length, take, drop, IfOk, OnOk, IsErr};
ghost use Rattle.store_model.specs.Disk.{Disk, May, Does, Stays, Torn, Cut, IsDurable, written};
ghost use Rattle.store_model.specs.Faults.{Rose};

use crate::Failed;

/// Between two syncs of an area each written range and all growth may hold any bytes after a stop, and the size is
/// any between the sizes that it had. After a sync that answers Ok a stop leaves what a read gives.
/// An area that was never written has size 0. No area has more than 2^62 bytes: a write past that is `Failed`.
pub trait Store {
    /// True of a type that says what its areas hold. One that does not still says what its calls do to the count
    /// of faults.
    ghost tells: { Type 0 };

    /// The areas, the moment, what a stop may leave, and the count of faults.
    ghost disk: { Self → Disk };

    /// The area's size in bytes.
    fn size(&mut self, area: u32) -> Result<u64, Failed>
        ensures size { IfOk result (λ n. tells → n ≡ length ((disk self.old).seen area)) }
        ensures bound { IfOk result (λ n. n ≤ 2 ^ 62) }
        ensures stays { Stays (disk self.old) (disk self.new) }
        ensures cause { IsErr result → Rose (disk self.old).faults (disk self.new).faults };

    /// Fills `into` with the bytes from a place on. After an `Err` it holds any bytes.
    fn read(&mut self, area: u32, at: u64, into: &mut [u8]) -> Result<(), Failed>
        requires { tells → at + length into.old ≤ length ((disk self.old).seen area) }
        ensures bytes { OnOk result (tells → into.new ≡ take (length into.new) (drop at ((disk self.old).seen area))) }
        ensures stays { Stays (disk self.old) (disk self.new) }
        ensures cause { IsErr result → Rose (disk self.old).faults (disk self.new).faults };

    /// Writes over what is there, and past the end. After an `Err` the area may hold any part of the bytes.
    fn write(&mut self, area: u32, at: u64, bytes: &[u8]) -> Result<(), Failed>
        requires { tells → at ≤ length ((disk self.old).seen area) }
        ensures written { OnOk result (tells → (disk self.new).seen area ≡ written at bytes.now ((disk self.old).seen area)) }
        ensures bound { OnOk result (at + length bytes.now ≤ 2 ^ 62) }
        ensures does { Does area (Torn at (length bytes.now)) (disk self.old) (disk self.new) }
        ensures cause { IsErr result → Rose (disk self.old).faults (disk self.new).faults };

    /// Cuts the area to a length. After an `Err` it has any length between.
    fn cut(&mut self, area: u32, length: u64) -> Result<(), Failed>
        requires { tells → length ≤ Rattle.std.specs.Prelude.length ((disk self.old).seen area) }
        ensures cut { OnOk result (tells → (disk self.new).seen area ≡ take length ((disk self.old).seen area)) }
        ensures does { Does area (Cut length) (disk self.old) (disk self.new) }
        ensures cause { IsErr result → Rose (disk self.old).faults (disk self.new).faults };

    /// Makes the area durable: after an `Ok` a stop leaves of it what a read gives.
    fn sync(&mut self, area: u32) -> Result<(), Failed>
        ensures durable { OnOk result (tells → IsDurable area (disk self.new)) }
        ensures stays { Stays (disk self.old) (disk self.new) }
        ensures cause { IsErr result → Rose (disk self.old).faults (disk self.new).faults };

    /// A stop now may leave what a read gives.
    ghost leaves: { (s : Self) → tells → May (disk s) ((disk s).seen) };

    /// No area is longer than the bound.
    ghost fits: { (s : Self) (area : ℕ) → tells → length ((disk s).seen area) ≤ 2 ^ 62 };
}
