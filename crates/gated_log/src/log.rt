//! The log: made empty, opened, appended to and read. `layout.rt` has the numbers of the format, `opening.rt` the
//! walk over an area that is opened.
ghost use Rattle.std.specs.Prelude.{◌≡◌, ◌+◌, ◌^◌, ◌<◌, ◌≤◌, ◌++◌, [], ◌∷◌, List, ℕ, length, take, get_or, IfOk, OnOk, OnErr, IsOk, IsErr, IsErrOf};
ghost use Rattle.store_model.specs.Disk.{Does, Stays, IsDurable, Torn};
ghost use Rattle.store_model.specs.Faults.{Rose};
ghost use Rattle.gated_log.specs.Blocks.{Spells, MayBegin, IsFramed, StandsAt, extent, frame, header, sizes};
ghost use Rattle.gated_log.specs.Log.{Settled, IsSettled, IsWithOrWithout, Anything};
ghost use Rattle.gated_log.specs.Steps.{IsNoLonger, IsStaged, KeepsFront};

use crate::layout::{FRAME, HEADER, Head, LENGTH, MAX_BLOCK, OPEN, empty_log};
use crate::{LogFault, StoreFault};
use std::alloc::{AllocError, Global};
use std::marker::Model;
use store_model::{Failed, Store};

/// Where a block's bytes begin, and how many there are.
#[derive(Clone, Copy)]
pub struct Place {
    pub at: u64,
    pub length: u32,
    ghost short: { length < 2 ^ 32 },
}

/// The places of the blocks of one area.
#[derive(Drop)]
pub struct Log {
    pub(crate) area: u32,
    pub(crate) head: Head,
    pub(crate) places: Vec<Place>,
    /// Where the closed gate stands.
    pub(crate) end: u64,
}

impl Model for Log {
    ghost use Rattle.std.specs.Prelude.{◌-◌, ◌<◌, ◌^◌};
    ghost use Rattle.std.specs.Vec.{vec_len, vec_capacity};
    ghost use Rattle.gated_log.specs.Log.{LogState};
    ghost use Rattle.gated_log.specs.Places.{ArePlaced, lengths_of};

    ghost Value = { LogState };

    ghost view = { λ log. record { area = log.area; first = log.head.first; version = log.head.version; lengths = lengths_of log.places.items; room = vec_capacity log.places - vec_len log.places } };

    ghost invariant = { λ log. ArePlaced 32 log.places.items log.end × (log.end < 2 ^ 62) };
}

/// Makes the area an empty log, whatever it held. `first` is the sequence of the first entry that it is to hold,
/// 0 where it holds none. During the call the area may hold anything.
pub fn format<S: Store>(
    store: &mut S,
    area: u32,
    first: u64,
    version: u32,
) -> Result<(), StoreFault>
    requires { MayBegin area first version }
    ensures formatted { OnOk result (S.tells → Spells area first version [] ((S.disk store.new).seen area)) }
    ensures alone { OnOk result (S.tells → (S.disk store.new).seen area ≡ header area first version ++ 0 ∷ []) }
    ensures durable { OnOk result (S.tells → IsDurable area (S.disk store.new)) }
    ensures any_moment { Does area Anything (S.disk store.old) (S.disk store.new) }
    ensures short { Does area IsNoLonger (S.disk store.old) (S.disk store.new) }
    ensures cause { IsErr result → Rose (S.disk store.old).faults (S.disk store.new).faults }
{
    store.cut(area, 0)?;
    store.write(area, 0, &empty_log(area, first, version))?;
    store.sync(area)?;
    Ok(())
}

/// Formats the area, and gives the log of no block without reading it back.
pub fn create<S: Store>(
    alloc: Global,
    store: &mut S,
    area: u32,
    first: u64,
    version: u32,
) -> Result<Log, StoreFault>
    requires { MayBegin area first version }
    ensures created { IfOk result (λ log. S.tells → Settled log [] (S.disk store.new)) }
    ensures empty { IfOk result (λ log. log ≡ record { area = area; first = first; version = version; lengths = []; room = 0 }) }
    ensures any_moment { Does area Anything (S.disk store.old) (S.disk store.new) }
    ensures cause { IsErr result → Rose (S.disk store.old).faults (S.disk store.new).faults }
{
    format(store, area, first, version)?;
    Ok(Log::empty(alloc, area, first, version))
}

impl Log {
    /// The log of no block, for an area that `format` makes so: where room for blocks is to be made before anything is
    /// written.
    pub fn empty(alloc: Global, area: u32, first: u64, version: u32) -> Log
        ensures { result ≡ record { area = area; first = first; version = version; lengths = []; room = 0 } }
    {
        Log {
            area,
            head: Head { first, version },
            places: Vec::new(alloc),
            end: HEADER as u64,
        }
    }

    /// How many blocks it has.
    pub fn count(&self) -> u64
        ensures count { result ≡ length self.now.lengths }
        ensures short { (n : ℕ) → get_or self.now.lengths n 0 < 2 ^ 32 }
    {
        self.places.len() as u64
    }

    /// The first sequence in the area's header.
    pub fn first(&self) -> u64
        ensures { result ≡ self.now.first }
    {
        self.head.first
    }

    /// The version in the area's header.
    pub fn version(&self) -> u32
        ensures { result ≡ self.now.version }
    {
        self.head.version
    }

    /// Where the nth block begins in the area, from 0: there stands its length, and its bytes stand four bytes behind.
    pub fn place(&self, n: u64) -> u64
        requires { n < length self.now.lengths }
        ensures place { result ≡ 33 + extent (take n self.now.lengths) }
        ensures stands { (blocks : List (List ℕ)) (bytes : List ℕ) → Spells self.now.area self.now.first self.now.version blocks bytes → self.now.lengths ≡ sizes blocks → StandsAt result (get_or blocks n []) bytes }
    {
        self.places[n as usize].at - LENGTH as u64
    }

    /// Makes room for the places of that many blocks. It takes memory only where less room is there.
    pub fn reserve(&mut self, blocks: u32) -> Result<(), AllocError>
        ensures room { OnOk result (blocks ≤ self.new.room) }
        ensures enough { blocks ≤ self.old.room → IsOk result }
        ensures kept { self.old.room ≤ self.new.room }
        ensures same_area { self.new.area ≡ self.old.area }
        ensures same_first { self.new.first ≡ self.old.first }
        ensures same_version { self.new.version ≡ self.old.version }
        ensures same_lengths { self.new.lengths ≡ self.old.lengths }
        ensures same_room { OnErr result (self.new.room ≡ self.old.room) }
    {
        self.places.reserve(blocks as usize)
    }

    /// Appends a block that comes in its frame: its length before it and a closed gate behind it, as `put_frame` puts
    /// them. After an `Err` the area spells the list with the block or without it: open it again.
    pub fn append<S: Store>(&mut self, store: &mut S, framed: &[u8]) -> Result<(), StoreFault>
        requires settled { S.tells → IsSettled self.old (S.disk store.old) }
        requires room { 0 < self.old.room }
        requires framed { IsFramed framed.now }
        requires small { length framed.now ≤ MAX_BLOCK + FRAME }
        ensures appended { OnOk result (S.tells → (blocks : List (List ℕ)) (block : List ℕ) → framed.now ≡ frame block → Settled self.old blocks (S.disk store.old) → Settled self.new (blocks ++ block ∷ []) (S.disk store.new)) }
        ensures any_moment { S.tells → (blocks : List (List ℕ)) (block : List ℕ) → framed.now ≡ frame block → Settled self.old blocks (S.disk store.old) → Does self.old.area (λ _ bytes. IsWithOrWithout self.old.area self.old.first self.old.version blocks block bytes) (S.disk store.old) (S.disk store.new) }
        ensures apart { Does self.old.area Anything (S.disk store.old) (S.disk store.new) }
        ensures cause { IsErr result → Rose (S.disk store.old).faults (S.disk store.new).faults }
        ensures same_area { self.new.area ≡ self.old.area }
        ensures same_first { self.new.first ≡ self.old.first }
        ensures same_version { self.new.version ≡ self.old.version }
        ensures lengths { OnOk result ((block : List ℕ) → framed.now ≡ frame block → self.new.lengths ≡ self.old.lengths ++ length block ∷ []) }
        ensures same_lengths { OnErr result (self.new.lengths ≡ self.old.lengths) }
        ensures less_room { OnOk result (self.new.room + 1 ≡ self.old.room) }
        ensures same_room { OnErr result (self.new.room ≡ self.old.room) }
    {
        let gate = self.end;
        let block = framed.len() - FRAME;
        stage(store, self.area, gate + 1, framed)?;
        open_gate(store, self.area, gate)?;
        let place = Place {
            at: gate + 5,
            length: block as u32,
        };
        self.places.push_reserved(place);
        self.end = gate + framed.len() as u64;
        Ok(())
    }

    /// The nth block, from 0.
    pub fn block<S: Store>(&self, alloc: Global, store: &mut S, n: u64) -> Result<Vec<u8>, LogFault>
        requires settled { S.tells → IsSettled self.now (S.disk store.old) }
        requires below { n < length self.now.lengths }
        ensures block { IfOk result (λ bytes. S.tells → (blocks : List (List ℕ)) → Settled self.now blocks (S.disk store.old) → bytes.items ≡ get_or blocks n []) }
        ensures length { IfOk result (λ bytes. length bytes.items ≡ get_or self.now.lengths n 0) }
        ensures short { IfOk result (λ bytes. length bytes.items < 2 ^ 32) }
        ensures stays { Stays (S.disk store.old) (S.disk store.new) }
        ensures cause { IsErrOf result LogFault.StoreFault → Rose (S.disk store.old).faults (S.disk store.new).faults }
        ensures whole { (area at : ℕ) → IsErrOf result (LogFault.Damaged area at) → ⊥ }
    {
        let place = self.places[n as usize];
        let mut bytes = Vec::new(alloc);
        bytes.resize(place.length as usize, 0)?;
        store.read(self.area, place.at, &mut bytes)?;
        Ok(bytes)
    }
}

/// Writes a block in its frame, and syncs. Until the gate before it is opened it doesn't count.
fn stage<S: Store>(store: &mut S, area: u32, at: u64, framed: &[u8]) -> Result<(), Failed>
    requires { S.tells → at ≤ length ((S.disk store.old).seen area) }
    ensures staged { OnOk result (S.tells → (block : List ℕ) → framed.now ≡ frame block → IsStaged at block ((S.disk store.old).seen area) ((S.disk store.new).seen area)) }
    ensures durable { OnOk result (S.tells → IsDurable area (S.disk store.new)) }
    ensures any_moment { Does area (KeepsFront at) (S.disk store.old) (S.disk store.new) }
    ensures bound { OnOk result (at + length framed.now ≤ 2 ^ 62) }
    ensures cause { IsErr result → Rose (S.disk store.old).faults (S.disk store.new).faults }
{
    store.write(area, at, framed)?;
    store.sync(area)?; // before its gate is opened
    Ok(())
}

/// Opens a gate in a write of its own, and syncs.
fn open_gate<S: Store>(store: &mut S, area: u32, at: u64) -> Result<(), Failed>
    requires { S.tells → at ≤ length ((S.disk store.old).seen area) }
    ensures opened { OnOk result (S.tells → (S.disk store.new).seen area ≡ Rattle.store_model.specs.Disk.written at (1 ∷ []) ((S.disk store.old).seen area)) }
    ensures durable { OnOk result (S.tells → IsDurable area (S.disk store.new)) }
    ensures any_moment { Does area (Torn at 1) (S.disk store.old) (S.disk store.new) }
    ensures cause { IsErr result → Rose (S.disk store.old).faults (S.disk store.new).faults }
{
    store.write(area, at, &[OPEN])?;
    store.sync(area)?; // before the block is acknowledged
    Ok(())
}
