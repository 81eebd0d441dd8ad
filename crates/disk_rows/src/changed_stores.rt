//! A store of which somebody else changes a byte while a command has it: what is told then of a block of the journal that isn't read back.
ghost use Rattle.std.specs.Prelude.{◌≡◌, ◌+◌, ◌≤◌, ◌^◌, length, IfOk, OnOk};
ghost use Rattle.store_model.specs.Calls.{counted};

use crate::runs::{damage_of, made, run, run_over};
use crate::stops::{MOST_CALLS, copied};
use std::alloc::{AllocError, Global};
use std::marker::Model;
use std::process::Abort;
use std::sync::Wait;
use std::test::Fail;
use std::thread::Threads;
use store_model::{Failed, MemoryStore, Store};

/// Areas of which a byte changes before one of the calls.
#[derive(Drop)]
struct Areas {
    store: MemoryStore,
    /// The call before which the byte changes, counted from 1 over those that are still to come; 0 once it has changed.
    call: u64,
    area: u32,
    at: u64,
}

impl Areas {
    /// One call more.
    fn begin(&mut self) -> Result<(), Failed> {
        if self.call == 1 {
            change_byte(&mut self.store, self.area, self.at)?;
        }
        self.call = self.call.saturating_sub(1);
        Ok(())
    }

    fn size(&mut self, area: u32) -> Result<u64, Failed>
        ensures { IfOk result (λ n. n ≤ 2 ^ 62) }
    {
        self.begin()?;
        self.store.size(area)
    }

    fn read(&mut self, area: u32, at: u64, into: &mut [u8]) -> Result<(), Failed> {
        self.begin()?;
        let size = self.store.size(area)?;
        if at > size || into.len() as u64 > size - at {
            return Err(Failed);
        }
        self.store.read(area, at, into)?;
        Ok(())
    }

    fn write(&mut self, area: u32, at: u64, bytes: &[u8]) -> Result<(), Failed>
        ensures { OnOk result (at + length bytes.now ≤ 2 ^ 62) }
    {
        self.begin()?;
        if at > self.store.size(area)? {
            return Err(Failed);
        }
        self.store.write(area, at, bytes)?;
        Ok(())
    }

    fn cut(&mut self, area: u32, length: u64) -> Result<(), Failed> {
        self.begin()?;
        if length > self.store.size(area)? {
            return Err(Failed);
        }
        self.store.cut(area, length)?;
        Ok(())
    }

    fn sync(&mut self, area: u32) -> Result<(), Failed> {
        self.begin()?;
        self.store.sync(area)?;
        Ok(())
    }
}

/// Puts another byte at a place of an area.
fn change_byte(store: &mut MemoryStore, area: u32, at: u64) -> Result<(), Failed> {
    if at <= store.size(area)? {
        store.write(area, at, b"\xff")?;
    }
    Ok(())
}

/// A store over such areas, which tells nothing of their bytes. Contracts see it as its count of faults.
#[derive(Drop)]
struct ChangedStore {
    areas: Areas,
    faults: u64,
}

impl Model for ChangedStore {
    ghost use Rattle.std.specs.Prelude.{ℕ};

    ghost Value = { ℕ };

    ghost view = { λ store. store.faults };
}

impl ChangedStore {
    /// One fault more.
    fn fault(&mut self) -> Failed
        ensures counted { self.new ≡ counted self.old }
        ensures never_falls { self.old ≤ self.new }
    {
        self.faults = self.faults.saturating_add(1);
        Failed
    }
}

impl Store for ChangedStore {
    ghost use Rattle.folder_store.specs.Untold.{untold};

    ghost tells = { ⊥ };

    ghost disk = { untold };

    fn size(&mut self, area: u32) -> Result<u64, Failed> {
        match self.areas.size(area) {
            Ok(size) => Ok(size),
            Err(_) => Err(self.fault()),
        }
    }

    fn read(&mut self, area: u32, at: u64, into: &mut [u8]) -> Result<(), Failed> {
        match self.areas.read(area, at, into) {
            Ok(()) => Ok(()),
            Err(_) => Err(self.fault()),
        }
    }

    fn write(&mut self, area: u32, at: u64, bytes: &[u8]) -> Result<(), Failed> {
        match self.areas.write(area, at, bytes) {
            Ok(()) => Ok(()),
            Err(_) => Err(self.fault()),
        }
    }

    fn cut(&mut self, area: u32, length: u64) -> Result<(), Failed> {
        match self.areas.cut(area, length) {
            Ok(()) => Ok(()),
            Err(_) => Err(self.fault()),
        }
    }

    fn sync(&mut self, area: u32) -> Result<(), Failed> {
        match self.areas.sync(area) {
            Ok(()) => Ok(()),
            Err(_) => Err(self.fault()),
        }
    }

    ghost leaves = { λ store told. absurd told };

    ghost fits = { λ store area told. absurd told };
}

/// A record of a member that is journaled.
const JOURNALED: &str = "\
//DDS CUST
     A          R CUSTR
     A            NAME           5A
//JOB J1
CRTPF FILE(CUST) SRC(CUST)
STRJRNPF FILE(CUST)
OPNDBF FILE(CUST) OPTION(*ALL)
WRITE OPNID(CUST) VAL('ABC')
//END
";

/// What DSP shows behind that run.
const JOURNALED_DISPLAY: &str = "\
LIBRARY SEQ(3) RCV(1)
FILE CUST *PHY
SRC      A          R CUSTR
SRC      A            NAME           5A
MBR CUST NBR(1) SLOTS(1) LIVE(1) JRN(*AFTER)
RCD 1 'ABC  '
ENT 1 D CT JOB(J1) AT(0) GRP(0) MBR(1) RRN(0) KIND(*PHY) NAME(CUST) LEN(60)
ENT 2 F JM JOB(J1) AT(1) GRP(0) MBR(1) RRN(0) IMAGES(*AFTER) SLOTS(0)
ENT 3 R PT JOB(J1) AT(3) GRP(0) MBR(1) RRN(1) IMG(1 'ABC  ')
END
";

/// The last byte of the second entry's sequence. Its block begins at 162 and the entry at 166, in area 3.
const SEQUENCE: (u32, u64) = (3, 177);

/// The store of the run that journals, of which that byte changes before a call.
fn changed_at(alloc: Global, image: &MemoryStore, call: u64) -> Result<ChangedStore, AllocError> {
    let (area, at) = SEQUENCE;
    Ok(ChangedStore {
        areas: Areas {
            store: copied(alloc, image)?,
            call,
            area,
            at,
        },
        faults: 0,
    })
}

/// The removal goes back to the first entry behind that of the changed block, which it has to find.
const READING: &str = "\
//JOB J2
DSPJRN FROMENT(1) TOENT(3)
MONMSG MSGID(BlockChanged)
DSPJRN FROMENT(3) TOENT(3)
RMVJRNCHG FILE(CUST)
MONMSG MSGID(BlockChanged)
//END
";

const CHANGED_LISTING: &str = "\
HISTORY
1 J2 0 DSPJRN FROMENT(1) TOENT(3) => BlockChanged SEQ(2)
2 J2 1 DSPJRN FROMENT(3) TOENT(3) => OK / ENT 3 R PT JOB(J1) AT(3) GRP(0) MBR(1) RRN(1) IMG(1 'ABC  ')
3 J2 2 RMVJRNCHG FILE(CUST) MBR(CUST) FROMENT(*LAST) TOENT(*FIRST) => BlockChanged SEQ(2)
4 J2 3 ENDJOB REASON(*NORMAL) LINE(0) => OK
END 4
";

/// The byte changes once the block was read, which is kept then.
const SAME_LISTING: &str = "\
HISTORY
1 J2 0 DSPJRN FROMENT(1) TOENT(3) => OK \
/ ENT 1 D CT JOB(J1) AT(0) GRP(0) MBR(1) RRN(0) KIND(*PHY) NAME(CUST) LEN(60) \
/ ENT 2 F JM JOB(J1) AT(1) GRP(0) MBR(1) RRN(0) IMAGES(*AFTER) SLOTS(0) \
/ ENT 3 R PT JOB(J1) AT(3) GRP(0) MBR(1) RRN(1) IMG(1 'ABC  ')
2 J2 1 DSPJRN FROMENT(3) TOENT(3) => OK / ENT 3 R PT JOB(J1) AT(3) GRP(0) MBR(1) RRN(1) IMG(1 'ABC  ')
3 J2 2 RMVJRNCHG FILE(CUST) MBR(CUST) FROMENT(*LAST) TOENT(*FIRST) => OK ENT(3 3) CHG(1)
4 J2 3 ENDJOB REASON(*NORMAL) LINE(0) => OK
END 4
";

/// When the change was found.
#[derive(Clone, Copy, PartialEq)]
enum Found {
    /// When the library was opened.
    AtOpening,
    /// When the journal was read.
    AtReading,
    Never,
}

/// When a command finds that a byte of its store changed before a call.
fn what_is_found<R: Threads + Wait + Sync + Abort>(
    rt: &R,
    alloc: Global,
    image: &MemoryStore,
    call: u64,
    asked: (&str, &str),
) -> Result<Found, AllocError> {
    let (command, input) = asked;
    let store = changed_at(alloc, image, call)?;
    let (status, written, _store) = run_over(rt, alloc, store, command, input)?;
    let text = str::from_utf8(written.bytes()).unwrap_or("");
    match damage_of(status) {
        // The entry's place where it is opened, the block's where it is read.
        Some((3, 166)) => {
            assert_eq!(rt; text, "", "{command}, changed at {call}");
            Ok(Found::AtOpening)
        }
        Some((3, 162)) => {
            assert_eq!(rt; text, "", "{command}, changed at {call}");
            Ok(Found::AtReading)
        }
        _ => {
            assert_eq!(rt; status.number(), 0, "{command}, changed at {call}");
            if text == CHANGED_LISTING {
                return Ok(Found::AtReading);
            }
            assert!(rt;
                text == SAME_LISTING || text == JOURNALED_DISPLAY,
                "{command}, changed at {call}"
            );
            Ok(Found::Never)
        }
    }
}

/// A change is found when the library is opened, from some call on when the journal is read, and from another on never.
fn changes_are_found<R: Threads + Wait + Sync + Abort>(
    rt: &R,
    alloc: Global,
    asked: (&str, &str),
) -> Result<(), AllocError> {
    let before = run(rt, alloc, made(rt, alloc)?, "RUN", JOURNALED)?;
    let mut opened: u64 = 0;
    let mut read: u64 = 0;
    for call in 1..MOST_CALLS {
        match what_is_found(rt, alloc, &before.store, call, asked)? {
            Found::AtOpening => {
                assert_eq!(rt; read, 0);
                opened = opened.saturating_add(1);
            }
            Found::AtReading => read = read.saturating_add(1),
            Found::Never => break,
        }
    }
    assert!(rt; opened > 0);
    assert!(rt; read > 0);
    Ok(())
}

#[test]
fn a_changed_block_is_refused(rt: HostRuntime) -> Result<(), Fail> {
    changes_are_found(&rt, rt.alloc(), ("RUN", READING))?;
    Ok(())
}

#[test]
fn a_changed_block_is_not_shown(rt: HostRuntime) -> Result<(), Fail> {
    changes_are_found(&rt, rt.alloc(), ("DSP", ""))?;
    Ok(())
}
