//! What no clause says: the very bytes, that calls succeed where memory is ample, and every stop of a run.
ghost use Rattle.std.specs.Prelude.{◌≡◌, ◌+◌, ◌≤◌, ◌^◌, length, IfOk};
ghost use Rattle.gated_log.specs.Blocks.{frame};

use gated_log::{Log, LogFault, create, format, open, put_frame};
use std::alloc::{AllocError, Global};
use std::test::Fail;
use store_model::{Failed, MemoryStore, Store};

/// The area of the tests, that of the first receiver.
const AREA: u32 = 3;

/// Blocks of different sizes.
const BLOCKS: [&[u8]; 4] = [b"AB", b"", b"\0\x01\0", b"a longer block"];

/// The format page's example: first sequence 1, the block `AB`, a closed gate.
const ONE_BLOCK: [u8; 40] =
    *b"IBMIDBF1\0\0\0\x01\0\0\0\x03\0\0\0\0\0\0\0\x01\0\0\0\0\0\0\0\0\x01\0\0\0\x02AB\0";

/// The block in its frame.
fn framed(alloc: Global, block: &[u8]) -> Result<Vec<u8>, AllocError>
    requires { length block.now ≤ 2 ^ 29 }
    ensures framed { IfOk result (λ bytes. bytes.items ≡ frame block.now) }
    ensures small { IfOk result (λ bytes. length bytes.items ≤ 2 ^ 29 + 5) }
{
    let mut bytes = Vec::from_slice(alloc, b"????")?;
    bytes.extend_from_slice(block)?;
    bytes.push(b'?')?;
    put_frame(&mut bytes);
    Ok(bytes)
}

/// Opens the log and appends a block.
pub fn add<S: Store>(alloc: Global, store: &mut S, area: u32, block: &[u8]) -> Result<(), LogFault>
    requires { length block.now ≤ 2 ^ 29 }
{
    let bytes = framed(alloc, block)?;
    let mut log = open(alloc, store, area)?;
    log.reserve(1)?;
    log.append(store, &bytes)?;
    Ok(())
}

/// How many blocks the log has.
fn count_of<S: Store>(alloc: Global, store: &mut S, area: u32) -> Result<u64, LogFault> {
    let log = open(alloc, store, area)?;
    Ok(log.count())
}

/// The nth block, none where there is no such block.
fn nth<S: Store>(alloc: Global, store: &mut S, area: u32, n: u64) -> Result<Vec<u8>, LogFault> {
    let log = open(alloc, store, area)?;
    if n < log.count() {
        log.block(alloc, store, n)
    } else {
        Ok(Vec::new(alloc))
    }
}

/// Where the nth block begins, 0 where there is no such block.
fn place_of(log: &Log, n: u64) -> u64 {
    if n < log.count() { log.place(n) } else { 0 }
}

/// The whole area.
fn contents<S: Store>(alloc: Global, store: &mut S) -> Result<Vec<u8>, Fail> {
    let size = store.size(AREA)?;
    let mut bytes = Vec::new(alloc);
    bytes.resize(size as usize, 0)?;
    store.read(AREA, 0, &mut bytes)?;
    Ok(bytes)
}

/// Makes the log of area 0, and how many of the blocks it appended before the first failure.
fn run<S: Store>(alloc: Global, store: &mut S) -> Option<u64> {
    format(store, 0, 0, 1).ok()?;
    for (done, block) in BLOCKS.iter().enumerate() {
        if add(alloc, store, 0, block).is_err() {
            return Some(done as u64);
        }
    }
    Some(4)
}

/// Whether the log has the first blocks, so many of them or one more.
fn is_before_or_after<S: Store>(alloc: Global, store: &mut S, done: u64) -> Result<bool, LogFault> {
    let count = count_of(alloc, store, 0)?;
    for (n, wanted) in BLOCKS.iter().enumerate() {
        let n = n as u64;
        if n < count && nth(alloc, store, 0, n)?.as_slice() != *wanted {
            return Ok(false);
        }
    }
    Ok(count <= 4 && (count == done || count.checked_sub(1) == Some(done)))
}

#[test]
fn a_block_is_written_as_the_page_says(rt: HostRuntime) -> Result<(), Fail> {
    let alloc = rt.alloc();
    let mut store = MemoryStore::new(alloc);
    format(&mut store, AREA, 1, 1)?;
    add(alloc, &mut store, AREA, b"AB")?;
    assert_eq!(rt;
        contents(alloc, &mut store)?.as_slice(),
        ONE_BLOCK.as_slice()
    );
    let log = open(alloc, &mut store, AREA)?;
    assert_eq!(rt; (log.first(), log.version(), place_of(&log, 0)), (1, 1, 33));
    Ok(())
}

/// Makes the log of area 0 and appends two blocks to it, with room that is made twice and needed from the first time.
fn two_blocks<S: Store>(alloc: Global, store: &mut S) -> Result<Log, LogFault> {
    let first = framed(alloc, b"root")?;
    let second = framed(alloc, b"another")?;
    let mut log = create(alloc, store, 0, 0, 1)?;
    log.reserve(2)?;
    log.reserve(1)?;
    log.append(store, &first)?;
    log.append(store, &second)?;
    Ok(log)
}

#[test]
fn a_log_that_was_created_is_appended_to(rt: HostRuntime) -> Result<(), Fail> {
    let alloc = rt.alloc();
    let mut store = MemoryStore::new(alloc);
    store.write(0, 0, b"what stood there")?;
    let log = two_blocks(alloc, &mut store)?;
    assert_eq!(rt; (log.count(), place_of(&log, 1)), (2, 42));
    assert_eq!(rt;
        nth(alloc, &mut store, 0, 0)?.as_slice(),
        b"root".as_slice()
    );
    assert_eq!(rt;
        nth(alloc, &mut store, 0, 1)?.as_slice(),
        b"another".as_slice()
    );
    Ok(())
}

/// The calls of a whole run: three to format, and eight for each block with one for each block before it. Four of the
/// eight append, two writes and two syncs; four open, the last of them reading the first gate and length.
const CALLS: u64 = 3 + 8 + 9 + 10 + 11;

#[test]
fn every_stop_leaves_the_list_before_or_after(rt: HostRuntime) -> Result<(), Fail> {
    let alloc = rt.alloc();
    for call in 1..CALLS + 2 {
        let mut store = MemoryStore::new(alloc);
        store.stop_at(call);
        if let Some(done) = run(alloc, &mut store) {
            assert_eq!(rt; done == 4, call > CALLS, "stop at {call}");
            for image in store.stop_images(alloc)?.iter_mut() {
                assert!(rt; is_before_or_after(alloc, image, done)?, "stop at {call}");
            }
        }
    }
    Ok(())
}

#[test]
fn every_failure_leaves_the_list_before_or_after(rt: HostRuntime) -> Result<(), Fail> {
    let alloc = rt.alloc();
    for call in 1..CALLS + 1 {
        let mut store = MemoryStore::new(alloc);
        store.fail_at(call);
        if let Some(done) = run(alloc, &mut store) {
            assert!(rt;
                is_before_or_after(alloc, &mut store, done)?,
                "failure at {call}"
            );
        }
    }
    Ok(())
}

/// A change to the bytes of the page's example, cut first and then written, and what opening answers: the place of
/// the damage or how many blocks there are.
const DAMAGES: [(usize, usize, &[u8], Result<u64, u64>); 15] = [
    (0, 0, b"", Err(0)),
    (10, 10, b"", Err(0)),
    (32, 32, b"", Err(32)),
    (40, 0, b"X", Err(0)),
    (40, 11, b"\x02", Err(0)),
    (40, 11, b"\x09", Err(0)),
    (40, 15, b"\x04", Err(0)),
    (40, 31, b"\x01", Err(0)),
    (40, 33, b"\xff", Err(33)),
    (36, 36, b"", Err(33)),
    (38, 38, b"", Err(33)),
    (39, 39, b"", Err(39)),
    (40, 32, b"\0", Ok(0)),
    (40, 32, b"\x02", Ok(1)),
    (40, 40, b"\xff\xff", Ok(1)),
];

#[test]
fn a_damage_is_named_by_its_first_byte(rt: HostRuntime) -> Result<(), Fail> {
    let alloc = rt.alloc();
    for (length, at, bytes, wanted) in DAMAGES {
        let mut store = MemoryStore::new(alloc);
        place(&mut store, &ONE_BLOCK[..length.min(40)])?;
        overwrite(&mut store, at as u64, bytes)?;
        let answer = match open(alloc, &mut store, AREA) {
            Ok(log) => Ok(log.count()),
            Err(LogFault::Damaged { area: AREA, at }) => Err(at),
            Err(_) => Err(99),
        };
        assert_eq!(rt; answer, wanted, "cut to {length}, byte {at}");
    }
    Ok(())
}

/// Puts the bytes at the front of the area.
fn place(store: &mut MemoryStore, bytes: &[u8]) -> Result<(), Failed> {
    store.write(AREA, 0, bytes)
}

/// Writes over the bytes from a place on, if it stands in the area.
fn overwrite(store: &mut MemoryStore, at: u64, bytes: &[u8]) -> Result<(), Failed> {
    if at <= store.size(AREA)? {
        store.write(AREA, at, bytes)?;
    }
    Ok(())
}
