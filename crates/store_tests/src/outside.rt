//! What no clause says: that calls succeed where memory is ample, and which images a store tries.
use std::alloc::Global;
use std::test::Fail;
use store_model::{
    Clock, Failed, Gate, MemorySink, MemorySource, MemoryStore, OpenGate, Point, ReadError, Sink,
    StepClock, Store, read_to_end, write_all,
};

/// The whole area.
fn contents<S: Store>(alloc: Global, store: &mut S, area: u32) -> Result<Vec<u8>, Fail> {
    let size = store.size(area)?;
    let mut bytes = Vec::new(alloc);
    bytes.resize(size as usize, 0)?;
    store.read(area, 0, &mut bytes)?;
    Ok(bytes)
}

/// Writes at the end of the area, as far as it goes.
fn add(store: &mut MemoryStore, area: u32, back: u64, bytes: &[u8]) -> Result<(), Failed> {
    let size = store.size(area)?;
    store.write(area, size.saturating_sub(back), bytes)
}

#[test]
fn a_source_is_read_to_its_end(rt: HostRuntime) -> Result<(), Fail> {
    let alloc = rt.alloc();
    let mut source = MemorySource::over(alloc, b"records")?;
    let bytes = read_to_end(alloc, &mut source, 7)?;
    assert_eq!(rt; bytes.as_slice(), b"records".as_slice());
    let mut long = MemorySource::over(alloc, b"records")?;
    assert!(rt; matches!(read_to_end(alloc, &mut long, 6), Err(ReadError::TooLong)));
    let mut faulty = MemorySource::over(alloc, b"records")?;
    faulty.fail_at(2);
    assert!(rt; matches!(read_to_end(alloc, &mut faulty, 7), Err(ReadError::Fault)));
    Ok(())
}

#[test]
fn a_sink_keeps_what_it_took(rt: HostRuntime) -> Result<(), Fail> {
    let alloc = rt.alloc();
    let mut sink = MemorySink::new(alloc);
    write_all(&mut sink, b"END")?;
    sink.fail_at(2);
    assert!(rt; write_all(&mut sink, b" 0").is_err());
    write_all(&mut sink, b" 1")?;
    assert_eq!(rt; sink.bytes(), b"END 1".as_slice());
    assert_eq!(rt; sink.write(b"")?, 0);
    Ok(())
}

#[test]
fn the_clock_steps_and_the_gate_is_open(rt: HostRuntime) -> Result<(), Fail> {
    let mut clock = StepClock::new();
    for moment in 0..3 {
        assert_eq!(rt; clock.now(), moment);
    }
    OpenGate.pass(1, 1, Point::Before);
    OpenGate.pass(1, 1, Point::After);
    Ok(())
}

/// What the images hold of the areas 0 and 1 after `root` in the one and `abcd` in the other, a sync of both, `XYZW`
/// over the last two bytes of area 1, `gh` at its end and `!?` at the end of area 0.
const IMAGES: [(&[u8], &[u8]); 8] = [
    (b"root", b"abcd"),
    (b"root!?", b"abXYZWgh"),
    (b"root!?", b"abcd"),
    (b"root!", b"abcd"),
    (b"root", b"abXYZW"),
    (b"root", b"abXY"),
    (b"root", b"abcd\0\0gh"),
    (b"root", b"abcd\0\0g"),
];

#[test]
fn the_images_of_a_store(rt: HostRuntime) -> Result<(), Fail> {
    let alloc = rt.alloc();
    let mut store = MemoryStore::new(alloc);
    add(&mut store, 0, 0, b"root")?;
    add(&mut store, 1, 0, b"abcd")?;
    store.sync(0)?;
    store.sync(1)?;
    add(&mut store, 1, 2, b"XYZW")?;
    add(&mut store, 1, 0, b"gh")?;
    add(&mut store, 0, 0, b"!?")?;
    let mut images = store.stop_images(alloc)?;
    assert_eq!(rt; images.len(), 8);
    for (image, (root, other)) in images.iter_mut().zip(IMAGES) {
        assert_eq!(rt; contents(alloc, image, 0)?.as_slice(), root);
        assert_eq!(rt; contents(alloc, image, 1)?.as_slice(), other);
        assert_eq!(rt; image.size(2)?, 0);
    }
    Ok(())
}

#[test]
fn a_store_fails_and_stops_where_it_is_told_to(rt: HostRuntime) -> Result<(), Fail> {
    let alloc = rt.alloc();
    let mut store = MemoryStore::new(alloc);
    add(&mut store, 3, 0, b"block")?;
    store.fail_at(4);
    assert!(rt; add(&mut store, 3, 0, b"!").is_err());
    assert_eq!(rt;
        contents(alloc, &mut store, 3)?.as_slice(),
        b"block".as_slice()
    );
    store.cut(3, 0)?;
    store.stop_at(8);
    assert!(rt; store.sync(3).is_err());
    assert!(rt; store.size(3).is_err());
    Ok(())
}
