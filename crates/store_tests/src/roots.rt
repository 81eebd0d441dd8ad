//! The very bytes of roots, against the format page.

use checkpoint::{Root, format_roots, open_roots};
use std::alloc::Global;
use std::test::Fail;
use store_model::{MemoryStore, Store};

/// The format page's example of area 0: the first root, and one of a state of 49 bytes in area 1.
const TWO_ROOTS: [u8; 99] =
    *b"IBMIDBF1\0\0\0\x01\0\0\0\0\0\0\0\0\0\0\0\0\0\0\0\0\0\0\0\0\x01\0\0\0\x1c\0\0\0\0\0\0\0\0\0\0\0\0\0\0\0\0\0\0\0\0\0\0\0\x01\0\0\0\x01\x01\0\0\0\x1c\0\0\0\x01\0\0\0\0\0\0\0\x07\0\0\0\0\0\0\0\x31\0\0\0\x01\0\0\0\x03\0";

/// The second of them.
const SECOND: Root = Root {
    area: 1,
    sequence: 7,
    length: 49,
    first_receiver: 1,
    next_member: 3,
};

/// Formats area 0 and puts the second root, and gives the first one.
fn put_two<S: Store>(alloc: Global, store: &mut S) -> Result<Root, Fail> {
    store.cut(0, 0)?;
    store.sync(0)?;
    format_roots(alloc, store)?;
    let mut roots = open_roots(alloc, store)?;
    let first = roots.last();
    roots.reserve(1)?;
    roots.put_root(store, SECOND)?;
    Ok(first)
}

/// The whole of area 0.
fn contents<S: Store>(alloc: Global, store: &mut S) -> Result<Vec<u8>, Fail> {
    let size = store.size(0)?;
    let mut bytes = Vec::new(alloc);
    bytes.resize(size as usize, 0)?;
    store.read(0, 0, &mut bytes)?;
    Ok(bytes)
}

#[test]
fn roots_are_written_as_the_page_says(rt: HostRuntime) -> Result<(), Fail> {
    let alloc = rt.alloc();
    let mut store = MemoryStore::new(alloc);
    let first = put_two(alloc, &mut store)?;
    assert_eq!(rt;
        (first.area, first.first_receiver, first.next_member),
        (0, 1, 1)
    );
    assert_eq!(rt;
        contents(alloc, &mut store)?.as_slice(),
        TWO_ROOTS.as_slice()
    );
    let roots = open_roots(alloc, &mut store)?;
    assert_eq!(rt; roots.last(), SECOND);
    Ok(())
}
