//! A root record, and its bytes. `roots.rt` has the log of them.
ghost use Rattle.std.specs.Prelude.{◌≡◌, ◌↔◌, length, IsTrue, MatchOption};
ghost use Rattle.gated_log.specs.Blocks.{frame};
ghost use Rattle.checkpoint.specs.Roots.{IsNoRoot, IsRoot, first_root, root_bytes};

use byteorder::{BigEndian, ByteOrder};
use gated_log::{FRAME, put_frame};

/// The bytes of a root.
pub const ROOT_BYTES: usize = 28;

/// The areas from 1 to this one hold saved states.
pub const LAST_STATE_AREA: u32 = 2;

/// The number of the first receiver that a journal ever has.
pub const FIRST_RECEIVER: u32 = 1;

/// No receiver has a greater number.
pub const MAX_FIRST_RECEIVER: u32 = 100_000;

/// The number of the first member that a library ever has.
pub const FIRST_MEMBER: u32 = 1;

/// One more than the greatest number of a member.
pub const MAX_NEXT_MEMBER: u32 = 4_000_000_001;

/// What a restart begins with.
#[derive(Clone, Copy, Debug, PartialEq)]
pub struct Root {
    /// The area of the saved state, 1 or 2; 0 where none is saved.
    pub area: u32,
    /// The sequence of the last journal entry that the state has taken in.
    pub sequence: u64,
    /// The bytes of the state's entries.
    pub length: u64,
    /// The number of the first receiver that is kept.
    pub first_receiver: u32,
    /// The number that the next member gets.
    pub next_member: u32,
}

/// The root that a store is formatted with.
pub(crate) const FIRST_ROOT: Root = Root {
    area: 0,
    sequence: 0,
    length: 0,
    first_receiver: FIRST_RECEIVER,
    next_member: FIRST_MEMBER,
};

/// The bytes of a root.
fn bytes_of(root: &Root) -> [u8; 28]
    ensures { result ≡ root_bytes root.now }
{
    let mut bytes = [0; ROOT_BYTES];
    BigEndian::write_u32(&mut bytes[..4], root.area);
    BigEndian::write_u64(&mut bytes[4..12], root.sequence);
    BigEndian::write_u64(&mut bytes[12..20], root.length);
    BigEndian::write_u32(&mut bytes[20..24], root.first_receiver);
    BigEndian::write_u32(&mut bytes[24..], root.next_member);
    bytes
}

/// The block of a root, in its frame.
pub(crate) fn framed_root(root: &Root) -> [u8; 33]
    ensures { result ≡ frame (root_bytes root.now) }
{
    let mut framed = [0; ROOT_BYTES + FRAME];
    framed[4..32].copy_from_slice(&bytes_of(root));
    put_frame(&mut framed);
    framed
}

/// The root that a block is.
pub(crate) fn root_of(block: &[u8]) -> Option<Root>
    ensures { MatchOption result (IsNoRoot block.now) (λ root. IsRoot root × (block.now ≡ root_bytes root)) }
{
    if block.len() != ROOT_BYTES {
        return None;
    }
    let root = Root {
        area: BigEndian::read_u32(&block[..4]),
        sequence: BigEndian::read_u64(&block[4..12]),
        length: BigEndian::read_u64(&block[12..20]),
        first_receiver: BigEndian::read_u32(&block[20..24]),
        next_member: BigEndian::read_u32(&block[24..28]),
    };
    if is_root(&root) && block == bytes_of(&root).as_slice() {
        Some(root)
    } else {
        None
    }
}

/// Whether the numbers are in their ranges.
fn is_root(root: &Root) -> bool
    ensures { IsTrue result ↔ IsRoot root.now }
{
    let Root {
        area,
        sequence,
        length,
        first_receiver,
        next_member,
    } = *root;
    let names_none = area == 0;
    let has_none = sequence == 0 && length == 0;
    area <= LAST_STATE_AREA
        && FIRST_RECEIVER <= first_receiver
        && first_receiver <= MAX_FIRST_RECEIVER
        && FIRST_MEMBER <= next_member
        && next_member <= MAX_NEXT_MEMBER
        && (!names_none || has_none)
}
