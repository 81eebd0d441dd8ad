//! The numbers of the format, and the header. The page is docs/formats/log.md.
ghost use Rattle.std.specs.Prelude.{◌≡◌, ◌≢◌, ◌+◌, ◌≤◌, ◌++◌, [], ◌∷◌, ℕ, List, length, take, drop, MatchOption, IsTrue, ◌↔◌};
ghost use Rattle.gated_log.specs.Blocks.{header, MayBegin, HasNoHeader, frame, between};
ghost use Rattle.byteorder.specs.Endian.{big_bytes, big_number};

use byteorder::{BigEndian, ByteOrder};

/// What a header begins with.
pub const MAGIC: [u8; 8] = *b"IBMIDBF1";

/// The bytes of a header.
pub const HEADER: usize = 32;

/// A gate behind which no block counts.
pub const CLOSED: u8 = 0;

/// The gate that is written before a block that counts; any value but the closed one is open.
pub const OPEN: u8 = 1;

/// The bytes of a block's length.
pub const LENGTH: usize = 4;

/// The bytes of a frame: the length before a block, and the gate behind it.
pub const FRAME: usize = 5;

/// The longest block that may be appended.
pub const MAX_BLOCK: usize = 1 << 29;

/// The one version.
const VERSION: u32 = 1;

/// The areas of root records and checkpoints, which have no first sequence.
const LAST_WITHOUT_FIRST: u32 = 2;

/// What a header says besides its area.
#[derive(Clone, Copy)]
pub struct Head {
    pub first: u64,
    pub version: u32,
}

/// The header of an area's log.
pub fn header_of(area: u32, first: u64, version: u32) -> [u8; 32]
    ensures { result ≡ header area first version }
{
    let mut bytes = [0; HEADER];
    bytes[..8].copy_from_slice(&MAGIC);
    BigEndian::write_u32(&mut bytes[8..12], version);
    BigEndian::write_u32(&mut bytes[12..16], area);
    BigEndian::write_u64(&mut bytes[16..24], first);
    bytes
}

/// A header with a closed gate behind it.
pub fn empty_log(area: u32, first: u64, version: u32) -> [u8; 33]
    ensures { result ≡ header area first version ++ 0 ∷ [] }
{
    let mut bytes = [CLOSED; 33];
    bytes[..HEADER].copy_from_slice(&header_of(area, first, version));
    bytes
}

/// What these bytes say, if they are a header of this area.
pub fn head_of(area: u32, bytes: &[u8; 32]) -> Option<Head>
    ensures { MatchOption result (HasNoHeader area bytes.now) (λ head. MayBegin area head.first head.version × (bytes.now ≡ header area head.first head.version)) }
{
    let version = BigEndian::read_u32(&bytes[8..12]);
    let first = BigEndian::read_u64(&bytes[16..24]);
    if may_begin(area, first, version) && *bytes == header_of(area, first, version) {
        Some(Head { first, version })
    } else {
        None
    }
}

/// Whether the area's log may begin with this sequence in this version.
fn may_begin(area: u32, first: u64, version: u32) -> bool
    ensures { IsTrue result ↔ MayBegin area first version }
{
    version == VERSION && (area > LAST_WITHOUT_FIRST || first == 0)
}

/// The length behind a gate.
pub fn length_of(field: &[u8; 5]) -> u32
    ensures number { result ≡ big_number 4 (drop 1 field.now) }
    ensures bytes { drop 1 field.now ≡ big_bytes 4 result }
{
    BigEndian::read_u32(&field[1..])
}

/// Puts the frame round a block for which it has left room: the block's length into the four bytes before it, a closed
/// gate into the byte behind it.
pub fn put_frame(framed: &mut [u8])
    requires room { FRAME ≤ length framed.old }
    requires small { length framed.old ≤ MAX_BLOCK + FRAME }
    ensures { framed.new ≡ frame (between framed.old) }
{
    let block = framed.len() - FRAME;
    BigEndian::write_u32(&mut framed[..LENGTH], block as u32);
    framed[LENGTH + block] = CLOSED;
}
