// The bytes of an item, or of what is written for it, at most five. They stand in one number, the first in its lowest place, so that a
// piece is handed over in two registers; `one` and `in_front` (docs/PROMISES.md) speak of both fields.
ghost use Rattle.std.specs.Prelude.{◌≡◌, ◌+◌, ◌*◌, ◌<◌, ◌≤◌, [], ◌∷◌};
ghost use Rattle.items.specs.Pieces.{bytes_in, one_byte, front, filled};

// The places of the number from its second on.
pub const SECOND: u64 = 0x100;

pub const THIRD: u64 = 0x10000;

pub const FOURTH: u64 = 0x1000000;

pub const FIFTH: u64 = 0x100000000;

// Below this a number has room for one place more.
const ROOM: u64 = 0x100000000000000;

#[derive(Clone, Copy)]
pub struct Piece {
    pub count: usize,
    pub bytes: u64,
}

impl Piece {
    // Fills a room with its bytes; in a room as long as the piece those are all. A loop, since the low bytes copied as a slice are a call:
    // 147 instructions a byte of a two-byte set where this takes 144, and 89 to 83 of escapes.
    pub fn put(self, room: &mut [u8])
        ensures { room.new ≡ filled self room.old }
    {
        let mut bytes = self.bytes;
        for place in room {
            *place = (bytes % SECOND) as u8;
            bytes /= SECOND;
        }
    }
}

#[tactic(auto, unfolding(crate::specs::Pieces::bytes_in))]
pub(crate) fn nothing() -> Piece
    ensures { (bytes_in result ≡ []) × (result.count ≡ 0) × (result.bytes ≡ 0) }
{
    Piece { count: 0, bytes: 0 }
}

#[tactic(auto, unfolding(crate::specs::Pieces::bytes_in))]
pub fn one(first: u8) -> Piece
    ensures { (result ≡ one_byte first) × (bytes_in result ≡ first ∷ []) × (result.count ≡ 1) × (result.bytes < 0x100) }
{
    Piece {
        count: 1,
        bytes: u64::from(first),
    }
}

// A byte in front of a piece. What has no room is dropped; a piece that is written has room.
#[tactic(auto, unfolding(crate::specs::Pieces::bytes_in))]
pub fn in_front(byte: u8, piece: Piece) -> Piece
    ensures value { result ≡ front byte piece }
    ensures result_value { piece.count ≤ 6 →
        piece.bytes < 0x100000000000000 →
        (bytes_in result ≡ byte ∷ bytes_in piece) × (result.count ≡ piece.count + 1) × (result.bytes ≡ piece.bytes * 0x100 + byte) }
{
    Piece {
        count: piece.count.wrapping_add(1),
        bytes: piece.bytes % ROOM * SECOND + u64::from(byte),
    }
}

// Each is one byte in front of the one before. One function for every length would be a loop over them: two lines for one.
pub(crate) fn two(first: u8, second: u8) -> Piece
    ensures { (bytes_in result ≡ first ∷ second ∷ []) × (result.count ≡ 2) × (result.bytes < 0x10000) }
{
    in_front(first, one(second))
}

pub(crate) fn three(first: u8, second: u8, third: u8) -> Piece
    ensures { (bytes_in result ≡ first ∷ second ∷ third ∷ []) × (result.count ≡ 3) × (result.bytes < 0x1000000) }
{
    in_front(first, two(second, third))
}

pub(crate) fn four(first: u8, second: u8, third: u8, fourth: u8) -> Piece
    ensures { (bytes_in result ≡ first ∷ second ∷ third ∷ fourth ∷ []) × (result.count ≡ 4) × (result.bytes < 0x100000000) }
{
    in_front(first, three(second, third, fourth))
}
