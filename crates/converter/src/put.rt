// Writes into a lent buffer where there is room.
ghost use Rattle.std.specs.Prelude.{◌+◌, ◌*◌, ◌≤◌, ◌<◌, ◌≡◌, length, set};
ghost use Rattle.std.proofs.lemmas.List.Edits.{sets};
ghost use Rattle.paper.specs.Refusals.{longest_text};
ghost use Rattle.items.specs.Pieces.{bytes_in};

use items::piece::Piece;

// Writes a piece where there is room for it. `get_mut` for the test does not prove: of what a slice holds after it nothing is known.
pub(crate) fn put_if_room(buffer: &mut [u8], at: usize, piece: Piece)
    requires { (at ≤ 3 * longest_text) × (piece.count ≤ 5) }
    ensures { at + piece.count ≤ length buffer.old →
        buffer.new ≡ sets buffer.old at (bytes_in piece) }
{
    if at + piece.count <= buffer.len() {
        piece.put(&mut buffer[at..at + piece.count]);
    }
}

// Writes a byte where there is room for it.
pub(crate) fn put_byte(buffer: &mut [u8], at: usize, byte: u8)
    ensures { at < length buffer.old → buffer.new ≡ set buffer.old at byte }
{
    if at < buffer.len() {
        buffer[at] = byte;
    }
}
