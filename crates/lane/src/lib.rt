// The lane: runs of bytes that leave what is known of a text as it is, each a character, SPACE or a control. A byte passes that is at
// most a last plain byte and neither SO, SI nor ESC, or that stands within bounds. Sixteen bytes are tried at once.
#![tactic(auto)]

ghost use Rattle.std.specs.Prelude.{◌≡◌, length};
ghost use Rattle.lane.specs.Passing.{is_quiet, passes, pass_all, byte_ahead, block_ahead};
ghost use Rattle.lane.specs.Lanes.{plain_to, last_plain, lane_with, lane_of};
ghost use Rattle.lane.specs.Gaps.{has_gaps, gap_ahead, word_ahead};

use charsets::{DELETE, OF_94, OF_96, SPACE, Size, is_of_94, kind_of};
use codetable::{BIT_8, ESC, SI, SO, between};
use escapes::effect::{ElementNumber, G0, G1};
use items::state::{CELLS, left, right, size_in};
use paper::Form;

// How many bytes are tried at once.
pub const BLOCK: usize = 16;

// Bounds within which no byte stands. A block tries them in any case, where an `Option` would be asked first (docs/SPEED.md, What costs).
pub const FIRST_OF_NONE: u8 = 1;

pub const LAST_OF_NONE: u8 = 0;

// The last plain byte, and the bounds of the bytes that pass beside the plain ones. The bounds are no struct of their own: one of two bytes is
// copied as one number, and each is taken out by a shift (docs/SPEED.md, What costs).
#[derive(Clone, Copy)]
pub struct Lane {
    pub plain: u8,
    pub first: u8,
    pub last: u8,
}

// Plain bytes alone.
fn plain_to(plain: u8) -> Lane
    ensures { result ≡ plain_to plain }
{
    Lane {
        plain,
        first: FIRST_OF_NONE,
        last: LAST_OF_NONE,
    }
}

// The last byte of GL that is a position of a set of one byte, or SPACE; where there are several bytes to a character the last control.
#[tactic(auto, using(paper::proofs::Tests::tests), unfolding(crate::specs::Lanes::last_plain))]
fn last_plain(size: Size) -> u8
    ensures { result ≡ last_plain size.0 }
{
    match size.0 {
        OF_94 => DELETE - 1,
        OF_96 => DELETE,
        _ => SPACE - 1,
    }
}

// Beside the plain bytes the positions of a set of one byte in GR.
#[tactic(auto, using(paper::proofs::Tests::tests), unfolding(crate::specs::Lanes::lane_with))]
fn lane_with(plain: u8, size: Size) -> Lane
    ensures { result ≡ lane_with plain size.0 }
{
    match size.0 {
        OF_94 => Lane {
            plain,
            first: BIT_8 + SPACE + 1,
            last: BIT_8 + DELETE - 1,
        },
        OF_96 => Lane {
            plain,
            first: BIT_8 + SPACE,
            last: BIT_8 + DELETE,
        },
        _ => plain_to(plain),
    }
}

// What passes in a state on the ground: plain bytes by the set in GL, and in 8-bit form bytes of GR.
pub fn lane_of(form: Form, state: &[u8; CELLS]) -> Lane
    ensures { result ≡ lane_of form state.now }
{
    let plain = last_plain(size_in(state, left(state)));
    match form {
        Form::Seven => plain_to(plain),
        Form::Eight => lane_with(plain, size_in(state, right(state))),
    }
}

// Neither SO, SI nor ESC. Here and in `passes` all tests are made in any case, so that a compiler can make them for sixteen bytes at once.
fn is_quiet(byte: u8) -> bool
    ensures { result ≡ is_quiet byte }
{
    (byte != ESC) & !between(SO, SI, byte)
}

#[tactic(auto, unfolding(crate::specs::Passing::passes))]
fn passes(lane: Lane, byte: u8) -> bool
    ensures { result ≡ passes lane byte }
{
    between(lane.first, lane.last, byte) | ((byte <= lane.plain) & is_quiet(byte))
}

// The same for one byte, by as few tests as a letter takes.
#[tactic(auto, using(crate::proofs::PlainBytes::passes_from_space))]
fn passes_alone(lane: Lane, byte: u8) -> bool
    ensures { result ≡ passes lane byte }
{
    if lane.plain < byte {
        lane.first <= byte && byte <= lane.last
    } else {
        SPACE <= byte || is_quiet(byte) || between(lane.first, lane.last, byte)
    }
}

// Whether the byte at a place passes.
#[tactic(auto, using(paper::proofs::Tests::tests), unfolding(crate::specs::Passing::byte_ahead))]
pub fn byte_ahead(lane: Lane, text: &[u8], place: usize) -> bool
    ensures { result ≡ byte_ahead lane text.now place }
{
    place < text.len() && passes_alone(lane, text[place])
}

fn block_passes(lane: Lane, block: &[u8]) -> bool
    ensures { result ≡ pass_all lane block.now 0 (length block.now) }
{
    let mut all = true;
    for byte in block {
        all &= passes(lane, *byte);
    }
    all
}

// Whether there are sixteen bytes from a place on, and all of them pass.
pub fn block_ahead(lane: Lane, text: &[u8], place: usize) -> bool
    ensures { result ≡ block_ahead lane text.now place }
{
    let Some(ahead) = text.get(place..) else {
        return false;
    };
    let Some(block) = ahead.get(..BLOCK) else {
        return false;
    };
    block_passes(lane, block)
}

// Whether the state is what it was after SI, SPACE and SO: GL shows G1, and 2/0 is SPACE in G0.
#[tactic(auto, using(paper::proofs::Tests::tests), unfolding(crate::specs::Gaps::has_gaps))]
pub fn has_gaps(state: &[u8; CELLS]) -> bool
    ensures { result ≡ has_gaps state.now }
{
    left(state).0 == G1 && is_of_94(kind_of(size_in(state, ElementNumber(G0))))
}

// Whether SI, SPACE and SO stand at a place.
#[tactic(auto, using(paper::proofs::Tests::tests), unfolding(crate::specs::Gaps::gap_ahead))]
pub fn gap_ahead(text: &[u8], place: usize) -> bool
    ensures { result ≡ gap_ahead text.now place }
{
    matches!(text.get(place..), Some([SI, SPACE, SO, ..]))
}

// Whether a byte above SPACE follows the one at a place: mostly a word goes on.
#[tactic(auto, using(paper::proofs::Tests::tests), unfolding(crate::specs::Gaps::word_ahead))]
pub fn word_ahead(text: &[u8], place: usize) -> bool
    ensures { result ≡ word_ahead text.now place }
{
    matches!(text.get(place..), Some([_, next, ..]) if SPACE < *next)
}
