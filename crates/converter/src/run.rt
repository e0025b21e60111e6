// The lane of a conversion: runs of bytes that are written in one byte each and leave the state as it is, copied sixteen at a time;
// and between words, what stands there for a space.
ghost use Rattle.std.specs.Prelude.{ℕ, ◌+◌, ◌-◌, ◌*◌, ◌≤◌, ◌<◌, ◌≡◌, true, List, length, get_or};
ghost use Rattle.std.proofs.lemmas.List.Edits.{sets};
ghost use Rattle.paper.specs.Refusals.{longest_text};
ghost use Rattle.paper.specs.declared.Form.{Form};
ghost use Rattle.items.specs.States.{single_in};
ghost use Rattle.converter.specs.Passing.{Passes};
ghost use Rattle.converter.specs.Runs.{low_as_it_is, low_raised, high_lowered, way_of, copied_by, copied_bytes, Copies, gap_in_seven, has_gaps};
ghost use Rattle.converter.specs.Runs.{space_ahead, gap_ahead, gap_length, gap_bytes, in_one_byte, Begins};
ghost use Rattle.lane.specs.Lanes.{first_position, last_position, plain_to};

use crate::conversion::Conversion;
use crate::put::put_byte;
use charsets::{DELETE, OF_94, OF_96, SPACE, kind_of};
use codetable::{BIT_8, SI, SO, between};
use escapes::effect::{ElementNumber, G0, G1, G2};
use items::state::{CELLS, element_of, left, right, size_in};
use lane::{BLOCK, FIRST_OF_NONE, LAST_OF_NONE, Lane, block_ahead, byte_ahead, word_ahead};
use paper::{Form, Kind};

// What passes, and the bounds of the bytes that are written with bit 8 changed.
#[derive(Clone, Copy)]
struct Way {
    lane: Lane,
    first: u8,
    last: u8,
}

// The first and the last position of a set of one byte in GL.
fn first_position(kind: Kind) -> u8
    ensures { result ≡ first_position kind }
{
    match kind {
        Kind::Of94 => SPACE + 1,
        Kind::Of96 => SPACE,
    }
}

fn last_position(kind: Kind) -> u8
    ensures { result ≡ last_position kind }
{
    match kind {
        Kind::Of94 => DELETE - 1,
        Kind::Of96 => DELETE,
    }
}

// The lane of the plain bytes alone. `lane` has this line too: a public function for it would be longer than both.
fn plain_to(plain: u8) -> Lane
    ensures { result ≡ plain_to plain }
{
    Lane {
        plain,
        first: FIRST_OF_NONE,
        last: LAST_OF_NONE,
    }
}

// Bytes of GL, as they are.
fn low_as_it_is() -> Way
    ensures { result ≡ low_as_it_is }
{
    Way {
        lane: plain_to(DELETE - 1),
        first: FIRST_OF_NONE,
        last: LAST_OF_NONE,
    }
}

// Positions of a set in GL are written in GR, all else below 128 as it is.
fn low_raised(kind: Kind) -> Way
    ensures { result ≡ low_raised kind }
{
    let last = last_position(kind);
    Way {
        lane: plain_to(last),
        first: first_position(kind),
        last,
    }
}

// Positions of a set in GR are written in GL, and controls as they are.
fn high_lowered(kind: Kind) -> Way
    ensures { result ≡ high_lowered kind }
{
    let first = BIT_8 + first_position(kind);
    let last = BIT_8 + last_position(kind);
    Way {
        lane: Lane {
            plain: SPACE - 1,
            first,
            last,
        },
        first,
        last,
    }
}

// The way of a run, by the letter that it begins with.
#[tactic(auto, using(paper::proofs::Tests::tests), unfolding(crate::specs::Runs::way_of))]
fn way_of(to: Form, state: &[u8; CELLS], byte: u8) -> Way
    ensures { result ≡ way_of to state.now byte }
{
    let element = element_of(state, byte);
    let kind = kind_of(size_in(state, element));
    match to {
        Form::Seven if byte >= BIT_8 => high_lowered(kind),
        Form::Eight if element.0 == G1 => low_raised(kind),
        _ => low_as_it_is(),
    }
}

// With bit 8 changed where it is to be.
#[tactic(auto, using(paper::proofs::Tests::tests), unfolding(crate::specs::Runs::copied_by))]
fn copied(way: Way, byte: u8) -> u8
    ensures { result ≡ copied_by way byte }
{
    if between(way.first, way.last, byte) {
        byte ^ BIT_8
    } else {
        byte
    }
}

// Sixteen bytes, put together beside the buffer, so that a compiler need not fear that it is the text.
fn copy_block(way: Way, text: &[u8], place: usize, buffer: &mut [u8], at: usize)
    requires { (place + 16 ≤ length text.now) × (at + 16 ≤ length buffer.old) }
    ensures { buffer.new ≡ sets buffer.old at (copied_bytes way text.now place 16) }
{
    let mut block = [0u8; BLOCK];
    block.copy_from_slice(&text[place..place + BLOCK]);
    for byte in &mut block {
        *byte = copied(way, *byte);
    }
    buffer[at..at + BLOCK].copy_from_slice(&block);
}

// Where a run ends, in the text and in the output. No struct has the buffer and the place in it: what a run and a stretch give back is the
// second alone, so each call would take the struct apart, and what each promises of the buffer would be said of its exit.
#[derive(Clone, Copy)]
pub(crate) struct Run {
    pub(crate) place: usize,
    pub(crate) at: usize,
}

// Whether SPACE in GL takes SI, and the letter of GR after it SO.
#[tactic(auto, using(paper::proofs::Tests::tests), unfolding(crate::specs::Runs::gap_in_seven))]
fn gap_in_seven(state: &[u8; CELLS]) -> bool
    ensures { result ≡ gap_in_seven state.now }
{
    left(state).0 == G0
        && right(state).0 == G1
        && size_in(state, ElementNumber(G0)).0 == OF_94
        && size_in(state, ElementNumber(G1)).0 == OF_96
}

// Whether a space between words can be written with the shifts around it, for words that begin with this letter.
#[tactic(auto, using(paper::proofs::Tests::tests), unfolding(crate::specs::Runs::has_gaps))]
fn has_gaps(to: Form, state: &[u8; CELLS], byte: u8) -> bool
    ensures { result ≡ has_gaps to state.now byte }
{
    match to {
        Form::Seven => byte >= BIT_8 && gap_in_seven(state),
        Form::Eight => lane::has_gaps(state),
    }
}

// Whether SPACE stands at a place before a letter of GR.
#[tactic(auto, using(paper::proofs::Tests::tests), unfolding(crate::specs::Runs::space_ahead))]
fn space_ahead(text: &[u8], place: usize) -> bool
    requires { place ≤ length text.now }
    ensures { result ≡ space_ahead text.now place }
{
    match &text[place..] {
        [SPACE, next, ..] => between(
            BIT_8 + first_position(Kind::Of94),
            BIT_8 + last_position(Kind::Of94),
            *next,
        ),
        _ => false,
    }
}

// Whether a letter of an element is written in one byte.
#[tactic(auto, using(paper::proofs::Tests::tests), unfolding(crate::specs::Runs::in_one_byte))]
fn in_one_byte(to: Form, shown: ElementNumber, element: ElementNumber, byte: u8) -> bool
    ensures { result ≡ in_one_byte to shown.0 element.0 byte }
{
    match to {
        Form::Seven => element.0 == shown.0,
        Form::Eight => byte < BIT_8 && element.0 < G2,
    }
}

impl Conversion<'_> {
    // Blocks of the lane from a place on: the place after them.
    fn copy_blocks(self, way: Way, place: usize, buffer: &mut [u8], at: usize) -> usize
        requires { (place ≤ length self.text.now) × (at ≤ 7 * longest_text) }
        ensures lower_bound { (place ≤ result) × (result ≤ length self.entry.text.now) }
        ensures by_index { let c = self.entry in
            (cells : List ℕ) →
            (shown : ℕ) →
            (lent : List ℕ) →
            single_in cells ≡ 0 →
            Copies c.form c.to cells shown c.text.now way →
            Passes c.form c.to c.text.now lent cells shown at place buffer.old →
            Passes c.form c.to c.text.now lent cells shown (at + (result - place)) result buffer.new }
    {
        let mut here = place;
        let mut put = at;
        // a block is asked for by its place, as the survey does; chunks of the text would need the lane's test once more
        while block_ahead(way.lane, self.text, here) {
            if put + BLOCK <= buffer.len() {
                copy_block(way, self.text, here, buffer, put);
            }
            here += BLOCK;
            put += BLOCK;
        }
        here
    }

    // To 7-bit form SPACE before a letter of GR, to 8-bit form SI, SPACE and SO.
    fn gap_ahead(self, place: usize) -> bool
        requires { place ≤ length self.text.now }
        ensures { result ≡ gap_ahead self.entry.to self.entry.text.now place }
    {
        match self.to {
            Form::Seven => space_ahead(self.text, place),
            Form::Eight => lane::gap_ahead(self.text, place),
        }
    }

    // Writes a gap where there is room for it: where the text and the output go on.
    fn over_gap(self, place: usize, buffer: &mut [u8], at: usize) -> Run
        requires { (gap_ahead self.to self.text.now place ≡ true) × (at ≤ 7 * longest_text) }
        ensures place_value { let c = self.entry in
            (result.place ≡ place + gap_length c.to) × (result.at ≡ at + length (gap_bytes c.to c.text.now place)) }
        ensures buffer_after { let c = self.entry in
            at + length (gap_bytes c.to c.text.now place) ≤ length buffer.old →
            buffer.new ≡ sets buffer.old at (gap_bytes c.to c.text.now place) }
    {
        match self.to {
            Form::Seven => {
                if at + 4 <= buffer.len() {
                    buffer[at..at + 4].copy_from_slice(&[
                        SI,
                        SPACE,
                        SO,
                        self.text[place + 1] - BIT_8,
                    ]);
                }
                Run {
                    place: place + 2,
                    at: at + 4,
                }
            }
            Form::Eight => {
                put_byte(buffer, at, SPACE);
                Run {
                    place: place + 3,
                    at: at + 1,
                }
            }
        }
    }

    // A run of the lane from a letter on, byte by byte at first, since most runs are words: blocks are tried after so many bytes.
    pub(crate) fn copy_run(
        self,
        state: &[u8; CELLS],
        place: usize,
        buffer: &mut [u8],
        at: usize,
    ) -> Run
        requires { (place < length self.text.now) × (at ≤ 3 * longest_text) }
        ensures place_in_bounds { result.place ≤ length self.entry.text.now }
        ensures by_index { let c = self.entry in
            (shown : ℕ) →
            (lent : List ℕ) →
            Begins c.form c.to state.now shown (get_or c.text.now place 0) →
            Passes c.form c.to c.text.now lent state.now shown at place buffer.old →
            (place < result.place) ×
            Passes c.form c.to c.text.now lent state.now shown result.at result.place buffer.new }
    {
        let byte = self.text[place];
        let way = way_of(self.to, state, byte);
        let gaps = has_gaps(self.to, state, byte);
        let mut here = place;
        let mut put = at;
        let mut blocks_at = place + BLOCK;
        // no iterator: a gap is two or three bytes, and blocks begin within the run
        while here < self.text.len() {
            if byte_ahead(way.lane, self.text, here) {
                if here == blocks_at {
                    let end = self.copy_blocks(way, here, buffer, put);
                    return Run {
                        place: end,
                        at: put + (end - here),
                    };
                }
                put_byte(buffer, put, copied(way, self.text[here]));
                here += 1;
                put += 1;
            } else if gaps && self.gap_ahead(here) {
                let gap = self.over_gap(here, buffer, put);
                here = gap.place;
                put = gap.at;
                blocks_at = here + BLOCK;
            } else {
                return Run {
                    place: here,
                    at: put,
                };
            }
        }
        Run {
            place: here,
            at: put,
        }
    }

    // Whether a run begins with the letter at a place, of an element: it is written in one byte, and a byte above SPACE follows.
    pub(crate) fn begins_run(
        self,
        element: ElementNumber,
        shown: ElementNumber,
        place: usize,
    ) -> bool
        requires { place < length self.text.now }
        ensures { let c = self.entry in
            result ≡ true → in_one_byte c.to shown.0 element.0 (get_or c.text.now place 0) ≡ true }
    {
        word_ahead(self.text, place) && in_one_byte(self.to, shown, element, self.text[place])
    }
}
