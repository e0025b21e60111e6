// The lane of the survey: runs of bytes that are each a character, SPACE or a control and leave the state as it is, counted sixteen at
// a time; and between words SI, SPACE and SO.
ghost use Rattle.std.specs.Prelude.{◌+◌, ◌-◌, ◌≤◌, ◌<◌, ◌≡◌, true, length, get_or, Option};
ghost use Rattle.paper.specs.declared.Refused.{Refused};
ghost use Rattle.escapes.specs.Effects.{word_number};
ghost use Rattle.items.specs.Letters.{is_letter};
ghost use Rattle.lane.specs.Lanes.{has_space, word_in};
ghost use Rattle.lane.specs.Passing.{byte_ahead};
ghost use Rattle.figures.specs.Counting.{tally, Takes, up_to, Fits, Counts, GoesOn};
ghost use Rattle.figures.specs.Runs.{LaneGoesOn};

use crate::counts::WordCounts;
use charsets::{SPACE, is_of_94, kind_of};
use escapes::effect::Word;
use items::state::{CELLS, left, size_in};
use lane::{BLOCK, Lane, block_ahead, byte_ahead, gap_ahead, has_gaps, lane_of};
use paper::Form;

// How many bytes of a run are counted one by one before blocks are tried: most words, and most names of dealers, are shorter.
const SINGLY: usize = 24;

// Whether 2/0 is SPACE.
fn has_space(state: &[u8; CELLS]) -> bool
    ensures { result ≡ has_space state.now }
{
    is_of_94(kind_of(size_in(state, left(state))))
}

// The word of 2/0.
#[tactic(auto, unfolding(lane::specs::Lanes::word_in))]
fn word_of_space(space: bool) -> Word
    ensures { word_number result ≡ word_in space 32 }
{
    if space { Word::SPACE } else { Word::CHAR }
}

// How many of the sixteen bytes from a place on are at most a bound. No chain: with `filter` and `count` a compiler makes no vector
// instructions of it, and Greek words took 17.9 instructions a byte to survey where they take 9.5.
#[tactic(auto, unfolding(crate::specs::Counting::up_to))]
fn up_to(bound: u8, text: &[u8], place: usize) -> u8
    requires { place + 16 ≤ length text.now }
    ensures { result ≡ up_to bound text.now place 16 }
{
    let mut count = 0;
    for byte in &text[place..place + BLOCK] {
        count += u8::from(*byte <= bound);
    }
    count
}

// What a run is counted by: its lane, whether 2/0 is SPACE, and the text.
#[derive(Clone, Copy)]
struct Run<'a> {
    lane: Lane,
    space: bool,
    text: &'a [u8],
}

impl Run<'_> {
    // What passed the lane: so many controls, so many low bytes, which are controls and 2/0, and so many bytes in all.
    fn add_passed(&self, controls: usize, low: usize, all: usize, counts: &mut WordCounts)
        requires { (controls ≤ low) × (low ≤ all) × Takes counts.old all }
        ensures { counts.new ≡ tally counts.old (word_in self.now.space 32) controls (low - controls) (all - low) }
    {
        counts.add(Word::CONTROL, controls);
        counts.add(word_of_space(self.space), low - controls);
        counts.add(Word::CHAR, all - low);
    }

    // Blocks of the lane from a place on: the place after them.
    fn count_blocks(&self, place: usize, counts: &mut WordCounts) -> usize
        requires { Fits self.now.text.now counts.old place }
        ensures lower_bound { place ≤ result }
        ensures lane_goes_on { LaneGoesOn self.now.lane self.now.space self.now.text.now counts.old place counts.new result }
    {
        let mut here = place;
        let mut controls: usize = 0;
        let mut low: usize = 0;
        // no chain over blocks: what passes ends at a place, and the next run begins there
        while block_ahead(self.lane, self.text, here) {
            controls += usize::from(up_to(SPACE - 1, self.text, here));
            low += usize::from(up_to(SPACE, self.text, here));
            here += BLOCK;
        }
        self.add_passed(controls, low, here - place, counts);
        here
    }

    // Bytes of the lane from a place on, one by one and at most so many, since most runs are words: the place after them.
    fn count_singly(&self, place: usize, counts: &mut WordCounts) -> usize
        requires { Fits self.now.text.now counts.old place }
        ensures lower_bound { (place ≤ result) × (byte_ahead self.now.lane self.now.text.now place ≡ true → place < result) }
        ensures lane_goes_on { LaneGoesOn self.now.lane self.now.space self.now.text.now counts.old place counts.new result }
    {
        let mut here = place;
        let mut controls: usize = 0;
        let mut low: usize = 0;
        let first = &self.text[..self.text.len().min(place + SINGLY)];
        // no chain: one pass makes both counts and finds the place after it
        while byte_ahead(self.lane, first, here) {
            let byte = first[here];
            if byte <= SPACE {
                controls += usize::from(byte < SPACE);
                low += 1;
            }
            here += 1;
        }
        self.add_passed(controls, low, here - place, counts);
        here
    }
}

// A run from a letter on, in blocks where it is long: the place after it.
pub(crate) fn count_run(
    form: Form,
    state: &[u8; CELLS],
    text: &[u8],
    place: usize,
    counts: &mut WordCounts,
) -> usize
    requires place_in_bounds { (place < length text.now) × (is_letter form state.now (get_or text.now place 0) ≡ true) }
    requires counts { (first : Option Refused) × Counts form text.now state.now counts.old first place }
    ensures lower_bound { place < result }
    ensures goes_on { GoesOn form text.now state.now counts.old place counts.new result }
{
    let run = Run {
        lane: lane_of(form, state),
        space: has_space(state),
        text,
    };
    let gaps = has_gaps(state);
    let mut here = place;
    // no `for`: a word and the gap after it have lengths of their own
    while here < text.len() {
        let start = here;
        here = run.count_singly(start, counts);
        if here == start + SINGLY {
            return run.count_blocks(here, counts);
        }
        if !gaps || !gap_ahead(text, here) {
            return here;
        }
        counts.add(Word::SHIFT, 1);
        counts.add(Word::SPACE, 1);
        counts.add(Word::SHIFT, 1);
        here += 3;
    }
    here
}
