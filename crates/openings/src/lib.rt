// The opening of each form: its bytes, how much of it has gone by with a byte more, whether it stands at a place of a text, and writing
// it.
#![tactic(auto)]

ghost use Rattle.std.specs.Prelude.{◌+◌, ◌<◌, ◌≤◌, ◌≡◌, length, drop};
ghost use Rattle.paper.specs.Starting.{opening_start, opening_end, opening};
ghost use Rattle.paper.specs.Searching.{begins_with, matched_with};
ghost use Rattle.std.specs.Int.{w64, from_le_bytes};
ghost use Rattle.std.specs.Str.{bytes_eq};
ghost use Rattle.openings.specs.Blocks.{eight};
ghost use Rattle.openings.specs.NextMatch.{opening_at, begun, begun_after, begun_at};
ghost use Rattle.openings.specs.InBuffers.{with_opening};

use codetable::{ESC, SI, SO};
use paper::Form;

// How many bytes of an opening stand before the final of the first sequence.
pub const BEFORE_FINAL: usize = 2;

// The bytes with which both openings begin.
const OPENING_START: [u8; 18] = [
    0x1B, 0x21, 0x40, 0x1B, 0x22, 0x43, 0x1B, 0x28, 0x42, 0x1B, 0x2D, 0x46, 0x1B, 0x2E, 0x41, 0x1B,
    0x2F, 0x4C,
];

// How many of them follow the first two.
const REST_OF_START: usize = OPENING_START.len() - BEFORE_FINAL;

// So many of those are compared at once, twice.
const AT_ONCE: usize = 8;

// The bytes that follow in each form, in which the forms differ.
const END_IN_SEVEN_BITS: [u8; 2] = [SO, SI];

const END_IN_EIGHT_BITS: [u8; 3] = [SI, ESC, 0x7E];

fn opening_end(form: Form) -> &'static [u8]
    ensures { result.now ≡ opening_end form }
{
    match form {
        Form::Seven => &END_IN_SEVEN_BITS,
        Form::Eight => &END_IN_EIGHT_BITS,
    }
}

pub fn opening_length(form: Form) -> u8
    ensures { result ≡ length (opening form) }
{
    (OPENING_START.len() + opening_end(form).len()) as u8
}

fn opening_at(form: Form, place: u8) -> u8
    requires { place < length (opening form) }
    ensures { result ≡ opening_at form place }
{
    let place = usize::from(place);
    if place < OPENING_START.len() {
        OPENING_START[place]
    } else {
        opening_end(form)[place - OPENING_START.len()]
    }
}

// What of an opening the byte begins.
#[tactic(auto, using(paper::proofs::Tests::tests), unfolding(crate::specs::NextMatch::begun))]
fn begun(byte: u8) -> u8
    ensures { result ≡ begun byte }
{
    u8::from(byte == ESC)
}

// After the opening's first byte its second may come; else the byte may begin it.
#[tactic(auto, using(paper::proofs::Tests::tests), unfolding(crate::specs::NextMatch::begun_after))]
fn begun_after(before: u8, byte: u8) -> u8
    ensures { result ≡ begun_after before byte }
{
    if before == ESC && byte == OPENING_START[1] {
        2
    } else {
        begun(byte)
    }
}

#[tactic(auto, using(paper::proofs::Tests::tests), unfolding(crate::specs::NextMatch::begun_at))]
fn begun_at(form: Form, matched: u8, byte: u8) -> u8
    requires { matched < length (opening form) }
    ensures { result ≡ begun_at form matched byte }
{
    if matched < 2 {
        begun(byte)
    } else {
        begun_after(opening_at(form, matched - 1), byte)
    }
}

// How much of the opening stands at the end, with one byte more. Most bytes come where nothing has gone by, which is asked first.
#[tactic(auto, using(paper::proofs::Tests::tests), unfolding(crate::specs::NextMatch::next_match))]
pub fn matched_with(form: Form, matched: u8, byte: u8) -> u8
    ensures { result ≡ matched_with form matched byte }
{
    if matched == 0 || matched >= opening_length(form) {
        begun(byte)
    } else if byte == opening_at(form, matched) {
        matched + 1
    } else {
        begun_at(form, matched, byte)
    }
}

// Eight bytes from a place on as one number, the first in its lowest place: so they are compared at once.
fn eight_at(bytes: &[u8], place: usize) -> u64
    requires { place + 8 ≤ length bytes.now }
    ensures { result ≡ from_le_bytes w64 (eight bytes.now place) }
{
    u64::from_le_bytes([
        bytes[place],
        bytes[place + 1],
        bytes[place + 2],
        bytes[place + 3],
        bytes[place + 4],
        bytes[place + 5],
        bytes[place + 6],
        bytes[place + 7],
    ])
}

// Whether sixteen bytes are those that follow the first two in both openings. As two numbers they take four instructions less for an opening than
// compared by the library, and the ends below ten less than one slice for both forms: dealer records have to keep their bar (docs/SPEED.md).
fn is_start(block: &[u8]) -> bool
    requires { length block.now ≡ 16 }
    ensures { result ≡ bytes_eq block.now (drop 2 opening_start) }
{
    eight_at(block, 0) == eight_at(&OPENING_START, BEFORE_FINAL)
        && eight_at(block, AT_ONCE) == eight_at(&OPENING_START, BEFORE_FINAL + AT_ONCE)
}

// Whether the rest of an opening stands at a place of a text, after its first two bytes, with which all but few sequences are told from it.
pub fn rest_ahead(form: Form, text: &[u8], place: usize) -> bool
    ensures { result ≡ begins_with (drop place text.now) (drop 2 (opening form)) }
{
    let Some(ahead) = text.get(place..) else {
        return false;
    };
    let Some(block) = ahead.get(..REST_OF_START) else {
        return false;
    };
    if !is_start(block) {
        return false;
    }
    // not by `opening_end`: an end whose length is known is compared at once
    let end = &ahead[REST_OF_START..];
    match form {
        Form::Seven => end.starts_with(&END_IN_SEVEN_BITS),
        Form::Eight => end.starts_with(&END_IN_EIGHT_BITS),
    }
}

// Writes the opening of a form from a place of a buffer on, where there is room for all of it.
pub fn put_opening(form: Form, buffer: &mut [u8], place: usize)
    ensures { buffer.new ≡ with_opening form buffer.old place }
{
    let length = usize::from(opening_length(form));
    if place > buffer.len() || buffer.len() - place < length {
        return;
    }
    let middle = place + OPENING_START.len();
    buffer[place..middle].copy_from_slice(&OPENING_START);
    buffer[middle..place + length].copy_from_slice(opening_end(form));
}
