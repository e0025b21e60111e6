// The reader: one byte in, one answer and the reader for the next byte out. Every reader value has its answer, also one that
// no text leads to. Who reads a text begins and ends it here too: `start` and `end_word` are handed on.
#![tactic(auto)]

mod character;
mod given;
mod sequence;

ghost use Rattle.std.specs.Prelude.{◌≡◌};
ghost use Rattle.paper.specs.Answering.{ground_at, answer_within, answer_in_step, answer_to};
ghost use Rattle.paper.specs.CodeTable.{area_of};
ghost use Rattle.paper.specs.Searching.{matched_with};
ghost use Rattle.paper.specs.Marks.{unless_complete};
ghost use Rattle.reader.specs.Recording.{with_record, recorded_in};

use codetable::{LAST_OF_C0, LAST_OF_C1, LAST_OF_GL};
use given::refuse;
use openings::{matched_with, opening_length};
use paper::{Answered, Form, Reader, Refusal, Standing, Within};
use standing::recording;
pub use standing::{end_word, start};

// The answer to one byte, and the reader for the next.
pub fn read(reader: Reader, byte: u8) -> Answered
    ensures { result ≡ answer_to reader byte }
{
    let plain = recording(0, reader);
    match reader.standing {
        Standing::InStep(within) => {
            recorded_in(
                record_with(reader.form, reader.gone, byte),
                answer_in_step(within, byte, plain),
            )
        }
        Standing::Lost { matched, skipped } => {
            with_record(0, search::answer_lost(matched, skipped, byte, plain))
        }
    }
}

// What is recorded with a byte: how much of the opening has gone by, and nothing after a mark.
#[tactic(auto, using(paper::proofs::Tests::tests))]
fn record_with(form: Form, gone: u8, byte: u8) -> u8
    ensures { result ≡ unless_complete form (matched_with form gone byte) }
{
    let now = matched_with(form, gone, byte);
    if now == opening_length(form) { 0 } else { now }
}

fn with_record(gone: u8, answered: Answered) -> Answered
    ensures { result ≡ with_record gone answered }
{
    Answered {
        reader: recording(gone, answered.reader),
        ..answered
    }
}

// What a reader in step has recorded after an answer: where it is lost then, nothing.
fn recorded_in(gone: u8, answered: Answered) -> Answered
    ensures { result ≡ recorded_in gone answered }
{
    match answered.reader.standing {
        Standing::InStep(_) => with_record(gone, answered),
        Standing::Lost { .. } => with_record(0, answered),
    }
}

// A byte that the form does not have is refused before all others.
#[tactic(auto, unfolding(paper::specs::Answering::answer_in_step))]
fn answer_in_step(within: Within, byte: u8, reader: Reader) -> Answered
    ensures { result ≡ answer_in_step within byte reader }
{
    if codetable::form_has(reader.form, byte) {
        answer_within(within, byte, reader)
    } else {
        refuse(Refusal::ByteOfEightBits, byte, reader)
    }
}

fn answer_within(within: Within, byte: u8, reader: Reader) -> Answered
    ensures { result ≡ answer_within within byte reader }
{
    match within {
        Within::Ground => answer_on_ground(byte, reader),
        Within::Sequence(intermediates) => sequence::next_byte(intermediates, byte, reader),
        Within::SingleShift(element) => {
            let set = charsets::set_in(reader.sets, element);
            character::single_byte(element, set, byte, reader)
        }
        Within::Character(element, area, bytes) => {
            let set = charsets::set_in(reader.sets, element);
            character::later_byte(element, set, area, bytes, byte, reader)
        }
    }
}

// By the byte's column: C0, GL, C1 or GR. The tests are those of `codetable::area_of`, made here so that no area is handed over
// to be looked at again.
#[tactic(auto, using(paper::proofs::Tests::tests), unfolding(paper::specs::CodeTable::column_area, paper::specs::CodeTable::position_of))]
fn answer_on_ground(byte: u8, reader: Reader) -> Answered
    ensures { result ≡ ground_at (area_of byte) byte reader }
{
    let column = byte / 16;
    if column <= LAST_OF_C0 {
        return sequence::c0_byte(byte, reader);
    }
    if column <= LAST_OF_GL {
        return character::shown_in_gl(byte, reader);
    }
    if column <= LAST_OF_C1 {
        return sequence::c1_byte(byte, reader);
    }
    character::shown_in_gr(byte, reader)
}
