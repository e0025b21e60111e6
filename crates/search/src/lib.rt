// The search of a lost reader for the opening of its form.
#![tactic(auto)]

ghost use Rattle.std.specs.Prelude.{◌≡◌};
ghost use Rattle.paper.specs.Characters.{lost_with};
ghost use Rattle.paper.specs.Answering.{answer_searching, answer_lost};
ghost use Rattle.search.specs.NextOpening.{opening_after};

use openings::{matched_with, opening_length};
use paper::{Answer, Answered, Form, Reader, Standing};
use standing::standing_at;

// So much of the opening has gone by, and so many bytes are skipped: the opening is complete, or the search goes on.
#[tactic(auto, using(paper::proofs::Tests::tests))]
fn answer_searching(matched: u8, skipped: u16, reader: Reader) -> Answered
    ensures { result ≡ answer_searching matched skipped reader }
{
    if matched == opening_length(reader.form) {
        Answered {
            answer: Answer::InStep(skipped),
            reader: standing::start(reader.form),
        }
    } else {
        Answered {
            answer: Answer::Skipped,
            reader: standing_at(Standing::Lost { matched, skipped }, reader),
        }
    }
}

// A reader that is lost with this byte: the search begins with it.
#[tactic(auto, unfolding(paper::specs::Searching::one_more))]
pub fn lost_with(byte: u8, reader: Reader) -> Reader
    ensures { result ≡ lost_with byte reader }
{
    let matched = matched_with(reader.form, 0, byte);
    standing_at(
        Standing::Lost {
            matched,
            skipped: 1,
        },
        reader,
    )
}

// A byte given to a lost reader. The number of bytes skipped is counted up to the most that its type holds.
#[tactic(auto, using(crate::proofs::OneMore::one_more_is), unfolding(paper::specs::Answering::answer_lost))]
pub fn answer_lost(matched: u8, skipped: u16, byte: u8, reader: Reader) -> Answered
    ensures { result ≡ answer_lost matched skipped byte reader }
{
    answer_searching(
        matched_with(reader.form, matched, byte),
        skipped.saturating_add(1),
        reader,
    )
}

// The search of a reader that was refused at a place: the place after the next opening, if one comes.
#[tactic(auto, using(paper::proofs::Tests::tests))]
pub fn opening_after(form: Form, text: &[u8], place: usize) -> Option<usize>
    ensures { result ≡ opening_after form text.now place }
{
    let mut matched = 0;
    for here in place..text.len() {
        matched = matched_with(form, matched, text[here]);
        if matched == opening_length(form) {
            return Some(here + 1);
        }
    }
    None
}
