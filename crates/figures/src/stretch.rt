// A stretch of a text, from its start or after an opening: counted from the starting state on, up to the next opening, a refusal or the
// end. Items are read whole, and runs of the lane are counted sixteen bytes at a time.
ghost use Rattle.std.specs.Prelude.{◌≡◌, length, Option};
ghost use Rattle.paper.specs.declared.Refused.{Refused};
ghost use Rattle.items.specs.States.{starting_cells};
ghost use Rattle.figures.specs.Counting.{Counts, end_after};
ghost use Rattle.figures.specs.Stretches.{stops_by, Onward, Ends};

use crate::counts::WordCounts;
use crate::run::count_run;
use escapes::effect::{Effect, ElementNumber, Word};
use items::item::read_item;
use items::letter::is_letter;
use items::state::{NONE, change, single, starting};
use lane::word_ahead;
use paper::{EndWord, Form, Refused};
use refusals::refusal_of;

// How a stretch ends: with an opening, by the place after it; with a refusal; or with the text.
#[derive(Clone, Copy)]
pub(crate) enum Ending {
    Opens { next: usize },
    Stops(Refused),
    Over(EndWord),
}

// The word at the end of a text that was read to its end: after a single shift it ends inside.
#[tactic(auto, using(paper::proofs::Tests::tests))]
fn end_after(taken: ElementNumber) -> EndWord
    ensures { result ≡ end_after taken.0 }
{
    if taken.0 == NONE {
        EndWord::Whole
    } else {
        EndWord::Inside
    }
}

// At an item that ends a stretch of a text of this length: an opening, a refusal, or the text ends inside, which is no answer.
fn stops(effect: Effect, place: usize, length: usize) -> Ending
    ensures { result ≡ stops_by effect place length }
{
    if effect.word == Word::OPENING {
        Ending::Opens { next: place }
    } else if place < length {
        let refusal = refusal_of(effect.value);
        Ending::Stops(Refused { refusal, place })
    } else {
        Ending::Over(EndWord::Inside)
    }
}

// The stretch from a place on.
pub(crate) fn stretch(form: Form, text: &[u8], place: usize, counts: &mut WordCounts) -> Ending
    requires { (first : Option Refused) × Counts form text.now starting_cells counts.old first place }
    ensures onward { Onward place result }
    ensures ends { (first : Option Refused) →
        Counts form text.now starting_cells counts.old first place →
        Ends form text.now counts.new first result }
{
    let mut state = starting();
    let mut here = place;
    // no `for`: an item goes on to the place after it
    while here < text.len() {
        if !is_letter(form, &state, text[here]) {
            let item = read_item(form, &state, text, here);
            // the words from a refusal's on that an item can have here: a refusal, an opening
            if item.effect.word.ends_stretch() {
                return stops(item.effect, item.place, text.len());
            }
            counts.add(item.effect.word, 1);
            change(&mut state, item.effect);
            here = item.place;
        } else if word_ahead(text, here) {
            here = count_run(form, &state, text, here, counts);
        } else {
            counts.add(Word::CHAR, 1);
            here += 1;
        }
    }
    Ending::Over(end_after(single(&state)))
}
