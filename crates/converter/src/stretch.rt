// A stretch of a text, from its start or after an opening: read from the starting state, up to the next opening, a refusal or the end.
// Openings are met between stretches, so that a text without them is not slowed by them.
ghost use Rattle.std.specs.Prelude.{ℕ, ◌≤◌, ◌≡◌, List, length};
ghost use Rattle.paper.specs.Results.{element_number};
ghost use Rattle.paper.specs.declared.Element.{Element};
ghost use Rattle.items.specs.States.{starting_cells};
ghost use Rattle.converter.specs.Passes.{at_the_end};
ghost use Rattle.converter.specs.Passing.{Passes};
ghost use Rattle.converter.specs.Stretches.{stops_by, Onward, Ends};

use crate::conversion::Conversion;
use crate::put::put_if_room;
use crate::written::{write, write_character};
use codetable::BIT_8;
use escapes::effect::{Effect, ElementNumber, G0, Word};
use items::item::read_item;
use items::letter::is_letter;
use items::piece::one;
use items::state::{NONE, change, element_of, single, starting};
use paper::{Refusal, Refused};
use refusals::refusal_of;

// How a stretch ends: the length of the output, and where an opening ends it, the place after that.
#[derive(Clone, Copy)]
pub(crate) struct Ending {
    pub(crate) at: usize,
    pub(crate) next: Option<usize>,
}

// At the end of the text: 7 after a single shift.
#[tactic(auto, using(paper::proofs::Tests::tests))]
fn at_the_end(taken: ElementNumber, at: usize, place: usize) -> Result<usize, Refused>
    ensures { result ≡ at_the_end taken.0 at place }
{
    if taken.0 == NONE {
        Ok(at)
    } else {
        Err(Refused {
            refusal: Refusal::EndsInside,
            place,
        })
    }
}

// At an item that ends a stretch, a refusal or an opening.
fn stops(effect: Effect, place: usize, at: usize) -> Result<Ending, Refused>
    ensures { result ≡ stops_by effect place at }
{
    if effect.word == Word::REFUSED {
        return Err(Refused {
            refusal: refusal_of(effect.value),
            place,
        });
    }
    Ok(Ending {
        at,
        next: Some(place),
    })
}

impl Conversion<'_> {
    // The stretch from a place on.
    pub(crate) fn stretch(
        self,
        place: usize,
        buffer: &mut [u8],
        at: usize,
    ) -> Result<Ending, Refused>
        requires { (lent : List ℕ) ×
            Passes self.form self.to self.text.now lent starting_cells (element_number Element.G0) at place buffer.old }
        ensures onward { Onward place result }
        ensures by_index { let c = self.entry in
            (lent : List ℕ) →
            Passes c.form c.to c.text.now lent starting_cells (element_number Element.G0) at place buffer.old →
            Ends c.form c.to c.text.now lent result buffer.new }
    {
        let mut state = starting();
        let mut shown = ElementNumber(G0);
        let mut put = at;
        let mut here = place;
        // no index is counted: an item and a run say where the next begins
        while here < self.text.len() {
            let byte = self.text[here];
            if is_letter(self.form, &state, byte) {
                let element = element_of(&state, byte);
                if self.begins_run(element, shown, here) {
                    let run = self.copy_run(&state, here, buffer, put);
                    put = run.at;
                    here = run.place;
                } else {
                    let letter = write_character(self.to, shown, element, one(byte % BIT_8));
                    put_if_room(buffer, put, letter.piece);
                    put += letter.piece.count;
                    shown = letter.shown;
                    here += 1;
                }
            } else {
                let item = read_item(self.form, &state, self.text, here);
                let effect = item.effect;
                // the words from a refusal's on that an item can have here: a refusal, an opening
                if effect.word.ends_stretch() {
                    return stops(effect, item.place, put);
                }
                let written = write(self.to, shown, &state, effect, item.piece);
                put_if_room(buffer, put, written.piece);
                put += written.piece.count;
                shown = written.shown;
                change(&mut state, effect);
                here = item.place;
            }
        }
        let at = at_the_end(single(&state), put, here)?;
        Ok(Ending { at, next: None })
    }
}
