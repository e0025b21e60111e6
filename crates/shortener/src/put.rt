// Writes the output, unit by unit, by what was chosen for each.
ghost use Rattle.std.specs.Prelude.{ℕ, ◌+◌, ◌<◌, ◌≤◌, ◌≡◌, List, ◌++◌, length};
ghost use Rattle.std.proofs.lemmas.List.Edits.{sets};
ghost use Rattle.items.specs.Pieces.{bytes_in};
ghost use Rattle.paper.specs.Starting.{opening};
ghost use Rattle.paper.specs.LentBuffers.{over};
ghost use Rattle.paper.specs.declared.Form.{Form};
ghost use Rattle.paper.specs.Conversions.{Accepted};
ghost use Rattle.shortest.specs.Shortening.{longest_input, shortest_text};
ghost use Rattle.shortener.specs.Choices.{choices_by};
ghost use Rattle.shortener.specs.Weighing.{all_codes};
ghost use Rattle.shortener.specs.Putting.{bytes_for, answer_put, opening_put, Putting};

use crate::choose::choice;
use crate::input::Input;
use crate::under::{Unit, bytes_under, is_unit, led};
use escapes::effect::Word;
use items::state::{CELLS, change, starting};
use openings::{opening_length, put_opening};
use paper::{Element, Form};

// The place in the text, the unit, what is written, and what GL shows there.
#[derive(Clone, Copy)]
struct Written {
    place: usize,
    unit: usize,
    at: usize,
    shown: Element,
}

// An opening.
fn put_opening_at(written: Written, next: usize, buffer: &mut [u8]) -> Written
    requires { (written.at + length (opening Form.Seven) ≤ length buffer.old) × (written.unit ≤ longest_input) }
    ensures value { result ≡ opening_put written next }
    ensures buffer_after { buffer.new ≡ sets buffer.old written.at (opening Form.Seven) }
{
    put_opening(Form::Seven, buffer, written.at);
    Written {
        place: next,
        unit: written.unit + 1,
        at: written.at + usize::from(opening_length(Form::Seven)),
        shown: Element::G0,
    }
}

// An answer, after the shift that was chosen for it.
fn put_answer(written: Written, next: usize, unit: Unit, buffer: &mut [u8], work: &[u8]) -> Written
    requires unit_in_bounds { written.unit < length work.now }
    requires piece_in_bounds { written.at + length (bytes_for work.now written unit.effect (bytes_in unit.piece)) ≤ length buffer.old }
    ensures value { result ≡ answer_put work.now written next unit.effect (bytes_in unit.piece) }
    ensures buffer_after { buffer.new ≡
        sets buffer.old written.at (bytes_for work.now written unit.effect (bytes_in unit.piece)) }
{
    let element = choice(work[written.unit], written.shown);
    let bytes = led(written.shown, element, bytes_under(element, unit));
    bytes.put(&mut buffer[written.at..written.at + bytes.count]);
    Written {
        place: next,
        unit: written.unit + 1,
        at: written.at + bytes.count,
        shown: element,
    }
}

impl Input<'_> {
    // The item at a place: an opening, an answer, or a shift, of which nothing is written. Beside `weigh_item`, which shares the three tests
    // alone: a code is of the state before the item changes it, so one function would take what to do in each case as three closures. A
    // struct of its parameters would be made for this call alone.
    fn put_item(
        self,
        state: &mut [u8; CELLS],
        written: Written,
        buffer: &mut [u8],
        work: &[u8],
    ) -> Written
        requires place_in_bounds { written.place < length self.text.now }
        requires by_index { (lent : List ℕ) × Putting self.form self.text.now lent work.now state.old written buffer.old }
        ensures place_lt_place { written.place < result.place }
        ensures by_index_2 { let c = self.entry in
            (lent : List ℕ) →
            Putting c.form c.text.now lent work.now state.old written buffer.old →
            Putting c.form c.text.now lent work.now state.new result buffer.new }
    {
        let item = self.next_item(state, written.place);
        let effect = item.effect;
        if effect.word == Word::OPENING {
            *state = starting();
            return put_opening_at(written, item.place, buffer);
        }
        change(state, effect);
        if is_unit(effect.word) {
            let unit = Unit {
                effect,
                piece: item.piece,
            };
            return put_answer(written, item.place, unit, buffer, work);
        }
        Written {
            place: item.place,
            ..written
        }
    }

    // The shortest text of an accepted text, into a buffer that has room for it.
    pub(crate) fn put_units(self, buffer: &mut [u8], work: &[u8])
        requires accepted { Accepted self.form self.text.now }
        requires text_in_bounds { length (shortest_text self.form self.text.now) ≤ length buffer.old }
        requires by_index { (rest : List ℕ) × (work.now ≡ choices_by (all_codes self.form self.text.now) ++ rest) }
        ensures { buffer.new ≡ over (shortest_text self.entry.form self.entry.text.now) buffer.old }
    {
        let mut state = starting();
        let mut written = Written {
            place: 0,
            unit: 0,
            at: 0,
            shown: Element::G0,
        };
        // a `while`: where the next item begins is known only once this one is read
        while written.place < self.text.len() {
            written = self.put_item(&mut state, written, buffer, work);
        }
    }
}
