// Weighs an accepted text: the length of its shortest text, from what it costs to have come so far with each element in GL. The codes of its
// units go into the work buffer where there is room.
ghost use Rattle.std.specs.Prelude.{ℕ, ◌<◌, ◌≤◌, ◌≡◌, List, length};
ghost use Rattle.paper.specs.LentBuffers.{over};
ghost use Rattle.paper.specs.Conversions.{Accepted};
ghost use Rattle.shortest.specs.Shortening.{longest_input, shortest_text};
ghost use Rattle.shortener.specs.ByElements.{at_element, by_element, AtMost};
ghost use Rattle.shortener.specs.Codes.{cost_by, count_in};
ghost use Rattle.shortener.specs.Ways as specs;
ghost use Rattle.shortener.specs.Weighing.{all_codes, opening_more, answer_more, more, put, Bounded, Weighing};

use crate::by_element::{ByElement, shift_length};
use crate::code::Code;
use crate::input::Input;
use crate::under::{Unit, code_of, is_unit};
use escapes::effect::Word;
use items::state::{CELLS, change, starting};
use openings::opening_length;
use paper::{Element, Form};

// How far a text has been weighed: the place in it, how many units there are, the output up to the last opening, and what it costs since.
#[derive(Clone, Copy)]
pub(crate) struct Weighed {
    pub(crate) place: usize,
    pub(crate) count: usize,
    pub(crate) length: usize,
    pub(crate) ways: ByElement<usize>,
}

// At the start and after an opening GL shows G0, and one shift leads anywhere else.
fn first_ways() -> ByElement<usize>
    ensures { result ≡ by_element specs.first_ways }
{
    ByElement::of(|element| match element {
        Element::G0 => 0,
        _ => shift_length(element),
    })
}

// With one unit more, and then a shift where that costs less.
fn further(ways: ByElement<usize>, code: Code) -> ByElement<usize>
    requires { AtMost 0x10000000 ways × (count_in code ≤ 15) }
    ensures { result ≡ by_element (specs.further (at_element ways) (cost_by code)) }
{
    let with = ways.plus(code.costs());
    let least = with.lowest();
    ByElement::of(|element| with.at(element).min(least + shift_length(element)))
}

// An opening.
fn over_opening(weighed: Weighed, next: usize, work: &mut [u8]) -> Weighed
    requires { Bounded weighed × (weighed.place ≤ longest_input) }
    ensures value { result ≡ more weighed next work.old (opening_more weighed next) }
    ensures work_after { work.new ≡ put weighed work.old Code.Opening }
{
    let on = Weighed {
        place: next,
        count: weighed.count + 1,
        ..weighed
    };
    if weighed.count < work.len() {
        work[weighed.count] = Code::Opening.packed();
        return on;
    }
    Weighed {
        length: weighed.length + weighed.ways.lowest() + usize::from(opening_length(Form::Seven)),
        ways: first_ways(),
        ..on
    }
}

// An answer that has this code. It stays beside `over_opening`: in one function the code would be tested again, and only the first half is shared.
fn over_answer(weighed: Weighed, next: usize, code: Code, work: &mut [u8]) -> Weighed
    requires { Bounded weighed × (weighed.place ≤ longest_input) × (count_in code ≤ 15) }
    ensures value { result ≡ more weighed next work.old (answer_more weighed next code) }
    ensures work_after { work.new ≡ put weighed work.old code }
{
    let on = Weighed {
        place: next,
        count: weighed.count + 1,
        ..weighed
    };
    if weighed.count < work.len() {
        work[weighed.count] = code.packed();
        return on;
    }
    Weighed {
        ways: further(weighed.ways, code),
        ..on
    }
}

impl Input<'_> {
    // The item at a place: a unit of its own, or a shift.
    fn weigh_item(self, state: &mut [u8; CELLS], weighed: Weighed, work: &mut [u8]) -> Weighed
        requires place_in_bounds { weighed.place < length self.text.now }
        requires by_index { (lent : List ℕ) × Weighing self.form self.text.now lent state.old weighed work.old }
        ensures place_lt_place { weighed.place < result.place }
        ensures by_index_2 { let c = self.entry in
            (lent : List ℕ) →
            Weighing c.form c.text.now lent state.old weighed work.old →
            Weighing c.form c.text.now lent state.new result work.new }
    {
        let item = self.next_item(state, weighed.place);
        let effect = item.effect;
        if effect.word == Word::OPENING {
            *state = starting();
            return over_opening(weighed, item.place, work);
        }
        if is_unit(effect.word) {
            let unit = Unit {
                effect,
                piece: item.piece,
            };
            let code = code_of(state, unit);
            change(state, effect);
            return over_answer(weighed, item.place, code, work);
        }
        change(state, effect);
        Weighed {
            place: item.place,
            ..weighed
        }
    }

    // Over an accepted text: the length of its shortest text where there is no room for codes, or else how many units there are. Each of
    // the two calls takes one of these numbers; they stay fields of one struct, since one pass counts both.
    pub(crate) fn weigh(self, work: &mut [u8]) -> Weighed
        requires { Accepted self.form self.text.now }
        ensures length_value { let c = self.entry in
            length work.old ≡ 0 → result.length ≡ length (shortest_text c.form c.text.now) }
        ensures work_after { let c = self.entry in
            length c.text.now ≤ length work.old →
            (work.new ≡ over (all_codes c.form c.text.now) work.old) ×
            (result.count ≡ length (all_codes c.form c.text.now)) ×
            (result.count ≤ length c.text.now) }
    {
        let mut state = starting();
        let mut weighed = Weighed {
            place: 0,
            count: 0,
            length: 0,
            ways: first_ways(),
        };
        // a `while`: where the next item begins is known only once this one is read
        while weighed.place < self.text.len() {
            weighed = self.weigh_item(&mut state, weighed, work);
        }
        Weighed {
            length: weighed.length + weighed.ways.lowest(),
            ..weighed
        }
    }
}
