// Goes back over the codes of the units, and puts in place of each what is chosen there: for each element that GL may show, the one that it is
// to show while the unit is written.
ghost use Rattle.std.specs.Prelude.{◌+◌, ◌≤◌, ◌≡◌, ◌++◌, ltb, length, take, drop};
ghost use Rattle.paper.specs.Choice.{◌gives◌or◌};
ghost use Rattle.paper.specs.declared.Element.{Element};
ghost use Rattle.shortest.specs.ShortestText as text;
ghost use Rattle.shortest.specs.Shortening.{longest_input};
ghost use Rattle.shortener.specs.ByElements.{at_element, by_element, AtMost};
ghost use Rattle.shortener.specs.Codes.{count_in};
ghost use Rattle.shortener.specs.Choices.{is_before, chosen_by, choice_at, with_code, costs_with, choices_with, packed_choices, choice_in, choices_by};

use crate::by_element::{ByElement, element_at, index_of};
use crate::code::{Code, Place};
use paper::Element;

// A shift, by the element that it puts into GL, and what it costs to go on by way of it.
#[derive(Clone, Copy)]
struct Best {
    element: Element,
    cost: usize,
}

impl Best {
    fn or(self, element: Element, cost: usize) -> Best
        ensures { result ≡ (ltb cost self.cost gives record { element = element; cost = cost } or self) }
    {
        if cost < self.cost {
            Best { element, cost }
        } else {
            self
        }
    }
}

// The first in byte order of the shifts that cost least.
fn cheapest(costs: ByElement<usize>) -> Best
    requires { AtMost 0x1000000000 costs }
    ensures { (result.element ≡ text.cheapest (at_element costs)) ×
        (result.cost ≡ text.moving (at_element costs) (text.cheapest (at_element costs))) }
{
    let with = costs.moving();
    let first = Best {
        element: Element::G1,
        cost: with.at(Element::G1),
    };
    first
        .or(Element::G0, with.at(Element::G0))
        .or(Element::G2, with.at(Element::G2))
        .or(Element::G3, with.at(Element::G3))
}

// Whether bytes at a place come before a shift.
fn is_before(place: Place, element: Element) -> bool
    ensures { result ≡ is_before place element }
{
    match place {
        Place::First => true,
        Place::Middle => matches!(element, Element::G2 | Element::G3),
        Place::Last => false,
    }
}

// The element that GL is to show.
fn chosen(cost: usize, best: Best, place: Place, shown: Element) -> Element
    ensures { result ≡ chosen_by cost best.cost best.element place shown }
{
    if cost < best.cost || cost == best.cost && is_before(place, best.element) {
        shown
    } else {
        best.element
    }
}

#[derive(Clone, Copy)]
struct Turned {
    choices: ByElement<Element>,
    costs: ByElement<usize>,
}

// One unit, by what each element costs after it. That the count of a code has four bits stands in clauses: an enum has no ghost field, and a
// struct around it would be taken apart at each look.
fn turn(code: Code, later: ByElement<usize>) -> Turned
    requires { AtMost 0x100000000 later × (count_in code ≤ 15) }
    ensures choices_value { result.choices ≡ by_element (choice_at (with_code code (at_element later)) code) }
    ensures costs_value { result.costs ≡ by_element (text.least (with_code code (at_element later))) }
{
    let costs = code.costs().plus(later);
    let best = cheapest(costs);
    Turned {
        choices: ByElement::of(|shown| chosen(costs.at(shown), best, code.place(shown), shown)),
        costs: ByElement::of(|shown| costs.at(shown).min(best.cost)),
    }
}

fn nothing() -> ByElement<usize>
    ensures { result ≡ by_element (λ e. 0) }
{
    ByElement::of(|_| 0)
}

// Up to an opening nothing costs: it is written whole, and the output after it is its own.
fn turn_or_opening(code: Code, later: ByElement<usize>) -> Turned
    requires { AtMost 0x100000000 later × (count_in code ≤ 15) }
    ensures choices_value { result.choices ≡ by_element (choices_with code (at_element later)) }
    ensures costs_value { result.costs ≡ by_element (costs_with code (at_element later)) }
{
    if code.is_opening() {
        return Turned {
            choices: ByElement::of(|_| Element::G0),
            costs: nothing(),
        };
    }
    turn(code, later)
}

// The choices at a unit as a byte of the work buffer, which is memory that the caller lends, and the one where GL shows an element.
fn packed(choices: ByElement<Element>) -> u8
    ensures { result ≡ packed_choices (at_element choices) }
{
    index_of(choices.at(Element::G0))
        + 4 * index_of(choices.at(Element::G1))
        + 16 * index_of(choices.at(Element::G2))
        + 64 * index_of(choices.at(Element::G3))
}

pub(crate) fn choice(choices: u8, shown: Element) -> Element
    ensures { result ≡ choice_in choices shown }
{
    element_at(match shown {
        Element::G0 => choices % 4,
        Element::G1 => choices / 4 % 4,
        Element::G2 => choices / 16 % 4,
        Element::G3 => choices / 64,
    })
}

pub(crate) fn choose(work: &mut [u8], count: usize)
    requires { (count ≤ length work.old) × (count ≤ longest_input) }
    ensures { work.new ≡ choices_by (take count work.old) ++ drop count work.old }
{
    let mut later = nothing();
    for left in (0..count).rev() {
        let now = turn_or_opening(Code::unpacked(work[left]), later);
        work[left] = packed(now.choices);
        later = now.costs;
    }
}
