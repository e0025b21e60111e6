// A value for each element that GL can show.
ghost use Rattle.std.specs.Prelude.{◌+◌, ◌≡◌, length};
ghost use Rattle.paper.specs.Results.{element_number};
ghost use Rattle.paper.specs.declared.Element.{Element};
ghost use Rattle.shortest.specs.ShortestText as text;
ghost use Rattle.shortener.specs.ByElements.{at_element, by_element, AtMost, lowest_of, index_of, element_at, element_of};

use escapes::effect::{ElementNumber, G0, G1, G2, G3};
use paper::Element;

#[derive(Clone, Copy)]
pub(crate) struct ByElement<T> {
    g0: T,
    g1: T,
    g2: T,
    g3: T,
}

impl<T: Copy> ByElement<T> {
    // What is said of each.
    pub(crate) fn of<F: Fn(Element) -> T>(value: F) -> ByElement<T>
        requires { (e : Element) → F.pre value e }
        ensures in_g0 { F.post value Element.G0 result.g0 }
        ensures in_g1 { F.post value Element.G1 result.g1 }
        ensures in_g2 { F.post value Element.G2 result.g2 }
        ensures in_g3 { F.post value Element.G3 result.g3 }
    {
        ByElement {
            g0: value(Element::G0),
            g1: value(Element::G1),
            g2: value(Element::G2),
            g3: value(Element::G3),
        }
    }

    pub(crate) fn at(self, element: Element) -> T
        ensures { result ≡ at_element self element }
    {
        match element {
            Element::G0 => self.g0,
            Element::G1 => self.g1,
            Element::G2 => self.g2,
            Element::G3 => self.g3,
        }
    }
}

impl ByElement<usize> {
    pub(crate) fn lowest(self) -> usize
        ensures { result ≡ lowest_of (at_element self) }
    {
        self.g0.min(self.g1).min(self.g2).min(self.g3)
    }

    pub(crate) fn plus(self, other: ByElement<usize>) -> ByElement<usize>
        requires { AtMost 0x100000000 self × AtMost 0x100000000 other }
        ensures { result ≡ by_element (λ e. at_element self e + at_element other e) }
    {
        ByElement::of(|element| self.at(element) + other.at(element))
    }

    // By way of a locking shift.
    pub(crate) fn moving(self) -> ByElement<usize>
        requires { AtMost 0x1000000000 self }
        ensures { result ≡ by_element (text.moving (at_element self)) }
    {
        ByElement::of(|element| shift_length(element) + self.at(element))
    }
}

// How many bytes put an element into GL: SI and SO one, LS2 and LS3 two.
pub(crate) fn shift_length(element: Element) -> usize
    ensures { result ≡ length (text.shift_to element) }
{
    match element {
        Element::G0 | Element::G1 => 1,
        Element::G2 | Element::G3 => 2,
    }
}

// Its place from G0 on, and back. No `From`, here and below, which has to stand with one of its types, and none of these is of this crate.
pub(crate) fn index_of(element: Element) -> u8
    ensures { result ≡ index_of element }
{
    element as u8
}

pub(crate) fn element_at(index: u8) -> Element
    ensures { result ≡ element_at index }
{
    match index {
        0 => Element::G0,
        1 => Element::G1,
        2 => Element::G2,
        _ => Element::G3,
    }
}

// Its number in the paper, and back.
pub(crate) fn number_of(element: Element) -> ElementNumber
    ensures { result.0 ≡ element_number element }
{
    ElementNumber(match element {
        Element::G0 => G0,
        Element::G1 => G1,
        Element::G2 => G2,
        Element::G3 => G3,
    })
}

#[tactic(auto, using(paper::proofs::Tests::tests), unfolding(crate::specs::ByElements::element_of))]
pub(crate) fn element_of(number: ElementNumber) -> Element
    ensures { result ≡ element_of number.0 }
{
    match number.0 {
        G0 => Element::G0,
        G1 => Element::G1,
        G2 => Element::G2,
        _ => Element::G3,
    }
}
