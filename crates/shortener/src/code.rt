// The code of a unit: what it costs, by what GL shows, and whether it comes before a locking shift in byte order. In the work buffer, which
// is memory that the caller lends (request #108), a code is a byte.
ghost use Rattle.std.specs.Prelude.{◌≤◌, ◌≡◌};
ghost use Rattle.paper.specs.declared.Element.{Element};
ghost use Rattle.shortener.specs.ByElements.{by_element};
ghost use Rattle.shortener.specs.Codes.{character_cost, cost_by, place_by, is_opening, count_in, kind_bit, kind_at, mask_of, place_at};
ghost use Rattle.shortener.specs.Codes as codes;

use crate::by_element::{ByElement, element_at, index_of};
use paper::{Element, Kind};

// In byte order: before SO, between SI and LS2, after LS3.
#[derive(Clone, Copy)]
pub(crate) enum Place {
    First,
    Middle,
    Last,
}

#[derive(Clone, Copy)]
pub(crate) enum Code {
    // a character, by its element and its number of bytes
    Character(Element, u8),
    // by the kinds of the sets, since a set of 94 type holds them
    SpaceOrDelete(ByElement<Kind>),
    // what is written alike whatever GL shows, by its place and its number of bytes
    Alike(Place, u8),
    Opening,
}

const OF_SPACE_OR_DELETE: u8 = 0x40;

const OF_ALIKE: u8 = 0x80;

const OF_OPENING: u8 = 0xFF;

const ROW: u8 = 16;

// More than a shift, an answer and a shift back cost.
const FAR: usize = 16;

// What a single shift costs.
const SINGLE_SHIFT: usize = 2;

fn character_cost(own: Element, shown: Element, count: u8) -> usize
    ensures { result ≡ character_cost own shown count }
{
    let count = usize::from(count);
    match own {
        _ if own == shown => count,
        Element::G0 | Element::G1 => FAR,
        Element::G2 | Element::G3 => count + SINGLE_SHIFT,
    }
}

impl Code {
    fn cost(self, shown: Element) -> usize
        ensures { result ≡ cost_by self shown }
    {
        match self {
            Code::Character(own, count) => character_cost(own, shown, count),
            Code::SpaceOrDelete(kinds) => match kinds.at(shown) {
                Kind::Of94 => 1,
                Kind::Of96 => FAR,
            },
            Code::Alike(_, count) => usize::from(count),
            Code::Opening => 0,
        }
    }

    pub(crate) fn costs(self) -> ByElement<usize>
        ensures { result ≡ by_element (cost_by self) }
    {
        ByElement::of(|shown| self.cost(shown))
    }

    // Where its bytes stand. Those of a character of G2 or G3 begin with a single shift where GL shows another.
    pub(crate) fn place(self, shown: Element) -> Place
        ensures { result ≡ place_by self shown }
    {
        match self {
            Code::Character(own, _) => match own {
                Element::G2 | Element::G3 if own != shown => Place::Middle,
                _ => Place::Last,
            },
            Code::Alike(place, _) => place,
            Code::SpaceOrDelete(_) | Code::Opening => Place::Last,
        }
    }

    pub(crate) fn is_opening(self) -> bool
        ensures { result ≡ is_opening self }
    {
        matches!(self, Code::Opening)
    }

    // no `From`, which can have no `requires`; `unpacked` is named to match
    #[tactic(auto, unfolding(crate::specs::Codes::packed))]
    pub(crate) fn packed(self) -> u8
        requires { count_in self ≤ 15 }
        ensures { result ≡ codes.packed self }
    {
        match self {
            Code::Character(own, count) => ROW * index_of(own) + count,
            Code::SpaceOrDelete(kinds) => OF_SPACE_OR_DELETE + mask_of(kinds),
            Code::Alike(place, count) => OF_ALIKE + ROW * (place as u8) + count,
            Code::Opening => OF_OPENING,
        }
    }

    #[tactic(auto, using(paper::proofs::Tests::tests), unfolding(crate::specs::Codes::unpacked))]
    pub(crate) fn unpacked(byte: u8) -> Code
        ensures { result ≡ codes.unpacked byte }
    {
        let count = byte % ROW;
        if byte < OF_SPACE_OR_DELETE {
            return Code::Character(element_at(byte / ROW), count);
        }
        if byte < OF_ALIKE {
            return Code::SpaceOrDelete(kinds_by(count));
        }
        if byte == OF_OPENING {
            return Code::Opening;
        }
        Code::Alike(place_at(byte / ROW - OF_ALIKE / ROW), count)
    }
}

fn kind_bit(kind: Kind) -> u8
    ensures { (result ≡ kind_bit kind) × (result ≤ 1) }
{
    match kind {
        Kind::Of94 => 1,
        Kind::Of96 => 0,
    }
}

fn kind_at(bit: u8) -> Kind
    ensures { result ≡ kind_at bit }
{
    match bit {
        1 => Kind::Of94,
        _ => Kind::Of96,
    }
}

fn place_at(number: u8) -> Place
    ensures { result ≡ place_at number }
{
    match number {
        0 => Place::First,
        1 => Place::Middle,
        _ => Place::Last,
    }
}

// A bit for each element that holds a set of 94 type, and back.
fn mask_of(kinds: ByElement<Kind>) -> u8
    ensures { (result ≡ mask_of kinds) × (result ≤ 15) }
{
    kind_bit(kinds.at(Element::G0))
        + 2 * kind_bit(kinds.at(Element::G1))
        + 4 * kind_bit(kinds.at(Element::G2))
        + 8 * kind_bit(kinds.at(Element::G3))
}

fn kinds_by(mask: u8) -> ByElement<Kind>
    ensures { result ≡ by_element (λ e. kind_at (codes.bit_of mask e)) }
{
    ByElement::of(|element| {
        kind_at(match element {
            Element::G0 => mask % 2,
            Element::G1 => mask / 2 % 2,
            Element::G2 => mask / 4 % 2,
            Element::G3 => mask / 8,
        })
    })
}
