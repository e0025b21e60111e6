// Sets and elements: the sets that a text starts with, what an element has, designating into an element, and what a position
// byte is to a set.
#![tactic(auto)]

ghost use Rattle.std.specs.Prelude.{◌≡◌};
ghost use Rattle.paper.specs.Sets.{size_of, bytes_of, position_byte, set_byte, set_in, controls_in, designated};
ghost use Rattle.paper.specs.Sets.{designated_controls};
ghost use Rattle.paper.specs.Starting.{latin, greek, starting_sets};
ghost use Rattle.paper.specs.Characters.{byte_in, position_in};
ghost use Rattle.paper.specs.declared.GraphicArea.{GraphicArea};
ghost use Rattle.charsets.specs.Sizes.{one_byte, kind_of, count_of, is_one, is_of94};

use codetable::{BIT_8, between};
use paper::{ControlElement, Count, Element, GraphicArea, Kind, Set, SetByte, Sets};

// The Final Bytes of the two mapped sets, 94 F 4/2 and 96 F 4/6.
pub const LATIN_FINAL: u8 = 0x42;

pub const GREEK_FINAL: u8 = 0x46;

// 2/0 and 7/15: SPACE and DELETE under 94 type, positions of the set under 96 type.
pub const SPACE: u8 = 0x20;

pub const DELETE: u8 = 0x7F;

// A set of one byte to a character.
fn one_byte(kind: Kind, last: u8) -> Set
    ensures { result ≡ one_byte kind last }
{
    Set {
        kind,
        count: Count::One,
        last,
    }
}

// 94 F 4/2, the Latin set.
pub fn latin() -> Set
    ensures { result ≡ latin }
{
    one_byte(Kind::Of94, LATIN_FINAL)
}

// 96 F 4/6, the Greek set.
pub fn greek() -> Set
    ensures { result ≡ greek }
{
    one_byte(Kind::Of96, GREEK_FINAL)
}

// What each element has at the start of a text.
pub fn starting_sets() -> Sets
    ensures { result ≡ starting_sets }
{
    Sets {
        c0: 0x40,
        c1: 0x43,
        g0: latin(),
        g1: greek(),
        g2: one_byte(Kind::Of96, 0x41),
        g3: one_byte(Kind::Of96, 0x4C),
    }
}

// The positions that one byte of a set of this kind can take.
pub fn size_of(kind: Kind) -> u8
    ensures { result ≡ size_of kind }
{
    match kind {
        Kind::Of94 => 94,
        Kind::Of96 => 96,
    }
}

// How many bytes there are to a character.
pub fn bytes_of(count: Count) -> u8
    ensures { result ≡ bytes_of count }
{
    match count {
        Count::One => 1,
        Count::Two => 2,
        Count::Three => 3,
    }
}

// The size of a set, kind and count, in one number: twice the bytes to a character after the first, and one more for 96 type. A byte
// and no enum: the value of a cell in a row of bytes, and `kind_of`, `count_of` and `is_one` (docs/PROMISES.md) answer for any.
#[derive(Clone, Copy)]
pub struct Size(pub u8);

pub const OF_94: u8 = 0;

pub const OF_96: u8 = 1;

pub const TWO_BYTES: u8 = 2;

pub const THREE_BYTES: u8 = 4;

#[tactic(auto, using(paper::proofs::Tests::tests), unfolding(crate::specs::Sizes::kind_of))]
pub fn kind_of(size: Size) -> Kind
    ensures { result ≡ kind_of size.0 }
{
    if size.0 % 2 == OF_94 {
        Kind::Of94
    } else {
        Kind::Of96
    }
}

#[tactic(auto, using(paper::proofs::Tests::tests), unfolding(crate::specs::Sizes::count_of))]
pub fn count_of(size: Size) -> Count
    ensures { result ≡ count_of size.0 }
{
    if size.0 < TWO_BYTES {
        return Count::One;
    }
    if size.0 < THREE_BYTES {
        return Count::Two;
    }
    Count::Three
}

// Whether there is one byte to a character.
#[tactic(auto, unfolding(crate::specs::Sizes::is_one))]
pub fn is_one(size: Size) -> bool
    ensures { result ≡ is_one size.0 }
{
    size.0 < TWO_BYTES
}

// Whether a kind is 94.
pub fn is_of_94(kind: Kind) -> bool
    ensures { result ≡ is_of94 kind }
{
    kind == Kind::Of94
}

// What a byte of columns 2 to 7 is to a set of a kind.
#[tactic(auto, using(paper::proofs::Tests::tests))]
fn position_byte(kind: Kind, byte: u8) -> SetByte
    ensures { result ≡ position_byte kind byte }
{
    match (kind, byte) {
        (Kind::Of94, SPACE) => SetByte::OfSpace,
        (Kind::Of94, DELETE) => SetByte::OfDelete,
        _ => SetByte::OfSet,
    }
}

// What a byte, taken as a position byte, is to a set of a kind.
#[tactic(auto, unfolding(paper::specs::Sets::set_byte))]
pub fn set_byte(kind: Kind, byte: u8) -> SetByte
    ensures { result ≡ set_byte kind byte }
{
    if between(SPACE, DELETE, byte) {
        position_byte(kind, byte)
    } else {
        SetByte::Outside
    }
}

// The same of a byte of GL. 2/1 to 7/14 are positions of every set and most of a text, so they are tried first.
#[tactic(auto, using(crate::proofs::PositionsOfEverySet::position_of_set), unfolding(paper::specs::Characters::byte_in))]
fn byte_in_gl(kind: Kind, byte: u8) -> SetByte
    ensures { result ≡ byte_in GraphicArea.GL kind byte }
{
    if SPACE < byte && byte < DELETE {
        SetByte::OfSet
    } else {
        set_byte(kind, byte)
    }
}

// What a byte is to a set of a kind whose characters come from an area.
#[tactic(auto, using(paper::proofs::Tests::tests), unfolding(paper::specs::Characters::byte_in))]
pub fn byte_in(area: GraphicArea, kind: Kind, byte: u8) -> SetByte
    ensures { result ≡ byte_in area kind byte }
{
    match area {
        GraphicArea::GL => byte_in_gl(kind, byte),
        GraphicArea::GR if BIT_8 <= byte => byte_in_gl(kind, byte % BIT_8),
        GraphicArea::GR => SetByte::Outside,
    }
}

// The 7-bit position byte.
pub fn position_in(area: GraphicArea, byte: u8) -> u8
    ensures { result ≡ position_in area byte }
{
    match area {
        GraphicArea::GL => byte,
        GraphicArea::GR => byte % BIT_8,
    }
}

// The set that an element has.
pub fn set_in(sets: Sets, element: Element) -> Set
    ensures { result ≡ set_in sets element }
{
    match element {
        Element::G0 => sets.g0,
        Element::G1 => sets.g1,
        Element::G2 => sets.g2,
        Element::G3 => sets.g3,
    }
}

// The Final Byte of the control set that C0 or C1 has.
pub fn controls_in(sets: Sets, element: ControlElement) -> u8
    ensures { result ≡ controls_in sets element }
{
    match element {
        ControlElement::C0 => sets.c0,
        ControlElement::C1 => sets.c1,
    }
}

// The sets with one designated into an element.
pub fn designate(sets: Sets, element: Element, set: Set) -> Sets
    ensures { result ≡ designated sets element set }
{
    match element {
        Element::G0 => Sets { g0: set, ..sets },
        Element::G1 => Sets { g1: set, ..sets },
        Element::G2 => Sets { g2: set, ..sets },
        Element::G3 => Sets { g3: set, ..sets },
    }
}

// The sets with the control set of a Final Byte designated into C0 or C1.
pub fn designate_controls(sets: Sets, element: ControlElement, last: u8) -> Sets
    ensures { result ≡ designated_controls sets element last }
{
    match element {
        ControlElement::C0 => Sets { c0: last, ..sets },
        ControlElement::C1 => Sets { c1: last, ..sets },
    }
}
