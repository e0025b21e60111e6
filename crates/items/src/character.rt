// A character of a text, read whole: from its first byte on, on the ground or after a single shift.
ghost use Rattle.std.specs.Prelude.{◌≡◌, ◌<◌, ◌≤◌, length};
ghost use Rattle.items.specs.States.{single_in};
ghost use Rattle.items.specs.Items.{item_of, refusal_of_byte, later_at, of_two, third_of_three, of_three, character_at, graphic_area};
ghost use Rattle.items.specs.Items.{element_in, not_of_set_at, graphic_at};

use crate::item::Item;
use crate::piece::{one, three, two};
use crate::state::{CELLS, NONE, element_of, single, size_in};
use charsets::{Size, byte_in, count_of, kind_of, position_in};
use codetable::{BIT_8, form_has};
use escapes::effect::{ElementNumber, Word, plain};
use paper::{Count, Form, GraphicArea, Kind, Refusal, SetByte};

// Why a byte inside a character is refused, if it is.
fn refusal_of_byte(is: SetByte) -> Option<Refusal>
    ensures { result ≡ refusal_of_byte is }
{
    match is {
        SetByte::OfSpace | SetByte::OfDelete => Some(Refusal::NotOfSet),
        SetByte::OfSet => None,
        SetByte::Outside => Some(Refusal::AnotherArea),
    }
}

// The same of the byte at a place. An option of a fieldless enum is one byte, so nothing is packed: docs/SPEED.md, "A choice that one
// function returns and its caller looks at again".
#[tactic(auto, unfolding(crate::specs::Items::later_at))]
fn later_byte(
    form: Form,
    area: GraphicArea,
    kind: Kind,
    text: &[u8],
    place: usize,
) -> Option<Refusal>
    ensures { result ≡ later_at form area kind text.now place }
{
    if place >= text.len() {
        return Some(Refusal::EndsInside);
    }
    let byte = text[place];
    if form_has(form, byte) {
        refusal_of_byte(byte_in(area, kind, byte))
    } else {
        Some(Refusal::ByteOfEightBits)
    }
}

// A character of two bytes from its second on. What is known of it stays apart: a struct of 4 bytes is copied as one number and taken
// apart by shifts (docs/SPEED.md, "How many bytes a struct has").
#[tactic(auto, using(crate::proofs::TakenInside::taken_inside))]
fn of_two(
    form: Form,
    area: GraphicArea,
    kind: Kind,
    element: ElementNumber,
    first: u8,
    text: &[u8],
    place: usize,
) -> Item
    requires { place ≤ length text.now }
    ensures { item_of result ≡ of_two form area kind element.0 first text.now place }
{
    if let Some(refusal) = later_byte(form, area, kind, text, place) {
        return Item::refused(refusal, place);
    }
    Item::character(
        element,
        two(first, position_in(area, text[place])),
        place + 1,
    )
}

// A character of three bytes from its third on.
#[tactic(auto, using(crate::proofs::TakenInside::taken_inside))]
fn third_of_three(
    form: Form,
    area: GraphicArea,
    kind: Kind,
    element: ElementNumber,
    first: u8,
    second: u8,
    text: &[u8],
    place: usize,
) -> Item
    requires { place ≤ length text.now }
    ensures { item_of result ≡ third_of_three form area kind element.0 first second text.now place }
{
    if let Some(refusal) = later_byte(form, area, kind, text, place) {
        return Item::refused(refusal, place);
    }
    Item::character(
        element,
        three(first, second, position_in(area, text[place])),
        place + 1,
    )
}

// And from its second on.
#[tactic(auto, using(crate::proofs::TakenInside::taken_inside))]
fn of_three(
    form: Form,
    area: GraphicArea,
    kind: Kind,
    element: ElementNumber,
    first: u8,
    text: &[u8],
    place: usize,
) -> Item
    requires { place ≤ length text.now }
    ensures { item_of result ≡ of_three form area kind element.0 first text.now place }
{
    if let Some(refusal) = later_byte(form, area, kind, text, place) {
        return Item::refused(refusal, place);
    }
    let second = position_in(area, text[place]);
    third_of_three(form, area, kind, element, first, second, text, place + 1)
}

// A character from its first byte on.
fn whole_character(
    form: Form,
    element: ElementNumber,
    size: Size,
    area: GraphicArea,
    byte: u8,
    text: &[u8],
    place: usize,
) -> Item
    requires { place < length text.now }
    ensures { item_of result ≡ character_at form element.0 size.0 area byte text.now place }
{
    let kind = kind_of(size);
    let first = position_in(area, byte);
    match count_of(size) {
        Count::One => Item::character(element, one(first), place + 1),
        Count::Two => of_two(form, area, kind, element, first, text, place + 1),
        Count::Three => of_three(form, area, kind, element, first, text, place + 1),
    }
}

// The area that a character's bytes come from: after a single shift GL alone.
#[tactic(auto, using(paper::proofs::Tests::tests), unfolding(crate::specs::Items::graphic_area))]
fn graphic_area(taken: ElementNumber, byte: u8) -> GraphicArea
    ensures { result ≡ graphic_area taken.0 byte }
{
    if taken.0 == NONE && BIT_8 <= byte {
        GraphicArea::GR
    } else {
        GraphicArea::GL
    }
}

// The element that a single shift takes, or that the area shows.
#[tactic(auto, using(paper::proofs::Tests::tests), unfolding(crate::specs::Items::element_in))]
fn element_in(state: &[u8; CELLS], taken: ElementNumber, byte: u8) -> ElementNumber
    ensures { result.0 ≡ element_in state.now taken.0 byte }
{
    if taken.0 == NONE {
        element_of(state, byte)
    } else {
        taken
    }
}

// 2/0 and 7/15 under 94 type: on the ground in GL they are SPACE and DELETE, elsewhere they are refused.
#[tactic(auto, unfolding(crate::specs::Items::not_of_set_at))]
fn not_of_set(taken: ElementNumber, byte: u8, word: Word, place: usize, next: usize) -> Item
    ensures { item_of result ≡ not_of_set_at taken.0 byte word place next }
{
    if taken.0 == NONE && byte < BIT_8 {
        Item {
            effect: plain(word, 0),
            piece: one(byte),
            place: next,
        }
    } else {
        Item::refused(Refusal::NotOfSet, place)
    }
}

// A byte that is no control, by what it is to the set.
pub(crate) fn graphic(form: Form, state: &[u8; CELLS], byte: u8, text: &[u8], place: usize) -> Item
    requires { place < length text.now }
    ensures { item_of result ≡ graphic_at form state.now (single_in state.now) byte text.now place }
{
    let taken = single(state);
    let area = graphic_area(taken, byte);
    let element = element_in(state, taken, byte);
    let size = size_in(state, element);
    match byte_in(area, kind_of(size), byte) {
        SetByte::OfSpace => not_of_set(taken, byte, Word::SPACE, place, place + 1),
        SetByte::OfDelete => not_of_set(taken, byte, Word::DELETE, place, place + 1),
        SetByte::OfSet => whole_character(form, element, size, area, byte, text, place),
        SetByte::Outside => Item::refused(Refusal::AnotherArea, place),
    }
}
