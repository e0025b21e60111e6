// Characters: bytes of GL and GR on the ground, after a single shift, and inside a character.
ghost use Rattle.std.specs.Prelude.{◌+◌, ◌≤◌, ◌≡◌};
ghost use Rattle.paper.specs.CodeTable.{bit8};
ghost use Rattle.paper.specs.Sets.{space, delete, set_in};
ghost use Rattle.paper.specs.Characters.{bytes_so_far, with_byte, character, of_character, later_byte};
ghost use Rattle.paper.specs.Characters.{gl_byte, gr_byte, single_byte};

use crate::given::{refuse, say, wait};
use charsets::{DELETE, SPACE, byte_in, position_in};
use codetable::BIT_8;
use paper::{
    Answer, Answered, Element, GraphicArea, Kind, PositionBytes, Reader, Refusal, Set, SetByte,
    Sets, Within,
};

fn bytes_so_far(bytes: PositionBytes) -> u8
    ensures { result ≡ bytes_so_far bytes }
{
    match bytes {
        PositionBytes::One(_) => 1,
        PositionBytes::Two(_, _) => 2,
        PositionBytes::Three(_, _, _) => 3,
    }
}

fn with_byte(bytes: PositionBytes, byte: u8) -> PositionBytes
    ensures { result ≡ with_byte bytes byte }
{
    match bytes {
        PositionBytes::One(first) => PositionBytes::Two(first, byte),
        PositionBytes::Two(first, second) => PositionBytes::Three(first, second, byte),
        PositionBytes::Three(..) => bytes,
    }
}

// A character that has come so far: complete with as many bytes as its set has to a character. Here and below the parameters are those of
// the paper's definitions, one by one: a struct of them would be taken apart in each clause.
#[tactic(auto, using(paper::proofs::Tests::tests), unfolding(paper::specs::Characters::character))]
fn character(
    element: Element,
    set: Set,
    area: GraphicArea,
    bytes: PositionBytes,
    reader: Reader,
) -> Answered
    ensures { result ≡ character element set area bytes reader }
{
    if bytes_so_far(bytes) < charsets::bytes_of(set.count) {
        wait(Within::Character(element, area, bytes), reader)
    } else {
        say(Answer::Char(element, set, bytes), reader)
    }
}

// A byte of a character with which its position bytes are these.
fn of_character(
    is: SetByte,
    element: Element,
    set: Set,
    area: GraphicArea,
    bytes: PositionBytes,
    byte: u8,
    reader: Reader,
) -> Answered
    ensures { result ≡ of_character is element set area bytes byte reader }
{
    match is {
        SetByte::OfSpace | SetByte::OfDelete => refuse(Refusal::NotOfSet, byte, reader),
        SetByte::OfSet => character(element, set, area, bytes, reader),
        SetByte::Outside => refuse(Refusal::AnotherArea, byte, reader),
    }
}

// A byte inside a character.
pub(crate) fn later_byte(
    element: Element,
    set: Set,
    area: GraphicArea,
    bytes: PositionBytes,
    byte: u8,
    reader: Reader,
) -> Answered
    ensures { result ≡ later_byte element set area bytes byte reader }
{
    let is = byte_in(area, set.kind, byte);
    let longer = with_byte(bytes, position_in(area, byte));
    of_character(is, element, set, area, longer, byte, reader)
}

// A byte after a single shift: from GL alone.
pub(crate) fn single_byte(element: Element, set: Set, byte: u8, reader: Reader) -> Answered
    ensures { result ≡ single_byte element set byte reader }
{
    of_character(
        byte_in(GraphicArea::GL, set.kind, byte),
        element,
        set,
        GraphicArea::GL,
        PositionBytes::One(byte),
        byte,
        reader,
    )
}

// A byte of GL on the ground: under 94 type 2/0 and 7/15 are SPACE and DELETE. Its bounds stand in clauses, here and in `unicode_numbers`: a
// type for such a byte would be taken apart at once.
fn gl_byte(element: Element, set: Set, byte: u8, reader: Reader) -> Answered
    requires { (space ≤ byte) × (byte ≤ delete) }
    ensures { result ≡ gl_byte element set byte reader }
{
    match (set.kind, byte) {
        (Kind::Of94, SPACE) => say(Answer::Space, reader),
        (Kind::Of94, DELETE) => say(Answer::Delete, reader),
        _ => character(
            element,
            set,
            GraphicArea::GL,
            PositionBytes::One(byte),
            reader,
        ),
    }
}

// A byte of GR on the ground: under 94 type 10/0 and 15/15 are refused. It shares the last arm with `gl_byte`, and no other.
fn gr_byte(element: Element, set: Set, byte: u8, reader: Reader) -> Answered
    requires { bit8 + space ≤ byte }
    ensures { result ≡ gr_byte element set byte reader }
{
    let position = byte % BIT_8;
    match (set.kind, position) {
        (Kind::Of94, SPACE | DELETE) => refuse(Refusal::NotOfSet, byte, reader),
        _ => character(
            element,
            set,
            GraphicArea::GR,
            PositionBytes::One(position),
            reader,
        ),
    }
}

// The answer with an element's set. An arm for each hands over its set: a set picked from the four would be copied with them.
fn with_set<F: FnOnce(Element, Set) -> Answered>(
    element: Element,
    sets: Sets,
    answer: F,
) -> Answered
    requires { F.pre answer element (set_in sets element) }
    ensures { F.post answer element (set_in sets element) result }
{
    match element {
        Element::G0 => answer(Element::G0, sets.g0),
        Element::G1 => answer(Element::G1, sets.g1),
        Element::G2 => answer(Element::G2, sets.g2),
        Element::G3 => answer(Element::G3, sets.g3),
    }
}

// By the element that GL shows.
pub(crate) fn shown_in_gl(byte: u8, reader: Reader) -> Answered
    requires { (space ≤ byte) × (byte ≤ delete) }
    ensures { result ≡ gl_byte reader.gl (set_in reader.sets reader.gl) byte reader }
{
    with_set(
        reader.gl,
        reader.sets,
        |element, set| gl_byte(element, set, byte, reader),
    )
}

// By the element that GR shows.
pub(crate) fn shown_in_gr(byte: u8, reader: Reader) -> Answered
    requires { bit8 + space ≤ byte }
    ensures { result ≡ gr_byte reader.gr (set_in reader.sets reader.gr) byte reader }
{
    with_set(
        reader.gr,
        reader.sets,
        |element, set| gr_byte(element, set, byte, reader),
    )
}
