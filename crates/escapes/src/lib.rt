// What an escape sequence means: the paper's table, a row to a line, as what the sequence does. Its meaning is made from that.
#![tactic(auto)]

pub mod effect;

ghost use Rattle.std.specs.Prelude.{◌≤◌, ◌≡◌};
ghost use Rattle.paper.specs.Sequences.{sequence_byte, c1_function, right_shift, shift_or_other, meaning_of_none};
ghost use Rattle.paper.specs.Sequences.{designation, short_designation, by_intermediate, meaning_of_one, several_bytes};
ghost use Rattle.paper.specs.Sequences.{meaning_of_two, meaning_of};
ghost use Rattle.paper.specs.declared.Count.{Count};
ghost use Rattle.paper.specs.declared.Meaning.{Meaning};
ghost use Rattle.paper.specs.declared.Shift.{Shift};
ghost use Rattle.charsets.specs.Sizes.{count_number};
ghost use Rattle.escapes.specs.Effects.{cell_number, shows_in_gr, shift_effect, effect_of, shift_by, designation_by, meaning_by};

use charsets::{OF_94, OF_96, Size, THREE_BYTES, TWO_BYTES, count_of, kind_of};
use codetable::between;
use effect::{
    Cell, Effect, ElementNumber, G0, G1, G2, G3, Word, designates, plain, shows_in_gl, shows_in_gr,
    takes_one,
};
use paper::{ControlElement, Element, Form, Intermediates, Meaning, SequenceByte, Shift};

// An intermediate is of column 2, a final is 3/0 to 7/14.
pub const FIRST_INTERMEDIATE: u8 = 0x20;

pub const LAST_INTERMEDIATE: u8 = 0x2F;

const FIRST_FINAL: u8 = 0x30;

pub const LAST_FINAL: u8 = 0x7E;

// The C1 functions are numbered 0 to 31; two of them are the single shifts.
pub const LAST_FUNCTION: u8 = 31;

pub const SINGLE_SHIFT_TWO: u8 = 14;

pub const SINGLE_SHIFT_THREE: u8 = 15;

// The final of the C1 function 0, and those of the single shifts.
pub const FINAL_OF_FUNCTION: u8 = 0x40;

pub const FINAL_OF_SS2: u8 = FINAL_OF_FUNCTION + SINGLE_SHIFT_TWO;

pub const FINAL_OF_SS3: u8 = FINAL_OF_FUNCTION + SINGLE_SHIFT_THREE;

// The intermediates of control sets, and the one that leads to sets of several bytes.
pub const OF_C0: u8 = 0x21;

const OF_C1: u8 = 0x22;

pub const SEVERAL: u8 = 0x24;

// The seven intermediates that designate a graphic set.
pub const OF_94_INTO_G0: u8 = 0x28;

const OF_94_INTO_G1: u8 = 0x29;

const OF_94_INTO_G2: u8 = 0x2A;

const OF_94_INTO_G3: u8 = 0x2B;

const OF_96_INTO_G1: u8 = 0x2D;

const OF_96_INTO_G2: u8 = 0x2E;

const OF_96_INTO_G3: u8 = 0x2F;

// The intermediates of other sequences.
const OTHER_BY_SPACE: u8 = 0x20;

const OTHER_BY_NUMBER_SIGN: u8 = 0x23;

const OTHER_BY_AMPERSAND: u8 = 0x26;

// The finals of the shifts that have no other form.
pub const FINAL_OF_LS2: u8 = 0x6E;

pub const FINAL_OF_LS3: u8 = 0x6F;

const FINAL_OF_LS1R: u8 = 0x7E;

const FINAL_OF_LS2R: u8 = 0x7D;

const FINAL_OF_LS3R: u8 = 0x7C;

// Finals by columns: before column 4; columns 4 and 5, of sets of two bytes and, with no intermediate, of C1 functions; column 6, of
// sets of three bytes, from which on, with no intermediate, a final is of a shift or other.
const LAST_BEFORE_FUNCTIONS: u8 = 0x3F;

const FIRST_OF_TWO: u8 = 0x40;

const LAST_OF_TWO: u8 = 0x5F;

const FIRST_OF_THREE: u8 = 0x60;

const LAST_OF_THREE: u8 = 0x6F;

// The Final Bytes that take the short sequence.
pub const FIRST_SHORT: u8 = 0x40;

pub const LAST_SHORT: u8 = 0x42;

// What a byte is inside a sequence: the sequence goes on with it, ends with it, or the byte may not stand there.
#[tactic(auto, unfolding(paper::specs::Sequences::sequence_byte))]
pub fn sequence_byte(byte: u8) -> SequenceByte
    ensures { result ≡ sequence_byte byte }
{
    if between(FIRST_INTERMEDIATE, LAST_INTERMEDIATE, byte) {
        return SequenceByte::Intermediate;
    }
    if between(FIRST_FINAL, LAST_FINAL, byte) {
        return SequenceByte::Final;
    }
    SequenceByte::Neither
}

fn without_meaning() -> Effect
    ensures { result ≡ effect_of Meaning.NoMeaning }
{
    plain(Word::REFUSED, 0)
}

fn other() -> Effect
    ensures { result ≡ effect_of Meaning.Other }
{
    plain(Word::OTHER, 0)
}

// What a C1 function does, by its number.
#[tactic(auto, using(paper::proofs::Tests::tests), unfolding(paper::specs::Sequences::c1_function))]
pub fn effect_of_function(number: u8) -> Effect
    ensures { result ≡ effect_of (c1_function number) }
{
    match number {
        SINGLE_SHIFT_TWO => takes_one(ElementNumber(G2)),
        SINGLE_SHIFT_THREE => takes_one(ElementNumber(G3)),
        ..=LAST_FUNCTION => plain(Word::CONTROL, number),
        _ => without_meaning(),
    }
}

// A shift into GR has no meaning in 7-bit form.
fn right_shift(form: Form, element: ElementNumber) -> Effect
    ensures { (h : Shift) → shows_in_gr element.0 ≡ shift_effect h → result ≡ effect_of (right_shift form h) }
{
    match form {
        Form::Seven => without_meaning(),
        Form::Eight => shows_in_gr(element),
    }
}

// ESC F, F 6/0 to 7/14: what is no shift is other.
#[tactic(auto, using(paper::proofs::Tests::tests), unfolding(paper::specs::Sequences::shift_or_other))]
fn shift_or_other(form: Form, last: u8) -> Effect
    ensures { result ≡ effect_of (shift_or_other form last) }
{
    match last {
        FINAL_OF_LS2 => shows_in_gl(ElementNumber(G2)),
        FINAL_OF_LS3 => shows_in_gl(ElementNumber(G3)),
        FINAL_OF_LS1R => right_shift(form, ElementNumber(G1)),
        FINAL_OF_LS2R => right_shift(form, ElementNumber(G2)),
        FINAL_OF_LS3R => right_shift(form, ElementNumber(G3)),
        _ => other(),
    }
}

// ESC F
#[tactic(auto, using(paper::proofs::Choices::between_bounds), unfolding(paper::specs::Sequences::meaning_of_none))]
pub fn effect_of_none(form: Form, last: u8) -> Effect
    ensures { result ≡ effect_of (meaning_of_none form last) }
{
    if between(FIRST_FINAL, LAST_BEFORE_FUNCTIONS, last) {
        return other();
    }
    if between(FINAL_OF_FUNCTION, LAST_OF_TWO, last) {
        return effect_of_function(last - FINAL_OF_FUNCTION);
    }
    if between(FIRST_OF_THREE, LAST_FINAL, last) {
        return shift_or_other(form, last);
    }
    without_meaning()
}

// The seven intermediates that designate a graphic set, of so many bytes to a character.
#[tactic(auto, using(paper::proofs::Tests::tests), unfolding(paper::specs::Sequences::designation))]
fn designate_by(intermediate: u8, bytes: u8) -> Effect
    requires { bytes ≤ count_number Count.Three }
    ensures { (n : Count) → bytes ≡ count_number n → result ≡ effect_of (designation intermediate n) }
{
    match intermediate {
        OF_94_INTO_G0 => designates(Cell::G0, Size(bytes + OF_94)),
        OF_94_INTO_G1 => designates(Cell::G1, Size(bytes + OF_94)),
        OF_94_INTO_G2 => designates(Cell::G2, Size(bytes + OF_94)),
        OF_94_INTO_G3 => designates(Cell::G3, Size(bytes + OF_94)),
        OF_96_INTO_G1 => designates(Cell::G1, Size(bytes + OF_96)),
        OF_96_INTO_G2 => designates(Cell::G2, Size(bytes + OF_96)),
        OF_96_INTO_G3 => designates(Cell::G3, Size(bytes + OF_96)),
        _ => without_meaning(),
    }
}

// ESC 2/4 F
#[tactic(auto, unfolding(paper::specs::Sequences::short_designation))]
fn short_designation(last: u8) -> Effect
    ensures { result ≡ effect_of (short_designation last) }
{
    if between(FIRST_SHORT, LAST_SHORT, last) {
        designates(Cell::G0, Size(TWO_BYTES + OF_94))
    } else {
        without_meaning()
    }
}

// ESC I F, F any final
#[tactic(auto, using(paper::proofs::Tests::tests), unfolding(paper::specs::Sequences::by_intermediate))]
fn by_intermediate(first: u8, last: u8) -> Effect
    ensures { result ≡ effect_of (by_intermediate first last) }
{
    match first {
        OTHER_BY_SPACE | OTHER_BY_NUMBER_SIGN | OTHER_BY_AMPERSAND => other(),
        OF_C0 => designates(Cell::C0, Size(0)),
        OF_C1 => designates(Cell::C1, Size(0)),
        SEVERAL => short_designation(last),
        _ => designate_by(first, 0),
    }
}

#[tactic(auto, unfolding(paper::specs::Sequences::meaning_of_one))]
pub fn effect_of_one(first: u8, last: u8) -> Effect
    ensures { result ≡ effect_of (meaning_of_one first last) }
{
    if between(FIRST_FINAL, LAST_FINAL, last) {
        by_intermediate(first, last)
    } else {
        without_meaning()
    }
}

// One of the seven, F: how many bytes there are to a character goes by F.
#[tactic(auto, unfolding(paper::specs::Sequences::several_bytes))]
fn several_bytes(second: u8, last: u8) -> Effect
    ensures { result ≡ effect_of (several_bytes second last) }
{
    if between(FIRST_OF_TWO, LAST_OF_TWO, last) {
        return designate_by(second, TWO_BYTES);
    }
    if between(FIRST_OF_THREE, LAST_OF_THREE, last) {
        return designate_by(second, THREE_BYTES);
    }
    without_meaning()
}

// ESC I I F
#[tactic(auto, using(paper::proofs::Tests::tests), unfolding(paper::specs::Sequences::meaning_of_two))]
pub fn effect_of_two(first: u8, second: u8, last: u8) -> Effect
    ensures { result ≡ effect_of (meaning_of_two first second last) }
{
    if first == SEVERAL {
        several_bytes(second, last)
    } else {
        without_meaning()
    }
}

// A shift from the cell and the element.
#[tactic(auto, using(paper::proofs::Tests::tests), unfolding(crate::specs::Effects::shift_by))]
fn shift_by(cell: Cell, element: u8) -> Shift
    ensures { result ≡ shift_by (cell_number cell) element }
{
    match cell {
        Cell::GL => match element {
            G0 => Shift::LS0,
            G1 => Shift::LS1,
            G2 => Shift::LS2,
            _ => Shift::LS3,
        },
        Cell::GR => match element {
            G1 => Shift::LS1R,
            G2 => Shift::LS2R,
            _ => Shift::LS3R,
        },
        _ => match element {
            G2 => Shift::SS2,
            _ => Shift::SS3,
        },
    }
}

// A designation from the cell and the size.
#[tactic(auto, using(paper::proofs::Tests::tests), unfolding(crate::specs::Effects::designation_by))]
fn designation_by(cell: Cell, value: u8) -> Meaning
    ensures { result ≡ designation_by (cell_number cell) value }
{
    let kind = kind_of(Size(value));
    let count = count_of(Size(value));
    match cell {
        Cell::C0 => Meaning::DesignateControls(ControlElement::C0),
        Cell::C1 => Meaning::DesignateControls(ControlElement::C1),
        Cell::G0 => Meaning::Designate(Element::G0, kind, count),
        Cell::G1 => Meaning::Designate(Element::G1, kind, count),
        Cell::G2 => Meaning::Designate(Element::G2, kind, count),
        _ => Meaning::Designate(Element::G3, kind, count),
    }
}

// The meaning that has an effect.
#[tactic(auto, using(paper::proofs::Tests::tests), unfolding(crate::specs::Effects::meaning_by))]
fn meaning_by(effect: Effect) -> Meaning
    ensures { result ≡ meaning_by effect }
{
    match effect.word {
        Word::CONTROL => Meaning::Function(effect.value),
        Word::DESIGNATE => designation_by(effect.cell, effect.value),
        Word::SHIFT => Meaning::Shifts(shift_by(effect.cell, effect.value)),
        Word::OTHER => Meaning::Other,
        _ => Meaning::NoMeaning,
    }
}

// What a C1 function means, by its number.
#[tactic(auto, using(crate::proofs::MeaningsKept::meaning_kept))]
pub fn c1_function(number: u8) -> Meaning
    ensures { result ≡ c1_function number }
{
    meaning_by(effect_of_function(number))
}

// What the sequence with these intermediates and this last byte does.
fn effect_of(form: Form, intermediates: Intermediates, last: u8) -> Effect
    ensures { result ≡ effect_of (meaning_of form intermediates last) }
{
    match intermediates {
        Intermediates::None => effect_of_none(form, last),
        Intermediates::One(first) => effect_of_one(first, last),
        Intermediates::Two(first, second) => effect_of_two(first, second, last),
    }
}

// What the sequence with these intermediates and this last byte means.
#[tactic(auto, using(crate::proofs::MeaningsKept::meaning_kept))]
pub fn meaning_of(form: Form, intermediates: Intermediates, last: u8) -> Meaning
    ensures { result ≡ meaning_of form intermediates last }
{
    meaning_by(effect_of(form, intermediates, last))
}
