// The Unicode numbers of Latin/Greek: 94 F 4/2 and 96 F 4/6, there and back.
#![tactic(auto)]

ghost use Rattle.std.specs.Prelude.{◌≡◌, ◌+◌, ◌≤◌, None};
ghost use Rattle.paper.specs.CodeTable.{bit8};
ghost use Rattle.paper.specs.Sets.{space, delete};
ghost use Rattle.paper.specs.LatinGreek.{greek_number, number_by, number_in, position_with, unicode_of, locate};
ghost use Rattle.unicode_numbers.specs.Lookup.{entry_of, greek_byte};

use charsets::{SPACE, set_byte};
use codetable::{byte_at, position_of};
use paper::{Column, Count, Located, Row, Set, SetByte};

// What a byte of GR has more than its position byte, and what a Greek letter's number has more than its byte.
const BIT_8: u32 = 0x80;

const LETTERS: u32 = 0x2D0;

// The entry of a position that has no character. A number, not `None`: with `Some(..)` around the others the table would be no plainer.
const UNUSED: u16 = 0;

// 96 F 4/6 from 2/0 to 7/15, as tools/greek-table prints it.
const NUMBERS: [u16; 96] = [
    0x00A0, 0x2018, 0x2019, 0x00A3, UNUSED, UNUSED, 0x00A6, 0x00A7, 0x00A8, 0x00A9, UNUSED, 0x00AB,
    0x00AC, 0x00AD, UNUSED, 0x2015, 0x00B0, 0x00B1, 0x00B2, 0x00B3, 0x0384, 0x0385, 0x0386, 0x00B7,
    0x0388, 0x0389, 0x038A, 0x00BB, 0x038C, 0x00BD, 0x038E, 0x038F, 0x0390, 0x0391, 0x0392, 0x0393,
    0x0394, 0x0395, 0x0396, 0x0397, 0x0398, 0x0399, 0x039A, 0x039B, 0x039C, 0x039D, 0x039E, 0x039F,
    0x03A0, 0x03A1, UNUSED, 0x03A3, 0x03A4, 0x03A5, 0x03A6, 0x03A7, 0x03A8, 0x03A9, 0x03AA, 0x03AB,
    0x03AC, 0x03AD, 0x03AE, 0x03AF, 0x03B0, 0x03B1, 0x03B2, 0x03B3, 0x03B4, 0x03B5, 0x03B6, 0x03B7,
    0x03B8, 0x03B9, 0x03BA, 0x03BB, 0x03BC, 0x03BD, 0x03BE, 0x03BF, 0x03C0, 0x03C1, 0x03C2, 0x03C3,
    0x03C4, 0x03C5, 0x03C6, 0x03C7, 0x03C8, 0x03C9, 0x03CA, 0x03CB, 0x03CC, 0x03CD, 0x03CE, UNUSED,
];

// An entry of the table as an answer.
#[tactic(auto, using(paper::proofs::Tests::tests), unfolding(crate::specs::Lookup::entry_of))]
fn entry_of(number: u16) -> Option<u32>
    ensures { result ≡ entry_of number }
{
    (number != UNUSED).then_some(u32::from(number))
}

// The number at a position byte of 96 F 4/6.
#[tactic(auto, using(crate::proofs::Table::entry_at))]
fn greek_number(byte: u8) -> Option<u32>
    requires { (space ≤ byte) × (byte ≤ delete) }
    ensures { result ≡ greek_number (bit8 + byte) }
{
    entry_of(NUMBERS[usize::from(byte - SPACE)])
}

// The number at a position byte of a set, by the set's size and Final Byte.
#[tactic(auto, using(paper::proofs::Tests::tests))]
fn number_by(set: Set, byte: u8) -> Option<u32>
    requires { (space ≤ byte) × (byte ≤ delete) }
    ensures { result ≡ number_by set.count set.kind set.last byte }
{
    if set == charsets::latin() {
        Some(u32::from(byte))
    } else if set == charsets::greek() {
        greek_number(byte)
    } else {
        None
    }
}

// The number that a set has at a byte, where that is a position of it.
#[tactic(auto, using(paper::proofs::ThereAndBack::inside), unfolding(paper::specs::LatinGreek::number_in))]
fn number_in(set: Set, byte: u8) -> Option<u32>
    ensures { result ≡ number_in set byte }
{
    match set_byte(set.kind, byte) {
        SetByte::OfSet => number_by(set, byte),
        _ => None,
    }
}

// Lookup there: the number of a set's position, given by its number of bytes, its column and its row.
pub fn unicode_of(set: Set, count: Count, column: Column, row: Row) -> Option<u32>
    ensures { result ≡ unicode_of set count column row }
{
    match count {
        Count::One => number_in(set, byte_at(column, row)?),
        _ => None,
    }
}

// The only position byte of 96 F 4/6 that can have a number: the exceptions', else what is left when hex 2D0 is taken off.
#[tactic(auto, using(paper::proofs::Tests::tests), unfolding(crate::specs::Lookup::greek_byte))]
fn greek_byte(number: u32) -> u8
    ensures { result ≡ greek_byte number }
{
    match number {
        0x2018 => 0x21,
        0x2019 => 0x22,
        0x2015 => 0x2F,
        LETTERS.. => ((number - LETTERS) % BIT_8) as u8,
        _ => (number % BIT_8) as u8,
    }
}

// The set's position at a byte, where it has the number.
fn position_with(number: u32, set: Set, byte: u8) -> Option<Located>
    ensures { result ≡ position_with number set byte None }
{
    (number_in(set, byte) == Some(number)).then(|| Located {
        set,
        position: position_of(byte),
    })
}

// Lookup back: the position that has the number.
pub fn locate(number: u32) -> Option<Located>
    ensures { result ≡ locate number }
{
    let in_latin = position_with(number, charsets::latin(), (number % BIT_8) as u8);
    in_latin.or_else(|| position_with(number, charsets::greek(), greek_byte(number)))
}
