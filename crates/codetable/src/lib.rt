// The code table: a byte is made from a column and a row here and nowhere else, and taken apart into both here.
#![tactic(auto)]

ghost use Rattle.std.specs.Prelude.{◌≡◌};
ghost use Rattle.paper.specs.Choice.{between};
ghost use Rattle.paper.specs.CodeTable.{byte_at, position_of, column_area, area_of, form_has_column, form_has};

use paper::{Area, Column, Form, Position, Row};

// Columns and rows are numbered 0 to 15.
const HIGHEST: u8 = 15;

// The last columns of C0, GL and C1. GL's is also the last of 7-bit form.
pub const LAST_OF_C0: u8 = 1;

pub const LAST_OF_GL: u8 = 7;

pub const LAST_OF_C1: u8 = 9;

// A byte of columns 8 to 15 is the one 8 columns before it with bit 8 set.
pub const BIT_8: u8 = 0x80;

// SO, SI and ESC keep their places in every C0 set.
pub const SO: u8 = 0x0E;

pub const SI: u8 = 0x0F;

pub const ESC: u8 = 0x1B;

// The byte that a column and a row make.
#[tactic(auto, using(paper::proofs::Tests::tests), unfolding(paper::specs::CodeTable::byte_at))]
pub fn byte_at(column: Column, row: Row) -> Option<u8>
    ensures { result ≡ byte_at column row }
{
    if column.0 <= HIGHEST && row.0 <= HIGHEST {
        Some(16 * column.0 + row.0)
    } else {
        None
    }
}

// The column and the row of a byte.
#[tactic(auto, unfolding(paper::specs::CodeTable::position_of))]
pub fn position_of(byte: u8) -> Position
    ensures { result ≡ position_of byte }
{
    Position {
        column: Column(byte / 16),
        row: Row(byte % 16),
    }
}

#[tactic(auto, using(paper::proofs::Tests::tests), unfolding(paper::specs::CodeTable::column_area))]
fn column_area(column: Column) -> Area
    ensures { result ≡ column_area column }
{
    match column.0 {
        ..=LAST_OF_C0 => Area::C0,
        ..=LAST_OF_GL => Area::GL,
        ..=LAST_OF_C1 => Area::C1,
        _ => Area::GR,
    }
}

// The area of a byte, by its column.
pub fn area_of(byte: u8) -> Area
    ensures { result ≡ area_of byte }
{
    column_area(position_of(byte).column)
}

#[tactic(auto, unfolding(paper::specs::CodeTable::form_has_column))]
fn form_has_column(form: Form, column: Column) -> bool
    ensures { result ≡ form_has_column form column }
{
    match form {
        Form::Seven => column.0 <= LAST_OF_GL,
        Form::Eight => true,
    }
}

// Whether a form has a byte.
pub fn form_has(form: Form, byte: u8) -> bool
    ensures { result ≡ form_has form byte }
{
    form_has_column(form, position_of(byte).column)
}

// Whether a byte stands from the first to the last, both counted. Both tests are made in any case, so that a compiler can do it for
// sixteen bytes at once.
#[tactic(auto, unfolding(paper::specs::Choice::between))]
pub fn between(first: u8, last: u8, byte: u8) -> bool
    ensures { result ≡ between first last byte }
{
    (first <= byte) & (byte <= last)
}
