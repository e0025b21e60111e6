// What is written for an item: the paper's two written forms, as pieces of output.
ghost use Rattle.std.specs.Prelude.{◌+◌, ◌%◌, ◌≤◌, ◌≡◌, map};
ghost use Rattle.paper.specs.CodeTable.{bit8};
ghost use Rattle.paper.specs.WrittenForms.{byte_from};
ghost use Rattle.paper.specs.declared.GraphicArea.{GraphicArea};
ghost use Rattle.items.specs.Pieces.{bytes_in, Small};
ghost use Rattle.converter.specs.Writing.{wrote_of, alone, shifted_to, in_seven, in_eight, character_in, space_in, control_in, writes};
ghost use Rattle.converter.specs.Writing.{Writable};

use charsets::kind_of;
use codetable::{BIT_8, ESC, SI, SO};
use escapes::effect::{Effect, ElementNumber, G0, G1, G2, Word};
use escapes::{
    FINAL_OF_FUNCTION, FINAL_OF_SS2, FINAL_OF_SS3, SINGLE_SHIFT_THREE, SINGLE_SHIFT_TWO,
};
use items::piece::{Piece, SECOND, in_front, one};
use items::state::{CELLS, size_in};
use paper::{Form, Kind};

// The bytes of the single shifts.
const SS2: u8 = BIT_8 + SINGLE_SHIFT_TWO;

const SS3: u8 = BIT_8 + SINGLE_SHIFT_THREE;

// Bit 8 of each byte of a number.
const BIT_8_OF_EACH: u64 = 0x8080_8080_8080_8080;

// A piece, and what GL shows in the output after it.
#[derive(Clone, Copy)]
pub(crate) struct Written {
    pub(crate) piece: Piece,
    pub(crate) shown: ElementNumber,
}

// Position bytes as bytes of GR. What a number has above its piece is not read.
#[tactic(auto, unfolding(items::specs::Pieces::bytes_in))]
fn of_gr(piece: Piece) -> Piece
    requires { Small piece }
    ensures { bytes_in result ≡ map (byte_from GraphicArea.GR) (bytes_in piece) }
{
    Piece {
        bytes: piece.bytes | BIT_8_OF_EACH,
        ..piece
    }
}

// 7-bit: SI or SO first where GL shows another element. `Small piece`, here and below, is a clause and no field: `in_front` answers
// for any piece (docs/PROMISES.md), and a type around a piece would only bring a `.piece` to each line.
#[tactic(auto, using(paper::proofs::Tests::tests), unfolding(crate::specs::Writing::shifted_to))]
fn shifted(shown: ElementNumber, element: u8, shift: u8, piece: Piece) -> Written
    requires { Small piece }
    ensures { wrote_of result ≡ shifted_to element shift shown.0 (bytes_in piece) }
{
    let piece = if shown.0 == element {
        piece
    } else {
        in_front(shift, piece)
    };
    Written {
        piece,
        shown: ElementNumber(element),
    }
}

// SS2 or SS3 always before a character of G2 or G3.
#[tactic(auto, using(paper::proofs::Tests::tests), unfolding(crate::specs::Writing::in_seven))]
fn in_seven(shown: ElementNumber, element: ElementNumber, piece: Piece) -> Written
    requires { Small piece }
    ensures { wrote_of result ≡ in_seven shown.0 element.0 (bytes_in piece) }
{
    match element.0 {
        G0 => shifted(shown, G0, SI, piece),
        G1 => shifted(shown, G1, SO, piece),
        G2 => Written {
            piece: in_front(ESC, in_front(FINAL_OF_SS2, piece)),
            shown,
        },
        _ => Written {
            piece: in_front(ESC, in_front(FINAL_OF_SS3, piece)),
            shown,
        },
    }
}

// 8-bit: no locking shift. Beside `in_seven`: G0 and G1 share nothing, and by one function G2 and G3 would ask for the form once more.
#[tactic(auto, using(paper::proofs::Tests::tests), unfolding(crate::specs::Writing::in_eight))]
fn in_eight(shown: ElementNumber, element: ElementNumber, piece: Piece) -> Written
    requires { Small piece }
    ensures { wrote_of result ≡ in_eight shown.0 element.0 (bytes_in piece) }
{
    match element.0 {
        G0 => Written { piece, shown },
        G1 => Written {
            piece: of_gr(piece),
            shown,
        },
        G2 => Written {
            piece: in_front(SS2, piece),
            shown,
        },
        _ => Written {
            piece: in_front(SS3, piece),
            shown,
        },
    }
}

// A character of an element, with these position bytes.
pub(crate) fn write_character(
    to: Form,
    shown: ElementNumber,
    element: ElementNumber,
    piece: Piece,
) -> Written
    requires { Small piece }
    ensures { wrote_of result ≡ character_in to shown.0 element.0 (bytes_in piece) }
{
    match to {
        Form::Seven => in_seven(shown, element, piece),
        Form::Eight => in_eight(shown, element, piece),
    }
}

// SPACE or DELETE: in 7-bit form SI first exactly where GL shows a 96-type set.
fn write_space(to: Form, shown: ElementNumber, state: &[u8; CELLS], piece: Piece) -> Written
    requires { Small piece }
    ensures { wrote_of result ≡ space_in to shown.0 state.now (bytes_in piece) }
{
    match (to, kind_of(size_in(state, shown))) {
        (Form::Seven, Kind::Of96) => Written {
            piece: in_front(SI, piece),
            shown: ElementNumber(G0),
        },
        _ => Written { piece, shown },
    }
}

// A control: a C1 function is ESC Fe in 7-bit form, its byte in 8-bit form.
#[tactic(auto, using(crate::proofs::PieceBytes::tests_and_byte), unfolding(crate::specs::Writing::control_in))]
fn write_control(to: Form, shown: ElementNumber, piece: Piece) -> Written
    requires { piece.count ≡ 1 }
    ensures { wrote_of result ≡ control_in to shown.0 (bytes_in piece) }
{
    let byte = (piece.bytes % SECOND) as u8;
    match to {
        Form::Seven if byte >= BIT_8 => {
            Written {
                piece: in_front(ESC, one(byte - FINAL_OF_FUNCTION)),
                shown,
            }
        }
        _ => Written { piece, shown },
    }
}

// An item that does this and has these bytes, in a form, where GL shows an element in the output.
#[tactic(auto, using(paper::proofs::Tests::tests), unfolding(crate::specs::Writing::writes))]
pub(crate) fn write(
    to: Form,
    shown: ElementNumber,
    state: &[u8; CELLS],
    effect: Effect,
    piece: Piece,
) -> Written
    requires { Writable effect piece }
    ensures { wrote_of result ≡ writes to shown.0 state.now effect (bytes_in piece) }
{
    match effect.word {
        Word::CHAR => write_character(to, shown, ElementNumber(effect.value), piece),
        Word::SPACE | Word::DELETE => write_space(to, shown, state, piece),
        Word::CONTROL => write_control(to, shown, piece),
        _ => Written { piece, shown },
    }
}
