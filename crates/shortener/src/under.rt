// The bytes of an item in 7-bit form, by what GL shows, and its code.
ghost use Rattle.std.specs.Prelude.{◌≤◌, ◌<◌, ◌≡◌, ◌∷◌, ◌++◌};
ghost use Rattle.paper.specs.CodeTable.{esc};
ghost use Rattle.shortest.specs.ShortestText.{shift_from, rank};
ghost use Rattle.escapes.specs.Effects.{word_number};
ghost use Rattle.items.specs.Pieces.{bytes_in, Small};
ghost use Rattle.shortener.specs.Codes.{place_of_rank, count_in};
ghost use Rattle.shortener.specs.Under as specs;
ghost use Rattle.shortener.specs.Under.{control_in_seven, character_under, under, kinds_in, code_by, is_unit, Fit, Room};

use crate::by_element::{ByElement, element_of, number_of};
use crate::code::{Code, Place};
use charsets::kind_of;
use codetable::{BIT_8, ESC, SI, SO};
use escapes::effect::{Effect, ElementNumber, Word};
use escapes::{FINAL_OF_FUNCTION, FINAL_OF_LS2, FINAL_OF_LS3, FINAL_OF_SS2, FINAL_OF_SS3};
use items::piece::{Piece, SECOND, in_front, one};
use items::state::{CELLS, size_in};
use paper::{Element, Kind};

// The first two bytes of SO and of LS2 as numbers.
const RANK_OF_SO: u64 = SO as u64 * SECOND;

const RANK_OF_LS2: u64 = ESC as u64 * SECOND + FINAL_OF_LS2 as u64;

// An item that is written, a character or what is written alike: what it does, and its bytes.
#[derive(Clone, Copy)]
pub(crate) struct Unit {
    pub(crate) effect: Effect,
    pub(crate) piece: Piece,
    pub(crate) ghost fit: { Fit effect piece },
}

// A shift and more, in front of what it is for.
fn after_escape(last: u8, piece: Piece) -> Piece
    requires { Room piece }
    ensures result_value { bytes_in result ≡ esc ∷ last ∷ bytes_in piece }
    ensures count_bound { (result.count ≤ 7) × (piece.count ≤ 3 → piece.bytes < 0x100000000 → Room result) }
{
    in_front(ESC, in_front(last, piece))
}

// A control by its byte in 8-bit form: a C1 function is ESC Fe, and Fe stands four columns before that byte.
fn control_in_seven(piece: Piece) -> Piece
    requires { Small piece × (piece.count ≡ 1) }
    ensures { (bytes_in result ≡ control_in_seven (bytes_in piece)) × Small result × (1 ≤ result.count) }
{
    let byte = (piece.bytes % SECOND) as u8;
    if byte < BIT_8 {
        return piece;
    }
    in_front(ESC, one(byte - FINAL_OF_FUNCTION))
}

// What is written alike whatever GL shows.
fn alike(unit: Unit) -> Piece
    ensures { (bytes_in result ≡ specs.alike (word_number unit.effect.word) (bytes_in unit.piece)) × Small result × (1 ≤ result.count) }
{
    if unit.effect.word == Word::CONTROL {
        return control_in_seven(unit.piece);
    }
    unit.piece
}

// A character of an element while GL shows another, or the same.
fn character_under(shown: Element, own: Element, piece: Piece) -> Piece
    requires { Small piece × (piece.count ≤ 3) }
    ensures { (bytes_in result ≡ character_under shown own (bytes_in piece)) × Room result }
{
    match own {
        Element::G2 if own != shown => after_escape(FINAL_OF_SS2, piece),
        Element::G3 if own != shown => after_escape(FINAL_OF_SS3, piece),
        _ => piece,
    }
}

pub(crate) fn bytes_under(shown: Element, unit: Unit) -> Piece
    ensures { (bytes_in result ≡ under shown unit.effect (bytes_in unit.piece)) × Room result }
{
    if unit.effect.word == Word::CHAR {
        return character_under(
            shown,
            element_of(ElementNumber(unit.effect.value)),
            unit.piece,
        );
    }
    alike(unit)
}

// The first two bytes as one number.
fn rank_of(piece: Piece) -> u64
    requires { 1 ≤ piece.count }
    ensures { result ≡ rank (bytes_in piece) }
{
    let first = piece.bytes % SECOND * SECOND;
    if piece.count < 2 {
        return first;
    }
    first + piece.bytes / SECOND % SECOND
}

// Its place in byte order.
#[tactic(auto, using(paper::proofs::Tests::tests), unfolding(crate::specs::Codes::place_of_rank))]
fn place_of(rank: u64) -> Place
    ensures { result ≡ place_of_rank rank }
{
    if rank < RANK_OF_SO {
        return Place::First;
    }
    if rank < RANK_OF_LS2 {
        return Place::Middle;
    }
    Place::Last
}

fn code_alike(unit: Unit) -> Code
    ensures { (result ≡ specs.alike_code_of (word_number unit.effect.word) (bytes_in unit.piece)) × (count_in result ≤ 15) }
{
    let written = alike(unit);
    Code::Alike(place_of(rank_of(written)), written.count as u8)
}

// Of the sets in G0 to G3.
fn kinds_in(state: &[u8; CELLS]) -> ByElement<Kind>
    ensures { result ≡ kinds_in state.now }
{
    ByElement::of(|element| kind_of(size_in(state, number_of(element))))
}

#[tactic(auto, using(paper::proofs::Tests::tests), unfolding(crate::specs::Under::code_by))]
pub(crate) fn code_of(state: &[u8; CELLS], unit: Unit) -> Code
    ensures { (result ≡ code_by state.now unit.effect (bytes_in unit.piece)) × (count_in result ≤ 15) }
{
    match unit.effect.word {
        Word::CHAR => {
            Code::Character(
                element_of(ElementNumber(unit.effect.value)),
                unit.piece.count as u8,
            )
        }
        Word::SPACE | Word::DELETE => Code::SpaceOrDelete(kinds_in(state)),
        _ => code_alike(unit),
    }
}

// What puts an element into GL, in front of a piece; none where GL shows it.
pub(crate) fn led(shown: Element, element: Element, piece: Piece) -> Piece
    requires { Room piece }
    ensures { (bytes_in result ≡ shift_from shown element ++ bytes_in piece) × (result.count ≤ 7) }
{
    match element {
        _ if element == shown => piece,
        Element::G0 => in_front(SI, piece),
        Element::G1 => in_front(SO, piece),
        Element::G2 => after_escape(FINAL_OF_LS2, piece),
        Element::G3 => after_escape(FINAL_OF_LS3, piece),
    }
}

// A shift is no unit; nor is what says nothing yet.
#[tactic(auto, unfolding(crate::specs::Under::is_unit))]
pub(crate) fn is_unit(word: Word) -> bool
    ensures { result ≡ is_unit (word_number word) }
{
    !matches!(word, Word::NOTHING_YET | Word::SHIFT)
}
