// Controls and sequences, read whole. What they do is asked of `escapes`.
ghost use Rattle.std.specs.Prelude.{◌≡◌, ◌≤◌, length};
ghost use Rattle.items.specs.Pieces.{bytes_in, Small};
ghost use Rattle.items.specs.Items.{item_of, not_of_sequence, bytes_meant, meant_at, several_bytes_of, after_two, after_one, after_escape};
ghost use Rattle.items.specs.Items.{shifts, control_at, opened_or, is_opening, after_one_or};

use crate::item::Item;
use crate::piece::{Piece, four, nothing, one, three, two};
use codetable::{BIT_8, ESC, SI, SO, between, form_has};
use escapes::effect::{Effect, ElementNumber, G0, G1, Word, plain, shows_in_gl};
use escapes::{
    FIRST_INTERMEDIATE, FIRST_SHORT, LAST_FINAL, LAST_FUNCTION, LAST_INTERMEDIATE, LAST_SHORT,
    OF_94_INTO_G0, OF_C0, SEVERAL, effect_of_function, effect_of_none, effect_of_one,
    effect_of_two,
};
use openings::{BEFORE_FINAL, opening_length, rest_ahead};
use paper::{Form, Refusal};

// How many C1 functions there are.
const FUNCTIONS: u8 = LAST_FUNCTION + 1;

// A byte that is neither an intermediate nor a final: 1 before 2. Those are bytes of both forms, so 1 is not tested before them.
#[tactic(auto, unfolding(crate::specs::Items::not_of_sequence))]
fn not_of_sequence(form: Form, byte: u8, place: usize) -> Item
    ensures { item_of result ≡ not_of_sequence form byte place }
{
    if form_has(form, byte) {
        Item::refused(Refusal::NotOfSequence, place)
    } else {
        Item::refused(Refusal::ByteOfEightBits, place)
    }
}

// What is written in 8-bit form for what does this: of a shift nothing, of a C1 function its byte, else these bytes.
#[tactic(auto, using(paper::proofs::Tests::tests), unfolding(crate::specs::Items::bytes_meant))]
fn piece_meant(effect: Effect, piece: Piece) -> Piece
    requires { Small piece }
    ensures { (bytes_in result ≡ bytes_meant effect (bytes_in piece)) × Small result }
{
    match effect.word {
        Word::SHIFT => nothing(),
        Word::CONTROL => one(BIT_8 + effect.value % FUNCTIONS),
        _ => piece,
    }
}

// A sequence or a C1 function that does this and has these bytes: the place of its last byte, and the next. Here, in `control` and in
// `not_of_set` both are handed over: that one more fits a number is known only to a caller, who has the text.
#[tactic(auto, unfolding(crate::specs::Items::meant_at))]
fn meant(effect: Effect, piece: Piece, place: usize, next: usize) -> Item
    requires { Small piece }
    ensures { item_of result ≡ meant_at effect (bytes_in piece) place next }
{
    if effect.word == Word::REFUSED {
        return Item::refused(Refusal::WithoutMeaning, place);
    }
    Item {
        effect,
        piece: piece_meant(effect, piece),
        place: next,
    }
}

// What is written for a set of several bytes: into G0 the short sequence where there is one.
#[tactic(auto, unfolding(crate::specs::Items::several_bytes_of))]
fn piece_of_several(second: u8, last: u8) -> Piece
    ensures { (bytes_in result ≡ several_bytes_of second last) × Small result }
{
    if second == OF_94_INTO_G0 && between(FIRST_SHORT, LAST_SHORT, last) {
        three(ESC, SEVERAL, last)
    } else {
        four(ESC, SEVERAL, second, last)
    }
}

// Inside a sequence, by how many intermediates stand before. The tests are those of `escapes::sequence_byte`, made here so that no choice
// is handed over and looked at again (docs/SPEED.md, "A choice that one function returns and its caller looks at again").
fn after_two(form: Form, first: u8, second: u8, text: &[u8], place: usize) -> Item
    requires { place ≤ length text.now }
    ensures { item_of result ≡ after_two form first second text.now place }
{
    if place >= text.len() {
        return Item::refused(Refusal::EndsInside, place);
    }
    let byte = text[place];
    if byte < FIRST_INTERMEDIATE {
        return not_of_sequence(form, byte, place);
    }
    if byte <= LAST_INTERMEDIATE {
        return Item::refused(Refusal::ThirdIntermediate, place);
    }
    if byte <= LAST_FINAL {
        let effect = effect_of_two(first, second, byte);
        return meant(effect, piece_of_several(second, byte), place, place + 1);
    }
    not_of_sequence(form, byte, place)
}

// After ESC and an intermediate: the rest of an opening stands at a place.
#[tactic(auto, using(paper::proofs::Tests::tests), unfolding(crate::specs::Items::is_opening))]
fn is_opening(form: Form, first: u8, text: &[u8], place: usize) -> bool
    ensures { result ≡ is_opening form first text.now place }
{
    first == OF_C0 && rest_ahead(form, text, place)
}

fn after_one(form: Form, first: u8, text: &[u8], place: usize) -> Item
    requires { (2 ≤ place) × (place ≤ length text.now) }
    ensures { item_of result ≡ after_one_or form first text.now place }
{
    if place >= text.len() {
        return Item::refused(Refusal::EndsInside, place);
    }
    let byte = text[place];
    if byte < FIRST_INTERMEDIATE {
        return not_of_sequence(form, byte, place);
    }
    if byte <= LAST_INTERMEDIATE {
        return after_two(form, first, byte, text, place + 1);
    }
    if byte <= LAST_FINAL {
        if is_opening(form, first, text, place) {
            let next = place - BEFORE_FINAL + opening_length(form) as usize;
            return Item::without_bytes(plain(Word::OPENING, 0), next);
        }
        let effect = effect_of_one(first, byte);
        return meant(effect, three(ESC, first, byte), place, place + 1);
    }
    not_of_sequence(form, byte, place)
}

pub(crate) fn after_escape(form: Form, text: &[u8], place: usize) -> Item
    requires { (1 ≤ place) × (place ≤ length text.now) }
    ensures { item_of result ≡ opened_or form text.now place (after_escape form text.now place) }
{
    if place >= text.len() {
        return Item::refused(Refusal::EndsInside, place);
    }
    let byte = text[place];
    if byte < FIRST_INTERMEDIATE {
        return not_of_sequence(form, byte, place);
    }
    if byte <= LAST_INTERMEDIATE {
        return after_one(form, byte, text, place + 1);
    }
    if byte <= LAST_FINAL {
        let effect = effect_of_none(form, byte);
        return meant(effect, two(ESC, byte), place, place + 1);
    }
    not_of_sequence(form, byte, place)
}

// SO or SI: the element that GL shows from now on.
fn shift(element: ElementNumber, next: usize) -> Item
    ensures { item_of result ≡ shifts element.0 next }
{
    Item::without_bytes(shows_in_gl(element), next)
}

// A byte of C0 or C1 on the ground that is not ESC: its place, and the next.
#[tactic(auto, unfolding(crate::specs::Items::control_at))]
pub(crate) fn control(byte: u8, place: usize, next: usize) -> Item
    ensures { item_of result ≡ control_at byte place next }
{
    if BIT_8 <= byte {
        return meant(effect_of_function(byte - BIT_8), nothing(), place, next);
    }
    if byte == SO {
        return shift(ElementNumber(G1), next);
    }
    if byte == SI {
        return shift(ElementNumber(G0), next);
    }
    Item {
        effect: plain(Word::CONTROL, byte),
        piece: one(byte),
        place: next,
    }
}
