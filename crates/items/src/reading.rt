// The item at a place of a text.
ghost use Rattle.std.specs.Prelude.{◌≡◌};
ghost use Rattle.paper.specs.CodeTable.{area_of};
ghost use Rattle.items.specs.Pieces.{Small};
ghost use Rattle.items.specs.Items.{item_of, is_control, item_at};

use crate::character::graphic;
use crate::item::Item;
use crate::letter::is_letter;
use crate::piece::one;
use crate::sequence::{after_escape, control};
use crate::state::{CELLS, NONE, element_of, single};
use charsets::SPACE;
use codetable::{BIT_8, ESC, form_has};
use escapes::effect::{Word, plain};
use paper::{Form, Refusal};

// Whether a byte is of C0 or C1.
fn is_control(byte: u8) -> bool
    ensures { result ≡ is_control (area_of byte) }
{
    byte % BIT_8 < SPACE
}

// The item at a place of a text in a form, for what is known there. Letters are most of a text, so they are tried first. Form, text and
// place stay three, here and below: each call goes on at `place + 1`, so a struct of them would be made anew at each.
#[tactic(auto, unfolding(crate::specs::Items::item_at))]
pub fn read_item(form: Form, state: &[u8; CELLS], text: &[u8], place: usize) -> Item
    ensures { (item_of result ≡ item_at form state.now text.now place) × Small result.piece }
{
    if place >= text.len() {
        return Item::without_bytes(plain(Word::PAST, 0), place);
    }
    let byte = text[place];
    if is_letter(form, state, byte) {
        return Item::character(element_of(state, byte), one(byte % BIT_8), place + 1);
    }
    let taken = single(state);
    if taken.0 == NONE && byte == ESC {
        return after_escape(form, text, place + 1);
    }
    if !form_has(form, byte) {
        return Item::refused(Refusal::ByteOfEightBits, place);
    }
    if taken.0 == NONE && is_control(byte) {
        return control(byte, place, place + 1);
    }
    graphic(form, state, byte, text, place)
}
