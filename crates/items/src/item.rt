// What an item does, its bytes, and the place after it.
ghost use Rattle.items.specs.Pieces.{Small};

use crate::piece::{Piece, nothing};
pub use crate::reading::read_item;
use escapes::effect::{Effect, ElementNumber, Word, plain};
use paper::Refusal;

// Of a character the value is its element, and the bytes are its position bytes; a shift and an opening have none; the bytes of all else
// are what it is written as in 8-bit form. Of a refusal the value is its number, and the place its place. There is room for a shift
// before the bytes.
#[derive(Clone, Copy)]
pub struct Item {
    pub effect: Effect,
    pub piece: Piece,
    pub place: usize,
    pub ghost small: { Small piece },
}

impl Item {
    ghost use Rattle.std.specs.Prelude.{◌≡◌};
    ghost use Rattle.items.specs.Pieces.{bytes_in};
    ghost use Rattle.items.specs.Items.{item_of, character_of, without_bytes, refused};

    pub(crate) fn character(element: ElementNumber, piece: Piece, place: usize) -> Self
        requires { Small piece }
        ensures { item_of result ≡ character_of element.0 (bytes_in piece) place }
    {
        Item {
            effect: plain(Word::CHAR, element.0),
            piece,
            place,
        }
    }

    // What has no bytes: a shift, an opening, or nothing past the end of a text.
    pub(crate) fn without_bytes(effect: Effect, place: usize) -> Self
        ensures { item_of result ≡ without_bytes effect place }
    {
        Item {
            effect,
            piece: nothing(),
            place,
        }
    }

    pub(crate) fn refused(refusal: Refusal, place: usize) -> Self
        ensures { item_of result ≡ refused refusal place }
    {
        Self::without_bytes(plain(Word::REFUSED, refusal as u8), place)
    }
}
