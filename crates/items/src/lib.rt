// The items of a text, each read whole: an opening, a control, a shift, a sequence or a character; only a single shift and its character
// are two.
// Who has the whole text need not stop at every byte, and keeps what an item can change and no more. The bytes of an item
// are those of 8-bit form, but for an opening, which has none; `converter` writes it in the form that is asked for.
#![tactic(auto)]

mod character;
pub mod item;
pub mod letter;
pub mod piece;
mod reading;
mod sequence;
pub mod state;
