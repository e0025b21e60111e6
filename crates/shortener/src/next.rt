// The item at a place. A letter is tried here, within the loop of a pass, since a call for each costs a third more (docs/SPEED.md); all else
// is read by a call.
ghost use Rattle.std.specs.Prelude.{◌<◌, ◌≡◌, length};
ghost use Rattle.items.specs.Items.{item_of, item_at};

use crate::input::Input;
use codetable::BIT_8;
use escapes::effect::{Word, plain};
use items::item::{Item, read_item};
use items::letter::is_letter;
use items::piece::one;
use items::state::{CELLS, element_of};

impl Input<'_> {
    pub(crate) fn next_item(self, state: &[u8; CELLS], place: usize) -> Item
        requires { place < length self.text.now }
        ensures { item_of result ≡ item_at self.entry.form state.now self.entry.text.now place }
    {
        let byte = self.text[place];
        if is_letter(self.form, state, byte) {
            return Item {
                effect: plain(Word::CHAR, element_of(state, byte).0),
                piece: one(byte % BIT_8),
                place: place + 1,
            };
        }
        read_item(self.form, state, self.text, place)
    }
}
