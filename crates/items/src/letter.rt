// A letter: a character of one byte on the ground, at 2/1 to 7/14 of its set, which are positions of every set.
ghost use Rattle.std.specs.Prelude.{◌≡◌};
ghost use Rattle.items.specs.Letters.{is_letter};

use crate::state::{CELLS, NONE, element_of, single, size_in};
use charsets::{DELETE, SPACE, is_one};
use codetable::{BIT_8, between, form_has};
use paper::Form;

// Whether a letter stands here.
#[tactic(auto, using(paper::proofs::Tests::tests), unfolding(crate::specs::Letters::is_letter))]
pub fn is_letter(form: Form, state: &[u8; CELLS], byte: u8) -> bool
    ensures { result ≡ is_letter form state.now byte }
{
    between(SPACE + 1, DELETE - 1, byte % BIT_8)
        && single(state).0 == NONE
        && form_has(form, byte)
        && is_one(size_in(state, element_of(state, byte)))
}
