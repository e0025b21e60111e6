// What is known between two items of a text, in cells: the sizes of the sets in G0 to G3, what GL and GR show, and the element that a
// single shift takes, or none. Their Final Bytes are not kept, since nothing that is counted or written depends on them. The state is a
// row of small numbers, so that an item changes it by one store; docs/SPEED.md says more.
ghost use Rattle.std.specs.Prelude.{◌≡◌};
ghost use Rattle.items.specs.States.{single_in, left_in, right_in, size_in, element_of, changed, starting_cells};

use charsets::{OF_94, OF_96, Size};
use codetable::BIT_8;
use escapes::effect::{Cell, Effect, ElementNumber, G0, G1};

// How many cells there are: more than are used, so that the remainder of any number is one.
pub const CELLS: usize = 16;

// No single shift. It is the value of a cell, a byte like the others (docs/SPEED.md, "An item says what it changes"); an `Option` of the
// element would be packed and taken apart ("A choice that one function returns and its caller looks at again").
pub const NONE: u8 = 0;

// G0 of 94 type, G1 to G3 of 96 type; GL shows G0, GR shows G1.
pub fn starting() -> [u8; CELLS]
    ensures { result ≡ starting_cells }
{
    [
        0, 0, OF_94, OF_96, OF_96, OF_96, G0, G1, NONE, 0, 0, 0, 0, 0, 0, 0,
    ]
}

pub fn single(state: &[u8; CELLS]) -> ElementNumber
    ensures { result.0 ≡ single_in state.now }
{
    ElementNumber(state[Cell::SINGLE.0 as usize])
}

pub fn left(state: &[u8; CELLS]) -> ElementNumber
    ensures { result.0 ≡ left_in state.now }
{
    ElementNumber(state[Cell::GL.0 as usize])
}

pub fn right(state: &[u8; CELLS]) -> ElementNumber
    ensures { result.0 ≡ right_in state.now }
{
    ElementNumber(state[Cell::GR.0 as usize])
}

// The size of an element's set.
pub fn size_in(state: &[u8; CELLS], element: ElementNumber) -> Size
    ensures { result.0 ≡ size_in state.now element.0 }
{
    Size(state[element.0 as usize % CELLS])
}

// The element that the area of a byte shows.
#[tactic(auto, using(paper::proofs::Tests::tests), unfolding(crate::specs::States::element_of))]
pub fn element_of(state: &[u8; CELLS], byte: u8) -> ElementNumber
    ensures { result.0 ≡ element_of state.now byte }
{
    if byte < BIT_8 {
        left(state)
    } else {
        right(state)
    }
}

// A single shift is spent, and the cell has its value.
pub fn change(state: &mut [u8; CELLS], effect: Effect)
    ensures { state.new ≡ changed effect state.old }
{
    state[Cell::SINGLE.0 as usize] = NONE;
    state[effect.cell.0 as usize % CELLS] = effect.value;
}
