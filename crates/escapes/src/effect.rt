// What a meaning does, in three bytes: the word of its answer, the cell of the state that it changes, and what the cell has then. So it is
// handed over in one register.
ghost use Rattle.std.specs.Prelude.{◌≡◌};
ghost use Rattle.escapes.specs.declared.effect.Word.{Word};
ghost use Rattle.escapes.specs.Effects.{ends_stretch, effect, plain, shows_in_gl, shows_in_gr, takes_one};

use charsets::Size;

// The answer words by their places in the paper's list. An opening that is taken whole, and that there is nothing past the end of a
// text, are words after the paper's. A byte and no enum: `plain` (docs/PROMISES.md) answers for any.
#[derive(Clone, Copy, PartialEq, Eq)]
pub struct Word(pub u8);

impl Word {
    pub const NOTHING_YET: Word = Word(0);

    pub const CHAR: Word = Word(1);

    pub const SPACE: Word = Word(2);

    pub const DELETE: Word = Word(3);

    pub const CONTROL: Word = Word(4);

    pub const DESIGNATE: Word = Word(5);

    pub const SHIFT: Word = Word(6);

    pub const OTHER: Word = Word(7);

    pub const REFUSED: Word = Word(8);

    pub const SKIPPED: Word = Word(9);

    pub const INSTEP: Word = Word(10);

    pub const OPENING: Word = Word(11);

    pub const PAST: Word = Word(12);

    // Whether a stretch of a text ends at an item that has this word: a refusal, or one whose place is after a refusal's.
    #[tactic(auto, using(paper::proofs::Tests::tests))]
    pub fn ends_stretch(self) -> bool
        ensures { result ≡ ends_stretch self }
    {
        self.0 >= Word::REFUSED.0
    }
}

// How many words the paper has.
pub const WORDS: usize = 11;

// The paper's number of an element. A byte and no enum: the value of a cell in a row of bytes, which an item changes by one store;
// `shows_in_gl` and `items::state::size_in` (docs/PROMISES.md) answer for any.
#[derive(Clone, Copy)]
pub struct ElementNumber(pub u8);

pub const G0: u8 = 2;

pub const G1: u8 = 3;

pub const G2: u8 = 4;

pub const G3: u8 = 5;

// A cell of the state: those of the elements by their numbers, then what GL and GR show, the element that a single shift takes, and one
// that nothing reads. A byte and no enum: `items::state::change` (docs/PROMISES.md) answers for any.
#[derive(Clone, Copy, PartialEq, Eq)]
pub struct Cell(pub u8);

impl Cell {
    pub const C0: Cell = Cell(0);

    pub const C1: Cell = Cell(1);

    pub const G0: Cell = Cell(G0);

    pub const G1: Cell = Cell(G1);

    pub const G2: Cell = Cell(G2);

    pub const G3: Cell = Cell(G3);

    pub const GL: Cell = Cell(6);

    pub const GR: Cell = Cell(7);

    pub const SINGLE: Cell = Cell(8);

    pub const NOWHERE: Cell = Cell(9);
}

#[derive(Clone, Copy)]
pub struct Effect {
    pub word: Word,
    pub cell: Cell,
    pub value: u8,
}

// What changes nothing.
pub fn plain(word: Word, value: u8) -> Effect
    ensures { result ≡ plain word value }
{
    Effect {
        word,
        cell: Cell::NOWHERE,
        value,
    }
}

fn shows(cell: Cell, element: ElementNumber) -> Effect
    ensures { result ≡ effect Word.SHIFT cell element.0 }
{
    Effect {
        word: Word::SHIFT,
        cell,
        value: element.0,
    }
}

pub fn shows_in_gl(element: ElementNumber) -> Effect
    ensures { result ≡ shows_in_gl element.0 }
{
    shows(Cell::GL, element)
}

pub(crate) fn shows_in_gr(element: ElementNumber) -> Effect
    ensures { result ≡ shows_in_gr element.0 }
{
    shows(Cell::GR, element)
}

pub(crate) fn takes_one(element: ElementNumber) -> Effect
    ensures { result ≡ takes_one element.0 }
{
    shows(Cell::SINGLE, element)
}

pub(crate) fn designates(cell: Cell, size: Size) -> Effect
    ensures { result ≡ effect Word.DESIGNATE cell size.0 }
{
    Effect {
        word: Word::DESIGNATE,
        cell,
        value: size.0,
    }
}
