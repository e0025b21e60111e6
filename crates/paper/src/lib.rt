// The types of the paper, in the order of its sections. What they mean is said by the definitions in specs/, and what is
// promised of them by the theorems in proofs/; there is no code here but the types and their names.
#![tactic(auto)]

mod names;

// ---- Code table and elements

// c/r is column c, row r. A column number is never taken where a row number is due: each is a type of its own.
#[derive(Clone, Copy, PartialEq, Eq)]
pub struct Column(pub u8);

#[derive(Clone, Copy, PartialEq, Eq)]
pub struct Row(pub u8);

// A position of the code table.
#[derive(Clone, Copy, PartialEq, Eq)]
pub struct Position {
    pub column: Column,
    pub row: Row,
}

// The four areas of the code table.
#[derive(Clone, Copy)]
pub enum Area {
    C0,
    GL,
    C1,
    GR,
}

// 7-bit form has columns 0 to 7 only.
#[derive(Clone, Copy)]
pub enum Form {
    Seven,
    Eight,
}

// The elements that hold control sets, and those that hold graphic sets.
#[derive(Clone, Copy, PartialEq, Eq)]
pub enum ControlElement {
    C0,
    C1,
}

#[derive(Clone, Copy, PartialEq, Eq)]
pub enum Element {
    G0,
    G1,
    G2,
    G3,
}

// Of 94 or 96 type.
#[derive(Clone, Copy, PartialEq, Eq)]
pub enum Kind {
    Of94,
    Of96,
}

// How many bytes there are to a character.
#[derive(Clone, Copy, PartialEq, Eq)]
pub enum Count {
    One,
    Two,
    Three,
}

// A graphic set: its size, which is kind and count, and its Final Byte F.
#[derive(Clone, Copy, PartialEq, Eq)]
pub struct Set {
    pub kind: Kind,
    pub count: Count,
    pub last: u8,
}

// What each element holds. A control set has one size, so its Final Byte is all of it.
#[derive(Clone, Copy)]
pub struct Sets {
    pub c0: u8,
    pub c1: u8,
    pub g0: Set,
    pub g1: Set,
    pub g2: Set,
    pub g3: Set,
}

// What a byte, taken as a position byte, is to a set: SPACE, DELETE, a position of the set, or outside.
#[derive(Clone, Copy)]
pub enum SetByte {
    OfSpace,
    OfDelete,
    OfSet,
    Outside,
}

// ---- Escape sequences

// What a byte is inside a sequence.
#[derive(Clone, Copy)]
pub enum SequenceByte {
    Intermediate,
    Final,
    Neither,
}

// The intermediates seen since ESC, in their order.
#[derive(Clone, Copy, PartialEq, Eq)]
pub enum Intermediates {
    None,
    One(u8),
    Two(u8, u8),
}

// The shift functions by name.
#[derive(Clone, Copy, PartialEq, Eq)]
pub enum Shift {
    LS0,
    LS1,
    LS2,
    LS3,
    LS1R,
    LS2R,
    LS3R,
    SS2,
    SS3,
}

// What a sequence means.
#[derive(Clone, Copy, PartialEq, Eq)]
pub enum Meaning {
    // a sequence without meaning
    NoMeaning,
    // handed out with its bytes, and changes no state
    Other,
    // the C1 function 0 to 31, but for 14 and 15, which are shifts
    Function(u8),
    // a locking or a single shift
    Shifts(Shift),
    // the control set named by the final, into C0 or C1
    DesignateControls(ControlElement),
    // the set of this kind and count named by the final, into an element
    Designate(Element, Kind, Count),
}

// ---- Characters and shifts

// The area that a character's bytes come from.
#[derive(Clone, Copy)]
pub enum GraphicArea {
    GL,
    GR,
}

// A character's 7-bit position bytes.
#[derive(Clone, Copy, PartialEq, Eq)]
pub enum PositionBytes {
    One(u8),
    Two(u8, u8),
    Three(u8, u8, u8),
}

// Where a reader stands that is in step.
#[derive(Clone, Copy)]
pub enum Within {
    Ground,
    Sequence(Intermediates),
    SingleShift(Element),
    Character(Element, GraphicArea, PositionBytes),
}

// Where a reader stands. A lost reader knows how much of the opening has gone by and how many bytes were skipped.
#[derive(Clone, Copy)]
pub enum Standing {
    InStep(Within),
    Lost { matched: u8, skipped: u16 },
}

// While it is in step a reader records how much of the opening of its form has just gone by, as a number of bytes.
#[derive(Clone, Copy)]
pub struct Reader {
    pub form: Form,
    pub sets: Sets,
    pub gl: Element,
    pub gr: Element,
    pub gone: u8,
    pub standing: Standing,
}

// ---- Refusal numbers

#[derive(Clone, Copy, PartialEq, Eq)]
pub enum Refusal {
    // a byte of 128 or more in 7-bit form
    ByteOfEightBits = 1,
    // inside a sequence, a byte outside 2/0 to 7/14
    NotOfSequence = 2,
    // a third intermediate
    ThirdIntermediate = 3,
    // a sequence without meaning
    WithoutMeaning = 4,
    // under 94 type 2/0, 7/15, 10/0 or 15/15, in GR, after a single shift or as a later byte
    NotOfSet = 5,
    // after a single shift or inside a character, a byte of another area, controls and ESC included
    AnotherArea = 6,
    // the text ends inside a sequence, after a single shift or inside a character
    EndsInside = 7,
    // an input longer than 65,536 bytes
    TooLong = 8,
    // a lent buffer shorter than the output
    BufferShort = 9,
    // no Unicode number for this set and position, or no such position
    NoNumber = 10,
    // a Unicode number in neither mapped set
    NotMapped = 11,
    // an input to be shortened that is longer than 4,096 bytes (12 is free)
    InputTooLong = 13,
    // a lent work buffer below 65,536 bytes
    WorkBufferShort = 14,
}

// A refusal with its place.
#[derive(Clone, Copy, PartialEq, Eq)]
pub struct Refused {
    pub refusal: Refusal,
    pub place: usize,
}

// ---- Answer to one byte

#[derive(Clone, Copy, PartialEq, Eq)]
pub enum Answer {
    NothingYet,
    Char(Element, Set, PositionBytes),
    Space,
    Delete,
    // C0 or C1, the control set's Final Byte, and the function 0 to 31
    Control(ControlElement, u8, u8),
    DesignateControls(ControlElement, u8),
    Designate(Element, Set),
    Shift(Shift),
    // the intermediates and the final
    Other(Intermediates, u8),
    Refused(Refusal),
    Skipped,
    // the number of bytes skipped
    InStep(u16),
}

// What one byte gives: its answer, and the reader for the next byte.
#[derive(Clone, Copy)]
pub struct Answered {
    pub answer: Answer,
    pub reader: Reader,
}

// At the end of a text.
#[derive(Clone, Copy, PartialEq, Eq)]
pub enum EndWord {
    Whole,
    Inside,
    Lost,
}

// ---- What a text has

// How many answers of each word a text has, its first refusal if there is one, and how the text ends.
#[derive(Clone, Copy)]
pub struct Figures {
    pub characters: usize,
    pub spaces: usize,
    pub deletes: usize,
    pub controls: usize,
    pub designations: usize,
    pub shifts: usize,
    pub others: usize,
    pub refusals: usize,
    pub insteps: usize,
    pub first: Option<Refused>,
    pub end: EndWord,
}

// ---- Lister

// What a call wrote of a text's lines: all that were left, or so many bytes, with the place and the reader to go on with.
#[derive(Clone, Copy)]
pub enum Listed {
    Done(usize),
    More(usize, usize, Reader),
}

// ---- Latin/Greek

// Where a Unicode number stands.
#[derive(Clone, Copy, PartialEq, Eq)]
pub struct Located {
    pub set: Set,
    pub position: Position,
}
