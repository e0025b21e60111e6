// The line of each answer, and the last line of a text.
ghost use Rattle.std.specs.Prelude.{◌≡◌, ◌∷◌, ◌++◌, ◌+◌, ◌≤◌, length};
ghost use Rattle.paper.specs.Sets.{space};
ghost use Rattle.listing.specs.Numerals.{numeral, size_numeral, answer_line, last_line};

use crate::making::Line;
use paper::{Answer, Count, EndWord, Kind, Set};

// The size of a control set.
const CONTROL_SIZE: &str = "32";

// The size of a set, with a cross where its characters have several bytes.
#[tactic(auto, unfolding(crate::specs::Numerals::size_numeral))]
fn size_name(set: Set) -> &'static str
    ensures value { result.now ≡ size_numeral set }
    ensures size { length result.now ≤ 4 }
{
    match (set.kind, set.count) {
        (Kind::Of94, Count::One) => "94",
        (Kind::Of94, Count::Two) => "94x2",
        (Kind::Of94, Count::Three) => "94x3",
        (Kind::Of96, Count::One) => "96",
        (Kind::Of96, Count::Two) => "96x2",
        (Kind::Of96, Count::Three) => "96x3",
    }
}

// The beginning of an answer's line: the offset of the byte that gave it, and the answer word.
#[tactic(auto, using(crate::proofs::NumbersOpened::numeral_lem))]
fn begin(offset: usize, word: &str) -> Line
    requires { length word.now ≤ 9 }
    ensures text { result ≡ numeral offset ++ (space ∷ word.now) }
    ensures size { length result ≤ 21 + length word.now }
{
    Line::new(itoa::Buffer::new().format(offset)).field(word)
}

// The line of an answer; nothing yet and skipped have none.
#[tactic(auto, using(crate::proofs::NumbersOpened::joined))]
pub(crate) fn answer_line(offset: usize, answer: Answer) -> Line
    ensures { result ≡ answer_line offset answer }
{
    match answer {
        Answer::NothingYet | Answer::Skipped => Line::new(""),
        Answer::Char(element, set, position) => begin(offset, "char")
            .field(element.name())
            .field(size_name(set))
            .hex(set.last)
            .position(position)
            .end(),
        Answer::Space => begin(offset, "space").end(),
        Answer::Delete => begin(offset, "delete").end(),
        Answer::Control(element, last, number) => begin(offset, "control")
            .field(element.name())
            .hex(last)
            .hex(number)
            .end(),
        Answer::DesignateControls(element, last) => begin(offset, "designate")
            .field(element.name())
            .field(CONTROL_SIZE)
            .hex(last)
            .end(),
        Answer::Designate(element, set) => begin(offset, "designate")
            .field(element.name())
            .field(size_name(set))
            .hex(set.last)
            .end(),
        Answer::Shift(shift) => begin(offset, "shift").field(shift.name()).end(),
        Answer::Other(intermediates, last) => begin(offset, "other")
            .sequence(intermediates, last)
            .end(),
        Answer::Refused(refusal) => begin(offset, "refused").number(usize::from(refusal)).end(),
        Answer::InStep(count) => begin(offset, "instep").number(usize::from(count)).end(),
    }
}

// The last line of a text: end, length, word.
#[tactic(auto, using(crate::proofs::NumbersOpened::joined))]
pub(crate) fn last_line(length: usize, word: EndWord) -> Line
    ensures { result ≡ last_line length word }
{
    Line::new("end").number(length).field(word.name()).end()
}
