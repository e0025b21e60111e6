// What a byte gives: each of these builds the answer and the next reader at once.
ghost use Rattle.std.specs.Prelude.{◌≡◌};
ghost use Rattle.paper.specs.Characters.{says, waits, refuses};
ghost use Rattle.paper.specs.Answering.{with_sets};
ghost use Rattle.reader.specs.Shown.{shows, takes_one};

use paper::{Answer, Answered, Element, Reader, Refusal, Sets, Shift, Standing, Within};
use standing::standing_at;

// A complete answer leaves the reader on the ground.
pub(crate) fn say(answer: Answer, reader: Reader) -> Answered
    ensures { result ≡ says answer reader }
{
    Answered {
        answer,
        reader: standing_at(Standing::InStep(Within::Ground), reader),
    }
}

// Nothing yet.
pub(crate) fn wait(within: Within, reader: Reader) -> Answered
    ensures { result ≡ waits within reader }
{
    Answered {
        answer: Answer::NothingYet,
        reader: standing_at(Standing::InStep(within), reader),
    }
}

// After a refusal the reader is lost, and the search begins with the refused byte.
pub(crate) fn refuse(refusal: Refusal, byte: u8, reader: Reader) -> Answered
    ensures { result ≡ refuses refusal byte reader }
{
    Answered {
        answer: Answer::Refused(refusal),
        reader: search::lost_with(byte, reader),
    }
}

// A locking shift: what GL and GR show from now on.
pub(crate) fn show(shift: Shift, gl: Element, gr: Element, reader: Reader) -> Answered
    ensures { result ≡ shows shift gl gr reader }
{
    say(Answer::Shift(shift), Reader { gl, gr, ..reader })
}

// A single shift: the next character is of this element.
pub(crate) fn take_one(shift: Shift, element: Element, reader: Reader) -> Answered
    ensures { result ≡ takes_one shift element reader }
{
    Answered {
        answer: Answer::Shift(shift),
        reader: standing_at(Standing::InStep(Within::SingleShift(element)), reader),
    }
}

// The reader on the ground with other sets.
pub(crate) fn with_sets(sets: Sets, reader: Reader) -> Reader
    ensures { result ≡ with_sets sets reader }
{
    Reader {
        sets,
        standing: Standing::InStep(Within::Ground),
        ..reader
    }
}
