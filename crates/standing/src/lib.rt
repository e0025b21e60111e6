// Where a reader stands: at the start of a text, elsewhere, and at the text's end; and how much of an opening it has recorded.
#![tactic(auto)]

ghost use Rattle.std.specs.Prelude.{◌≡◌};
ghost use Rattle.paper.specs.Starting.{started};
ghost use Rattle.paper.specs.Marks.{recording};
ghost use Rattle.paper.specs.Characters.{standing_at};
ghost use Rattle.paper.specs.Answering.{end_of_text};

use paper::{Element, EndWord, Form, Reader, Standing, Within};

// A reader at the start of a text.
pub fn start(form: Form) -> Reader
    ensures { result ≡ started form }
{
    Reader {
        form,
        sets: charsets::starting_sets(),
        gl: Element::G0,
        gr: Element::G1,
        gone: 0,
        standing: Standing::InStep(Within::Ground),
    }
}

// The reader standing elsewhere.
pub fn standing_at(standing: Standing, reader: Reader) -> Reader
    ensures { result ≡ standing_at standing reader }
{
    Reader { standing, ..reader }
}

// The reader that has recorded so much of the opening.
pub fn recording(gone: u8, reader: Reader) -> Reader
    ensures { result ≡ recording gone reader }
{
    Reader { gone, ..reader }
}

// Whether a text that ends here is whole, ends inside, or is lost.
pub fn end_word(reader: Reader) -> EndWord
    ensures { result ≡ end_of_text reader }
{
    match reader.standing {
        Standing::InStep(Within::Ground) => EndWord::Whole,
        Standing::InStep(_) => EndWord::Inside,
        Standing::Lost { .. } => EndWord::Lost,
    }
}
