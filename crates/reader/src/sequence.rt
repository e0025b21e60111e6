// Controls and sequences: bytes of C0 and C1 on the ground, the bytes of a sequence, and what its final does.
ghost use Rattle.std.specs.Prelude.{◌≤◌, ◌≡◌};
ghost use Rattle.paper.specs.CodeTable.{bit8};
ghost use Rattle.paper.specs.Sequences.{sequence_byte};
ghost use Rattle.paper.specs.Characters.{shifts, c0_byte};
ghost use Rattle.paper.specs.Answering.{means, c1_byte, intermediate, sequence_at};
ghost use Rattle.paper.specs.declared.Meaning.{Meaning};

use crate::given::{refuse, say, show, take_one, wait, with_sets};
use codetable::{BIT_8, ESC, SI, SO};
use paper::{
    Answer, Answered, ControlElement, Element, Intermediates, Meaning, Reader, Refusal,
    SequenceByte, Set, Shift, Within,
};

// SI, SO and ESC keep their places in every C0 set.
#[tactic(auto, using(paper::proofs::Tests::tests), unfolding(paper::specs::Characters::c0_byte))]
pub(crate) fn c0_byte(byte: u8, reader: Reader) -> Answered
    ensures { result ≡ c0_byte byte reader }
{
    match byte {
        ESC => wait(Within::Sequence(Intermediates::None), reader),
        SO => show(Shift::LS1, Element::G1, reader.gr, reader),
        SI => show(Shift::LS0, Element::G0, reader.gr, reader),
        _ => say(
            Answer::Control(ControlElement::C0, reader.sets.c0, byte),
            reader,
        ),
    }
}

// The C1 function that a byte of C1 is.
pub(crate) fn c1_byte(byte: u8, reader: Reader) -> Answered
    requires { bit8 ≤ byte }
    ensures { result ≡ c1_byte byte reader }
{
    mean(
        escapes::c1_function(byte - BIT_8),
        Intermediates::None,
        byte,
        reader,
    )
}

// What a shift shows, or takes.
fn shift(shift: Shift, reader: Reader) -> Answered
    ensures { result ≡ shifts shift reader }
{
    match shift {
        Shift::LS0 => show(shift, Element::G0, reader.gr, reader),
        Shift::LS1 => show(shift, Element::G1, reader.gr, reader),
        Shift::LS2 => show(shift, Element::G2, reader.gr, reader),
        Shift::LS3 => show(shift, Element::G3, reader.gr, reader),
        Shift::LS1R => show(shift, reader.gl, Element::G1, reader),
        Shift::LS2R => show(shift, reader.gl, Element::G2, reader),
        Shift::LS3R => show(shift, reader.gl, Element::G3, reader),
        Shift::SS2 => take_one(shift, Element::G2, reader),
        Shift::SS3 => take_one(shift, Element::G3, reader),
    }
}

// A designation takes effect at its final.
#[tactic(auto, unfolding(paper::specs::Answering::means))]
fn designate_controls(element: ControlElement, last: u8, reader: Reader) -> Answered
    ensures { result ≡ means (Meaning.DesignateControls element) Intermediates.None last reader }
{
    let sets = charsets::designate_controls(reader.sets, element, last);
    Answered {
        answer: Answer::DesignateControls(element, last),
        reader: with_sets(sets, reader),
    }
}

#[tactic(auto, unfolding(paper::specs::Answering::means))]
fn designate(element: Element, set: Set, reader: Reader) -> Answered
    ensures { result ≡ means (Meaning.Designate element set.kind set.count) Intermediates.None set.last reader }
{
    let sets = charsets::designate(reader.sets, element, set);
    Answered {
        answer: Answer::Designate(element, set),
        reader: with_sets(sets, reader),
    }
}

// What a function or a sequence of this meaning does.
#[tactic(auto, unfolding(paper::specs::Answering::means))]
fn mean(meaning: Meaning, intermediates: Intermediates, byte: u8, reader: Reader) -> Answered
    ensures { result ≡ means meaning intermediates byte reader }
{
    match meaning {
        Meaning::NoMeaning => refuse(Refusal::WithoutMeaning, byte, reader),
        Meaning::Other => say(Answer::Other(intermediates, byte), reader),
        Meaning::Function(number) => say(
            Answer::Control(ControlElement::C1, reader.sets.c1, number),
            reader,
        ),
        Meaning::Shifts(shift_function) => shift(shift_function, reader),
        Meaning::DesignateControls(element) => designate_controls(element, byte, reader),
        Meaning::Designate(element, kind, count) => {
            designate(
                element,
                Set {
                    kind,
                    count,
                    last: byte,
                },
                reader,
            )
        }
    }
}

// Up to two intermediates.
fn intermediate(intermediates: Intermediates, byte: u8, reader: Reader) -> Answered
    ensures { result ≡ intermediate intermediates byte reader }
{
    match intermediates {
        Intermediates::None => wait(Within::Sequence(Intermediates::One(byte)), reader),
        Intermediates::One(first) => wait(
            Within::Sequence(Intermediates::Two(first, byte)),
            reader,
        ),
        Intermediates::Two(_, _) => refuse(Refusal::ThirdIntermediate, byte, reader),
    }
}

// A byte inside a sequence.
#[tactic(auto, unfolding(paper::specs::Sequences::sequence_byte))]
pub(crate) fn next_byte(intermediates: Intermediates, byte: u8, reader: Reader) -> Answered
    ensures { result ≡ sequence_at (sequence_byte byte) intermediates byte reader }
{
    match escapes::sequence_byte(byte) {
        SequenceByte::Intermediate => intermediate(intermediates, byte, reader),
        SequenceByte::Final => {
            let meaning = escapes::meaning_of(reader.form, intermediates, byte);
            mean(meaning, intermediates, byte, reader)
        }
        SequenceByte::Neither => refuse(Refusal::NotOfSequence, byte, reader),
    }
}
