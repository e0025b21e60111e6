// Runs texts through the reader, the survey and the listing, so that another reader can be held against them. Standard input
// has, for each text, a byte for its form, 7 or 8, three bytes for its length, the highest first, and the text. For each,
// standard output has a line with the form and the length; a line for every byte's answer, also for nothing yet and skipped; the
// end; the survey on a line; the listing, in pieces of up to 64 bytes, each after a line with its length; and what a buffer of
// eight bytes takes of it.
#![tactic(auto)]

use desk::{digit_of, form_named, length_of, read_full};
use paper::{Answer, Figures, Form, Listed, Reader, Refused};
use std::io;

// The longest text that is asked.
const ROOM: usize = 80000;

// A line fits, and a piece of a listing has a few lines.
const PIECE: usize = 64;

// The shortest line has eight bytes.
const FEW: usize = 8;

// More texts than there are.
const TEXTS: usize = 100000;

// The line that the library makes.
fn print_line(rt: &impl Print, offset: usize, answer: Answer) -> io::Result<()> {
    let mut line = [0u8; PIECE];
    match listing::line_of(offset, answer, &mut line) {
        Ok(length) => rt.write_all(&line[..length]),
        Err(_) => println!(rt; "no room for a line"),
    }
}

// The listing leaves two answers out.
fn print_answer(rt: &impl Print, offset: usize, answer: Answer) -> io::Result<()> {
    match answer {
        Answer::NothingYet => println!(rt; "{offset} nothing yet"),
        Answer::Skipped => println!(rt; "{offset} skipped"),
        _ => print_line(rt, offset, answer),
    }
}

// Byte by byte.
fn print_answers(rt: &impl Print, form: Form, text: &[u8]) -> io::Result<()> {
    let mut reader = reader::start(form);
    for (offset, byte) in text.iter().enumerate() {
        let given = reader::read(reader, *byte);
        print_answer(rt, offset, given.answer)?;
        reader = given.reader;
    }
    println!(rt; "end {} {}", text.len(), reader::end_word(reader))
}

fn print_figures(rt: &impl Print, figures: Figures) -> io::Result<()> {
    let Figures {
        characters,
        spaces,
        deletes,
        controls,
        designations,
        shifts,
        others,
        refusals,
        insteps,
        first,
        end,
    } = figures;
    print!(rt;
        "survey {characters} {spaces} {deletes} {controls} {designations} {shifts} {others} {refusals} {insteps}"
    )?;
    println!(rt; " {end}")?;
    if let Some(refused) = first {
        println!(rt; "first {refused}")?;
    }
    Ok(())
}

fn print_survey(rt: &impl Print, form: Form, text: &[u8]) -> io::Result<()> {
    match figures::survey(form, text) {
        Ok(figures) => print_figures(rt, figures),
        Err(refusal) => println!(rt; "survey {}", Refused { refusal, place: 0 }),
    }
}

// A piece of the listing, from an offset on with the reader that stands there. Answers where the next begins, if there is one.
fn print_piece(
    rt: &impl Print,
    text: &[u8],
    offset: usize,
    reader: Reader,
) -> io::Result<Option<(usize, Reader)>> {
    // lent to the library, which says how much of it is written
    let mut piece = [0u8; PIECE];
    let (length, next) = match listing::list(text, offset, reader, &mut piece) {
        Ok(Listed::Done(length)) => (length, None),
        Ok(Listed::More(length, at, next)) => (length, Some((at, next))),
        Err(refusal) => {
            println!(rt; "listing refused")?;
            print_line(rt, 0, Answer::Refused(refusal))?;
            return Ok(None);
        }
    };
    println!(rt; "listing {length}")?;
    // As in `lister`, where `&piece[..length]` was tried: that the slice has the length stayed open.
    rt.write_all(&piece[..length.min(PIECE)])?;
    Ok(next)
}

// Each piece but the last has a line, so there are no more pieces than answers.
fn print_listing(rt: &impl Print, form: Form, text: &[u8]) -> io::Result<()> {
    let mut left = Some((0, reader::start(form)));
    for _ in 0..=text.len() {
        let Some((offset, reader)) = left else { break };
        left = print_piece(rt, text, offset, reader)?;
    }
    Ok(())
}

// Into a buffer that is too short for most lines.
fn print_short(rt: &impl Print, form: Form, text: &[u8]) -> io::Result<()> {
    let mut few = [0u8; FEW];
    match listing::list(text, 0, reader::start(form), &mut few) {
        Ok(Listed::Done(length)) => println!(rt; "short {length}"),
        Ok(Listed::More(length, at, _)) => println!(rt; "short {length} more at {at}"),
        Err(refusal) => println!(rt; "short refused {}", usize::from(refusal)),
    }
}

fn print_text(rt: &impl Print, form: Form, text: &[u8]) -> io::Result<()> {
    println!(rt; "text {} {}", digit_of(form), text.len())?;
    print_answers(rt, form, text)?;
    print_survey(rt, form, text)?;
    print_listing(rt, form, text)?;
    print_short(rt, form, text)
}

// Reads one text over what the buffer holds and answers it; false where there is none, where it is cut short, and where there
// is no room for it.
fn answer_one(rt: &(impl Input + Print), buffer: &mut [u8]) -> io::Result<bool> {
    let mut head = [0u8; 4];
    if read_full(rt, &mut head)? < 4 {
        return Ok(false);
    }
    let [form, first, second, third] = head;
    let length = length_of(first, second, third);
    if length > buffer.len() {
        println!(rt; "a text is too long for this program")?;
        return Ok(false);
    }
    let text = &mut buffer[..length];
    let got = read_full(rt, text)?;
    print_text(rt, form_named(form), text)?;
    Ok(got == length)
}

fn main(rt: HostRuntime) -> io::Result<()> {
    // no `Vec`: a text that is cut short is printed over what the buffer held
    let mut buffer = [0u8; ROOM];
    for _ in 0..TEXTS {
        if !answer_one(&rt, &mut buffer)? {
            break;
        }
    }
    Ok(())
}
