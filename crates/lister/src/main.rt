// Prints a line for each answer to the text on standard input, except nothing yet and skipped, and a last line for its end. The
// text is in 8-bit form, with the argument 7 in 7-bit form.
#![tactic(auto)]

use paper::{Answer, Form, Listed, Reader};
use refusals::LONGEST_TEXT;
use std::env::Env;
use std::io;

// A text may have 65,536 bytes; one byte more shows that it is longer.
const ROOM: usize = LONGEST_TEXT + 1;

// Lines go out in pieces of up to so many bytes.
const PIECE: usize = 65536;

// Prints a piece, and answers where the next one begins and with which reader, if one is left.
fn print_piece(
    rt: &impl Print,
    text: &[u8],
    offset: usize,
    reader: Reader,
) -> io::Result<Option<(usize, Reader)>> {
    // lent to the library, which says how much of it is written
    let mut piece = [0; PIECE];
    let (length, left) = match listing::list(text, offset, reader, &mut piece) {
        Ok(Listed::Done(length)) => (length, None),
        Ok(Listed::More(length, at, next)) => (length, Some((at, next))),
        // the one line of a text that is refused as a whole, as the library makes it
        Err(refusal) => (
            listing::line_of(0, Answer::Refused(refusal), &mut piece).unwrap_or(0),
            None,
        ),
    };
    // `&piece[..length]` was tried, with the bound of ListingInPieces as a lemma: that the slice has the length stayed open.
    if let Some(lines) = piece.get(..length) {
        rt.write_all(lines)?;
    }
    Ok(left)
}

// Each piece but the last has a line, so there are no more pieces than answers.
fn print_listing(rt: &impl Print, text: &[u8], form: Form) -> io::Result<()> {
    let mut left = Some((0, reader::start(form)));
    for _ in 0..=text.len() {
        let Some((offset, reader)) = left else {
            break;
        };
        left = print_piece(rt, text, offset, reader)?;
    }
    Ok(())
}

fn list_input(rt: &(impl Print + Eprint + Input), form: Form) -> io::Result<()> {
    // no `Vec`: `desk::read_start` says why
    let mut room = [0; ROOM];
    match desk::read_start(rt, &mut room) {
        Ok(text) => print_listing(rt, text, form),
        Err(_) => eprintln!(rt; "lister: standard input cannot be read"),
    }
}

// No argument is 8-bit form, the one argument 7 is 7-bit form. Also in `survey`: one line, which a function
// of `desk` around its two would not make plainer.
fn choose(rt: &impl Env) -> Option<Form> {
    desk::form_asked(desk::argument(rt, &mut [0]).ok()?)
}

fn main(rt: HostRuntime) -> io::Result<()> {
    match choose(&rt) {
        Some(form) => list_input(&rt, form),
        None => eprintln!(&rt; "lister: no argument, or 7 for a text in 7-bit form"),
    }
}
