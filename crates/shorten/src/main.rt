// Writes the shortest 7-bit text that reads as the text on standard input, which is in 8-bit form, with the argument 7 in 7-bit
// form. Standard output has the output's bytes and nothing else; a refusal, and any other argument, are said on standard error.
#![tactic(auto)]

use paper::Form;
use refusals::{LEAST_WORK, LONGEST_INPUT};
use std::env::{Env, FillError};
use std::io;

// A text may have 4,096 bytes; one byte more shows that it is longer.
const ROOM: usize = LONGEST_INPUT + 1;

// A byte of the text makes at most three bytes, so that no output is longer.
const LONGEST_OUTPUT: usize = 3 * LONGEST_INPUT;

fn print_shortest(rt: &(impl Print + Eprint), form: Form, text: &[u8]) -> io::Result<()> {
    // lent to the library, which says how much of the first is the output
    let mut output = [0; LONGEST_OUTPUT];
    let mut work = [0; LEAST_WORK];
    match shortener::shortest(form, text, &mut output, &mut work) {
        // `&output[..length]` was tried, with a lemma that a shortening fits its room: that the length is within stayed open.
        Ok(length) => rt.write_all(output.get(..length).unwrap_or(&[])),
        Err(refused) => eprintln!(rt; "{refused}"),
    }
}

fn shorten_input(rt: &(impl Print + Eprint + Input), form: Form) -> io::Result<()> {
    // no `Vec`: `desk::read_start` says why
    let mut room = [0; ROOM];
    match desk::read_start(rt, &mut room) {
        Ok(text) => print_shortest(rt, form, text),
        Err(_) => eprintln!(rt; "shortest: standard input cannot be read"),
    }
}

// The program's own name is the argument of number 0.
fn has_name(rt: &impl Env) -> bool {
    !matches!(rt.arg(0, &mut []), Err(FillError::NotPresent))
}

// No argument, or the one argument 7.
fn choose(rt: &impl Env) -> Option<Form> {
    match desk::argument(rt, &mut [0]).ok()? {
        None if !has_name(rt) => None,
        given => desk::form_asked(given),
    }
}

fn main(rt: HostRuntime) -> io::Result<()> {
    match choose(&rt) {
        Some(form) => shorten_input(&rt, form),
        None => {
            eprintln!(&rt;
                "shortest: no argument for a text in 8-bit form, or 7 for one in 7-bit form"
            )
        }
    }
}
