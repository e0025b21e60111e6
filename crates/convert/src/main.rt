// Converts the text on standard input: with the argument 7 from 8-bit to 7-bit form, with 8 from 7-bit to 8-bit form. Standard
// output has the converted bytes and nothing else; a refusal, and arguments that are no form, are said on standard error.
#![tactic(auto)]

ghost use Rattle.std.specs.Prelude.{◌≤◌, IfOk, length};

use paper::{Form, Refused};
use refusals::LONGEST_TEXT;
use std::env::Env;
use std::io;

// A text may have 65,536 bytes; one byte more shows that it is longer.
const ROOM: usize = LONGEST_TEXT + 1;

// A byte of the text makes at most three bytes, as a character of G2 shown by a locking shift does in 7-bit form, so that no
// output is longer.
const LONGEST_OUTPUT: usize = 3 * LONGEST_TEXT;

// The form is that of the output; a text is in the other one.
#[tactic(auto, unfolding(paper::specs::Conversions::conversion))]
fn convert(form: Form, text: &[u8], buffer: &mut [u8]) -> Result<usize, Refused>
    ensures { IfOk result (λ count. count ≤ length buffer.new) }
{
    match form {
        Form::Seven => converter::to_seven(text, buffer),
        Form::Eight => converter::to_eight(text, buffer),
    }
}

fn print_converted(rt: &(impl Print + Eprint), form: Form, text: &[u8]) -> io::Result<()> {
    // lent to the library, which says how much of it is the output
    let mut output = [0; LONGEST_OUTPUT];
    match convert(form, text, &mut output) {
        Ok(length) => rt.write_all(&output[..length]),
        Err(refused) => eprintln!(rt; "{refused}"),
    }
}

fn convert_input(rt: &(impl Print + Eprint + Input), form: Form) -> io::Result<()> {
    // no `Vec`: `desk::read_start` says why
    let mut room = [0; ROOM];
    match desk::read_start(rt, &mut room) {
        Ok(text) => print_converted(rt, form, text),
        Err(_) => eprintln!(rt; "convert: standard input cannot be read"),
    }
}

// The one argument 7 or 8.
fn choose(rt: &impl Env) -> Option<Form> {
    match desk::argument(rt, &mut [0]) {
        Ok(Some(b"7")) => Some(Form::Seven),
        Ok(Some(b"8")) => Some(Form::Eight),
        _ => None,
    }
}

fn main(rt: HostRuntime) -> io::Result<()> {
    match choose(&rt) {
        Some(form) => convert_input(&rt, form),
        None => {
            eprintln!(&rt; "convert: one argument, 7 for the 7-bit form or 8 for the 8-bit form")
        }
    }
}
