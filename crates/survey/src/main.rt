// Says of the text on standard input whether it can be released, and what it has, a line for each figure. The text is in 8-bit
// form, with the argument 7 in 7-bit form.
#![tactic(auto)]

use paper::{EndWord, Figures, Form};
use refusals::LONGEST_TEXT;
use std::env::Env;
use std::io;

// A text may have 65,536 bytes; one byte more shows that it is longer.
const ROOM: usize = LONGEST_TEXT + 1;

// The text can be released where it was never refused and is whole.
fn verdict(figures: Figures) -> &'static str {
    if figures.refusals == 0 && figures.end == EndWord::Whole {
        "release"
    } else {
        "hold"
    }
}

fn print_figures(rt: &impl Print, length: usize, figures: Figures) -> io::Result<()> {
    println!(rt; "{}", verdict(figures))?;
    println!(rt; "char {}", figures.characters)?;
    println!(rt; "space {}", figures.spaces)?;
    println!(rt; "delete {}", figures.deletes)?;
    println!(rt; "control {}", figures.controls)?;
    println!(rt; "designate {}", figures.designations)?;
    println!(rt; "shift {}", figures.shifts)?;
    println!(rt; "other {}", figures.others)?;
    println!(rt; "refused {}", figures.refusals)?;
    if let Some(refused) = figures.first {
        println!(rt; "first {refused}")?;
    }
    println!(rt; "instep {}", figures.insteps)?;
    println!(rt; "end {length} {}", figures.end)
}

fn survey_input(rt: &(impl Print + Eprint + Input), form: Form) -> io::Result<()> {
    // no `Vec`: `desk::read_start` says why
    let mut room = [0; ROOM];
    let Ok(text) = desk::read_start(rt, &mut room) else {
        return eprintln!(rt; "survey: standard input cannot be read");
    };
    match figures::survey(form, text) {
        Ok(figures) => print_figures(rt, text.len(), figures),
        Err(refusal) => println!(rt; "hold\n0 refused {}", usize::from(refusal)),
    }
}

// No argument is 8-bit form, the one argument 7 is 7-bit form. Also in `lister`, which says why.
fn choose(rt: &impl Env) -> Option<Form> {
    desk::form_asked(desk::argument(rt, &mut [0]).ok()?)
}

fn main(rt: HostRuntime) -> io::Result<()> {
    match choose(&rt) {
        Some(form) => survey_input(&rt, form),
        None => eprintln!(&rt; "survey: no argument, or 7 for a text in 7-bit form"),
    }
}
