// Converts the text on standard input, in 8-bit form, to 7-bit form and back, and compares what comes back with the text; counts
// its characters, and maps each to Unicode and back. With the argument numbers it prints instead a line for each character,
// SPACE, DELETE and control of the text: its Unicode number.
#![tactic(auto)]

ghost use Rattle.std.specs.Prelude.{◌≡◌, None};

use arrayvec::ArrayVec;
use charsets::{DELETE, SPACE};
use codetable::position_of;
use desk::hex;
use paper::{Answer, ControlElement, Count, Form, Located, Position, PositionBytes, Set};
use refusals::LONGEST_TEXT;
use std::env::Env;
use std::io;

// A text may have 65,536 bytes; one byte more shows that it is longer.
const ROOM: usize = LONGEST_TEXT + 1;

// No output is longer than three bytes for each byte of the text.
const LONGEST_OUTPUT: usize = 3 * LONGEST_TEXT;

// A line of numbers has four digits or the word none, and its end. No byte of a text makes more than one line.
const LINE: usize = 5;

const LINES: usize = LINE * LONGEST_TEXT;

// The C1 functions follow the 7-bit codes.
const FIRST_C1: u32 = 0x80;

// What is done with a text.
#[derive(Clone, Copy)]
enum Task {
    Compare,
    Number,
}

// How many answers of each kind a text has, and how many characters are not found again by their number.
#[derive(Clone, Copy, Default)]
struct Tally {
    mapped: usize,
    without_number: usize,
    spaces: usize,
    deletes: usize,
    controls: usize,
    not_back: usize,
}

fn number_at(set: Set, count: Count, byte: u8) -> Option<u32> {
    let Position { column, row } = position_of(byte);
    unicode_numbers::unicode_of(set, count, column, row)
}

fn number_of(set: Set, bytes: PositionBytes) -> Option<u32> {
    match bytes {
        PositionBytes::One(byte) => number_at(set, Count::One, byte),
        PositionBytes::Two(byte, _) => number_at(set, Count::Two, byte),
        PositionBytes::Three(byte, _, _) => number_at(set, Count::Three, byte),
    }
}

// Whether a number leads back to the set and the position that it was found for. A character of several bytes has no number that
// could lead back.
fn leads_back(number: u32, set: Set, bytes: PositionBytes) -> bool {
    match bytes {
        PositionBytes::One(byte) => {
            let position = position_of(byte);
            unicode_numbers::locate(number) == Some(Located { set, position })
        }
        _ => false,
    }
}

impl Tally {
    fn count_character(&mut self, set: Set, bytes: PositionBytes) {
        match number_of(set, bytes) {
            Some(number) => {
                count(&mut self.mapped);
                if !leads_back(number, set, bytes) {
                    count(&mut self.not_back);
                }
            }
            None => count(&mut self.without_number),
        }
    }

    // A text that was converted is never refused, nor skipped.
    fn count_answer(&mut self, answer: Answer) {
        match answer {
            Answer::Char(_, set, bytes) => self.count_character(set, bytes),
            Answer::Space => count(&mut self.spaces),
            Answer::Delete => count(&mut self.deletes),
            Answer::Control(_, _, _) => count(&mut self.controls),
            _ => {}
        }
    }
}

// The counts are no greater than a text's length, so this never wraps; `+= 1` would want that as an invariant of all six.
fn count(figure: &mut usize) {
    *figure = figure.wrapping_add(1);
}

fn tally_of(text: &[u8]) -> Tally {
    let mut tally = Tally::default();
    let mut reader = reader::start(Form::Eight);
    for &byte in text {
        let given = reader::read(reader, byte);
        tally.count_answer(given.answer);
        reader = given.reader;
    }
    tally
}

fn print_tally(rt: &impl Print, tally: Tally) -> io::Result<()> {
    println!(rt; "mapped {}", tally.mapped)?;
    println!(rt; "without number {}", tally.without_number)?;
    println!(rt; "spaces {}", tally.spaces)?;
    println!(rt; "deletes {}", tally.deletes)?;
    println!(rt; "controls {}", tally.controls)?;
    if tally.not_back > 0 {
        println!(rt; "not back {}", tally.not_back)?;
    }
    Ok(())
}

// The offset of the first byte that differs; where one text is the beginning of the other, the length of the shorter. That two
// texts which differ are never called the same is proved here.
fn first_difference(one: &[u8], other: &[u8]) -> Option<usize>
    ensures { result ≡ None → one.now ≡ other.now }
{
    if one == other {
        return None;
    }
    let differs = one
        .iter()
        .zip(other)
        .position(|(byte, other)| byte != other);
    Some(differs.unwrap_or(one.len().min(other.len())))
}

fn print_back(rt: &impl Print, text: &[u8], back: &[u8]) -> io::Result<()> {
    println!(rt; "eight {}", back.len())?;
    print_tally(rt, tally_of(text))?;
    match first_difference(text, back) {
        None => println!(rt; "equal"),
        Some(offset) => println!(rt; "differs at {offset}"),
    }
}

#[tactic(auto, unfolding(paper::specs::Conversions::conversion))]
fn compare_back(rt: &impl Print, text: &[u8], seven: &[u8]) -> io::Result<()> {
    // lent to the library, which says how much of it is the output
    let mut eight = [0; LONGEST_OUTPUT];
    println!(rt; "text {}", text.len())?;
    println!(rt; "seven {}", seven.len())?;
    match converter::to_eight(seven, &mut eight) {
        Ok(length) => print_back(rt, text, &eight[..length]),
        Err(refused) => println!(rt; "back {refused}"),
    }
}

// A line of a number has four digits, since the two mapped sets have no number of more, or the word none. By `{:04X}` the whole program takes
// nearly twice as long (docs/SPEED.md). Where there were no room, which never comes, nothing is put.
fn put_number(lines: &mut ArrayVec<u8, LINES>, number: Option<u32>) {
    let line = match number {
        Some(number) => {
            let [first, second] = hex((number / 256 % 256) as u8);
            let [third, fourth] = hex((number % 256) as u8);
            [first, second, third, fourth, b'\n']
        }
        None => *b"none\n",
    };
    let _ = lines.try_extend_from_slice(&line);
}

// Some answers have no line.
fn put_answer(lines: &mut ArrayVec<u8, LINES>, answer: Answer) {
    match answer {
        Answer::Char(_, set, bytes) => put_number(lines, number_of(set, bytes)),
        Answer::Space => put_number(lines, Some(u32::from(SPACE))),
        Answer::Delete => put_number(lines, Some(u32::from(DELETE))),
        Answer::Control(ControlElement::C0, _, code) => put_number(lines, Some(u32::from(code))),
        Answer::Control(ControlElement::C1, _, code) => {
            put_number(lines, Some(FIRST_C1 + u32::from(code)))
        }
        _ => {}
    }
}

// All lines at once, since a write for each would take most of the time; in a place of a known size, so that memory cannot run out.
fn print_numbers(rt: &impl Print, text: &[u8]) -> io::Result<()> {
    let mut lines = ArrayVec::<u8, LINES>::new();
    let mut reader = reader::start(Form::Eight);
    for &byte in text {
        let given = reader::read(reader, byte);
        put_answer(&mut lines, given.answer);
        reader = given.reader;
    }
    rt.write_all(lines.as_slice())
}

// The way there refuses what the reading refuses, and a text that is too long: the numbers have no refusals of their own.
#[tactic(auto, unfolding(paper::specs::Conversions::conversion))]
fn go_there(rt: &impl Print, text: &[u8], task: Task) -> io::Result<()> {
    // lent, as in `compare_back`
    let mut seven = [0; LONGEST_OUTPUT];
    match (converter::to_seven(text, &mut seven), task) {
        (Ok(length), Task::Compare) => compare_back(rt, text, &seven[..length]),
        (Ok(_), Task::Number) => print_numbers(rt, text),
        (Err(refused), _) => println!(rt; "{refused}"),
    }
}

fn read_input(rt: &(impl Print + Eprint + Input), task: Task) -> io::Result<()> {
    // no `Vec`: `desk::read_start` says why
    let mut room = [0; ROOM];
    match desk::read_start(rt, &mut room) {
        Ok(text) => go_there(rt, text, task),
        Err(_) => eprintln!(rt; "roundtrip: standard input cannot be read"),
    }
}

// No argument compares, the one argument numbers prints the numbers.
fn choose(rt: &impl Env) -> Option<Task> {
    match desk::argument(rt, &mut [0; 7]) {
        Ok(None) => Some(Task::Compare),
        Ok(Some(b"numbers")) => Some(Task::Number),
        _ => None,
    }
}

fn main(rt: HostRuntime) -> io::Result<()> {
    match choose(&rt) {
        Some(task) => read_input(&rt, task),
        None => eprintln!(&rt; "roundtrip: no argument, or the word numbers"),
    }
}
