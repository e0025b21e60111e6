// Cuts a first text at every byte, reads what stands before the cut, what stands between and a second text, and holds the answers
// to the second text against those of a reader just started. Standard input has, for each triple, a byte for its form, 7 or else 8, and
// three times a byte for a length and so many bytes: the first text, what stands between, the second text. For each, standard
// output has a line with the form and the three lengths; for every cut, a line with the cut, the end word before what stands
// between, and whether the second text is answered the same, or where it differs; and, if something stands between, the answer to
// the last byte of it, also nothing yet and skipped. What stands between comes from the input: the program does not know the
// opening, so that a broken one can be tried. A triple that the input ends inside is left out.
#![tactic(auto)]

ghost use Rattle.std.specs.Prelude.{◌≡◌, true};
ghost use Rattle.paper.specs.Texts.{answers_from};
ghost use Rattle.cuts.specs.declared.Comparison.{Comparison};

use desk::{digit_of, form_named, read_full, read_next};
use paper::{Answer, Form, Reader};
use std::{fmt, io};

// Any answer's line fits.
const LINE: usize = 64;

// A length has one byte, so no text is longer.
const LONGEST_TEXT: usize = 255;

// At most so many triples are read, which bounds the loop.
const TRIPLES: usize = 1000000000;

#[derive(Clone, Copy)]
struct Triple<'a> {
    form: Form,
    first: &'a [u8],
    between: &'a [u8],
    second: &'a [u8],
}

// The answers to the second text, held against those of a reader just started. Three answers, and an Option in an Option would be no
// plainer: a difference at the end has no offset.
#[derive(Clone, Copy)]
enum Comparison {
    Same,
    DiffersAt(usize),
    DiffersAtEnd,
}

impl fmt::Display for Comparison {
    fn fmt<W: fmt::Write>(&self, f: &mut fmt::Formatter<W>) -> fmt::Result {
        match self {
            Comparison::Same => f.write_str("same"),
            Comparison::DiffersAt(offset) => write!(f, "differs at {offset}"),
            Comparison::DiffersAtEnd => f.write_str("differs at end"),
        }
    }
}

// That answers which differ are never called the same is proved here.
fn same(one: Answer, other: Answer) -> bool
    ensures { result ≡ true → one ≡ other }
{
    one == other
}

// So it is with all answers to a text. The end words count only where these are the same.
fn compare(after: Reader, started: Reader, second: &[u8]) -> Comparison
    ensures { result ≡ Comparison.Same → answers_from 0 after second.now ≡ answers_from 0 started second.now }
{
    let mut one = after;
    let mut other = started;
    for (offset, byte) in second.iter().enumerate() {
        let given = reader::read(one, *byte);
        let expected = reader::read(other, *byte);
        if same(given.answer, expected.answer) {
            one = given.reader;
            other = expected.reader;
        } else {
            return Comparison::DiffersAt(offset);
        }
    }
    if reader::end_word(one) == reader::end_word(other) {
        Comparison::Same
    } else {
        Comparison::DiffersAtEnd
    }
}

// The offset of the last byte and the answer to it, where there is a byte; and the reader after it.
fn read_over(mut reader: Reader, text: &[u8]) -> (Option<(usize, Answer)>, Reader) {
    let mut last = None;
    for (offset, byte) in text.iter().enumerate() {
        let given = reader::read(reader, *byte);
        last = Some((offset, given.answer));
        reader = given.reader;
    }
    (last, reader)
}

// The line that the library makes. It has none for two answers. Much as in `answers`: no contract of a public function says what is
// printed (docs/PROMISES.md).
fn print_answer(rt: &impl Print, offset: usize, answer: Answer) -> io::Result<()> {
    let mut line = [0u8; LINE];
    match (answer, listing::line_of(offset, answer, &mut line)) {
        (Answer::NothingYet, _) => println!(rt; "{offset} nothing yet"),
        (Answer::Skipped, _) => println!(rt; "{offset} skipped"),
        (_, Ok(length)) => rt.write_all(&line[..length]),
        (_, Err(_)) => println!(rt; "no room for a line"),
    }
}

// The reader has read the first text up to the cut.
fn print_cut(rt: &impl Print, triple: Triple, cut: usize, reader: Reader) -> io::Result<()> {
    let end = reader::end_word(reader);
    let (last, after) = read_over(reader, triple.between);
    let comparison = compare(after, reader::start(triple.form), triple.second);
    println!(rt; "cut {cut} {end} {comparison}")?;
    if let Some((offset, answer)) = last {
        // At most 509, so this never wraps.
        print_answer(rt, cut.wrapping_add(offset), answer)?;
    }
    Ok(())
}

// Reading on from a reader leaves it as it was, so that the reader of one cut serves for the next.
fn print_cuts(rt: &impl Print, triple: Triple) -> io::Result<()> {
    let mut reader = reader::start(triple.form);
    for (cut, byte) in triple.first.iter().enumerate() {
        print_cut(rt, triple, cut, reader)?;
        reader = reader::read(reader, *byte).reader;
    }
    print_cut(rt, triple, triple.first.len(), reader)
}

fn print_triple(rt: &impl Print, triple: Triple) -> io::Result<()> {
    println!(rt;
        "cuts {} {} {} {}",
        digit_of(triple.form),
        triple.first.len(),
        triple.between.len(),
        triple.second.len()
    )?;
    print_cuts(rt, triple)
}

// The next byte of the input.
fn read_byte(rt: &impl Input) -> io::Result<Option<u8>> {
    let mut byte = [0u8; 1];
    Ok((read_full(rt, &mut byte)? == 1).then_some(byte[0]))
}

// A length of one byte, and a text of that length.
fn read_text<'a>(rt: &impl Input, room: &'a mut [u8]) -> io::Result<Option<&'a [u8]>> {
    match read_byte(rt)? {
        Some(length) => read_next(rt, room, usize::from(length)),
        None => Ok(None),
    }
}

// None where the input ends inside a triple, as its parts are none then.
fn read_triple<'a>(
    rt: &impl Input,
    first: &'a mut [u8],
    between: &'a mut [u8],
    second: &'a mut [u8],
) -> io::Result<Option<Triple<'a>>> {
    let Some(form) = read_byte(rt)? else {
        return Ok(None);
    };
    let Some(first) = read_text(rt, first)? else {
        return Ok(None);
    };
    let Some(between) = read_text(rt, between)? else {
        return Ok(None);
    };
    let Some(second) = read_text(rt, second)? else {
        return Ok(None);
    };
    Ok(Some(Triple {
        form: form_named(form),
        first,
        between,
        second,
    }))
}

fn main(rt: HostRuntime) -> io::Result<()> {
    // no `Vec`, so that a run needs no more memory than it has at its start
    let mut first = [0u8; LONGEST_TEXT];
    let mut between = [0u8; LONGEST_TEXT];
    let mut second = [0u8; LONGEST_TEXT];
    for _ in 0..TRIPLES {
        match read_triple(&rt, &mut first, &mut between, &mut second)? {
            Some(triple) => print_triple(&rt, triple)?,
            None => break,
        }
    }
    Ok(())
}
