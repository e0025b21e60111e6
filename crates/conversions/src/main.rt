// Runs texts through the two conversions, into buffers of given lengths, so that another converter can be held against them.
// Standard input has, for each case, a byte for the form of the output, 7 or else 8; a byte that fills the lent buffer; three
// bytes for the buffer's length and three for the text's, the highest first; and the text. For each, standard output has a
// line with the length of the output or with the refusal, and a line with all bytes of the lent buffer after the call, so that
// those which must stay are seen as well. A case that is too long for this program, or that the input ends inside, ends the run.
#![tactic(auto)]

ghost use Rattle.std.specs.Prelude.{◌*◌, ◌≤◌};

use desk::{form_named, hex, length_of, read_full, read_next};
use paper::Form;
use std::io;

// The longest text and the longest lent buffer that are asked.
const LONGEST_TEXT: usize = 80000;

const LONGEST_LENT: usize = 200000;

// At most so many cases are read, which bounds the loop.
const CASES: usize = 100000;

// Bytes are printed so many at a time, each as two digits and what parts it from the next.
const AT_ONCE: usize = 4096;

const PIECE: usize = 3 * AT_ONCE;

// Spells bytes, at most so many, and answers how long that is.
fn spell(bytes: &[u8], piece: &mut [u8; PIECE]) -> usize
    ensures { result ≤ 3 * 4096 }
{
    let count = bytes.len().min(AT_ONCE);
    for at in 0..count {
        let [high, low] = hex(bytes[at]);
        piece[3 * at] = high;
        piece[3 * at + 1] = low;
        piece[3 * at + 2] = b' ';
    }
    3 * count
}

// Two digits for each byte, a space between two, and the line's end; in pieces, so that no buffer three times as long is needed. Also in
// `shortenings`, as is the loop of `main`: what these print is no definition's, and a library function for it would need one.
fn print_bytes(rt: &impl Print, bytes: &[u8], piece: &mut [u8; PIECE]) -> io::Result<()> {
    let mut left = bytes.len();
    for some in bytes.chunks(AT_ONCE) {
        let length = spell(some, piece);
        left = left.saturating_sub(some.len());
        if left == 0 && 0 < length {
            piece[length - 1] = b'\n';
        }
        rt.write_all(&piece[..length])?;
    }
    if bytes.is_empty() {
        rt.write_all(b"\n")?;
    }
    Ok(())
}

fn run_case(
    rt: &impl Print,
    form: Form,
    text: &[u8],
    lent: &mut [u8],
    piece: &mut [u8; PIECE],
) -> io::Result<()> {
    let converted = match form {
        Form::Seven => converter::to_seven(text, lent),
        Form::Eight => converter::to_eight(text, lent),
    };
    match converted {
        Ok(length) => println!(rt; "done {length}")?,
        Err(refused) => println!(rt; "{refused}")?,
    }
    print_bytes(rt, lent, piece)
}

// Reads a case and runs it; false where the input ends inside it, and where it is too long.
fn run_one(
    rt: &(impl Input + Print),
    text: &mut [u8],
    lent: &mut [u8],
    piece: &mut [u8; PIECE],
) -> io::Result<bool> {
    let mut head = [0u8; 8];
    if read_full(rt, &mut head)? < 8 {
        return Ok(false);
    }
    let Some(lent) = lent.get_mut(..length_of(head[2], head[3], head[4])) else {
        return Ok(false);
    };
    let length = length_of(head[5], head[6], head[7]);
    let Some(text) = read_next(rt, text, length)? else {
        return Ok(false);
    };
    lent.fill(head[1]);
    run_case(rt, form_named(head[0]), text, lent, piece)?;
    Ok(true)
}

fn main(rt: HostRuntime) -> io::Result<()> {
    // lent to the library; no `Vec`, so that a run needs no more memory than it has at its start
    let mut text = [0u8; LONGEST_TEXT];
    let mut lent = [0u8; LONGEST_LENT];
    let mut piece = [0u8; PIECE];
    for _ in 0..CASES {
        if !run_one(&rt, &mut text, &mut lent, &mut piece)? {
            break;
        }
    }
    Ok(())
}
