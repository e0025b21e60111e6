// Runs texts through the shortest 7-bit text, into buffers of given lengths, so that another shortener can be held against it.
// Standard input has, for each case, a byte for the form of the text, 7 or else 8; a byte that fills both lent buffers; three
// bytes each, the highest first, for the lengths of the buffer, of the work buffer and of the text; and the text. For each,
// standard output has a line with the length of the output or with the refusal; a line with all bytes of the lent buffer after
// the call; and a line with how many bytes at the start of the work buffer are zero, and how many at its end still have the
// fill. A case that is too long for this program, or that the input ends inside, ends the run.
#![tactic(auto)]

ghost use Rattle.std.specs.Prelude.{◌*◌, ◌≤◌};

use desk::{form_named, hex, length_of, read_full, read_next};
use paper::Form;
use std::io;

// The longest text, the longest lent buffer and the longest work buffer that are asked.
const LONGEST_TEXT: usize = 5000;

const LONGEST_LENT: usize = 25000;

const LONGEST_WORK: usize = 70000;

// At most so many cases are read, which bounds the loop.
const CASES: usize = 100000;

// Bytes are printed so many at a time, each as two digits and what parts it from the next.
const AT_ONCE: usize = 4096;

const PIECE: usize = 3 * AT_ONCE;

// Spells bytes, at most so many, and answers how long that is.
fn spell(bytes: &[u8], piece: &mut [u8; PIECE]) -> usize
    ensures { result ≤ 3 * 4096 }
{
    let count = bytes.len().min(AT_ONCE);
    for at in 0..count {
        let [high, low] = hex(bytes[at]);
        piece[3 * at] = high;
        piece[3 * at + 1] = low;
        piece[3 * at + 2] = b' ';
    }
    3 * count
}

// Two digits for each byte, a space between two, and the line's end; in pieces, so that no buffer three times as long is needed. Also in
// `conversions`, as is the loop of `main`: what these print is no definition's, and a library function for it would need one.
fn print_bytes(rt: &impl Print, bytes: &[u8], piece: &mut [u8; PIECE]) -> io::Result<()> {
    let mut left = bytes.len();
    for some in bytes.chunks(AT_ONCE) {
        let length = spell(some, piece);
        left = left.saturating_sub(some.len());
        if left == 0 && 0 < length {
            piece[length - 1] = b'\n';
        }
        rt.write_all(&piece[..length])?;
    }
    if bytes.is_empty() {
        rt.write_all(b"\n")?;
    }
    Ok(())
}

// How many bytes at the start of the work buffer are zero, and how many at its end still have the fill. Never inlined: in `main`, which has the
// buffer on its stack, the loop over 65,536 zeros takes an instruction more for each, and the program a fifth more time.
#[inline(never)]
fn ends_of(work: &[u8], fill: u8) -> (usize, usize) {
    let zeros = work.iter().take_while(|byte| **byte == 0).count();
    let kept = work.iter().rev().take_while(|byte| **byte == fill).count();
    (zeros, kept)
}

fn run_case(
    rt: &impl Print,
    form: Form,
    text: &[u8],
    fill: u8,
    lent: &mut [u8],
    work: &mut [u8],
    piece: &mut [u8; PIECE],
) -> io::Result<()> {
    match shortener::shortest(form, text, lent, work) {
        Ok(length) => println!(rt; "done {length}")?,
        Err(refused) => println!(rt; "{refused}")?,
    }
    print_bytes(rt, lent, piece)?;
    let (zeros, kept) = ends_of(work, fill);
    println!(rt; "work {zeros} {kept}")
}

// Reads a case and runs it; false where the input ends inside it, and where it is too long.
fn run_one(
    rt: &(impl Input + Print),
    text: &mut [u8],
    lent: &mut [u8],
    work: &mut [u8],
    piece: &mut [u8; PIECE],
) -> io::Result<bool> {
    let mut head = [0u8; 11];
    if read_full(rt, &mut head)? < 11 {
        return Ok(false);
    }
    let Some(lent) = lent.get_mut(..length_of(head[2], head[3], head[4])) else {
        return Ok(false);
    };
    let Some(work) = work.get_mut(..length_of(head[5], head[6], head[7])) else {
        return Ok(false);
    };
    let length = length_of(head[8], head[9], head[10]);
    let Some(text) = read_next(rt, text, length)? else {
        return Ok(false);
    };
    let fill = head[1];
    lent.fill(fill);
    work.fill(fill);
    run_case(rt, form_named(head[0]), text, fill, lent, work, piece)?;
    Ok(true)
}

fn main(rt: HostRuntime) -> io::Result<()> {
    // lent to the library; no `Vec`, so that a run needs no more memory than it has at its start
    let mut text = [0u8; LONGEST_TEXT];
    let mut lent = [0u8; LONGEST_LENT];
    let mut work = [0u8; LONGEST_WORK];
    let mut piece = [0u8; PIECE];
    for _ in 0..CASES {
        if !run_one(&rt, &mut text, &mut lent, &mut work, &mut piece)? {
            break;
        }
    }
    Ok(())
}
