// Prints every position that has a Unicode number, asked of every set of every size and Final Byte, with every number of
// position bytes, columns and rows 0 to 19; then every Unicode number that stands somewhere, asked of all of Unicode and as
// many numbers above.
//
// A line of the first part is the set's kind, its number of bytes, its Final Byte, the column, the row and the number; of
// the second the number, then the same. Final Bytes and numbers are in hex. A line after each part counts what was asked,
// so that nothing is left out unseen.
#![tactic(auto)]

use paper::{Column, Count, Kind, Located, Position, Row, Set};
use std::io;

// Columns and rows are asked up to this number, past the last that there is.
const PAST: u8 = 20;

const COUNTS: [Count; 3] = [Count::One, Count::Two, Count::Three];

fn print_place(rt: &impl Print, set: Set, position: Position) -> io::Result<()> {
    let Set { kind, count, last } = set;
    let Position { column, row } = position;
    print!(rt;
        "{} {} {last:02x} {} {}",
        charsets::size_of(kind),
        charsets::bytes_of(count),
        column.0,
        row.0
    )
}

// Every position of a set, with so many position bytes; answers how many were asked.
fn print_positions(rt: &impl Print, set: Set, count: Count) -> io::Result<u32> {
    let mut asked: u32 = 0;
    for c in 0u8..PAST {
        for r in 0u8..PAST {
            let (column, row) = (Column(c), Row(r));
            if let Some(number) = unicode_numbers::unicode_of(set, count, column, row) {
                print_place(rt, set, Position { column, row })?;
                println!(rt; " {number:04x}")?;
            }
            // At most 400 here and 1,843,200 in all, so no sum wraps; `+= 1` would want an invariant of each loop.
            asked = asked.wrapping_add(1);
        }
    }
    Ok(asked)
}

// Every Final Byte of a size.
fn print_sets(rt: &impl Print, kind: Kind, count: Count) -> io::Result<u32> {
    let mut asked: u32 = 0;
    for last in 0u8..=255 {
        for bytes in COUNTS {
            asked = asked.wrapping_add(print_positions(rt, Set { kind, count, last }, bytes)?);
        }
    }
    Ok(asked)
}

fn print_sizes(rt: &impl Print) -> io::Result<()> {
    let mut asked: u32 = 0;
    for kind in [Kind::Of94, Kind::Of96] {
        for count in COUNTS {
            asked = asked.wrapping_add(print_sets(rt, kind, count)?);
        }
    }
    println!(rt; "{asked} positions asked")
}

// All numbers of Unicode, 0 to 10FFFF, and as many above it.
fn print_numbers(rt: &impl Print) -> io::Result<()> {
    let mut asked: u32 = 0;
    for number in 0u32..0x220000 {
        if let Some(Located { set, position }) = unicode_numbers::locate(number) {
            print!(rt; "{number:04x} ")?;
            print_place(rt, set, position)?;
            println!(rt)?;
        }
        asked = asked.wrapping_add(1);
    }
    println!(rt; "{asked} numbers asked")
}

fn main(rt: HostRuntime) -> io::Result<()> {
    print_sizes(&rt)?;
    print_numbers(&rt)
}
