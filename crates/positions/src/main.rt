// Prints the code table and the sets as the library has them: every byte with its column, row and area, the forms that have
// it and what it is to a set of each kind; every column and row that make a byte, asked of all numbers; and the sets at the
// start and after a designation into each element. Bytes are in hex.
#![tactic(auto)]

use paper::{
    Area, Column, ControlElement, Count, Element, Form, Kind, Position, Row, Set, SetByte, Sets,
};
use std::io;

const CONTROL_ELEMENTS: [ControlElement; 2] = [ControlElement::C0, ControlElement::C1];

const ELEMENTS: [Element; 4] = [Element::G0, Element::G1, Element::G2, Element::G3];

fn area_name(area: Area) -> &'static str {
    match area {
        Area::C0 => "C0",
        Area::GL => "GL",
        Area::C1 => "C1",
        Area::GR => "GR",
    }
}

fn set_byte_name(is: SetByte) -> &'static str {
    match is {
        SetByte::OfSpace => "space",
        SetByte::OfDelete => "delete",
        SetByte::OfSet => "set",
        SetByte::Outside => "outside",
    }
}

fn print_byte(rt: &impl Print, byte: u8) -> io::Result<()> {
    let Position { column, row } = codetable::position_of(byte);
    let area = area_name(codetable::area_of(byte));
    let seven = u8::from(codetable::form_has(Form::Seven, byte));
    let eight = u8::from(codetable::form_has(Form::Eight, byte));
    let of_94 = set_byte_name(charsets::set_byte(Kind::Of94, byte));
    let of_96 = set_byte_name(charsets::set_byte(Kind::Of96, byte));
    println!(rt;
        "byte {byte:02x} {} {} {area} {seven} {eight} {of_94} {of_96}",
        column.0, row.0
    )
}

fn print_bytes(rt: &impl Print) -> io::Result<()> {
    for byte in 0u8..=255 {
        print_byte(rt, byte)?;
    }
    Ok(())
}

// The bytes that columns and rows make, where they make one; and how many were asked, so that none is left out unseen.
fn print_made(rt: &impl Print) -> io::Result<()> {
    let mut asked: u32 = 0;
    for column in 0u8..=255 {
        for row in 0u8..=255 {
            if let Some(byte) = codetable::byte_at(Column(column), Row(row)) {
                println!(rt; "{column} {row} {byte:02x}")?;
            }
            // At most 65,536, so this never wraps; `+= 1` would want an invariant of both loops.
            asked = asked.wrapping_add(1);
        }
    }
    println!(rt; "{asked} asked")
}

fn print_sets(rt: &impl Print, name: &str, sets: Sets) -> io::Result<()> {
    print!(rt; "{name}")?;
    for element in CONTROL_ELEMENTS {
        print!(rt; " {element} {:02x}", charsets::controls_in(sets, element))?;
    }
    for element in ELEMENTS {
        let Set { kind, count, last } = charsets::set_in(sets, element);
        print!(rt;
            " {element} {} {} {last:02x}",
            charsets::size_of(kind),
            charsets::bytes_of(count)
        )?;
    }
    println!(rt)
}

fn print_designations(rt: &impl Print) -> io::Result<()> {
    let start = charsets::starting_sets();
    print_sets(rt, "start", start)?;
    for element in CONTROL_ELEMENTS {
        print_sets(
            rt,
            element.name(),
            charsets::designate_controls(start, element, 0x7E),
        )?;
    }
    let set = Set {
        kind: Kind::Of96,
        count: Count::Three,
        last: 0x5A,
    };
    for element in ELEMENTS {
        print_sets(rt, element.name(), charsets::designate(start, element, set))?;
    }
    Ok(())
}

fn main(rt: HostRuntime) -> io::Result<()> {
    print_bytes(&rt)?;
    print_made(&rt)?;
    print_designations(&rt)
}
