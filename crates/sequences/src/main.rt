// Prints what every byte is inside a sequence, then what every sequence of up to two intermediates means in each form.
//
// A line is the form, the intermediates, the first and the last of the finals that mean the same, and the meaning in four
// numbers. Bytes are in hex. The first number is that of the answer's word in the paper's list: 4 control, then the function;
// 5 designate, then the element (C0, C1, G0 to G3 are 0 to 5), 32, 94 or 96, and the bytes to a character; 6 shift, then its
// place in the list LS0 to LS3, LS1R to LS3R, SS2, SS3; 7 other; 8 refused, then 4: no meaning. Each sequence stands on one
// line, so a difference at any of them shows.
#![tactic(auto)]

use paper::{Form, Intermediates, Meaning, SequenceByte};
use std::io;

fn print_intermediates(rt: &impl Print, intermediates: Intermediates) -> io::Result<()> {
    match intermediates {
        Intermediates::None => Ok(()),
        Intermediates::One(first) => print!(rt; " {first:02x}"),
        Intermediates::Two(first, second) => print!(rt; " {first:02x} {second:02x}"),
    }
}

// In four numbers. Elements and shifts are numbered in the order of their lists in `paper`.
fn print_meaning(rt: &impl Print, meaning: Meaning) -> io::Result<()> {
    match meaning {
        Meaning::Function(number) => print!(rt; " 4 {number} 0 0"),
        Meaning::DesignateControls(element) => print!(rt; " 5 {} 32 1", element as u8),
        Meaning::Designate(element, kind, count) => {
            print!(rt;
                " 5 {} {} {}",
                element as u8 + 2,
                charsets::size_of(kind),
                charsets::bytes_of(count)
            )
        }
        Meaning::Shifts(shift) => print!(rt; " 6 {} 0 0", shift as u8),
        Meaning::Other => print!(rt; " 7 0 0 0"),
        Meaning::NoMeaning => print!(rt; " 8 4 0 0"),
    }
}

// The line of the finals from one to another, which mean the same.
fn print_finals(
    rt: &impl Print,
    form: Form,
    intermediates: Intermediates,
    from: u8,
    to: u8,
) -> io::Result<()> {
    print!(rt; "{}", desk::digit_of(form))?;
    print_intermediates(rt, intermediates)?;
    print!(rt; " {from:02x} {to:02x}")?;
    print_meaning(rt, escapes::meaning_of(form, intermediates, from))?;
    println!(rt)
}

// Every final after these intermediates, 3/0 to 7/14.
fn finals(rt: &impl Print, form: Form, intermediates: Intermediates) -> io::Result<()> {
    let mut from: u8 = 0x30;
    for last in 0x31u8..0x7F {
        if escapes::meaning_of(form, intermediates, from)
            != escapes::meaning_of(form, intermediates, last)
        {
            print_finals(rt, form, intermediates, from, last - 1)?;
            from = last;
        }
    }
    print_finals(rt, form, intermediates, from, 0x7E)
}

// Every sequence of a form.
fn sequences(rt: &impl Print, form: Form) -> io::Result<()> {
    finals(rt, form, Intermediates::None)?;
    for first in 0x20u8..0x30 {
        finals(rt, form, Intermediates::One(first))?;
        for second in 0x20u8..0x30 {
            finals(rt, form, Intermediates::Two(first, second))?;
        }
    }
    Ok(())
}

// What a byte is inside a sequence.
fn inside(byte: u8) -> &'static str {
    match escapes::sequence_byte(byte) {
        SequenceByte::Intermediate => "intermediate",
        SequenceByte::Final => "final",
        SequenceByte::Neither => "neither",
    }
}

fn main(rt: HostRuntime) -> io::Result<()> {
    for byte in 0u8..=255 {
        let is = inside(byte);
        println!(rt; "byte {byte:02x} {is}")?;
    }
    sequences(&rt, Form::Seven)?;
    sequences(&rt, Form::Eight)
}
