// What the programs share: how they read their input, and what they take from their arguments.
#![tactic(auto)]

ghost use Rattle.std.specs.Prelude.{◌≡◌, ◌≢◌, ◌∷◌, [], ◌≤◌, ◌<◌, None, Some, IfOk, IfSome, length, take};
ghost use Rattle.paper.specs.Lister.{digit, hex};
ghost use Rattle.desk.specs.Heads.{digit_of, form_named, length_of};

use paper::Form;
use std::alloc::Global;
use std::env::{Env, FillError};
use std::io;
use std::io::Read;

// Reads until the buffer is full or the input ends, and answers how many bytes it put there; a read that fails is an error. No
// method of `Read` says how many bytes of a lent buffer a short input filled: `read_exact` fails there.
pub fn read_full(rt: &impl Input, buffer: &mut [u8]) -> io::Result<usize>
    ensures { IfOk result (λ count. count ≤ length buffer.new) }
{
    let mut input = rt.reader();
    let mut done = 0;
    while done < buffer.len() {
        let count = input.read(&mut buffer[done..])?;
        if count == 0 {
            break;
        }
        done += count;
    }
    Ok(done)
}

// The start of the input, at the start of the buffer: all of it that fits. That the programs read into a `Vec` was tried: by
// bench/run, `survey` and `convert` took 1.3 to 2.6 instructions a byte more.
pub fn read_start<'a>(rt: &impl Input, buffer: &'a mut [u8]) -> io::Result<&'a [u8]>
    ensures { IfOk result (λ text. length text.now ≤ length buffer.old) }
{
    let count = read_full(rt, buffer)?;
    Ok(&buffer[..count])
}

// The next so many bytes of the input, at the start of the buffer; none where the input ends inside them, or where they do not fit.
pub fn read_next<'a>(
    rt: &impl Input,
    buffer: &'a mut [u8],
    count: usize,
) -> io::Result<Option<&'a [u8]>>
    ensures { IfOk result (λ next. IfSome next (λ text. length text.now ≡ count)) }
{
    let Some(room) = buffer.get_mut(..count) else {
        return Ok(None);
    };
    if read_full(rt, room)? < count {
        return Ok(None);
    }
    Ok(Some(room))
}

// What an input still has, or as many bytes of its start; a read that fails is an error.
pub fn read_text<R: Read + Drop>(input: R, alloc: Global, most: u64) -> io::Result<Vec<u8>>
    ensures { IfOk result (λ text. IfSome (R.remaining input) (λ bytes. text.items ≡ take most bytes)) }
{
    let mut text = Vec::new(alloc);
    input.take(most).read_to_end(&mut text)?;
    Ok(text)
}

// The next so many bytes of an input; none where it ends inside them.
pub fn read_whole<R: Read + Drop>(
    input: R,
    alloc: Global,
    count: usize,
) -> io::Result<Option<Vec<u8>>>
    ensures some { IfOk result (λ whole. IfSome whole (λ text. length text.items ≡ count)) }
    ensures bytes { IfOk result (λ whole. IfSome whole (λ text. IfSome (R.remaining input) (λ bytes. text.items ≡ take count bytes))) }
    ensures none { IfOk result (λ whole. whole ≡ None → IfSome (R.remaining input) (λ bytes. length bytes < count)) }
{
    let text = read_text(input, alloc, count as u64)?;
    Ok((text.len() == count).then_some(text))
}

// The form that a byte names: 7, or else 8.
pub fn form_named(byte: u8) -> Form
    ensures { result ≡ form_named byte }
{
    if byte == b'7' {
        Form::Seven
    } else {
        Form::Eight
    }
}

// The digit that names a form.
pub fn digit_of(form: Form) -> char
    ensures { result ≡ digit_of form }
{
    match form {
        Form::Seven => '7',
        Form::Eight => '8',
    }
}

// The length that three bytes name, the highest first.
pub fn length_of(first: u8, second: u8, third: u8) -> usize
    ensures { result ≡ length_of first second third }
{
    usize::from(first) * 65536 + usize::from(second) * 256 + usize::from(third)
}

// The hex digit of a number below sixteen.
fn digit(number: u8) -> u8
    requires { number < 16 }
    ensures { result ≡ digit number }
{
    if number < 10 {
        b'0' + number
    } else {
        b'A' + (number - 10)
    }
}

// A byte as two hex digits. A number is formatted by `{:02X}` at some fifteen times the cost (docs/SPEED.md).
pub fn hex(byte: u8) -> [u8; 2]
    ensures { result ≡ hex byte }
{
    [digit(byte / 16), digit(byte % 16)]
}

// More than one argument, or one that is longer than the buffer.
#[derive(Clone, Copy)]
pub struct TooMuch;

// The one argument after the program's own name, if there is any; it is put at the start of the buffer. `std::env::args` would
// refuse every call of a program whose own name is not UTF-8, and these programs never did.
pub fn argument<'a>(rt: &impl Env, buffer: &'a mut [u8]) -> Result<Option<&'a [u8]>, TooMuch>
    ensures { IfOk result (λ given. IfSome given (λ word. length word.now ≤ length buffer.old)) }
{
    if is_given(rt, 2) {
        return Err(TooMuch);
    }
    match rt.arg(1, buffer) {
        Ok(length) => Ok(Some(&buffer[..length])),
        Err(FillError::NotPresent) => Ok(None),
        Err(FillError::TooLong) => Err(TooMuch),
    }
}

// The form of a text, by the one argument: none is 8-bit form, 7 is 7-bit form, and no other word names a form.
pub fn form_asked(given: Option<&[u8]>) -> Option<Form>
    ensures none { given.entry ≡ None → result ≡ Some Form.Eight }
    ensures seven { IfSome given.entry (λ word. word.now ≡ 55 ∷ [] → result ≡ Some Form.Seven) }
    ensures other { IfSome given.entry (λ word. word.now ≢ 55 ∷ [] → result ≡ None) }
{
    match given {
        None => Some(Form::Eight),
        Some(b"7") => Some(Form::Seven),
        Some(_) => None,
    }
}

// Whether there is an argument of this number; the program's own name is that of 0.
fn is_given(rt: &impl Env, index: usize) -> bool {
    !matches!(rt.arg(index, &mut []), Err(FillError::NotPresent))
}

#[cfg(test)]
mod tests {
    use super::{read_text, read_whole};
    use std::io;

    #[test]
    fn the_start_of_a_text_is_read(rt: HostRuntime) -> io::Result<()> {
        let text = read_text(b"abcde".as_slice(), rt.alloc(), 3)?;
        assert_eq!(rt; text.as_slice(), b"abc".as_slice());
        let short = read_text(b"ab".as_slice(), rt.alloc(), 3)?;
        assert_eq!(rt; short.as_slice(), b"ab".as_slice());
        Ok(())
    }

    #[test]
    fn a_text_is_read_whole_or_not(rt: HostRuntime) -> io::Result<()> {
        let whole = read_whole(b"abcde".as_slice(), rt.alloc(), 3)?;
        assert!(rt; whole.is_some_and(|text| text.as_slice() == b"abc".as_slice()));
        assert!(rt; read_whole(b"ab".as_slice(), rt.alloc(), 3)?.is_none());
        Ok(())
    }
}
