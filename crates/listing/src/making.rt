// A line in the making, and the fields of every kind put after it. Not by `write!`: tried, and what `begin` ensures stayed open, since
// where `write!` gives an error its contract says nothing of what is written.
ghost use Rattle.std.specs.Prelude.{◌≡◌, ◌∷◌, [], ◌++◌, ◌+◌, ◌≤◌, ◌<◌, length};
ghost use Rattle.paper.specs.LentBuffers.{over};
ghost use Rattle.paper.specs.Sets.{space};
ghost use Rattle.paper.specs.Lister.{digit, hex, line_end, line_fits, line_written, position_fields, sequence_fields};
ghost use Rattle.listing.specs.Numerals.{fields, numeral};

use arrayvec::ArrayString;
use paper::{Intermediates, PositionBytes, Refusal, Refused};
use std::marker::Model;

// The longest line has 46 bytes.
const ROOM: usize = 64;

// A line in the making: its bytes so far.
#[derive(Drop)]
pub(crate) struct Line {
    text: ArrayString<ROOM>,
}

impl Model for Line {
    ghost use Rattle.std.specs.Prelude.{ℕ, List};

    ghost Value = { List ℕ };

    ghost view = { λ l. l.text.bytes };
}

// The hex digit of a number below sixteen.
#[tactic(auto, using(paper::proofs::Tests::tests))]
fn digit(number: u8) -> char
    requires { number < 16 }
    ensures { result ≡ digit number }
{
    char::from(if number < 10 {
        b'0' + number
    } else {
        b'A' + (number - 10)
    })
}

impl Line {
    // A line that has a word.
    pub(crate) fn new(word: &str) -> Line
        requires { length word.now ≤ ROOM }
        ensures { result ≡ word.now }
    {
        let mut text = ArrayString::new();
        text.push_str(word);
        Line { text }
    }

    // One field more, parted from the last by a space: a word, a number in decimal, or a byte as two hex digits.
    pub(crate) fn field(mut self, field: &str) -> Line
        requires { length self + 1 + length field.now ≤ ROOM }
        ensures { result ≡ self ++ (space ∷ field.now) }
    {
        self.text.push(' ');
        self.text.push_str(field);
        self
    }

    #[tactic(auto, using(crate::proofs::NumbersOpened::numeral_lem))]
    pub(crate) fn number(self, number: usize) -> Line
        requires { length self + 21 ≤ ROOM }
        ensures text { result ≡ self ++ (space ∷ numeral number) }
        ensures size { length result ≤ length self + 21 }
    {
        self.field(itoa::Buffer::new().format(number))
    }

    pub(crate) fn hex(mut self, byte: u8) -> Line
        requires { length self + 3 ≤ ROOM }
        ensures { result ≡ self ++ (space ∷ hex byte) }
    {
        self.text.push(' ');
        self.text.push(digit(byte / 16));
        self.text.push(digit(byte % 16));
        self
    }

    // A character's position bytes.
    pub(crate) fn position(self, position: PositionBytes) -> Line
        requires { length self + 9 ≤ ROOM }
        ensures { result ≡ self ++ fields (position_fields position) }
    {
        match position {
            PositionBytes::One(a) => self.hex(a),
            PositionBytes::Two(a, b) => self.hex(a).hex(b),
            PositionBytes::Three(a, b, c) => self.hex(a).hex(b).hex(c),
        }
    }

    // The bytes after ESC.
    pub(crate) fn sequence(self, intermediates: Intermediates, last: u8) -> Line
        requires { length self + 9 ≤ ROOM }
        ensures { result ≡ self ++ fields (sequence_fields intermediates last) }
    {
        match intermediates {
            Intermediates::None => self.hex(last),
            Intermediates::One(i) => self.hex(i).hex(last),
            Intermediates::Two(i, j) => self.hex(i).hex(j).hex(last),
        }
    }

    // Each line has its end.
    pub(crate) fn end(mut self) -> Line
        requires { length self < ROOM }
        ensures { result ≡ self ++ (line_end ∷ []) }
    {
        self.text.push('\n');
        self
    }

    // Into a lent buffer, where the whole line fits: its length.
    pub(crate) fn put_into(&self, buffer: &mut [u8]) -> Result<usize, Refused>
        ensures value { result ≡ line_fits (length buffer.old) self.now }
        ensures buffer_after { buffer.new ≡ over (line_written (length buffer.old) self.now) buffer.old }
    {
        let count = self.text.len();
        if count <= buffer.len() {
            buffer[..count].copy_from_slice(self.text.as_bytes());
            Ok(count)
        } else {
            Err(Refused {
                refusal: Refusal::BufferShort,
                place: 0,
            })
        }
    }
}
