// The two conversions over lent buffers. Each reads its text twice, by one loop that both share: first into no room, for the first
// refusal or the length of the output; then, where the output fits, into the buffer.
#![tactic(auto)]

mod conversion;
mod put;
mod run;
mod stretch;
mod written;

ghost use Rattle.std.specs.Prelude.{◌≤◌, ◌≡◌, length};
ghost use Rattle.paper.specs.LentBuffers.{over};
ghost use Rattle.paper.specs.Conversions.{refusal_in, Accepted, output, conversion, buffer_after};
ghost use Rattle.paper.specs.declared.Form.{Form};
ghost use Rattle.converter.specs.Passes.{passed_by};

use conversion::Conversion;
use openings::{opening_length, put_opening};
use paper::{Form, Refusal, Refused};
use refusals::LONGEST_TEXT;

// The text in 8-bit form to 7-bit form: the length of what was written, or a refusal with its place and nothing written.
pub fn to_seven(text: &[u8], buffer: &mut [u8]) -> Result<usize, Refused>
    ensures value { result ≡ conversion Form.Eight Form.Seven text.now (length buffer.old) }
    ensures buffer_after { buffer.new ≡ buffer_after Form.Eight Form.Seven text.now buffer.old }
{
    converted(Form::Eight, Form::Seven, text, buffer)
}

// The text in 7-bit form to 8-bit form. Two functions: docs/PROMISES.md names both, and one more argument would let the forms be the same.
pub fn to_eight(text: &[u8], buffer: &mut [u8]) -> Result<usize, Refused>
    ensures value { result ≡ conversion Form.Seven Form.Eight text.now (length buffer.old) }
    ensures buffer_after { buffer.new ≡ buffer_after Form.Seven Form.Eight text.now buffer.old }
{
    converted(Form::Seven, Form::Eight, text, buffer)
}

// A text in a form to a form: 8 first, then what the text is refused by, then 9.
fn converted(form: Form, to: Form, text: &[u8], buffer: &mut [u8]) -> Result<usize, Refused>
    ensures value { result ≡ conversion form to text.now (length buffer.old) }
    ensures buffer_after { buffer.new ≡ buffer_after form to text.now buffer.old }
{
    if text.len() > LONGEST_TEXT {
        return Err(Refused {
            refusal: Refusal::TooLong,
            place: 0,
        });
    }
    let conversion = Conversion { form, to, text };
    let length = conversion.pass(&mut [])?;
    if length <= buffer.len() {
        conversion.pass(buffer)
    } else {
        Err(Refused {
            refusal: Refusal::BufferShort,
            place: 0,
        })
    }
}

impl Conversion<'_> {
    // One pass over a text: its first refusal, or the length of the output, which is written where there is room for all of it. It goes
    // stretch by stretch, and an opening stands between two of them.
    fn pass(self, buffer: &mut [u8]) -> Result<usize, Refused>
        ensures value { let c = self.entry in
            result ≡ passed_by (refusal_in c.form c.text.now) (length (output c.form c.to c.text.now)) }
        ensures buffer_after { let c = self.entry in
            Accepted c.form c.text.now →
            length (output c.form c.to c.text.now) ≤ length buffer.old →
            buffer.new ≡ over (output c.form c.to c.text.now) buffer.old }
    {
        let mut at: usize = 0;
        let mut place: usize = 0;
        // no index is counted: a stretch says where the next begins
        while place < self.text.len() {
            let end = self.stretch(place, buffer, at)?;
            let Some(next) = end.next else {
                return Ok(end.at);
            };
            put_opening(self.to, buffer, end.at);
            at = end.at + opening_length(self.to) as usize;
            place = next;
        }
        // an empty text, or one that ends with an opening
        Ok(at)
    }
}
