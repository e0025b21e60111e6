// The lister: the line of an answer, and the lines of a text into a lent buffer. A line is made in a place of its own, and
// copied into the buffer only where the whole of it fits.
#![tactic(auto)]

mod lines;
mod making;

ghost use Rattle.std.specs.Prelude.{◌≡◌, length};
ghost use Rattle.paper.specs.LentBuffers.{over};
ghost use Rattle.paper.specs.Lister.{line_of, stops, filled, line_fits, line_written};

use lines::{answer_line, last_line};
use paper::{Answer, Answered, Listed, Reader, Refusal, Refused};
use reader::{end_word, read};
use refusals::LONGEST_TEXT;

// Where the next line does not fit: 9 if nothing was written, else so many bytes, with the place and the reader to go on with.
fn stops(written: usize, offset: usize, reader: Reader) -> Result<Listed, Refusal>
    ensures { result ≡ stops written offset reader }
{
    if written == 0 {
        Err(Refusal::BufferShort)
    } else {
        Ok(Listed::More(written, offset, reader))
    }
}

// The line of an answer at an offset, into a lent buffer: its length, or 9 and nothing written.
#[tactic(auto, using(crate::proofs::NumbersOpened::opened))]
pub fn line_of(offset: usize, answer: Answer, buffer: &mut [u8]) -> Result<usize, Refused>
    ensures value { result ≡ line_fits (length buffer.old) (line_of offset answer) }
    ensures buffer_after { buffer.new ≡
        over (line_written (length buffer.old) (line_of offset answer)) buffer.old }
{
    answer_line(offset, answer).put_into(buffer)
}

// As many whole lines of a text as fit, from an offset on with the reader that stands there.
pub fn list(
    text: &[u8],
    offset: usize,
    reader: Reader,
    buffer: &mut [u8],
) -> Result<Listed, Refusal>
    ensures value { result ≡ (filled (length buffer.old) offset reader text.now).answer }
    ensures buffer_after { buffer.new ≡
        over (filled (length buffer.old) offset reader text.now).bytes buffer.old }
{
    if text.len() > LONGEST_TEXT {
        return Err(Refusal::TooLong);
    }
    let mut written = 0;
    let mut next = reader;
    // Over places: with `enumerate().skip(offset)` the place where the loop stands is no plainer to say.
    for at in offset..text.len() {
        let Answered { answer, reader } = read(next, text[at]);
        let Ok(count) = answer_line(at, answer).put_into(&mut buffer[written..]) else {
            return stops(written, at, next);
        };
        written += count;
        next = reader;
    }
    let end = last_line(text.len(), end_word(next));
    let Ok(count) = end.put_into(&mut buffer[written..]) else {
        return stops(written, offset.max(text.len()), next);
    };
    Ok(Listed::Done(written + count))
}
