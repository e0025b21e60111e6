// The shortest 7-bit text of a sequence, over lent buffers (request #108). The text is surveyed for a refusal, and weighed for the length of
// its output, before anything is written. Then each unit, an answer or an opening, has a code in the work buffer; going back over the codes
// each is replaced by what is chosen there; and going forward again the output is written.
#![tactic(auto)]

mod by_element;
mod choose;
mod code;
mod input;
mod next;
mod put;
mod under;
mod weigh;

ghost use Rattle.std.specs.Prelude.{◌≤◌, ◌≡◌, ◌++◌, length, drop, replicate};
ghost use Rattle.paper.specs.LentBuffers.{over};
ghost use Rattle.paper.specs.Conversions.{refusal_at_end, refusal_in, Accepted};
ghost use Rattle.shortest.specs.Shortening.{longest_input, work_length, shortest_text, shortening, buffer_after, work_after};

use choose::choose;
use figures::survey;
use input::Input;
use paper::{EndWord, Form, Refusal, Refused};
use refusals::{LEAST_WORK, LONGEST_INPUT};

// At the end of the text: 7 where it ends inside.
fn refusal_at_end(end: EndWord, place: usize) -> Option<Refused>
    ensures { result ≡ refusal_at_end end place }
{
    match end {
        EndWord::Inside => Some(Refused {
            refusal: Refusal::EndsInside,
            place,
        }),
        EndWord::Whole | EndWord::Lost => None,
    }
}

// The work buffer's first bytes are zero afterwards.
fn clear(work: &mut [u8])
    requires { work_length ≤ length work.old }
    ensures { work.new ≡ replicate work_length 0 ++ drop work_length work.old }
{
    work[..LEAST_WORK].fill(0);
}

impl Input<'_> {
    // The first of 1 to 7.
    fn refusal(self) -> Option<Refused>
        ensures { result ≡ refusal_in self.entry.form self.entry.text.now }
    {
        match survey(self.form, self.text) {
            Ok(figures) => figures
                .first
                .or_else(|| refusal_at_end(figures.end, self.text.len())),
            Err(refusal) => Some(Refused { refusal, place: 0 }),
        }
    }

    // The shortest text of an accepted text, into a buffer that has room for it. That the text is accepted stands in clauses, since it is known
    // only after `refusal`.
    fn write(self, buffer: &mut [u8], work: &mut [u8])
        requires accepted { Accepted self.form self.text.now × (work_length ≤ length work.old) }
        requires text_in_bounds { length (shortest_text self.form self.text.now) ≤ length buffer.old }
        ensures buffer_after { buffer.new ≡ over (shortest_text self.entry.form self.entry.text.now) buffer.old }
        ensures work_after { work.new ≡ over (replicate work_length 0) work.old }
    {
        let count = self.weigh(work).count;
        choose(work, count);
        self.put_units(buffer, work);
        clear(work);
    }
}

// The shortest 7-bit text that reads as a text in a form does: its length, or a refusal with its place and neither buffer written to.
pub fn shortest(
    form: Form,
    text: &[u8],
    buffer: &mut [u8],
    work: &mut [u8],
) -> Result<usize, Refused>
    ensures value { result ≡ shortening form text.now (length buffer.old) (length work.old) }
    ensures buffer_after { buffer.new ≡ buffer_after form text.now buffer.old work.old }
    ensures work_after { work.new ≡ work_after form text.now buffer.old work.old }
{
    if text.len() > LONGEST_INPUT {
        return Err(Refused {
            refusal: Refusal::InputTooLong,
            place: 0,
        });
    }
    if work.len() < LEAST_WORK {
        return Err(Refused {
            refusal: Refusal::WorkBufferShort,
            place: 0,
        });
    }
    let input = Input { form, text };
    if let Some(refused) = input.refusal() {
        return Err(refused);
    }
    let length = input.weigh(&mut []).length;
    if length > buffer.len() {
        return Err(Refused {
            refusal: Refusal::BufferShort,
            place: 0,
        });
    }
    input.write(buffer, work);
    Ok(length)
}
