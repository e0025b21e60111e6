// What a text has: its figures, in one pass over a lent text, stretch by stretch. Between two stretches stands an opening, or a refusal
// and the search for one.
#![tactic(auto)]

mod counts;
mod run;
mod stretch;

ghost use Rattle.std.specs.Prelude.{◌≤◌, ◌≡◌, length};
ghost use Rattle.paper.specs.Refusals.{longest_text};
ghost use Rattle.paper.specs.Surveying.{figures_of, survey_of};

use counts::WordCounts;
use escapes::effect::Word;
use paper::{EndWord, Figures, Form, Refusal};
use refusals::LONGEST_TEXT;
use search::opening_after;
use stretch::{Ending, stretch};

// What an opening has.
const DESIGNATIONS_OF_OPENING: usize = 6;

const SHIFTS_OF_OPENING: usize = 2;

// The figures of a text in a form; 8 for one that is longer than 65,536 bytes.
#[tactic(auto, using(paper::proofs::Tests::tests), unfolding(paper::specs::Surveying::survey_of))]
pub fn survey(form: Form, text: &[u8]) -> Result<Figures, Refusal>
    ensures { result ≡ survey_of form text.now }
{
    if text.len() <= LONGEST_TEXT {
        Ok(count(form, text))
    } else {
        Err(Refusal::TooLong)
    }
}

// One pass: how many answers there are of each word, and the first refusal.
fn count(form: Form, text: &[u8]) -> Figures
    requires { length text.now ≤ longest_text }
    ensures { result ≡ figures_of form text.now }
{
    let mut counts = WordCounts::none();
    let mut first = None;
    let mut place: usize = 0;
    // no `for`: a stretch ends where it ends
    while place < text.len() {
        match stretch(form, text, place, &mut counts) {
            Ending::Over(word) => return counts.figures(first, word),
            Ending::Opens { next } => {
                counts.add(Word::DESIGNATE, DESIGNATIONS_OF_OPENING);
                counts.add(Word::SHIFT, SHIFTS_OF_OPENING);
                place = next;
            }
            Ending::Stops(refused) => {
                counts.add(Word::REFUSED, 1);
                first = first.or(Some(refused));
                let Some(after) = opening_after(form, text, refused.place) else {
                    return counts.figures(first, EndWord::Lost);
                };
                counts.add(Word::INSTEP, 1);
                place = after;
            }
        }
    }
    // an empty text, or one that ends with an opening
    counts.figures(first, EndWord::Whole)
}
