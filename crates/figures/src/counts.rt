// The counts of the survey. A clause sees them as the list of the eleven, by the number of the word.
ghost use Rattle.std.specs.Prelude.{◌+◌, ◌*◌, ◌<◌, ◌≤◌, ◌≡◌, get_or, replicate};
ghost use Rattle.paper.specs.Refusals.{longest_text};
ghost use Rattle.escapes.specs.Effects.{word_number};
ghost use Rattle.figures.specs.Counting.{added, figures_from};

use escapes::effect::{WORDS, Word};
use paper::{EndWord, Figures, Refused};
use std::marker::Model;

// How many answers there are of each word so far.
#[derive(Drop)]
pub(crate) struct WordCounts {
    of_words: [usize; WORDS],
}

impl Model for WordCounts {
    ghost use Rattle.std.specs.Prelude.{List, ℕ, ◌≡◌, length};

    ghost Value = { List ℕ };

    ghost view = { λ a. a.of_words };

    ghost invariant = { λ a. length a.of_words ≡ 11 };
}

impl WordCounts {
    // Of a text of which nothing is read.
    pub(crate) fn none() -> WordCounts
        ensures { result ≡ replicate 11 0 }
    {
        WordCounts {
            of_words: [0; WORDS],
        }
    }

    // So many more of a word.
    pub(crate) fn add(&mut self, word: Word, more: usize)
        requires { (word_number word < 11) × (get_or self.old (word_number word) 0 + more ≤ 2 * longest_text) }
        ensures { self.new ≡ added self.old (word_number word) more }
    {
        self.of_words[usize::from(word.0)] += more;
    }

    fn of(&self, word: Word) -> usize
        requires { word_number word < 11 }
        ensures { result ≡ get_or self.now (word_number word) 0 }
    {
        self.of_words[usize::from(word.0)]
    }

    // What there is of each word that has a figure, with the first refusal and the end.
    pub(crate) fn figures(&self, first: Option<Refused>, end: EndWord) -> Figures
        ensures { result ≡ figures_from self.now first end }
    {
        Figures {
            characters: self.of(Word::CHAR),
            spaces: self.of(Word::SPACE),
            deletes: self.of(Word::DELETE),
            controls: self.of(Word::CONTROL),
            designations: self.of(Word::DESIGNATE),
            shifts: self.of(Word::SHIFT),
            others: self.of(Word::OTHER),
            refusals: self.of(Word::REFUSED),
            insteps: self.of(Word::INSTEP),
            first,
            end,
        }
    }
}
