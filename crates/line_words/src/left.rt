//! A line that is read word by word.
ghost use Rattle.std.specs.Prelude.{◌≡◌, ◌∷◌, [], IfNone, IfSome, option_copied, option_map};
ghost use Rattle.line_words.specs.Left.{words_left};
ghost use Rattle.line_words.specs.Words.{only_of, words_of, words_said};

use crate::first_word;

/// The words of a line that are still to be read.
#[derive(Clone, Copy)]
pub struct WordsLeft<'a> {
    text: Option<&'a [u8]>,
}

impl<'a> WordsLeft<'a> {
    /// The words of a text, which single blanks separate: one at the least, which may be empty.
    pub fn of(text: &'a [u8]) -> Self
        ensures { words_left result ≡ words_of text.now }
    {
        WordsLeft { text: Some(text) }
    }

    /// The first word, and those behind it. None comes exactly where no word is left.
    #[tactic(auto, using(crate::proofs::Cuts::words_cut, crate::proofs::Cuts::words_last))]
    pub fn first(self) -> Option<(&'a [u8], WordsLeft<'a>)>
        ensures some { IfSome result (λ parts. words_left self.entry ≡ parts.0.now ∷ words_left parts.1) }
        ensures none { IfNone result (words_left self.entry ≡ []) }
    {
        let text = self.text?;
        match first_word(text) {
            Some((word, rest)) => Some((word, WordsLeft { text: Some(rest) })),
            None => Some((text, WordsLeft { text: None })),
        }
    }

    /// The one word that is left. None comes exactly where there is another number of them.
    #[tactic(auto, using(crate::proofs::Alone::only_more))]
    pub fn only(self) -> Option<&'a [u8]>
        ensures { option_copied result ≡ only_of (words_left self.entry) }
    {
        let (word, rest) = self.first()?;
        match rest.text {
            None => Some(word),
            Some(_) => None,
        }
    }

    /// The text of the words that are left, where there are some.
    pub fn text(self) -> Option<&'a [u8]>
        ensures { words_left self.entry ≡ words_said (option_map (λ t. t.now) result) }
    {
        self.text
    }
}
