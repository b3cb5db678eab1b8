//! The words of a line, which single blanks separate, and how a line is read word by word.
#![tactic(auto)]

ghost use Rattle.std.specs.Prelude.{◌≡◌, option_copied, option_map, IfSome, IfNone};
ghost use Rattle.std.specs.List.{list_all};
ghost use Rattle.tcf_values.specs.Cut.{IsCut, Lacks, cut_of};
ghost use Rattle.line_words.specs.Words.{is_inside, is_word, word_of, words_of};

mod left;

pub use left::WordsLeft;
use tcf_values::cut_at;

/// The first word of a text, and what stands behind the blank that ends it. None comes exactly where the text has no
/// blank.
pub fn first_word(text: &[u8]) -> Option<(&[u8], &[u8])>
    ensures value { option_map (λ parts. (parts.0.now, parts.1.now)) result ≡ cut_of 32 text.now }
    ensures cut { IfSome result (λ parts. IsCut 32 text.now parts.0.now parts.1.now) }
    ensures none { IfNone result (Lacks 32 text.now) }
{
    cut_at(b' ', text)
}

/// No zero byte, no end of a line, and no blank.
fn is_inside_word(text: &[u8]) -> bool
    ensures { result ≡ list_all is_inside text.now }
{
    text.iter().all(|b| *b != 0 && *b != b'\n' && *b != b' ')
}

/// Whether the text is one word: one byte or more, of which none is zero, an end of a line or a blank.
pub fn is_word(text: &[u8]) -> bool
    ensures { result ≡ is_word text.now }
{
    !text.is_empty() && is_inside_word(text)
}

/// Whether single blanks separate words, and nothing else stands there.
#[tactic(auto, using(crate::proofs::Cuts::words_cut, crate::proofs::Cuts::words_last, crate::proofs::Cuts::shorter_cut))]
pub fn are_words(text: &[u8]) -> bool
    ensures { result ≡ list_all is_word (words_of text.now) }
{
    let mut rest = text;
    while let Some((word, after)) = first_word(rest) {
        if !is_word(word) {
            return false;
        }
        rest = after;
    }
    is_word(rest)
}

/// The text, if it is one word.
#[tactic(auto, unfolding(crate::specs::Words::word_of))]
pub fn good_word(text: &[u8]) -> Option<&[u8]>
    ensures { option_copied result ≡ word_of text.now }
{
    if is_word(text) { Some(text) } else { None }
}
