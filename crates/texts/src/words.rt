// The words of a text.
ghost use Rattle.std.specs.Prelude.{◌≡◌};
ghost use Rattle.texts.specs.Parts.{before, since};
ghost use Rattle.texts.specs.Words.{is_blank, not_blank, from_word, word as word_of};

use crate::finding::{is_blank, since, until};

// What a text has after the blanks that it begins with.
pub(crate) fn past_blanks(text: &[u8]) -> &[u8]
    ensures { result.now ≡ since not_blank text.now }
{
    since(text, |b| !is_blank(b))
}

// The word that a text begins with.
pub(crate) fn first_word(text: &[u8]) -> &[u8]
    ensures { result.now ≡ before is_blank text.now }
{
    until(text, is_blank)
}

// The text from the word after it on.
pub(crate) fn after_word(text: &[u8]) -> &[u8]
    ensures { result.now ≡ since not_blank (since is_blank text.now) }
{
    past_blanks(since(text, is_blank))
}

// The text from word k on.
#[tactic(auto, using(crate::proofs::WordSteps::word_first, crate::proofs::WordSteps::word_next))]
fn from_word(text: &[u8], k: usize) -> &[u8]
    ensures { result.now ≡ from_word text.now k }
{
    let mut rest = past_blanks(text);
    for _i in 0..k {
        rest = after_word(rest);
    }
    rest
}

// Word k, as a part of the text.
#[tactic(auto, using(crate::proofs::WordSteps::word_here))]
pub fn word(text: &[u8], k: usize) -> &[u8]
    ensures { result.now ≡ word_of text.now k }
{
    first_word(from_word(text, k))
}
