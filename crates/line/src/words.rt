// A line's words.
ghost use Rattle.std.specs.Prelude.{◌≡◌};
ghost use Rattle.line.specs.Words.{uncommented, before_comment, is_blank, blanks, letters, words_of, choice_of, Cut};
ghost use Rattle.line.specs.Steps.{word_as, read_on};

use crate::Expected;

// A word that stands where another was expected.
#[derive(Clone, Copy)]
pub struct Misread<'a> {
    pub expected: Expected,
    pub word: &'a [u8],
}

fn is_blank(b: u8) -> bool
    ensures { result ≡ is_blank b }
{
    matches!(b, b' ' | b'\t' | b'\r')
}

// The bytes before the first `#`.
pub(crate) fn uncommented(s: &[u8]) -> &[u8]
    ensures { result.now ≡ uncommented s.now }
{
    let (front, _) = s.split_at(before_comment(s));
    front
}

fn before_comment(s: &[u8]) -> usize
    ensures { result ≡ before_comment s.now }
{
    s.iter().take_while(|&&b| b != b'#').count()
}

fn blanks(s: &[u8]) -> usize
    ensures { result ≡ blanks s.now }
{
    s.iter().take_while(|&&b| is_blank(b)).count()
}

fn letters(s: &[u8]) -> usize
    ensures { result ≡ letters s.now }
{
    s.iter().take_while(|&&b| !is_blank(b)).count()
}

// The first word and what follows it, which std's `split` doesn't give. With no word left, the word is empty. Each
// caller says itself what it takes the word for: one function of that would have to carry its rule as a ghost.
pub(crate) fn next_word(s: &[u8]) -> (&[u8], &[u8])
    ensures { Cut s.now result.0.now result.1.now }
{
    let (_, begun) = s.split_at(blanks(s));
    begun.split_at(letters(begun))
}

#[tactic(auto, unfolding(crate::specs::Words::choice_of))]
fn choice_of(word: &[u8], one: &[u8], other: &[u8]) -> Option<bool>
    ensures { result ≡ choice_of word.now one.now other.now }
{
    if word == one {
        Some(true)
    } else if word == other {
        Some(false)
    } else {
        None
    }
}

// The next word, which is one of two: whether it is the first of them, and what follows it.
pub(crate) fn choice<'a>(
    s: &'a [u8],
    one: &[u8],
    other: &[u8],
    expected: Expected,
) -> Result<(bool, &'a [u8]), Misread<'a>>
    ensures { read_on result ≡ word_as (λ w. choice_of w one.now other.now) expected (words_of s.now) }
{
    let (word, rest) = next_word(s);
    let is_one = choice_of(word, one, other).ok_or(Misread { expected, word })?;
    Ok((is_one, rest))
}
