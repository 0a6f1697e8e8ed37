// What a line comes to: a request, or the word that stands where another was expected.
ghost use Rattle.std.specs.Prelude.{◌≡◌};
ghost use Rattle.line.specs.Words.{words_of};
ghost use Rattle.line.specs.Steps.{read};
ghost use Rattle.line.specs.Request.{plain, carrying, unreadable, ending};

use crate::data::{Data, head};
use crate::words::{Misread, next_word};
use crate::{Asked, Expected, Line};

pub(crate) fn plain(asked: Asked) -> Line
    ensures { result ≡ plain asked }
{
    Line {
        asked,
        bytes: [0; 16],
        count: 0,
    }
}

pub(crate) fn carrying(asked: Asked, data: Data) -> Line
    ensures { result ≡ carrying asked «data» }
{
    let Data { bytes, count } = data;
    Line {
        asked,
        bytes,
        count,
    }
}

pub(crate) fn unreadable(misread: Misread<'_>) -> Line
    ensures { result ≡ unreadable misread.entry.expected misread.entry.word.now }
{
    let bytes = head(misread.word);
    let count = misread.word.len();
    Line {
        asked: Asked::Unreadable(misread.expected),
        bytes,
        count,
    }
}

// A complete request, if the line ends with it.
#[tactic(auto, unfolding(crate::specs::Request::ending))]
pub(crate) fn ending(asked: Asked, s: &[u8]) -> Result<Line, Misread<'_>>
    ensures { read result ≡ ending asked (words_of s.now) }
{
    let (word, _) = next_word(s);
    if word.is_empty() {
        Ok(plain(asked))
    } else {
        Err(Misread {
            expected: Expected::EndOfLine,
            word,
        })
    }
}
