// The data of a request: the bytes that its last words spell.
ghost use Rattle.std.specs.Prelude.{◌≡◌};
ghost use Rattle.line.specs.Words.{words_of};
ghost use Rattle.line.specs.Steps.{read};
ghost use Rattle.line.specs.Data.{data_of, keep_of, head};

use crate::Expected;
use crate::numbers::byte;
use crate::words::{Misread, next_word};

// As a line has them, without a heap: the first sixteen, then zeros, and their count.
#[derive(Clone, Copy)]
pub struct Data {
    pub bytes: [u8; 16],
    pub count: usize,
}

impl Data {
    // One byte more, as long as there are fewer than sixteen.
    #[tactic(auto, unfolding(crate::specs::Data::keep_of))]
    fn keep(&mut self, b: u8)
        ensures { self.new ≡ keep_of self.old b }
    {
        if self.count < 16 {
            self.bytes[self.count] = b;
            self.count += 1;
        }
    }
}

// As much of a word as a line keeps, then zeros.
pub(crate) fn head(word: &[u8]) -> [u8; 16]
    ensures { result ≡ head word.now }
{
    let n = word.len().min(16);
    let mut bytes = [0; 16];
    bytes[..n].copy_from_slice(&word[..n]);
    bytes
}

// The bytes of every word.
pub(crate) fn gather(s: &[u8]) -> Result<Data, Misread<'_>>
    ensures { read result ≡ data_of (words_of s.now) }
{
    let mut data = Data {
        bytes: [0; 16],
        count: 0,
    };
    let mut rest = s;
    loop {
        let (word, after) = next_word(rest);
        if word.is_empty() {
            return Ok(data);
        }
        data.keep(byte(word).ok_or(Misread {
            expected: Expected::Byte,
            word,
        })?);
        rest = after;
    }
}
