// `rxerr` and `txerr`: an error that was met on the bus.
ghost use Rattle.std.specs.Prelude.{◌≡◌};
ghost use Rattle.line.specs.declared.Expected.TheVariants.{Error};
ghost use Rattle.line.specs.Words.{words_of};
ghost use Rattle.line.specs.Steps.{read, read_on, word_as};
ghost use Rattle.line.specs.Request.{kind_of, rxerr_of, txerr_of};

use crate::answers::ending;
use crate::words::{Misread, choice, next_word};
use crate::{Asked, Expected, Line};
use events::{ErrorKind, Event};

#[tactic(auto, unfolding(crate::specs::Request::kind_of))]
fn kind_of(word: &[u8]) -> Option<ErrorKind>
    ensures { result ≡ kind_of word.now }
{
    match word {
        b"stuff" => Some(ErrorKind::Stuff),
        b"ack" => Some(ErrorKind::Ack),
        b"crc" => Some(ErrorKind::Crc),
        b"form" => Some(ErrorKind::Form),
        b"bit" => Some(ErrorKind::Bit),
        _ => None,
    }
}

fn kind(s: &[u8]) -> Result<(ErrorKind, &[u8]), Misread<'_>>
    ensures { read_on result ≡ word_as kind_of Error (words_of s.now) }
{
    let (word, rest) = next_word(s);
    let kind = kind_of(word).ok_or(Misread {
        expected: Expected::Error,
        word,
    })?;
    Ok((kind, rest))
}

#[tactic(auto, unfolding(crate::specs::Request::rxerr_of))]
pub(crate) fn rxerr(s: &[u8]) -> Result<Line, Misread<'_>>
    ensures { read result ≡ rxerr_of (words_of s.now) }
{
    let (kind, rest) = kind(s)?;
    ending(Asked::Happens(Event::ReceiveError(kind)), rest)
}

#[tactic(auto, unfolding(crate::specs::Request::txerr_of))]
pub(crate) fn txerr(s: &[u8]) -> Result<Line, Misread<'_>>
    ensures { read result ≡ txerr_of (words_of s.now) }
{
    let (kind, rest) = kind(s)?;
    let (counted, rest) = choice(rest, b"counted", b"exempt", Expected::CountedOrExempt)?;
    ending(Asked::Happens(Event::TransmitError(kind, counted)), rest)
}
