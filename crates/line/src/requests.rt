// What a line asks for, by its first word; and the requests that have one word more, or none.
ghost use Rattle.std.specs.Prelude.{◌≡◌};
ghost use Rattle.line.specs.Words.{words_of};
ghost use Rattle.line.specs.Steps.{read};
ghost use Rattle.line.specs.Request.{ticks_of, txen_of, alone_of, lone_of, named_of, request_of};

use crate::answers::{ending, plain};
use crate::errors::{rxerr, txerr};
use crate::frames::{frame, hits};
use crate::numbers::wrapped;
use crate::transfers::{sized, transfer};
use crate::words::{Misread, choice, next_word};
use crate::{Asked, Expected, Line};
use events::Event;

#[tactic(auto, unfolding(crate::specs::Request::ticks_of))]
fn ticks(s: &[u8]) -> Result<Line, Misread<'_>>
    ensures { read result ≡ ticks_of (words_of s.now) }
{
    let (word, rest) = next_word(s);
    let n = wrapped(word).ok_or(Misread {
        expected: Expected::Count,
        word,
    })?;
    ending(Asked::Happens(Event::Ticks(u64::from(n))), rest)
}

#[tactic(auto, unfolding(crate::specs::Request::txen_of))]
fn txen(s: &[u8]) -> Result<Line, Misread<'_>>
    ensures { read result ≡ txen_of (words_of s.now) }
{
    let (high, rest) = choice(s, b"1", b"0", Expected::ZeroOrOne)?;
    ending(Asked::Happens(Event::TxenPin(high)), rest)
}

// A request of one word.
#[tactic(auto, unfolding(crate::specs::Request::alone_of))]
fn alone_of(word: &[u8]) -> Option<Asked>
    ensures { result ≡ alone_of word.now }
{
    let asked = match word {
        b"dominant" => Asked::Happens(Event::DominantBit),
        b"begin" => Asked::Happens(Event::Begun),
        b"done" => Asked::Happens(Event::Completed),
        b"lost" => Asked::Happens(Event::ArbitrationLost),
        b"recessive" => Asked::Happens(Event::ElevenRecessive),
        b"quiet" => Asked::Happens(Event::BusQuiet),
        b"activity" => Asked::Happens(Event::BusActivity),
        b"mr" => Asked::Happens(Event::MrPin),
        b"pins" => Asked::Pins,
        b"numbers" => Asked::Numbers,
        _ => return None,
    };
    Some(asked)
}

#[tactic(auto, unfolding(crate::specs::Request::lone_of))]
fn lone<'a>(word: &'a [u8], rest: &'a [u8]) -> Result<Line, Misread<'a>>
    ensures { read result ≡ lone_of word.now (words_of rest.now) }
{
    let asked = alone_of(word).ok_or(Misread {
        expected: Expected::Request,
        word,
    })?;
    ending(asked, rest)
}

// A request by its first word, from what follows it.
#[tactic(auto, unfolding(crate::specs::Request::named_of))]
fn named<'a>(word: &'a [u8], rest: &'a [u8]) -> Result<Line, Misread<'a>>
    ensures { read result ≡ named_of word.now (words_of rest.now) }
{
    if let Some(size) = word.strip_prefix(b"spi/") {
        return sized(word, size, rest);
    }
    match word {
        b"spi" => transfer(16, rest),
        b"frame" => frame(rest),
        b"hits" => hits(rest),
        b"rxerr" => rxerr(rest),
        b"txerr" => txerr(rest),
        b"ticks" => ticks(rest),
        b"txen" => txen(rest),
        _ => lone(word, rest),
    }
}

// What a line without comments asks for.
#[tactic(auto, unfolding(crate::specs::Request::request_of))]
pub(crate) fn request(s: &[u8]) -> Result<Line, Misread<'_>>
    ensures { read result ≡ request_of (words_of s.now) }
{
    let (word, rest) = next_word(s);
    if word.is_empty() {
        Ok(plain(Asked::Nothing))
    } else {
        named(word, rest)
    }
}
