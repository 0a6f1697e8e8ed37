// `frame` and `hits`: a good frame.
ghost use Rattle.std.specs.Prelude.{◌≡◌};
ghost use Rattle.line.specs.Words.{words_of};
ghost use Rattle.line.specs.Steps.{read, read_on};
ghost use Rattle.line.specs.Request.{code_of, header_of, frame_of, hits_of};

use crate::answers::carrying;
use crate::data::gather;
use crate::numbers::capped;
use crate::words::{Misread, choice, next_word};
use crate::{Asked, Expected, Line};
use events::Event;
use frame::Header;

fn code_of(word: &[u8]) -> Option<u8>
    ensures { result ≡ code_of word.now }
{
    let n = capped(word, 10)?;
    Some(n.min(255) as u8)
}

// The words up to the length code, and what follows them.
#[tactic(auto, unfolding(crate::specs::Request::header_of))]
fn header(s: &[u8]) -> Result<(Header, &[u8]), Misread<'_>>
    ensures { read_on result ≡ header_of (words_of s.now) }
{
    let (word, rest) = next_word(s);
    let id = capped(word, 16).ok_or(Misread {
        expected: Expected::Identifier,
        word,
    })?;
    let (extended, rest) = choice(rest, b"ext", b"std", Expected::StdOrExt)?;
    let (remote, rest) = choice(rest, b"remote", b"data", Expected::DataOrRemote)?;
    let (word, rest) = next_word(rest);
    let code = code_of(word).ok_or(Misread {
        expected: Expected::LengthCode,
        word,
    })?;
    Ok((
        Header {
            id,
            extended,
            remote,
            code,
        },
        rest,
    ))
}

#[tactic(auto, unfolding(crate::specs::Request::frame_of))]
pub(crate) fn frame(s: &[u8]) -> Result<Line, Misread<'_>>
    ensures { read result ≡ frame_of (words_of s.now) }
{
    let (header, rest) = header(s)?;
    let (acked, rest) = choice(rest, b"ack", b"noack", Expected::AckOrNoack)?;
    let data = gather(rest)?;
    Ok(carrying(
        Asked::Happens(Event::GoodFrame(header, acked, data.count)),
        data,
    ))
}

// Filters don't ask who acknowledged a frame.
#[tactic(auto, unfolding(crate::specs::Request::hits_of))]
pub(crate) fn hits(s: &[u8]) -> Result<Line, Misread<'_>>
    ensures { read result ≡ hits_of (words_of s.now) }
{
    let (header, rest) = header(s)?;
    let data = gather(rest)?;
    Ok(carrying(Asked::Hits(header, data.count), data))
}
