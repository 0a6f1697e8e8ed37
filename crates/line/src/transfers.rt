// `spi` and `spi/N`: a transfer.
ghost use Rattle.std.specs.Prelude.{◌≡◌};
ghost use Rattle.line.specs.Words.{words_of};
ghost use Rattle.line.specs.Steps.{read};
ghost use Rattle.line.specs.Request.{transfer_of, lent_of, sized_of};

use crate::answers::carrying;
use crate::data::gather;
use crate::numbers::capped;
use crate::words::Misread;
use crate::{Asked, Expected, Line};

#[tactic(auto, unfolding(crate::specs::Request::transfer_of))]
pub(crate) fn transfer(lent: u8, rest: &[u8]) -> Result<Line, Misread<'_>>
    ensures { read result ≡ transfer_of lent (words_of rest.now) }
{
    let data = gather(rest)?;
    Ok(carrying(Asked::Transfer(lent), data))
}

#[tactic(auto, unfolding(crate::specs::Request::lent_of))]
fn lent_of(size: &[u8]) -> Option<u8>
    ensures { result ≡ lent_of size.now }
{
    let n = capped(size, 10)?;
    if n <= 16 { Some(n as u8) } else { None }
}

// A transfer whose own word says behind `spi/` how large the reply buffer is.
#[tactic(auto, unfolding(crate::specs::Request::sized_of))]
pub(crate) fn sized<'a>(word: &'a [u8], size: &[u8], rest: &'a [u8]) -> Result<Line, Misread<'a>>
    ensures { read result ≡ sized_of word.now size.now (words_of rest.now) }
{
    let lent = lent_of(size).ok_or(Misread {
        expected: Expected::Lent,
        word,
    })?;
    transfer(lent, rest)
}
