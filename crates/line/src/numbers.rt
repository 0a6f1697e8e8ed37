// Digits and numbers.
ghost use Rattle.std.specs.Prelude.{◌≡◌, ◌≤◌, ◌%◌, min};
ghost use Rattle.line.specs.Numbers.{Adds, number_as, byte_of, most};

// A number, by what adds a digit to what the digits before it came to; `None` where the word is none.
#[tactic(auto, unfolding(crate::specs::Numbers::is_number))]
fn number<F: Fn(u32, u32) -> u32>(word: &[u8], base: u32, add: F) -> Option<u32>
    requires base { (2 ≤ base) × (base ≤ 16) }
    requires add { F.IsAlwaysCallable add }
    ensures { Adds (F.post add) base word.now result }
{
    if word.is_empty() {
        return None;
    }
    let mut n = 0;
    for &b in word {
        n = add(n, char::from(b).to_digit(base)?);
    }
    Some(n)
}

// What a number means, as far as 32 bits show it.
pub(crate) fn capped(word: &[u8], base: u32) -> Option<u32>
    requires { (2 ≤ base) × (base ≤ 16) }
    ensures { result ≡ number_as base (λ n. min n most) word.now }
{
    number(
        word,
        base,
        |n, digit| n.saturating_mul(base).saturating_add(digit),
    )
}

// What a decimal number means, modulo 65536.
pub(crate) fn wrapped(word: &[u8]) -> Option<u32>
    ensures { result ≡ number_as 10 (λ n. n % 65536) word.now }
{
    number(
        word,
        10,
        |n, digit| n.wrapping_mul(10).wrapping_add(digit) % 65536,
    )
}

#[tactic(auto, using(crate::proofs::Digits::byte_fits), unfolding(crate::specs::Numbers::byte_of, crate::specs::Numbers::is_byte))]
pub(crate) fn byte(word: &[u8]) -> Option<u8>
    ensures { result ≡ byte_of word.now }
{
    if word.len() != 2 {
        return None;
    }
    let n = capped(word, 16)?;
    Some(n as u8)
}
