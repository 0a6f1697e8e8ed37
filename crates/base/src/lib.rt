// The ground that the other crates stand on: definitions and laws in specs/ and proofs/, bits of bytes, a flag as a
// bit, and how lent bytes are read and written.
#![tactic(auto)]

ghost use Rattle.std.specs.Prelude.{◌≡◌, ◌≤◌, get_or};
ghost use Rattle.base.specs.Bit.{is_set};
ghost use Rattle.base.specs.Pick.{flag};
ghost use Rattle.base.specs.Put.{put_of};

// Whether bit i of a byte is 1. From the eighth on there is none.
#[tactic(auto, using(crate::proofs::Bits::past_a_byte))]
pub fn is_set(i: u8, x: u8) -> bool
    ensures { result ≡ is_set i x }
{
    i < 8 && (x >> i) % 2 == 1
}

// A flag as a bit. The bound is there for callers, who add such bits up.
pub fn flag(b: bool) -> u8
    ensures { (result ≡ flag b) × (result ≤ 1) }
{
    u8::from(b)
}

// A byte of what is lent; one that isn't there reads as zero.
pub fn at(s: &[u8], i: usize) -> u8
    ensures { result ≡ get_or s.now i 0 }
{
    s.get(i).copied().unwrap_or(0)
}

// The reply at the front of the lent buffer, and what stood after it; a buffer too short for it stays as it came.
pub fn put(reply: &[u8], buffer: &mut [u8])
    ensures { buffer.new ≡ put_of reply.now buffer.old }
{
    if reply.len() <= buffer.len() {
        buffer[..reply.len()].copy_from_slice(reply);
    }
}
