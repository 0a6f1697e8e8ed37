// The host's door: a transfer's bytes in, a reply out. Three questions: is it refused, what does it show, what does
// it do.
#![tactic(auto)]

ghost use Rattle.std.specs.Prelude.{◌≡◌, length};
ghost use Rattle.host.specs.Transfer.{transfer, reply_after};

use chip::Device;
use refusal::Refusal;

// The bus's door has its own: one for both would stand in a crate below them, for two fields.
#[derive(Clone, Copy)]
pub struct Outcome {
    pub device: Device,
    pub answer: Result<(), Refusal>,
}

#[tactic(auto, unfolding(crate::specs::Transfer::transfer, crate::specs::Transfer::reply_after))]
pub fn transfer(d: Device, bytes: &[u8], reply: &mut [u8]) -> Outcome
    ensures outcome { result ≡ transfer d bytes.now (length reply.old) }
    ensures reply { reply.new ≡ reply_after d bytes.now reply.old }
{
    match refused::judge(d, bytes, reply.len()) {
        Err(refusal) => Outcome {
            device: d,
            answer: Err(refusal),
        },
        Ok(row) => {
            let sixteen = shown::shows(d, row.verb, row.index);
            let device = done::does(d, row.verb, row.index, bytes);
            base::put(&sixteen[..row.out as usize], reply);
            Outcome {
                device,
                answer: Ok(()),
            }
        }
    }
}
