// The identifier, and the four bytes that the tables lay it out in.
ghost use Rattle.std.specs.Prelude.{◌≡◌};

use crate::{EXTENDED, Header, ID18, STANDARD};

impl Header {
    ghost use Rattle.frame.specs.Tables.{id_bits, laid_out};

    // ID28 to ID0, as the tables number the bits of both kinds.
    #[tactic(auto, unfolding(crate::specs::Tables::id_bits))]
    fn id_bits(self) -> u32
        ensures { result ≡ id_bits self }
    {
        if self.extended {
            self.id % EXTENDED
        } else {
            self.id % STANDARD * ID18
        }
    }

    // Two bits stand between ID18 and ID17, and one below ID0: which, each table says. So the parts are no bytes of the
    // number.
    pub(crate) fn laid_out(self, upper: bool, lower: bool, last: bool) -> [u8; 4]
        ensures { result ≡ laid_out self upper lower last }
    {
        let n = self.id_bits();
        [
            ((n >> 21) % 256) as u8,
            ((n >> 18) % 8) as u8 * 32
                + base::flag(upper) * 16
                + base::flag(lower) * 8
                + ((n >> 15) % 8) as u8,
            ((n >> 7) % 256) as u8,
            (n % 128) as u8 * 2 + base::flag(last),
        ]
    }
}
