// The error counters REC and TEC, bus off and the groups of recessive bits that end it: one small record and the
// rules that move it.
#![tactic(auto)]

ghost use Rattle.std.specs.Prelude.{◌≡◌};

pub mod lent;

#[derive(Clone, Copy, Default)]
pub struct Counters {
    pub rec: u8,
    pub tec: u8,
    pub busoff: bool,
    // Groups of eleven recessive bits met in this bus off.
    pub groups: u8,
}

impl Counters {
    ghost use Rattle.counters.specs.Rules.{receive_error, dominant_bit, good_frame, transmit_error, completed};
    ghost use Rattle.counters.specs.Rules.{eleven_recessive, test_rec, test_tec};

    #[tactic(auto, unfolding(crate::specs::Rules::receive_error))]
    pub fn receive_error(self) -> Self
        ensures { result ≡ receive_error self }
    {
        Self {
            rec: self.rec.saturating_add(1),
            ..self
        }
    }

    #[tactic(auto, unfolding(crate::specs::Rules::dominant_bit))]
    pub fn dominant_bit(self) -> Self
        ensures { result ≡ dominant_bit self }
    {
        Self {
            rec: self.rec.saturating_add(8),
            ..self
        }
    }

    // CAN 2.0B lets REC come down from 128 and above to 119 to 127; the house rules 119.
    #[tactic(auto, unfolding(crate::specs::Rules::good_frame))]
    pub fn good_frame(self) -> Self
        ensures { result ≡ good_frame self }
    {
        if self.rec < 128 {
            Self {
                rec: self.rec.saturating_sub(1),
                ..self
            }
        } else {
            Self { rec: 119, ..self }
        }
    }

    // A transmit error that CAN 2.0B counts.
    #[tactic(auto, using(base::specs::Pick::picks), unfolding(crate::specs::Rules::transmit_error))]
    pub fn transmit_error(self) -> Self
        ensures { result ≡ transmit_error self }
    {
        if self.busoff {
            self
        } else if 247 < self.tec {
            // Eight more pass 255.
            Self {
                tec: 255,
                busoff: true,
                groups: 0,
                ..self
            }
        } else {
            Self {
                tec: self.tec + 8,
                ..self
            }
        }
    }

    #[tactic(auto, using(base::specs::Pick::picks), unfolding(crate::specs::Rules::completed))]
    pub fn completed(self) -> Self
        ensures { result ≡ completed self }
    {
        if self.busoff {
            self
        } else {
            Self {
                tec: self.tec.saturating_sub(1),
                ..self
            }
        }
    }

    // Eleven recessive bits, with 000's BOR bit for automatic recovery.
    #[tactic(auto, using(base::specs::Pick::picks), unfolding(crate::specs::Rules::eleven_recessive))]
    pub fn eleven_recessive(self, bor: bool) -> Self
        ensures { result ≡ eleven_recessive self bor }
    {
        if !self.busoff {
            return self;
        }
        let groups = self.groups.min(127) + 1;
        if bor && groups == 128 {
            return Self::default();
        }
        Self { groups, ..self }
    }

    // The test write 0x24.
    #[tactic(auto, unfolding(crate::specs::Rules::test_rec))]
    pub fn test_rec(self, rec: u8) -> Self
        ensures { result ≡ test_rec self rec }
    {
        Self { rec, ..self }
    }

    // The test write 0x26.
    #[tactic(auto, using(base::specs::Pick::picks), unfolding(crate::specs::Rules::test_tec))]
    pub fn test_tec(self, tec: u8) -> Self
        ensures { result ≡ test_tec self tec }
    {
        if self.busoff {
            self
        } else {
            Self { tec, ..self }
        }
    }
}
