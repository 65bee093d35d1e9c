// A cyclic check, by one code for every width up to sixteen.
ghost use Rattle.std.specs.Prelude.{◌≡◌, ◌<◌, ◌≤◌};
ghost use Rattle.crc.specs.Check.{bit_step, byte_step, run as run_of};

// A check's width in bits and its polynomial, without the highest term.
#[derive(Clone, Copy)]
pub(crate) struct Polynomial {
    width: u32,
    terms: u16,
    ghost some: { 0 < width },
    ghost few: { width ≤ 16 },
}

pub(crate) const UNIT: Polynomial = Polynomial {
    width: 8,
    terms: 0xA1,
};

pub(crate) const LINK: Polynomial = Polynomial {
    width: 16,
    terms: 0x8005,
};

impl Polynomial {
    #[tactic(auto, using(std::proofs::lemmas::Nat::one_shl), unfolding(crate::specs::Check::bit_step))]
    fn bit_step(self, state: u16, bit: u16) -> u16
        ensures { result ≡ bit_step self.width self.terms state bit }
    {
        let moved = (u32::from(state) * 2 % (1u32 << self.width)) as u16;
        if (state >> (self.width - 1)) ^ bit == 1 {
            moved ^ self.terms
        } else {
            moved
        }
    }

    fn byte_step(self, state: u16, byte: u8) -> u16
        ensures { result ≡ byte_step self.width self.terms state byte }
    {
        (0..8u32)
            .rev()
            .fold(state, |s, k| self.bit_step(s, u16::from((byte >> k) % 2)))
    }

    // The state after the bytes of a part, from any state.
    pub(crate) fn run(self, state: u16, part: &[u8]) -> u16
        ensures { result ≡ run_of self.width self.terms state part.now }
    {
        part.iter().fold(state, |s, b| self.byte_step(s, *b))
    }
}
