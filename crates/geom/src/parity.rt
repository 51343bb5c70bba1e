// The parity of an element, or of a step of a curve.
ghost use Rattle.std.specs.Prelude.{◌≡◌};
ghost use Rattle.geom.specs.Memory.{parity_of, parity_word};
ghost use Rattle.geom.specs.Parity.{flipped, times};

#[derive(Clone, Copy)]
pub enum Parity {
    Even = 0,
    Odd = 1,
}

impl Parity {
    // The other parity.
    pub fn flip(self) -> Parity
        ensures { result ≡ flipped self }
    {
        match self {
            Parity::Even => Parity::Odd,
            Parity::Odd => Parity::Even,
        }
    }

    // Even when both are equal.
    pub fn product(self, other: Parity) -> Parity
        ensures { result ≡ times self other }
    {
        match self {
            Parity::Even => other,
            Parity::Odd => other.flip(),
        }
    }
}

// The parity that a word stands for: 0 even, 1 odd.
impl From<u32> for Parity {
    ghost from_gives = { λ word parity. parity ≡ parity_of word };

    fn from(word: u32) -> Parity {
        if word == 0 {
            return Parity::Even;
        }
        Parity::Odd
    }
}

// The word of a parity.
impl From<Parity> for u32 {
    ghost from_gives = { λ parity word. word ≡ parity_word parity };

    fn from(parity: Parity) -> u32 {
        parity as u32
    }
}
