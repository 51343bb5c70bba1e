// Why a mesh, a file or an input is refused. Each reason has a number, by which C, the listing and the papers know it.
ghost use Rattle.std.specs.Prelude.{◌≡◌};
ghost use Rattle.geom.specs.Answers.{number_of};

#[derive(Clone, Copy, PartialEq, Eq)]
pub enum Refusal {
    // The version byte.
    Version = 1,
    // The kind byte.
    Kind = 2,
    // The file ends early.
    Short = 3,
    // Bytes are left over.
    Surplus = 4,
    // A flag byte or a parity.
    Mark = 5,
    // A coordinate.
    Coordinate = 6,
    // A vertex number.
    Number = 7,
    // A curve without vertices.
    Curve = 8,
    // Counts and lent cells that don't fit one another.
    Count = 9,
    // More than the lent cells hold, or than the limit allows.
    Room = 10,
}

impl From<Refusal> for u8 {
    ghost from_gives = { λ r n. n ≡ number_of r };

    fn from(refusal: Refusal) -> u8 {
        refusal as u8
    }
}
