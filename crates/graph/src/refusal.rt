// Why a call refuses. specs/Refuse.antt gives each its number.
ghost use Rattle.std.specs.Prelude.{◌≡◌};
ghost use Rattle.graph.specs.Refuse.{number_of};

// Other languages know a refusal by its number.
#[derive(Clone, Copy, Debug, PartialEq, Eq)]
pub enum Refusal {
    BadHeader = 1,
    TooLarge,
    Latches,
    BadCount,
    BadLine,
    BadLiteral,
    BadGraph,
    BadAssignment,
    BadRoot,
    BadLeaves,
    NotACut,
    BadCandidate,
    NotEqual,
    NoGain,
    OrderLost,
    NoRoom,
}

impl Refusal {
    // No `From`: `refusal.number()` says which number it is.
    pub fn number(self) -> u32
        ensures { result ≡ number_of self }
    {
        self as u32
    }
}
