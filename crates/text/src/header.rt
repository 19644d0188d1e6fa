// The first line's counts.
ghost use Rattle.std.specs.Prelude.{◌≡◌};
ghost use Rattle.text.specs.Reading.{free_of};

// M I L O A.
#[derive(Clone, Copy, Debug, PartialEq, Eq)]
pub struct Header {
    pub highest: u32,
    pub inputs: u32,
    pub latches: u32,
    pub outputs: u32,
    pub gates: u32,
}

impl Header {
    // How many variables stand before the first gate.
    pub fn free(self) -> u32
        ensures { result ≡ free_of self }
    {
        self.inputs
    }
}
