// A literal and a variable number are kept apart throughout.
ghost use Rattle.std.specs.Prelude.{◌≡◌, ◌*◌, ◌<◌, ◌^◌};
ghost use Rattle.graph.specs.Literal.{var_of, is_odd, flip};

// A reference to a variable, plain or complemented: 2v is variable v, 2v + 1 its complement.
#[derive(Clone, Copy, Debug, PartialEq, Eq, PartialOrd, Ord)]
pub struct Lit(pub u32);

// A variable's number: 0 is the constant false, then come the inputs, then the gates.
#[derive(Clone, Copy, Debug, PartialEq, Eq, PartialOrd, Ord)]
pub struct Var(pub u32);

impl Lit {
    pub fn var(self) -> Var
        ensures { result.0 ≡ var_of self.0 }
    {
        Var(self.0 / 2)
    }

    pub fn is_complement(self) -> bool
        ensures { result ≡ is_odd self.0 }
    {
        self.0 % 2 == 1
    }

    // This literal, complemented where `by` is a complement.
    pub fn flip(self, by: Lit) -> Lit
        ensures { result.0 ≡ flip self.0 by.0 }
    {
        Lit(self.0 / 2 * 2 + (self.0 % 2 + by.0 % 2) % 2)
    }
}

impl Var {
    // The place of this variable's value in a list that starts with variable 0. No `From`: the name says what the number is for.
    pub fn at(self) -> usize
        ensures { result ≡ self.0 }
    {
        self.0 as usize
    }

    // This variable's literal that is no complement.
    pub fn plain(self) -> Lit
        requires { self.0 < 2 ^ 31 }
        ensures { result.0 ≡ 2 * self.0 }
    {
        Lit(2 * self.0)
    }
}
