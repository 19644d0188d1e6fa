// The list of good replacements.
#![tactic(auto)]

ghost use Rattle.std.specs.Prelude.{◌≡◌};
ghost use Rattle.listing.specs.Listing.{proposal_of};

use graph::{Lit, Refusal};
use replacement::Proposal;

// A record of the list, in plain words, its kind too: by `list_effect` the list lies in lent memory.
#[derive(Clone, Copy, Debug, PartialEq, Eq)]
pub struct Candidate {
    pub kind: u32,
    pub first: u32,
    pub second: u32,
    pub turned: u32,
    pub gain: u32,
}

impl Candidate {
    // The replacement itself, without its gain.
    pub fn proposal(self) -> Proposal
        ensures { result ≡ proposal_of self }
    {
        Proposal {
            kind: self.kind,
            first: Lit(self.first),
            second: Lit(self.second),
            turned: self.turned,
        }
    }
}

// Why there is no list: there is no room for so many records, or it is refused.
#[derive(Clone, Copy, Debug, PartialEq, Eq)]
pub enum NotListed {
    NoRoom(usize),
    Refused(Refusal),
}
