// The text reader: it reads on from its place in the lent text and copies nothing.
// A line is read by one reader: what it answers holds the next place, and it is moved there.
// The theorems `thin_meets` and `asks` (README) are of methods over a function of `text, at`, as each here is: so methods and functions both stay.
ghost use Rattle.std.specs.Prelude.{◌≡◌, [], ◌∷◌, drop};
ghost use Rattle.text.specs.Line.{space, line_feed, after};
ghost use Rattle.text.specs.Number.{number};
ghost use Rattle.scanner.specs.Tokens.{byte_step, number_step};

use crate::bytes::{line_end_at, space_at};
use crate::number::{NumberAt, number_at};

#[derive(Clone, Copy)]
pub struct TextReader<'a> {
    pub text: &'a [u8],
    pub at: usize,
}

impl<'a> TextReader<'a> {
    pub(crate) fn number(self) -> Option<NumberAt>
        ensures { number_step self.entry.text.now result ≡ number (drop self.entry.at self.entry.text.now) }
    {
        number_at(self.text, self.at)
    }

    pub(crate) fn space(self) -> Option<usize>
        ensures { byte_step self.entry.text.now result ≡ after (space ∷ []) (drop self.entry.at self.entry.text.now) }
    {
        space_at(self.text, self.at)
    }

    pub(crate) fn line_end(self) -> Option<usize>
        ensures { byte_step self.entry.text.now result ≡ after (line_feed ∷ []) (drop self.entry.at self.entry.text.now) }
    {
        line_end_at(self.text, self.at)
    }
}
