// A lent text, read on from a place: bytes that must stand there, lines of numbers with the verdict on one, and the rest. Nothing is asked of the caller.
// `text, at` stay two: the next place alone is answered, and `thin_meets` (README) is of methods of `TextReader` that call such a function.
#![tactic(auto)]

mod bytes;
mod line;
mod number;
mod text_reader;

pub use bytes::{byte_at, rest_is_skipped};
pub use line::{line_of, line_verdict};
