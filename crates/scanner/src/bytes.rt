// Bytes that must stand at a place, and what may stand behind all lines.
ghost use Rattle.std.specs.Prelude.{◌≡◌, [], ◌∷◌, drop};
ghost use Rattle.text.specs.Line.{space, line_feed, after};
ghost use Rattle.text.specs.States.{skipped};
ghost use Rattle.scanner.specs.Tokens.{byte_step};

// The place after the byte, if it stands at the place.
#[tactic(auto, unfolding(crate::specs::Tokens::byte_step, text::specs::Line::after))]
pub fn byte_at(text: &[u8], at: usize, byte: u8) -> Option<usize>
    ensures { byte_step text.now result ≡ after (byte ∷ []) (drop at text.now) }
{
    match text.get(at) {
        Some(found) if *found == byte => Some(at + 1),
        _ => None,
    }
}

pub(crate) fn space_at(text: &[u8], at: usize) -> Option<usize>
    ensures { byte_step text.now result ≡ after (space ∷ []) (drop at text.now) }
{
    byte_at(text, at, b' ')
}

pub(crate) fn line_end_at(text: &[u8], at: usize) -> Option<usize>
    ensures { byte_step text.now result ≡ after (line_feed ∷ []) (drop at text.now) }
{
    byte_at(text, at, b'\n')
}

// That the rest is empty, or starts with `i`, `o` or `c`.
#[tactic(auto, unfolding(text::specs::States::skipped, graph::specs::Lists::is_in))]
pub fn rest_is_skipped(text: &[u8], at: usize) -> bool
    ensures { result ≡ skipped (drop at text.now) }
{
    match text.get(at) {
        None => true,
        Some(byte) => *byte == b'i' || *byte == b'o' || *byte == b'c',
    }
}
