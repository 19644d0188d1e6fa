// Copying words from one lent list into another.
#![tactic(auto)]

ghost use Rattle.std.specs.Prelude.{◌≡◌, ◌≤◌, length};
ghost use Rattle.graph.specs.Lent.{written};

// The words stand in the first places.
#[tactic(auto, unfolding(graph::specs::Lent::written))]
pub fn copy_words(words: &[u32], to: &mut [u32])
    requires { length words.now ≤ length to.old }
    ensures { to.new ≡ written words.now to.old }
{
    to[..words.len()].copy_from_slice(words);
}
