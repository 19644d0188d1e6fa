// What a gate computes locally: leaf sets, windows and tables.
#![tactic(auto)]

mod leaf_set;
mod leaf_window;
mod truth;

pub use leaf_set::{LEAF_LIMIT, Leaves};
pub use leaf_window::LeafWindow;
pub use truth::Table;
