// What a graph is and means: literals and variables, lent graphs, the limits, and why a call refuses.
#![tactic(auto)]

mod algebra;
mod checked;
mod gate;
mod lent_graph;
mod limits;
mod lit;
mod net;
mod refusal;

pub use algebra::{Algebra, gate_value, literal_value, value_at};
pub use checked::CheckedGraph;
pub use gate::Fanins;
pub use lent_graph::LentGraph;
pub use limits::{MOST_GATES, MOST_INPUTS, MOST_OUTPUTS, MOST_VARIABLES};
pub use lit::{Lit, Var};
pub use net::Net;
pub use refusal::Refusal;
