// No code: proofs/ has what walks by hand share, whatever the crate.
#![tactic(auto)]
