#![tactic(auto)]

// Events offered to a home one after the other, for the crates whose homes keep what events say. The definitions stand in specs/, their
// laws in proofs/.
