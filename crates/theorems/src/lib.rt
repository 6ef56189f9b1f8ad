#![tactic(auto)]

// Demands 2 and 3 and the claims of the requests, over the definitions of the crate `model`: theorems only.
