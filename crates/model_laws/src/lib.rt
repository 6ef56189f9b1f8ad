#![tactic(auto)]

// Laws of the definitions of the crate `model`, for the crates above to cite: theorems only.
