#![tactic(auto)]

// The longer tables of the crate `model`, computed: theorems only.
