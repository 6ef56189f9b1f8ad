#![tactic(auto)]

// One history with the calls of all units. The definitions stand in specs/, the theorems in proofs/.
