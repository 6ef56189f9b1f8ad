#![tactic(auto)]

// The store object on a board whose driver may fail and whose power may go: demand 4.
