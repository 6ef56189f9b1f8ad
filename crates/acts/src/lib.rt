#![tactic(auto)]

// Calls on several homes under one verdict, and what the homes of a unit hold: definitions, statements, and what their answers say.
