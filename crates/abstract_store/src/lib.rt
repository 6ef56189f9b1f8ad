#![tactic(auto)]

// The abstract store: what every call answers in terms of the calls before it, what becomes of every place of the log, and what a round
// keeps. Definitions and statements.
