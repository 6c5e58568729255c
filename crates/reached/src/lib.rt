#![tactic(auto)]

// No state reached from a made session by any sequence of events breaks the list behind 14, and open messages have system bytes of their own.
// Statements and proofs, no code.
