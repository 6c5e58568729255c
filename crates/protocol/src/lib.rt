#![tactic(auto)]

// What a session delivers, sends and leaves open, at every event. Statements and proofs, no code.
