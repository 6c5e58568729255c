#![tactic(auto)]

// No received primary is answered twice: an account of any run from a fresh session. Statements and proofs, no code.
