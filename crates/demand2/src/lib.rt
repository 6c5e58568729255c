#![tactic(auto)]

// Demand 2: items mean what document 01 fixes, and reading and writing are each other's reverse. Statements and proofs, no code.
