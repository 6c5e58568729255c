#![tactic(auto)]

// Over any sequence of appends and drops each outbox is a plain queue of frames. Statements and proofs, no code.
