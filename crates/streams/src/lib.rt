#![tactic(auto)]

// What the fed frame reader hands out of a stream, however it is cut, are the stream's frames. Statements and proofs, no code.
