#![tactic(auto)]

// The next item, asked for again and again, is a feed, and tells the items of a text in order, with their depths. Statements and proofs, no code.
