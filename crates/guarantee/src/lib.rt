// The read guarantee: two cards of one layout, drawn from any bits and read inside the margin, are read as they were drawn. No code:
// the contract of `bits::read_bits` holds it.
#![tactic(auto)]
