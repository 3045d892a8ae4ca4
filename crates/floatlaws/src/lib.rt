// Laws of order, rounding, error and exactness over the IEEE 754 definitions, for the proofs of other crates. No code.
#![tactic(auto)]
