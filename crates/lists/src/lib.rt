// Lists that a loop replaces entry by entry, as definitions, and their laws. No code.
#![tactic(auto)]
