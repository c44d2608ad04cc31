// Lists: what the definitions share, and laws for every crate above. No code.
#![tactic(auto)]
