// No code: definitions and laws that the other crates share.
#![tactic(auto)]
