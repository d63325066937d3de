// No code: the search over any game of two sides, as definitions, and their laws.
#![tactic(auto)]
