// No code: positions and moves as text, as definitions, and their laws.
#![tactic(auto)]
