// No code: the written rules as a game for the search, and what the search and the endgame analysis then say of it.
#![tactic(auto)]
