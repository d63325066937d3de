// Replays the Rust's searches, and prints how many records agree and each that does not.
// A record is one memory and the searches that use it, one after the other (tools/lists.py).
#![tactic(auto)]

mod chain;
mod digest;
mod expected;

ghost use Rattle.std.specs.Prelude.{◌≡◌};
ghost use Rattle.replay_search.specs.Chains.{table_room, outcome_of};

use replay::{Comparison, Replayer};

// The records of the list, and memory for their tables: a record's searches begin with all that they use of it cleared.
#[derive(Drop)]
struct Searches {
    words: [u64; chain::ROOM],
}

impl Replayer for Searches {
    ghost outcome_of = { outcome_of table_room };

    fn outcome(&mut self, line: &[u8]) -> Comparison
        ensures { result ≡ outcome_of table_room line.now }
    {
        chain::outcome(line, &mut self.words)
    }
}

fn main(rt: HostRuntime) {
    let mut searches = Searches {
        words: [0; chain::ROOM],
    };
    replay::run_with(
        &mut searches,
        rt.stdin(),
        b"refused as document 01 says (15 to 18)",
    );
}
