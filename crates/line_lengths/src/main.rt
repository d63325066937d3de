// A test of `replay::run`, whose records have no memory: lines by their length. An empty line differs, one longer than a byte is apart.
#![tactic(auto)]

ghost use Rattle.std.specs.Prelude.{◌≡◌, length, ltb};
ghost use Rattle.replay.specs.Totals.{comparison};

use replay::{Comparison, Records};

// The records of the list.
struct Lines;

impl Records for Lines {
    ghost outcome_of = { λ line. comparison (ltb 0 (length line)) (ltb 1 (length line)) };

    fn outcome(line: &[u8]) -> Comparison
        ensures { result ≡ comparison (ltb 0 (length line.now)) (ltb 1 (length line.now)) }
    {
        Comparison::of(!line.is_empty(), line.len() > 1)
    }
}

fn main(rt: HostRuntime) {
    replay::run::<Lines>(rt.stdin(), b"longer than a byte");
}
