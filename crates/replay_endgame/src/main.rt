// Replays the Rust's answers on the endgame analysis, and prints how many agree and each record that does not.
// A record is a position's text, a tab, and the numbers that are expected (tools/lists.py).
#![tactic(auto)]

mod expected;

ghost use Rattle.std.specs.Prelude.{◌≡◌, Some};
ghost use Rattle.text.specs.Reading.{read};
ghost use Rattle.replay_endgame.specs.Records.{comparison_for, outcome_of};

use replay::{Comparison, Replayer};

// The most numbers of a record.
const MOST: usize = 256;

// What is found of a position's text and its numbers. A text that is no position differs.
fn comparison(position: &[u8], words: &[u64]) -> Comparison
    ensures { result ≡ comparison_for (read position.now) (Some words.now) }
{
    match notation::parse(position) {
        Ok(game) => Comparison::of(expected::is_met(words, game), expected::is_apart(words)),
        Err(_) => Comparison::Differs,
    }
}

// The records of the list.
#[derive(Drop)]
struct Analyses;

impl Replayer for Analyses {
    ghost outcome_of = { outcome_of };

    // A line that can't be read differs.
    fn outcome(&mut self, line: &[u8]) -> Comparison
        ensures { result ≡ outcome_of line.now }
    {
        if replay::tabs(line) != 1 {
            return Comparison::Differs;
        }
        let mut words = [0u64; MOST];
        let Some(n) = decimals::numbers(replay::field(line, 1), &mut words) else {
            return Comparison::Differs;
        };
        comparison(replay::field(line, 0), &words[..n])
    }
}

fn main(rt: HostRuntime) {
    replay::run_with(
        &mut Analyses,
        rt.stdin(),
        b"with document 01's refusal for the Rust's answer",
    );
}
