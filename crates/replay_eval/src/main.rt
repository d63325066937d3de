// Replays the Rust's answers on the evaluation, and prints how many agree and each record that does not.
// A record is a position's text, the draw winner (X, O or - for none) and the evaluation, parted by tabs (tools/lists.py).
#![tactic(auto)]

ghost use Rattle.std.specs.Prelude.{◌≡◌};
ghost use Rattle.decimals.specs.Numbers.{read_signed};
ghost use Rattle.replay_eval.specs.Records.{is_score, agrees, outcome_of};

use replay::{Comparison, Replayer};
use rules::Weights;

fn is_score(text: &[u8], score: i64) -> bool
    ensures { result ≡ is_score (read_signed text.now) score }
{
    decimals::read_signed(text) == Some(score)
}

// Whether the score is the evaluation of the position, with this draw winner and the default weights.
fn agrees(position: &[u8], draw: &[u8], score: &[u8]) -> bool
    ensures { result ≡ agrees position.now draw.now score.now }
{
    let Ok(game) = notation::parse(position) else {
        return false;
    };
    let Some(winner) = replay::draw_of(draw) else {
        return false;
    };
    let Ok(value) = evaluation::evaluate(game, winner, Weights::DEFAULT) else {
        return false;
    };
    is_score(score, value)
}

// The records of the list.
#[derive(Drop)]
struct Evaluations;

impl Replayer for Evaluations {
    ghost outcome_of = { outcome_of };

    // A line that can't be read differs.
    fn outcome(&mut self, line: &[u8]) -> Comparison
        ensures { result ≡ outcome_of line.now }
    {
        let agrees = replay::tabs(line) == 2
            && agrees(
                replay::field(line, 0),
                replay::field(line, 1),
                replay::field(line, 2),
            );
        Comparison::of(agrees, false)
    }
}

fn main(rt: HostRuntime) {
    replay::run_with(&mut Evaluations, rt.stdin(), b"");
}
