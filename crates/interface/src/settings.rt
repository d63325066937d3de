// Settings and weights from lent words.
ghost use Rattle.std.specs.Prelude.{◌≡◌, ◌+◌, ◌≤◌, min, length, drop};
ghost use Rattle.interface.specs.Settings.{draws_from, weights_from, held_weights, config_from};

use minimax::Config;
use rules::{Player, Weights};

pub(crate) fn draws_from(w: u64) -> Option<Player>
    ensures { result ≡ draws_from w }
{
    w.checked_sub(1).map(Player::from_number)
}

// A weight over 65,535 is refused as 65,535 is.
fn weight_from(w: u64) -> u16
    ensures { result ≡ min w 65535 }
{
    u16::try_from(w).unwrap_or(u16::MAX)
}

// Three weights, from a place on.
pub(crate) fn weights_from(words: &[u64], at: usize) -> Weights
    requires { at + 3 ≤ length words.now }
    ensures { result ≡ held_weights (weights_from (drop at words.now)) }
{
    Weights {
        one: weight_from(words[at]),
        two: weight_from(words[at + 1]),
        board: weight_from(words[at + 2]),
    }
}

pub(crate) fn config_from(words: &[u64]) -> Config
    requires { 6 ≤ length words.now }
    ensures { result ≡ config_from words.now }
{
    Config {
        max_depth: words[0],
        allowance: words[1],
        draw_winner: draws_from(words[2]),
        weights: weights_from(words, 3),
    }
}
