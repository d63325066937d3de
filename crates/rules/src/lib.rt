// The sides, the cells, the states of a board or of the game, where a next board allows a move, what a move did, the weights, and
// numbered refusals.
// Ported from src/lib/game.rs, the weights from src/lib/minimax.rs, of nelhage/ultimattt at commit 87ef0d9c7c (Apache-2.0, see NOTICE),
// changed: methods take `self` by value, the evaluation's weights are a struct, refusals have numbers, and the effect of a move is added.
#![tactic(auto)]

mod refusal;

ghost use Rattle.std.specs.Prelude.{◌≡◌, not};
ghost use Rattle.rules.specs.Board.{other, side_number, side_from, in_play, state_number, state_from};
ghost use Rattle.rules.specs.Play.{may, effect_number};
ghost use Rattle.rules.specs.Evaluation.{accepted_weights};

pub use refusal::{Refusal, number};

#[derive(Clone, Copy, PartialEq, Eq)]
pub enum Player {
    X,
    O,
}

impl Player {
    pub fn other(self) -> Player
        ensures { result ≡ other self }
    {
        match self {
            Player::X => Player::O,
            Player::O => Player::X,
        }
    }

    // The Rust's name; `usize::from(player)` would not say that it is a bit.
    pub fn as_bit(self) -> usize
        ensures { result ≡ side_number self }
    {
        match self {
            Player::X => 0,
            Player::O => 1,
        }
    }

    // X for 0, O for any other number; `Player::from(n)` would read as if each number were a side's own.
    pub fn from_number(n: u64) -> Player
        ensures { result ≡ side_from n }
    {
        if n == 0 { Player::X } else { Player::O }
    }
}

// An enum as in the Rust: `Empty` is what a cell holds, so `Option<Player>` is no plainer.
#[derive(Clone, Copy, PartialEq, Eq)]
pub enum CellState {
    Empty,
    Played(Player),
}

#[derive(Clone, Copy, PartialEq, Eq)]
pub enum GameState {
    InPlay,
    Drawn,
    Won(Player),
}

impl GameState {
    pub fn terminal(self) -> bool
        ensures { result ≡ not (in_play self) }
    {
        self != GameState::InPlay
    }

    // The state of a number in a list; won by O for those over 3, so that `GameState::from(n)` would be no plainer, as with a side.
    pub fn from_number(n: u64) -> GameState
        ensures { result ≡ state_from n }
    {
        match n {
            0 => GameState::InPlay,
            1 => GameState::Drawn,
            _ => GameState::Won(Player::from_number(n - 2)),
        }
    }
}

// The number that a list of numbers has for it.
impl From<GameState> for u64 {
    ghost from_gives = { λ state number. number ≡ state_number state };

    fn from(state: GameState) -> u64
        ensures { result ≡ state_number state }
    {
        match state {
            GameState::InPlay => 0,
            GameState::Drawn => 1,
            GameState::Won(Player::X) => 2,
            GameState::Won(Player::O) => 3,
        }
    }
}

// Whether the next board, any (`None`) or the one that is due, allows a move in a board.
pub fn allows(next_board: Option<u8>, board: usize) -> bool
    ensures { result ≡ may next_board board }
{
    next_board.is_none_or(|due| due as usize == board)
}

// What a move did: the state of the board played in, and whether no board is due, both after it. No function answers it yet.
#[derive(Clone, Copy)]
pub struct Effect {
    pub board: GameState,
    pub free_choice: bool,
}

impl Effect {
    // Of a refused move.
    pub const NONE: Effect = Effect {
        board: GameState::InPlay,
        free_choice: false,
    };
}

// The number of the board's state, and 4 more for a free choice.
impl From<Effect> for u64 {
    ghost from_gives = { λ effect number. number ≡ effect_number effect };

    fn from(effect: Effect) -> u64
        ensures { result ≡ effect_number effect }
    {
        let state = u64::from(effect.board);
        if effect.free_choice { state + 4 } else { state }
    }
}

// What the evaluation gives for one place of a board's line, for two places, and for a won board.
#[derive(Clone, Copy)]
pub struct Weights {
    pub one: u16,
    pub two: u16,
    pub board: u16,
}

impl Weights {
    pub const DEFAULT: Weights = Weights {
        one: 1,
        two: 3,
        board: 20,
    };

    pub const MOST: u16 = 1000;

    // Whether none is over 1,000.
    #[tactic(auto, unfolding(crate::specs::Evaluation::accepted_weights))]
    pub fn are_accepted(self) -> bool
        ensures { result ≡ accepted_weights self }
    {
        self.one <= Weights::MOST && self.two <= Weights::MOST && self.board <= Weights::MOST
    }
}
