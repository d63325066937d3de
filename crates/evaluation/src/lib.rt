// The evaluation of a position for the side to move.
// Ported from src/lib/minimax.rs of nelhage/ultimattt at commit 87ef0d9c7c (Apache-2.0, see NOTICE), changed: draw winner and weights
// are arguments, a board's own score and what it is won for are one value, and the nine boards' values can be carried from a position to
// the next.
#![tactic(auto)]

ghost use Rattle.std.proofs.Common.{rules};
ghost use Rattle.std.specs.Prelude.{◌≡◌, ◌≤◌, pos, nat_abs, set};
ghost use Rattle.base.specs.Bits.{bit};
ghost use Rattle.base.specs.Integers.{sum};
ghost use Rattle.rules.specs.Board.{lines, mine};
ghost use Rattle.rules.specs.Evaluation.{won, scoring_with, places_in, worth, board_line, seen_by, draw_value};
ghost use Rattle.boards.specs.Packed.{cell_at};
ghost use Rattle.game.specs.Meaning.{position_of};
ghost use Rattle.lines.specs.Masks.{indices};
ghost use Rattle.evaluation.specs.Values.{OfLine, board_value, values_of, value_at, overall_value, score_by, evaluate_by};
ghost use Rattle.evaluation.specs.Values.{bad_weight_number, Evaluates};

use boards::LocalBoards;
use game::Game;
use lines::{WIN_MASKS, WIN_PATTERNS};
use rules::{GameState, Player, Refusal, Weights};
use std::array;

pub const EVAL_WON: i64 = 1152921504606846976;

pub const EVAL_LOST: i64 = -1152921504606846976;

// The value of a won game, for the side to move.
fn won_by(who: Player, turn: Player) -> i64
    ensures { result ≡ seen_by turn (seen_by who won) }
{
    if who == turn { EVAL_WON } else { EVAL_LOST }
}

fn drawn(draw_winner: Option<Player>, turn: Player) -> i64
    ensures { result ≡ seen_by turn (draw_value draw_winner) }
{
    draw_winner.map_or(0, |who| won_by(who, turn))
}

// What a side's places in a line, given by its mask, give if the other side has none there: nothing for three. They are counted by their
// lowest bit: with `count_ones`, as in the Rust, the search takes 1 to 4 % more instructions.
fn potential(bits: u32, mask: u32, weights: Weights) -> i32
    ensures gives { OfLine mask (λ l. result ≡ pos (worth weights (places_in (bit bits) l))) }
    ensures bounded { nat_abs result ≤ 65535 }
{
    let places = bits & mask;
    if places == 0 {
        return 0;
    }
    if places & (places - 1) == 0 {
        return i32::from(weights.one);
    }
    if places == mask {
        return 0;
    }
    i32::from(weights.two)
}

// A line with both sides in it gives nothing.
fn score_line(mask: u32, xbits: u32, obits: u32, weights: Weights) -> i32
    ensures gives { OfLine mask (λ l. result ≡ board_line weights (bit xbits) (bit obits) l) }
    ensures bounded { nat_abs result ≤ 65535 }
{
    if obits & mask == 0 {
        return potential(xbits, mask, weights);
    }
    if xbits & mask == 0 {
        return -potential(obits, mask, weights);
    }
    0
}

// The score of a board in play.
fn score_board(boards: LocalBoards, board: usize, weights: Weights) -> i32
    ensures { result ≡ sum (board_line weights (λ c. mine Player.X (cell_at boards board c))
        (λ c. mine Player.O (cell_at boards board c))) lines }
{
    let x = boards.xbits(board);
    let o = boards.obits(board);
    let mut score = 0;
    for &mask in &WIN_MASKS {
        score += score_line(mask, x, o, weights);
    }
    score
}

// What a board gives in each overall line that counts: its own score while in play, and what it is won for.
fn value_of(g: Game, board: usize, weights: Weights) -> i32
    ensures { result ≡ board_value weights (position_of g) board }
{
    match g.global_states.at(board) {
        GameState::InPlay => score_board(g.local_boards, board, weights),
        GameState::Drawn => 0,
        GameState::Won(Player::X) => i32::from(weights.board),
        GameState::Won(Player::O) => -i32::from(weights.board),
    }
}

// The value of a board as a term of a sum, 0 where there is none.
fn value_at(values: &[i32; 9], board: usize) -> i64
    ensures { (result ≡ value_at values.now board) × (nat_abs result ≤ 2147483648) }
{
    values.get(board).map_or(0, |&value| i64::from(value))
}

// An overall line, given by its mask and its boards, which stand in two tables (document 01). One with both sides in it gives nothing.
fn score_overall(mask: u32, boards: [usize; 3], x: u32, o: u32, values: [i32; 9]) -> i64
    ensures gives { OfLine mask (λ l. boards ≡ indices l → result ≡ overall_value (bit x) (bit o) values l) }
    ensures bounded { nat_abs result ≤ 6442450944 }
{
    if x & mask != 0 && o & mask != 0 {
        return 0;
    }
    let [a, b, c] = boards;
    value_at(&values, a) + value_at(&values, b) + value_at(&values, c)
}

// The values of the nine boards, and the weights by which they are worked out.
#[derive(Clone, Copy)]
pub struct Values {
    pub boards: [i32; 9],
    pub weights: Weights,
}

// The refusal of weights of which one is over 1,000.
#[derive(Clone, Copy, PartialEq, Eq)]
pub struct BadWeight;

impl Refusal for BadWeight {
    ghost number_of = { bad_weight_number };

    ghost never_0 = { Prim.search rules };

    fn number(self) -> u64
        ensures { result ≡ bad_weight_number self }
    {
        20
    }
}

impl Values {
    pub fn new(g: Game, weights: Weights) -> Values
        ensures { result ≡ record { boards = values_of weights (position_of g); weights = weights } }
    {
        Values {
            boards: array::from_fn(|board| value_of(g, board, weights)),
            weights,
        }
    }

    // The values after a move in a board: that board's anew.
    pub fn after(self, g: Game, board: usize) -> Values
        ensures { result ≡ record {
          boards = set self.boards board (board_value self.weights (position_of g) board);
          weights = self.weights;
        } }
    {
        let mut v = self;
        if board < 9 {
            v.boards[board] = value_of(g, board, self.weights);
        }
        v
    }

    // The evaluation of an unfinished position for X.
    fn score(self, g: Game) -> i64
        ensures { (result ≡ score_by (position_of g) self.boards) × (nat_abs result ≤ 51539607552) }
    {
        let x = g.global_states.xbits();
        let o = g.global_states.obits();
        let values = self.boards;
        // written out: with a loop the search takes 23 % more instructions
        score_overall(WIN_MASKS[0], WIN_PATTERNS[0], x, o, values)
            + score_overall(WIN_MASKS[1], WIN_PATTERNS[1], x, o, values)
            + score_overall(WIN_MASKS[2], WIN_PATTERNS[2], x, o, values)
            + score_overall(WIN_MASKS[3], WIN_PATTERNS[3], x, o, values)
            + score_overall(WIN_MASKS[4], WIN_PATTERNS[4], x, o, values)
            + score_overall(WIN_MASKS[5], WIN_PATTERNS[5], x, o, values)
            + score_overall(WIN_MASKS[6], WIN_PATTERNS[6], x, o, values)
            + score_overall(WIN_MASKS[7], WIN_PATTERNS[7], x, o, values)
    }

    // The evaluation of a position whose boards are said to have these values.
    pub fn evaluate(self, g: Game, draw_winner: Option<Player>) -> i64
        ensures { result ≡ evaluate_by (scoring_with draw_winner self.weights) (position_of g) self.boards }
    {
        let turn = g.next_player;
        match g.game_state {
            GameState::Drawn => drawn(draw_winner, turn),
            GameState::Won(who) => won_by(who, turn),
            GameState::InPlay => {
                let score = self.score(g);
                match turn {
                    Player::X => score,
                    Player::O => -score,
                }
            }
        }
    }
}

pub fn evaluate(g: Game, draw_winner: Option<Player>, weights: Weights) -> Result<i64, BadWeight>
    ensures { Evaluates (scoring_with draw_winner weights) g result }
{
    let value = Values::new(g, weights).evaluate(g, draw_winner);
    if weights.are_accepted() {
        Ok(value)
    } else {
        Err(BadWeight)
    }
}
