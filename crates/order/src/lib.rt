// The order in which a position's moves are searched.
// Ported from src/lib/minimax.rs of nelhage/ultimattt at commit 87ef0d9c7c (Apache-2.0, see NOTICE), changed: `move_iterator` and
// `DedupIterator` are one iterator with a set of 256 marks, which plays the moves.
#![tactic(auto)]

ghost use Rattle.std.specs.Prelude.{◌≡◌};
ghost use Rattle.order.specs.Order.{marked, no_marks, new_order, set_mark, Meets, NextOf};

use boards::{Move, MoveIterator};
use game::Game;

// A set of 256 marks: words and no set of the library, since there is no heap.
#[derive(Clone, Copy)]
pub struct Seen {
    pub marks: [u64; 4],
}

impl Seen {
    fn new() -> Seen
        ensures { result ≡ no_marks }
    {
        Seen { marks: [0; 4] }
    }

    fn has(self, m: Move) -> bool
        ensures { result ≡ marked self m.bits }
    {
        (self.marks[(m.bits / 64) as usize] >> (m.bits % 64)) & 1 == 1
    }

    fn with(self, m: Move) -> Seen
        ensures { result ≡ set_mark self m.bits }
    {
        let mut marks = self.marks;
        marks[(m.bits / 64) as usize] |= 1u64 << (m.bits % 64);
        Seen { marks }
    }
}

// The moves still to be met: the table's move; the response, or lacking one the variation's move; then the list.
#[derive(Clone, Copy)]
pub struct MovesLeft {
    pub first: Option<Move>,
    pub second: Option<Move>,
    pub list: MoveIterator,
}

impl MovesLeft {
    #[tactic(auto, using(crate::proofs::OrderLeft::next_listed), unfolding(crate::specs::Order::all_left))]
    fn next(&mut self) -> Option<Move>
        ensures { Meets self.old result self.new }
    {
        if let Some(m) = self.first.take() {
            return Some(m);
        }
        if let Some(m) = self.second.take() {
            return Some(m);
        }
        self.list.next()
    }
}

// The order of a position's moves: those left, and those met.
#[derive(Clone, Copy)]
pub struct MoveOrder {
    pub left: MovesLeft,
    pub seen: Seen,
}

// A move, and the game after it.
#[derive(Clone, Copy)]
pub struct NextMove {
    pub game: Game,
    pub m: Move,
}

impl MoveOrder {
    pub fn new(game: Game, first: Option<Move>, second: Option<Move>) -> MoveOrder
        ensures { result ≡ new_order game first second }
    {
        let left = MovesLeft {
            first,
            second,
            list: game.all_moves(),
        };
        MoveOrder {
            left,
            seen: Seen::new(),
        }
    }

    // The next move that is no repeat and is accepted. No `Iterator`: it would hold a copy of the game, which its caller has.
    pub fn next(&mut self, game: Game) -> Option<NextMove>
        ensures { NextOf game self.old result self.new }
    {
        while let Some(m) = self.left.next() {
            if self.seen.has(m) {
                continue;
            }
            self.seen = self.seen.with(m);
            if let Ok(after) = game.make_move(m) {
                return Some(NextMove { game: after, m });
            }
        }
        None
    }
}
