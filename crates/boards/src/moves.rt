// Moves, and the iterator over a list of moves.
// Ported from src/lib/game.rs of nelhage/ultimattt at commit 87ef0d9c7c (Apache-2.0, see NOTICE), changed: refusals have numbers, and
// the iterator holds the cells still to be listed.
ghost use Rattle.std.specs.Prelude.{◌≡◌, not, ◌-◌, ◌<◌, eqb, length, ⊤};
ghost use Rattle.std.specs.Int.Bits.{bit_and};
ghost use Rattle.std.specs.Iterator.{MakesProgress, item_count};
ghost use Rattle.rules.specs.Play.{move_of, board_of, cell_of, no_move};
ghost use Rattle.boards.specs.Answers.{move_error_number, in_range, within};
ghost use Rattle.boards.specs.Cursor.{move_at, moves_left, Lists};
ghost use Rattle.std.proofs.Common.{rules};

use rules::Refusal;

// The cells of all boards: no game has more moves, so no search is deeper and no variation longer.
pub const PLACES: usize = 81;

#[derive(Clone, Copy, PartialEq, Eq)]
pub enum MoveError {
    WrongBoard,
    WonBoard,
    OutOfBounds,
    NotEmpty,
    GameOver,
}

impl Refusal for MoveError {
    ghost number_of = { move_error_number };

    ghost never_0 = { Prim.search rules };

    fn number(self) -> u64
        ensures { result ≡ move_error_number self }
    {
        match self {
            MoveError::OutOfBounds => 9,
            MoveError::GameOver => 10,
            MoveError::WonBoard => 11,
            MoveError::WrongBoard => 12,
            MoveError::NotEmpty => 13,
        }
    }
}

// 16 times board plus cell; 0xff is the empty move. A move is one byte in tables and lines (document 01): an `Option` would take two.
#[derive(Clone, Copy, PartialEq, Eq)]
pub struct Move {
    pub bits: u8,
}

impl Move {
    pub const NONE: Move = Move { bits: 0xff };

    #[tactic(auto, using(crate::proofs::Answers::in_both, crate::proofs::Answers::past_either))]
    pub fn from_coords(global: usize, local: usize) -> Result<Move, MoveError>
        ensures { result ≡ within (in_range global local) (record { bits = move_of global local }) }
    {
        if global > 8 || local > 8 {
            return Err(MoveError::OutOfBounds);
        }
        Ok(Move {
            bits: (global * 16 + local) as u8,
        })
    }

    pub fn global(self) -> usize
        ensures { result ≡ board_of self.bits }
    {
        (self.bits / 16) as usize
    }

    pub fn local(self) -> usize
        ensures { result ≡ cell_of self.bits }
    {
        (self.bits % 16) as usize
    }

    pub fn none() -> Move
        ensures { result.bits ≡ no_move }
    {
        Move::NONE
    }

    pub fn is_none(self) -> bool
        ensures { result ≡ eqb self.bits no_move }
    {
        self.bits == 0xff
    }

    pub fn is_some(self) -> bool
        ensures { result ≡ not (eqb self.bits no_move) }
    {
        !self.is_none()
    }

    pub fn bits(self) -> u8
        ensures { result ≡ self.bits }
    {
        self.bits
    }
}

// The cells still to be listed: 27 bits for each row of boards, the low bits first. Fields: an array would be walked by index.
#[derive(Clone, Copy)]
pub struct MoveIterator {
    pub top: u32,
    pub middle: u32,
    pub bottom: u32,
}

pub(crate) const ROW_MASK: u32 = 0x7ff_ffff;

// The bits without the lowest one.
fn without_lowest(bits: u32) -> u32
    ensures { result ≡ bit_and bits (bits - 1) }
{
    if bits == 0 {
        return 0;
    }
    bits & (bits - 1)
}

// The move at a place of a row.
fn move_at(row: u32, place: u32) -> Move
    requires { (row < 3) × (place < 27) }
    ensures { result.bits ≡ move_at row place }
{
    Move {
        bits: ((3 * row + place / 9) * 16 + place % 9) as u8,
    }
}

impl Iterator for MoveIterator {
    type Item = Move;

    ghost next_gives = { Lists };

    ghost remaining = { item_count moves_left };

    // Bits above the 27 count for nothing.
    fn next(&mut self) -> Option<Move>
        ensures steps { Lists self.old result self.new }
        ensures goes { MakesProgress (λ _. ⊤) (item_count moves_left) self.old result self.new }
    {
        let top = self.top & ROW_MASK;
        let middle = self.middle & ROW_MASK;
        let bottom = self.bottom & ROW_MASK;
        if top != 0 {
            *self = MoveIterator {
                top: without_lowest(top),
                middle,
                bottom,
            };
            return Some(move_at(0, top.trailing_zeros()));
        }
        if middle != 0 {
            *self = MoveIterator {
                top: 0,
                middle: without_lowest(middle),
                bottom,
            };
            return Some(move_at(1, middle.trailing_zeros()));
        }
        if bottom != 0 {
            *self = MoveIterator {
                top: 0,
                middle: 0,
                bottom: without_lowest(bottom),
            };
            return Some(move_at(2, bottom.trailing_zeros()));
        }
        None
    }
}

impl MoveIterator {
    // How many moves are left, by their bits: no walk over them, as the trait's `count` would be.
    #[tactic(auto, using(crate::proofs::Cursor::at_most_27))]
    pub fn count(self) -> usize
        ensures { result ≡ length (moves_left self) }
    {
        let top = (self.top & ROW_MASK).count_ones() as usize;
        let middle = (self.middle & ROW_MASK).count_ones() as usize;
        let bottom = (self.bottom & ROW_MASK).count_ones() as usize;
        top + middle + bottom
    }
}
