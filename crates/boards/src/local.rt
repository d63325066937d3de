// The nine boards as three rows of two 27-bit numbers.
// Ported from src/lib/game.rs of nelhage/ultimattt at commit 87ef0d9c7c (Apache-2.0, see NOTICE), changed: state goes in and comes back
// by value, a cell with both bits is X's, bits beyond the boards count for nothing, and a board or cell over 8 reads as empty.
ghost use Rattle.std.specs.Prelude.{◌≡◌, not, ◌/◌, ◌<◌};
ghost use Rattle.base.specs.Bits.{bit, digits};
ghost use Rattle.rules.specs.Board.{blank, mine, result_of};
ghost use Rattle.rules.specs.Hash.{cells_hash, board_hash};
ghost use Rattle.boards.specs.Packed.{row_of, cell_at};
ghost use Rattle.boards.specs.With.{row_with, with_cell};
ghost use Rattle.boards.specs.Rows.{row_free, free_cells, row_same, same_cells, closing};

use crate::moves::MoveIterator;
use lines::BOARD_MASK;
use rules::{CellState, GameState, Player};

// Three boards of nine cells, the low bits first: the cells of X and of O.
#[derive(Clone, Copy)]
pub struct Row {
    pub x: u32,
    pub o: u32,
}

#[derive(Clone, Copy)]
pub struct LocalBoards {
    pub rows: [Row; 3],
}

// The cells of a row's boards, by the boards' three bits.
#[tactic(auto, using(crate::proofs::Rows::low_bit))]
fn row_cells(boards: u32) -> u32
    ensures { result ≡ digits (λ k. bit boards (k / 9)) 27 }
{
    (boards & 1) * 0x1ff + ((boards >> 1) & 1) * 0x3_fe00 + ((boards >> 2) & 1) * 0x7fc_0000
}

impl Row {
    fn with(self, place: u32, who: Player) -> Row
        requires { place < 27 }
        ensures { result ≡ row_with who self place }
    {
        let bit = 1u32 << place;
        match who {
            Player::X => Row {
                x: self.x | bit,
                ..self
            },
            Player::O => Row {
                o: self.o | bit,
                ..self
            },
        }
    }

    // The empty cells of the boards in three bits.
    fn free_in(self, boards: u32) -> u32
        ensures { result ≡ row_free self boards }
    {
        row_cells(boards) & !(self.x | self.o)
    }

    // Whether the cells of the boards in three bits are the same.
    fn same_in(self, boards: u32, rhs: Row) -> bool
        ensures { result ≡ row_same self rhs boards }
    {
        let mask = row_cells(boards);
        let x = (self.x ^ rhs.x) & mask;
        let o = ((self.o & !self.x) ^ (rhs.o & !rhs.x)) & mask;
        x | o == 0
    }
}

impl LocalBoards {
    pub const EMPTY: LocalBoards = LocalBoards {
        rows: [Row { x: 0, o: 0 }; 3],
    };

    // The row of a board, empty if there is no such board.
    fn row(self, global: usize) -> Row
        ensures { result ≡ row_of self global }
    {
        self.rows
            .get(global / 3)
            .copied()
            .unwrap_or(Row { x: 0, o: 0 })
    }

    pub fn at(self, global: usize, local: usize) -> CellState
        ensures { result ≡ cell_at self global local }
    {
        if local > 8 {
            return CellState::Empty;
        }
        let row = self.row(global);
        let idx = (global % 3) * 9 + local;
        let x = (row.x >> idx) & 1 == 1;
        let o = (row.o >> idx) & 1 == 1;
        match (x, o) {
            (true, _) => CellState::Played(Player::X),
            (false, true) => CellState::Played(Player::O),
            (false, false) => CellState::Empty,
        }
    }

    // A player has one more cell.
    #[tactic(auto, using(crate::proofs::With::with_past_board, crate::proofs::With::with_past_cell, crate::proofs::With::with_row))]
    pub fn mark(&mut self, global: usize, local: usize, who: Player)
        ensures { self.new ≡ with_cell self.old global local who }
    {
        if global > 8 || local > 8 {
            return;
        }
        let idx = ((global % 3) * 9 + local) as u32;
        self.rows[global / 3] = self.rows[global / 3].with(idx, who);
    }

    // The boards with one more cell of a player's.
    pub fn set(mut self, global: usize, local: usize, who: Player) -> LocalBoards
        ensures { result ≡ with_cell self global local who }
    {
        self.mark(global, local, who);
        self
    }

    pub fn xbits(self, global: usize) -> u32
        ensures { result ≡ digits (λ c. mine Player.X (cell_at self global c)) 9 }
    {
        let row = self.row(global);
        (row.x >> (9 * (global % 3))) & BOARD_MASK
    }

    pub fn obits(self, global: usize) -> u32
        ensures { result ≡ digits (λ c. mine Player.O (cell_at self global c)) 9 }
    {
        let row = self.row(global);
        ((row.o & !row.x) >> (9 * (global % 3))) & BOARD_MASK
    }

    pub fn playerbits(self, player: Player, global: usize) -> u32
        ensures { result ≡ digits (λ c. mine player (cell_at self global c)) 9 }
    {
        match player {
            Player::X => self.xbits(global),
            Player::O => self.obits(global),
        }
    }

    pub fn mask(self, global: usize) -> u32
        ensures { result ≡ digits (λ c. not (blank (cell_at self global c))) 9 }
    {
        let row = self.row(global);
        ((row.o | row.x) >> (9 * (global % 3))) & BOARD_MASK
    }

    pub fn free_squares(self, global: usize) -> u32
        ensures { result ≡ digits (λ c. blank (cell_at self global c)) 9 }
    {
        BOARD_MASK - self.mask(global)
    }

    // Only the player's lines are looked at.
    pub fn check_winner(self, global: usize, player: Player) -> GameState
        ensures { result ≡ result_of player (λ c. mine player (cell_at self global c)) (λ c. blank (cell_at self global c)) }
    {
        if lines::has_line(self.playerbits(player, global)) {
            return GameState::Won(player);
        }
        if self.mask(global) == BOARD_MASK {
            GameState::Drawn
        } else {
            GameState::InPlay
        }
    }

    // The empty cells of the boards in nine bits.
    pub fn free_in(self, boards: u32) -> MoveIterator
        ensures { result ≡ free_cells self boards }
    {
        MoveIterator {
            top: self.rows[0].free_in(boards),
            middle: self.rows[1].free_in(boards >> 3),
            bottom: self.rows[2].free_in(boards >> 6),
        }
    }

    // Whether the cells of the boards in nine bits are the same.
    pub fn same_in(self, boards: u32, rhs: LocalBoards) -> bool
        ensures { result ≡ same_cells self rhs boards }
    {
        self.rows[0].same_in(boards, rhs.rows[0])
            && self.rows[1].same_in(boards >> 3, rhs.rows[1])
            && self.rows[2].same_in(boards >> 6, rhs.rows[2])
    }

    // The keys of the played cells of a board.
    pub fn cells_hash(self, global: usize) -> u64
        ensures { result ≡ cells_hash global (cell_at self global) }
    {
        let mut hash: u64 = 0;
        for i in 0..9 {
            hash ^= keys::for_cell(global, i, self.at(global, i));
        }
        hash
    }

    // What a board adds to the hash.
    pub fn board_hash(self, global: usize, state: GameState) -> u64
        ensures { result ≡ board_hash global (cell_at self global) state }
    {
        if state.terminal() {
            return keys::for_board(global, state);
        }
        self.cells_hash(global)
    }

    // The hash after a move in a board, whose cell's key it has: once the board closes, its state's key for those of its cells.
    pub fn hash_after(self, hash: u64, global: usize, state: GameState) -> u64
        ensures { result ≡ closing hash global (cell_at self global) state }
    {
        if state.terminal() {
            return hash ^ self.cells_hash(global) ^ keys::for_board(global, state);
        }
        hash
    }
}
