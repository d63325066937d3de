// The states of the nine boards as two 9-bit numbers.
// Ported from src/lib/game.rs of nelhage/ultimattt at commit 87ef0d9c7c (Apache-2.0, see NOTICE), changed: state goes in and comes back
// by value, bits beyond the boards count for nothing, and a board over 8 reads as open. The pairs for X and O, and `check_winner` here and
// of a board's cells, are the Rust's, for code that reads beside it.
ghost use Rattle.std.specs.Prelude.{◌≡◌, not};
ghost use Rattle.base.specs.Bits.{digits};
ghost use Rattle.rules.specs.Board.{in_play, won_by, drawn, result_of};
ghost use Rattle.boards.specs.Packed.{state_at};
ghost use Rattle.boards.specs.With.{with_state};

use lines::BOARD_MASK;
use rules::{GameState, Player};

// A bit for each board, the low bits first: won by X, won by O; drawn if both.
#[derive(Clone, Copy)]
pub struct GlobalStates {
    pub x: u16,
    pub o: u16,
}

impl GlobalStates {
    pub const EMPTY: GlobalStates = GlobalStates { x: 0, o: 0 };

    #[tactic(auto, using(crate::proofs::Packed::x_states))]
    pub fn xbits(self) -> u32
        ensures { result ≡ digits (λ b. won_by Player.X (state_at self b)) 9 }
    {
        (self.x as u32) & !(self.o as u32) & BOARD_MASK
    }

    #[tactic(auto, using(crate::proofs::Packed::o_states))]
    pub fn obits(self) -> u32
        ensures { result ≡ digits (λ b. won_by Player.O (state_at self b)) 9 }
    {
        (self.o as u32) & !(self.x as u32) & BOARD_MASK
    }

    #[tactic(auto, using(crate::proofs::Packed::drawn_states))]
    pub fn drawbits(self) -> u32
        ensures { result ≡ digits (λ b. drawn (state_at self b)) 9 }
    {
        (self.x as u32) & (self.o as u32) & BOARD_MASK
    }

    #[tactic(auto, using(crate::proofs::Packed::done_states))]
    pub fn donebits(self) -> u32
        ensures { result ≡ digits (λ b. not (in_play (state_at self b))) 9 }
    {
        ((self.x as u32) | (self.o as u32)) & BOARD_MASK
    }

    // The boards in play.
    pub fn openbits(self) -> u32
        ensures { result ≡ digits (λ b. in_play (state_at self b)) 9 }
    {
        BOARD_MASK - self.donebits()
    }

    pub fn playerbits(self, player: Player) -> u32
        ensures { result ≡ digits (λ b. won_by player (state_at self b)) 9 }
    {
        match player {
            Player::X => self.xbits(),
            Player::O => self.obits(),
        }
    }

    pub fn in_play(self, board: usize) -> bool
        ensures { result ≡ in_play (state_at self board) }
    {
        board > 8 || (self.donebits() >> board) & 1 == 0
    }

    pub fn check_winner(self, player: Player) -> GameState
        ensures { result ≡ result_of player (λ b. won_by player (state_at self b)) (λ b. in_play (state_at self b)) }
    {
        if lines::has_line(self.playerbits(player)) {
            return GameState::Won(player);
        }
        if self.donebits() == BOARD_MASK {
            GameState::Drawn
        } else {
            GameState::InPlay
        }
    }

    pub fn at(self, board: usize) -> GameState
        ensures { result ≡ state_at self board }
    {
        if board > 8 {
            return GameState::InPlay;
        }
        let x = (self.x >> board) & 1 == 1;
        let o = (self.o >> board) & 1 == 1;
        match (x, o) {
            (true, true) => GameState::Drawn,
            (true, false) => GameState::Won(Player::X),
            (false, true) => GameState::Won(Player::O),
            (false, false) => GameState::InPlay,
        }
    }

    pub fn set(self, board: usize, state: GameState) -> GlobalStates
        ensures { result ≡ with_state self board state }
    {
        if board > 8 {
            return self;
        }
        let bit = 1u16 << board;
        match state {
            GameState::InPlay => self,
            GameState::Drawn => GlobalStates {
                x: self.x | bit,
                o: self.o | bit,
            },
            GameState::Won(Player::X) => GlobalStates {
                x: self.x | bit,
                ..self
            },
            GameState::Won(Player::O) => GlobalStates {
                o: self.o | bit,
                ..self
            },
        }
    }
}
