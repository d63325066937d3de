// The rules of Ultimate Tic Tac Toe on packed boards: play, the list of moves and the hash.
// Ported from src/lib/game.rs of nelhage/ultimattt at commit 87ef0d9c7c (Apache-2.0, see NOTICE), changed: games go in and come back by
// value, a finished game lists no moves, and every value of the structs means a position.
#![tactic(auto)]

ghost use Rattle.std.specs.Prelude.{◌≡◌, not, ◌&&◌, ◌<◌, T, length, ltb};
ghost use Rattle.base.specs.Bits.{digits};
ghost use Rattle.rules.specs.Position.{unfinished, open_board, free_cell};
ghost use Rattle.rules.specs.Play.{may, play};
ghost use Rattle.rules.specs.Moves.{moves};
ghost use Rattle.rules.specs.Compare.{bound_depth, open_boards, equivalent};
ghost use Rattle.rules.specs.Hash.{with_turn};
ghost use Rattle.rules.specs.Refusal.{answer_number};
ghost use Rattle.boards.specs.Answers.{move_error_number, in_range, within};
ghost use Rattle.boards.specs.Cursor.{cursor_over};
ghost use Rattle.game.specs.Meaning.{position_of};
ghost use Rattle.game.specs.After.{after_move, games_after, refusal, Plays};
ghost use Rattle.game.specs.Built.{new_game, packed, recalculated};

use boards::{GlobalStates, LocalBoards, Move, MoveError, MoveIterator};
use rules::{CellState, GameState, Player};

#[derive(Clone, Copy)]
pub struct Game {
    pub next_player: Player,
    pub next_board: Option<u8>,
    pub local_boards: LocalBoards,
    pub global_states: GlobalStates,
    pub game_state: GameState,
    pub hash: u64,
}

impl Game {
    // The empty board: X to move, free choice.
    pub const NEW: Game = Game {
        next_player: Player::X,
        next_board: None,
        local_boards: LocalBoards::EMPTY,
        global_states: GlobalStates::EMPTY,
        game_state: GameState::InPlay,
        hash: 0,
    };

    pub fn new() -> Game
        ensures { result ≡ new_game }
    {
        Game::NEW
    }

    // A game from its parts, with its hash worked out. Document 01 leaves out the Rust's `Unpacked`, the struct of them.
    pub fn pack(
        next_player: Player,
        next_board: Option<u8>,
        local_boards: LocalBoards,
        global_states: GlobalStates,
        game_state: GameState,
    ) -> Game
        ensures { result ≡ packed next_player next_board local_boards global_states game_state }
    {
        let mut hash: u64 = 0;
        for board in 0..9 {
            hash ^= local_boards.board_hash(board, global_states.at(board));
        }
        Game {
            next_player,
            next_board,
            local_boards,
            global_states,
            game_state,
            hash,
        }
    }

    // What is asked of a move, in the order of refusals 9 to 13.
    fn check_move(self, m: Move) -> Result<(), MoveError>
        ensures { answer_number move_error_number result ≡ refusal (play (position_of self) m.bits) }
    {
        let global = m.global();
        let local = m.local();
        if global > 8 || local > 8 {
            return Err(MoveError::OutOfBounds);
        }
        if self.game_state.terminal() {
            return Err(MoveError::GameOver);
        }
        if !self.global_states.in_play(global) {
            return Err(MoveError::WonBoard);
        }
        if !rules::allows(self.next_board, global) {
            return Err(MoveError::WrongBoard);
        }
        match self.local_boards.at(global, local) {
            CellState::Empty => Ok(()),
            CellState::Played(_) => Err(MoveError::NotEmpty),
        }
    }

    pub fn make_move(self, m: Move) -> Result<Game, MoveError>
        ensures { Plays self m result }
    {
        self.check_move(m)?;
        Ok(self.play(m.global(), m.local()))
    }

    // The game after a list of moves, tried one after the other: a refused one changes nothing.
    pub fn play_all(self, moves: &[u8]) -> Game
        ensures { result ≡ games_after self moves.now }
    {
        moves.iter().fold(self, |game, &m| {
            game.make_move(Move { bits: m }).unwrap_or(game)
        })
    }

    // The game after a move that is accepted.
    fn play(self, global: usize, local: usize) -> Game
        requires { (global < 9) × (local < 9) × T (open_board (position_of self) global) ×
            T (free_cell (position_of self) global local) }
        ensures { result ≡ after_move self global local }
    {
        let who = self.next_player;
        let local_boards = self.local_boards.set(global, local, who);
        let state = local_boards.check_winner(global, who);
        let global_states = self.global_states.set(global, state);
        let played = self.hash ^ keys::for_square(9 * global + local, who);
        let hash = local_boards.hash_after(played, global, state);
        let game_state = global_states.check_winner(who);
        let next_board = global_states.in_play(local).then_some(local as u8);
        Game {
            next_player: who.other(),
            next_board,
            local_boards,
            global_states,
            game_state,
            hash,
        }
    }

    // The same game, its state worked out from the boards that the side not to move has won, as after its move.
    #[tactic(auto, unfolding(crate::specs::Built::recalculated))]
    pub fn recalc_winner(self) -> Game
        ensures { result ≡ recalculated self }
    {
        Game {
            game_state: self.global_states.check_winner(self.next_player.other()),
            ..self
        }
    }

    // The boards in which a move may be played: none of a finished game.
    fn playable(self) -> u32
        ensures { result ≡ digits (λ b. unfinished (position_of self) &&
            (open_board (position_of self) b && may (position_of self).next_board b)) 9 }
    {
        if self.game_over() {
            return 0;
        }
        let open = self.global_states.openbits();
        match self.next_board {
            None => open,
            Some(due) if due < 9 => open & (1u32 << due),
            Some(_) => 0,
        }
    }

    // The cursor over the moves that play accepts, boards rising, cells rising.
    #[tactic(auto, using(crate::proofs::MeaningMoves::moves_cursor))]
    pub fn all_moves(self) -> MoveIterator
        ensures { result ≡ cursor_over (moves (position_of self)) }
    {
        self.local_boards.free_in(self.playable())
    }

    // How many moves play accepts.
    #[tactic(auto, using(crate::proofs::MeaningMoves::all_moves_listed))]
    pub fn legal_moves(self) -> usize
        ensures { result ≡ length (moves (position_of self)) }
    {
        self.all_moves().count()
    }

    pub fn game_state(self) -> GameState
        ensures { result ≡ self.game_state }
    {
        self.game_state
    }

    pub fn game_over(self) -> bool
        ensures { result ≡ not (unfinished (position_of self)) }
    {
        self.game_state.terminal()
    }

    pub fn player(self) -> Player
        ensures { result ≡ self.next_player }
    {
        self.next_player
    }

    pub fn board_to_play(self) -> Option<u8>
        ensures { result ≡ self.next_board }
    {
        self.next_board
    }

    #[tactic(auto, using(boards::proofs::Answers::in_both, boards::proofs::Answers::past_either))]
    pub fn at(self, board: usize, cell: usize) -> Result<CellState, MoveError>
        ensures { result ≡ within (in_range board cell) ((position_of self).cells board cell) }
    {
        if board > 8 || cell > 8 {
            return Err(MoveError::OutOfBounds);
        }
        Ok(self.local_boards.at(board, cell))
    }

    #[tactic(auto, using(boards::proofs::Answers::in_one, boards::proofs::Answers::past_one))]
    pub fn board_state(self, board: usize) -> Result<GameState, MoveError>
        ensures { result ≡ within (ltb board 9) ((position_of self).states board) }
    {
        if board > 8 {
            return Err(MoveError::OutOfBounds);
        }
        Ok(self.global_states.at(board))
    }

    #[tactic(auto, unfolding(rules::specs::Hash::with_turn, rules::specs::Hash::next_board_key))]
    pub fn zobrist(self) -> u64
        ensures { result ≡ with_turn (position_of self) self.hash }
    {
        let due = self.next_board.map_or(0, |b| keys::for_next(b as usize));
        self.hash ^ (due ^ keys::for_player(self.next_player))
    }

    // The empty cells in open boards.
    #[tactic(auto, using(crate::proofs::MeaningCounts::depth_counted))]
    pub fn bound_depth(self) -> usize
        ensures { result ≡ bound_depth (position_of self) }
    {
        self.local_boards
            .free_in(self.global_states.openbits())
            .count()
    }

    #[tactic(auto, using(crate::proofs::MeaningCounts::open_count, crate::proofs::MeaningCounts::few_open))]
    pub fn open_boards(self) -> u8
        ensures { result ≡ open_boards (position_of self) }
    {
        self.global_states.openbits().count_ones() as u8
    }

    // As the Rust has it: the states of the two games' boards are not compared.
    pub fn equivalent(self, rhs: Game) -> bool
        ensures { result ≡ equivalent (position_of self) (position_of rhs) }
    {
        (self.next_player, self.next_board, self.game_state)
            == (rhs.next_player, rhs.next_board, rhs.game_state)
            && self
                .local_boards
                .same_in(self.global_states.openbits(), rhs.local_boards)
    }
}
