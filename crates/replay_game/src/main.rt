// Replays the Rust's answers on play, hash, list of moves, `equivalent`, cells, states and coordinates, and prints how many records agree
// and each that does not. A record is taken for the question that its numbers hold, and compared with the record of that question.
// The records are made by tools/lists.py, which says what the numbers of a record are.
#![tactic(auto)]

ghost use Rattle.std.specs.Prelude.{◌≡◌, [], ◌∷◌, not, ◌+◌, ◌%◌, ◌<◌, get_or};
ghost use Rattle.rules.specs.Hash.{hash};
ghost use Rattle.rules.specs.Position.{unfinished};
ghost use Rattle.boards.specs.Cursor.{moves_left};
ghost use Rattle.game.specs.Meaning.{position_of};
ghost use Rattle.game.specs.After.{games_after};
ghost use Rattle.game.specs.Built.{new_game};
ghost use Rattle.replay.specs.Agreement.{left_of, compared_all, wholly_agrees};
ghost use Rattle.replay.specs.Totals.{comparison};
ghost use Rattle.replay_game.specs.Records.{next_of, row_in, game_in, moves_from, moves_in};
ghost use Rattle.replay_game.specs.Records.{next_number, boards_numbers, position_numbers, reached_numbers, moves_numbers};
ghost use Rattle.replay_game.specs.Records.{play_numbers, cell_number, cells_numbers, states_numbers, looked_numbers};
ghost use Rattle.replay_game.specs.Records.{equivalence_record, coordinates_record, of_play, of_record, comparison_of};
ghost use Rattle.replay_game.specs.Records.{outcome_of, Runs};

use boards::{GlobalStates, LocalBoards, Move, MoveIterator, Row};
use game::Game;
use replay::{Agreement, Comparison, Replayer};
use rules::{CellState, GameState, Player};

// The most numbers of a record.
const MOST: usize = 1024;

// 255 is the lists' number for no board due (tools/lists.py); the C interface's is 256.
fn next_of(n: u64) -> Option<u8>
    ensures { result ≡ next_of n }
{
    (n != 255).then_some((n % 256) as u8)
}

fn row_in(words: &[u64], i: usize) -> Row
    requires { i < 1000 }
    ensures { result ≡ row_in words.now i }
{
    Row {
        x: (decimals::at(words, i) % 4294967296) as u32,
        o: (decimals::at(words, i + 1) % 4294967296) as u32,
    }
}

// The game of the eleven numbers of a position: the lists', which are not the C interface's twelve words.
#[tactic(auto, unfolding(crate::specs::Records::game_in))]
fn game_in(words: &[u64], i: usize) -> Game
    requires { i < 100 }
    ensures { result ≡ game_in words.now i }
{
    let rows = [
        row_in(words, i + 2),
        row_in(words, i + 4),
        row_in(words, i + 6),
    ];
    let states = GlobalStates {
        x: (decimals::at(words, i + 8) % 65536) as u16,
        o: (decimals::at(words, i + 9) % 65536) as u16,
    };
    Game::pack(
        Player::from_number(decimals::at(words, i)),
        next_of(decimals::at(words, i + 1)),
        LocalBoards { rows },
        states,
        GameState::from_number(decimals::at(words, i + 10)),
    )
}

fn next_number(n: Option<u8>) -> u64
    ensures { result ≡ next_number n }
{
    n.map_or(255, u64::from)
}

// No `From`: the numbers are this list's alone, and an impl would have them here and in its ghost fact.
fn cell_number(cell: CellState) -> u64
    ensures { result ≡ cell_number cell }
{
    match cell {
        CellState::Empty => 0,
        CellState::Played(Player::X) => 1,
        CellState::Played(Player::O) => 2,
    }
}

fn boards_numbers(boards: LocalBoards) -> [u64; 6]
    ensures { result ≡ boards_numbers boards }
{
    let [top, middle, bottom] = boards.rows;
    [
        top.x as u64,
        top.o as u64,
        middle.x as u64,
        middle.o as u64,
        bottom.x as u64,
        bottom.o as u64,
    ]
}

// The numbers of a position.
#[tactic(auto, unfolding(crate::specs::Records::position_numbers))]
fn position(begun: Agreement<'_>, g: Game) -> Agreement<'_>
    ensures { left_of result ≡ compared_all (left_of begun.entry) (position_numbers g) }
{
    let states = g.global_states;
    let turn = [g.next_player.as_bit() as u64, next_number(g.next_board)];
    let boards = boards_numbers(g.local_boards);
    let overall = [states.x as u64, states.o as u64, u64::from(g.game_state)];
    begun.numbers(&turn).numbers(&boards).numbers(&overall)
}

// The moves that a record asks, by their places and not as a slice: past the record's end they count as 0.
fn asked<'a>(begun: Agreement<'a>, words: &[u64], from: usize, count: usize) -> Agreement<'a>
    requires { from + count < 1000 }
    ensures { left_of result ≡ compared_all (left_of begun.entry) (moves_from words.now from count) }
{
    let mut compared = begun;
    for at in from..from + count {
        compared = compared.number(decimals::at(words, at) % 256);
    }
    compared
}

// A game after some moves, with their answers compared.
#[derive(Clone, Copy)]
struct Run<'a> {
    game: Game,
    compared: Agreement<'a>,
}

// A move tried, and its answer.
#[tactic(auto, unfolding(game::specs::After::answers_each, game::specs::After::games_after), using(game::proofs::AfterList::left_or))]
fn tried(run: Run<'_>, n: u64) -> Run<'_>
    ensures { Runs (left_of run.entry.compared) run.entry.game (n % 256 ∷ []) result }
{
    let made = run.game.make_move(Move {
        bits: (n % 256) as u8,
    });
    Run {
        game: made.unwrap_or(run.game),
        compared: run.compared.number(rules::number(made)),
    }
}

// The same moves tried, by their places too.
fn run_moves<'a>(
    begun: Agreement<'a>,
    words: &[u64],
    from: usize,
    count: usize,
    start: Game,
) -> Run<'a>
    requires { from + count < 1000 }
    ensures { Runs (left_of begun.entry) start (moves_from words.now from count) result }
{
    let mut run = Run {
        game: start,
        compared: begun,
    };
    for at in from..from + count {
        run = tried(run, decimals::at(words, at));
    }
    run
}

#[tactic(auto, unfolding(game::specs::Built::packed))]
fn fresh_hash(g: Game) -> u64
    ensures { result ≡ hash (position_of g) }
{
    let packed = Game::pack(
        g.next_player,
        g.next_board,
        g.local_boards,
        g.global_states,
        g.game_state,
    );
    packed.hash
}

// The numbers of the game after a play.
#[tactic(auto, unfolding(crate::specs::Records::reached_numbers))]
fn reached(begun: Agreement<'_>, g: Game) -> Agreement<'_>
    ensures { left_of result ≡ compared_all (left_of begun.entry) (reached_numbers g) }
{
    let boards = boards_numbers(g.local_boards);
    let hashes = [g.hash, fresh_hash(g), g.zobrist()];
    let turn = [
        u64::from(g.game_state()),
        g.player().as_bit() as u64,
        next_number(g.board_to_play()),
    ];
    let counts = [
        g.bound_depth() as u64,
        g.open_boards() as u64,
        u64::from(g.game_over()),
    ];
    begun
        .numbers(&boards)
        .numbers(&hashes)
        .numbers(&turn)
        .numbers(&counts)
}

// The moves that a cursor has left.
fn listed(begun: Agreement<'_>, list: MoveIterator) -> Agreement<'_>
    ensures { left_of result ≡ compared_all (left_of begun.entry) (moves_left list) }
{
    let mut compared = begun;
    for m in list {
        compared = compared.number(u64::from(m.bits));
    }
    compared
}

#[tactic(auto, unfolding(crate::specs::Records::moves_numbers), using(game::proofs::MeaningMoves::all_moves_listed))]
fn moves(begun: Agreement<'_>, g: Game) -> Agreement<'_>
    ensures { left_of result ≡ compared_all (left_of begun.entry) (moves_numbers (position_of g)) }
{
    let counted = begun.number(g.legal_moves() as u64);
    listed(counted, g.all_moves())
}

// Moves tried from a game: the numbers at `i` are k, the moves, their answers, and those of the game at the end.
fn play(begun: Agreement<'_>, words: &[u64], i: usize, start: Game) -> Comparison
    requires { i < 100 }
    ensures { result ≡ comparison
        (wholly_agrees (compared_all (left_of begun.entry) (play_numbers start (moves_in words.now i))))
        (not (unfinished (position_of (games_after start (moves_in words.now i))))) }
{
    let count = (decimals::at(words, i) % 512) as usize;
    let counted = begun.number(count as u64);
    let asked = asked(counted, words, i + 1, count);
    let run = run_moves(asked, words, i + 1, count, start);
    let end = run.game;
    let all = moves(reached(run.compared, end), end);
    Comparison::of(all.is_whole(), end.game_over())
}

// Kind 1: a play from the empty board.
fn play_from_start(words: &[u64]) -> Comparison
    ensures { result ≡ of_play words.now (1 ∷ []) new_game 1 }
{
    play(Agreement::new(words).number(1), words, 1, Game::new())
}

// Kind 2: a play from a position.
fn play_from_position(words: &[u64]) -> Comparison
    ensures { result ≡ of_play words.now (2 ∷ position_numbers (game_in words.now 1))
        (game_in words.now 1) 12 }
{
    let start = game_in(words, 1);
    let kind = Agreement::new(words).number(2);
    play(position(kind, start), words, 12, start)
}

// Kind 3: whether each of two positions is equivalent to the other.
fn equivalence(words: &[u64]) -> Comparison
    ensures { result ≡ of_record words.now
        (equivalence_record (game_in words.now 1) (game_in words.now 12)) }
{
    let a = game_in(words, 1);
    let b = game_in(words, 12);
    let kind = Agreement::new(words).number(3);
    let positions = position(position(kind, a), b);
    let both = [u64::from(a.equivalent(b)), u64::from(b.equivalent(a))];
    let all = positions.numbers(&both);
    Comparison::of(all.is_whole(), false)
}

// Each cell of each board, by one number: the records have the 81 cells in order.
fn cells(begun: Agreement<'_>, g: Game) -> Agreement<'_>
    ensures { left_of result ≡ compared_all (left_of begun.entry) (cells_numbers (position_of g)) }
{
    let mut compared = begun;
    for k in 0..81 {
        let cell = g.at(k / 9, k % 9).unwrap_or(CellState::Empty);
        compared = compared.number(cell_number(cell));
    }
    compared
}

// The state of each board, by its number.
fn states(begun: Agreement<'_>, g: Game) -> Agreement<'_>
    ensures { left_of result ≡ compared_all (left_of begun.entry) (states_numbers (position_of g)) }
{
    let mut compared = begun;
    for b in 0..9 {
        let state = g.board_state(b).unwrap_or(GameState::InPlay);
        compared = compared.number(u64::from(state));
    }
    compared
}

// Kind 10: a position looked at.
fn look(words: &[u64]) -> Comparison
    ensures { result ≡ of_record words.now (10 ∷ looked_numbers (game_in words.now 1)) }
{
    let g = game_in(words, 1);
    let kind = Agreement::new(words).number(10);
    let looked = states(cells(position(kind, g), g), g);
    let all = looked.number(g.global_states.drawbits() as u64);
    Comparison::of(all.is_whole(), false)
}

// Kind 11: the move of a board and a cell.
fn coordinates(words: &[u64]) -> Comparison
    ensures { result ≡ of_record words.now
        (coordinates_record (get_or words.now 1 0 % 9) (get_or words.now 2 0 % 9)) }
{
    let board = decimals::at(words, 1) % 9;
    let cell = decimals::at(words, 2) % 9;
    let m = Move::from_coords(board as usize, cell as usize).unwrap_or(Move::NONE);
    let all = Agreement::new(words).numbers(&[11, board, cell, m.bits() as u64]);
    Comparison::of(all.is_whole(), false)
}

// What is found of a record, by its kind.
// Each arm asks another question and its record begins with the number: an enum by TryFrom would list the numbers once more beside both.
fn comparison(words: &[u64]) -> Comparison
    ensures { result ≡ comparison_of words.now }
{
    match decimals::at(words, 0) {
        1 => play_from_start(words),
        2 => play_from_position(words),
        3 => equivalence(words),
        10 => look(words),
        11 => coordinates(words),
        _ => Comparison::Differs,
    }
}

// The records of the list.
#[derive(Drop)]
struct Games;

impl Replayer for Games {
    ghost outcome_of = { outcome_of };

    // A line that is no list of numbers differs.
    #[tactic(auto, using(decimals::proofs::ListsHeld::none_read, decimals::proofs::ListsHeld::some_read))]
    fn outcome(&mut self, line: &[u8]) -> Comparison
        ensures { result ≡ outcome_of line.now }
    {
        let mut words = [0u64; MOST];
        match decimals::numbers(line, &mut words) {
            Some(n) => comparison(&words[..n]),
            None => Comparison::Differs,
        }
    }
}

fn main(rt: HostRuntime) {
    replay::run_with(
        &mut Games,
        rt.stdin(),
        b"with document 01's list of moves for the Rust's",
    );
}
