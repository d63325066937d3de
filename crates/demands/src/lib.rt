// The mission's demands, and functions of which they and the claims on every search and every evaluation are the promises.
#![tactic(auto)]

ghost use Rattle.std.specs.Prelude.{◌≡◌};
ghost use Rattle.rules.specs.Play.{no_move};
ghost use Rattle.theory.specs.Reported.{filled};
ghost use Rattle.boards.specs.Cursor.{moves_left};
ghost use Rattle.minimax.specs.Report.{bytes_of};
ghost use Rattle.demands.specs.Demand1.{Demand1, EachCall};
ghost use Rattle.demands.specs.Demand2.{Demand2, ReadAgain};
ghost use Rattle.demands.specs.Demand3.{Demand3};
ghost use Rattle.demands.specs.Searches.{SearchClaims};
ghost use Rattle.demands.specs.Evaluations.{other_to_move, EvaluationClaims};

use answer_text::AnswerText;
use boards::{Move, MoveError, MoveIterator, PLACES};
use endgame::{Analysis, MoveStatusError, Unsound};
use evaluation::BadWeight;
use game::Game;
use line_buffer::LineBuffer;
use minimax::{Config, Minimax, Report};
use notation::{ParseError, ParseMoveError};
use rules::{CellState, GameState, Player, Weights};
use status::Status;

// What each entry point that may refuse answers.
#[derive(Clone, Copy)]
pub struct EntryAnswers {
    pub read: Result<Game, ParseError>,
    pub read_move: Result<Move, ParseMoveError>,
    pub played: Result<Game, MoveError>,
    pub cell: Result<CellState, MoveError>,
    pub board_state: Result<GameState, MoveError>,
    pub built: Result<Move, MoveError>,
    pub evaluation: Result<i64, BadWeight>,
    pub analysis: Result<Analysis, Unsound>,
    pub move_status: Result<Status, MoveStatusError>,
    pub report: Report,
    pub line: AnswerText,
}

// What each function answers of a text and of a move, and of the game after a list of moves tried from where the text begins.
#[derive(Clone, Copy)]
pub struct GameAnswers {
    pub read: Result<Game, ParseError>,
    pub read_move: Result<Move, ParseMoveError>,
    pub move_text: [u8; 2],
    pub game: Game,
    pub player: Player,
    pub board_to_play: Option<u8>,
    pub game_state: GameState,
    pub game_over: bool,
    pub cell: Result<CellState, MoveError>,
    pub board_state: Result<GameState, MoveError>,
    pub text: [u8; 101],
    pub moves: [Move; PLACES],
    pub legal_moves: usize,
    pub played: Result<Game, MoveError>,
    pub key: u64,
    pub evaluation: Result<i64, BadWeight>,
    pub analysis: Result<Analysis, Unsound>,
    pub status: Status,
    pub move_status: Result<Status, MoveStatusError>,
    pub report: Report,
    pub bound_depth: usize,
    pub open_boards: u8,
    pub equivalent_first: bool,
    pub equivalent_second: bool,
}

// The evaluation of a game as it is, and with the other side to move.
#[derive(Clone, Copy)]
pub struct SidesEvaluations {
    pub own: Result<i64, BadWeight>,
    pub others: Result<i64, BadWeight>,
}

// What is said after a list of tried moves: the game, the endgame analysis and the search with the table off.
#[derive(Clone, Copy)]
pub struct AfterMoves {
    pub game: Game,
    pub analysis: Result<Analysis, Unsound>,
    pub report: Report,
}

// Every entry point, asked: a text is read as a position and as a move, a move is tried, a cell and a board are looked at, a move is built,
// the game is evaluated, the endgame analysis and a move's status are asked, the game is searched, and a line of the program is answered.
// Each argument is one that a call takes: a struct of them would be made for this function alone, as in those below.
pub fn entry_answers(
    text: &[u8],
    line: &[u8],
    game: Game,
    m: Move,
    board: usize,
    cell: usize,
    memory: Minimax,
    config: Config,
    words: &mut [u64],
) -> EntryAnswers
    ensures demand { Demand1 text.now line.now game m board cell memory config
        words.old words.new result }
    ensures calls { EachCall text.now line.now game m board cell memory config
        words.old words.new result }
{
    let mut held = LineBuffer::new();
    held.push_all(line);
    EntryAnswers {
        read: notation::parse(text),
        read_move: notation::parse_move(text),
        played: game.make_move(m),
        cell: game.at(board, cell),
        board_state: game.board_state(board),
        built: Move::from_coords(board, cell),
        evaluation: evaluation::evaluate(game, config.draw_winner, config.weights),
        analysis: Analysis::new(game),
        move_status: endgame::evaluate_move(game, m),
        report: memory.analyze(game, config, words),
        line: program_line::answer(&held),
    }
}

// The moves that a cursor gives, in their order, and empty places after them.
pub fn list_moves(cursor: MoveIterator) -> [Move; PLACES]
    ensures { bytes_of result ≡ filled no_move (moves_left cursor) }
{
    let mut list = [Move::NONE; PLACES];
    let mut left = cursor;
    for place in list.iter_mut() {
        if let Some(m) = left.next() {
            *place = m;
        }
    }
    list
}

// A text is read as a position and as a move, a move is written, and moves are played from the position read. Of the game reached, a cell
// and a board are looked at, one move more is tried and judged, and the rest asked; it is compared with another.
pub fn answers_after(
    text: &[u8],
    moves: &[u8],
    m: Move,
    board: usize,
    cell: usize,
    other: Game,
    memory: Minimax,
    config: Config,
    words: &mut [u64],
) -> GameAnswers
    ensures { Demand2 text.now moves.now m board cell other memory config
        words.old words.new result }
{
    let read = notation::parse(text);
    let begun = read.unwrap_or(Game::new());
    let game = begun.play_all(moves);
    let report = memory.analyze(game, config, words);
    let analysis = Analysis::new(game);
    GameAnswers {
        read,
        read_move: notation::parse_move(text),
        move_text: notation::render_move(m),
        game,
        player: game.player(),
        board_to_play: game.board_to_play(),
        game_state: game.game_state(),
        game_over: game.game_over(),
        cell: game.at(board, cell),
        board_state: game.board_state(board),
        text: notation::render(game),
        moves: list_moves(game.all_moves()),
        legal_moves: game.legal_moves(),
        played: game.make_move(m),
        key: game.zobrist(),
        evaluation: evaluation::evaluate(game, config.draw_winner, config.weights),
        analysis,
        status: Analysis::reported_status(analysis),
        move_status: endgame::evaluate_move(game, m),
        report,
        bound_depth: game.bound_depth(),
        open_boards: game.open_boards(),
        equivalent_first: game.equivalent(other),
        equivalent_second: other.equivalent(game),
    }
}

// A game played from the empty board, rendered and read again.
pub fn read_again(moves: &[u8]) -> Result<Game, ParseError>
    ensures { ReadAgain moves.now result }
{
    let game = Game::new().play_all(moves);
    let text = notation::render(game);
    notation::parse(&text)
}

// A search; its promise is every claim made of a report.
pub fn search(memory: Minimax, game: Game, config: Config, words: &mut [u64]) -> Report
    ensures { SearchClaims memory game config words.old result words.new }
{
    memory.analyze(game, config, words)
}

fn other_to_move(game: Game) -> Game
    ensures { result ≡ other_to_move game }
{
    Game {
        next_player: game.next_player.other(),
        ..game
    }
}

// The evaluation alone; its promise is every claim made of it.
pub fn evaluate_sides(game: Game, draw_winner: Option<Player>, weights: Weights) -> SidesEvaluations
    ensures { EvaluationClaims game draw_winner weights result }
{
    SidesEvaluations {
        own: evaluation::evaluate(game, draw_winner, weights),
        others: evaluation::evaluate(other_to_move(game), draw_winner, weights),
    }
}

// A list of moves played from the empty board, and the endgame analysis and the search, without a table, of the game reached.
pub fn search_after(moves: &[u8], memory: Minimax, config: Config) -> AfterMoves
    ensures { Demand3 moves.now memory config result }
{
    let game = Game::new().play_all(moves);
    let analysis = Analysis::new(game);
    let mut words = [0u64; 0];
    let report = memory.analyze(game, config, &mut words);
    AfterMoves {
        game,
        analysis,
        report,
    }
}
