// The numbers that are expected of a position and of the moves that the Rust lists there, compared with a record's (tools/lists.py).
ghost use Rattle.std.specs.Prelude.{◌≡◌};
ghost use Rattle.base.specs.Lists.{concat_map};
ghost use Rattle.rules.specs.Endgame.{analysis};
ghost use Rattle.boards.specs.Cursor.{moves_left};
ghost use Rattle.game.specs.Meaning.{position_of};
ghost use Rattle.endgame.specs.Means.{endgame_stats_of};
ghost use Rattle.replay.specs.Agreement.{left_of, compared_all, same_numbers};
ghost use Rattle.replay_endgame.specs.Records.{has_line_of_boards, reopened, listed_moves, expected_moves};
ghost use Rattle.replay_endgame.specs.Records.{stats_numbers, analysis_numbers, move_numbers, record_of, is_apart};

use boards::{Move, MoveError, MoveIterator};
use endgame::{Analysis, EndgameStats, Unsound};
use game::Game;
use lines::has_line;
use replay::Agreement;
use rules::{GameState, Refusal};
use status::Status;

// What is judged where no move is listed: the first cell of the first board.
const FIRST: Move = Move { bits: 0 };

// Whether the game is unfinished and a side has a line of boards: the Rust's analysis panics there, and lists nothing.
fn has_line_of_boards(game: Game) -> bool
    ensures { result ≡ has_line_of_boards (position_of game) }
{
    let states = game.global_states;
    !game.game_over() && (has_line(states.xbits()) || has_line(states.obits()))
}

// The game, finished or not, as if it went on.
fn reopened(game: Game) -> Game
    ensures { position_of result ≡ reopened (position_of game) }
{
    Game {
        game_state: GameState::InPlay,
        ..game
    }
}

// The cursor over the moves that the Rust lists.
fn listed(game: Game) -> MoveIterator
    ensures { moves_left result ≡ listed_moves (position_of game) }
{
    if has_line_of_boards(game) {
        return MoveIterator {
            top: 0,
            middle: 0,
            bottom: 0,
        };
    }
    reopened(game).all_moves()
}

fn with_stats(begun: Agreement<'_>, stats: EndgameStats) -> Agreement<'_>
    ensures { left_of result ≡ compared_all (left_of begun.entry) (stats_numbers (endgame_stats_of stats)) }
{
    begun
        .number(stats.attacker_critical as u64)
        .number(stats.defender_critical as u64)
        .number(stats.both_critical as u64)
        .number(stats.unwinnable as u64)
        .number(stats.prove_attacker as u64)
        .number(stats.prove_defender as u64)
}

fn with_analysis(begun: Agreement<'_>, game: Game) -> Agreement<'_>
    ensures { left_of result ≡ compared_all (left_of begun.entry) (analysis_numbers (analysis (position_of game))) }
{
    let analysis = Analysis::new(game);
    let status = Analysis::reported_status(analysis);
    let stats = analysis.map_or(EndgameStats::NONE, |found| found.stats);
    let so_far = begun
        .number(rules::number(analysis))
        .number(u64::from(status.as_byte()));
    with_stats(so_far, stats)
}

fn with_move(begun: Agreement<'_>, game: Game, m: Move) -> Agreement<'_>
    ensures { left_of result ≡ compared_all (left_of begun.entry) (move_numbers (position_of game) m.bits) }
{
    let judged = endgame::evaluate_move(game, m);
    let status = judged.unwrap_or(Status::unproven());
    begun
        .number(u64::from(m.bits))
        .number(rules::number(judged))
        .number(u64::from(status.as_byte()))
}

// Compared with the moves that a cursor has left.
fn with_left(begun: Agreement<'_>, game: Game, list: MoveIterator) -> Agreement<'_>
    ensures { left_of result ≡ compared_all (left_of begun.entry)
        (concat_map (move_numbers (position_of game)) (moves_left list)) }
{
    let mut so_far = begun;
    for m in list {
        so_far = with_move(so_far, game, m);
    }
    so_far
}

// Compared with the expected moves.
fn with_moves(begun: Agreement<'_>, game: Game) -> Agreement<'_>
    ensures { left_of result ≡ compared_all (left_of begun.entry)
        (concat_map (move_numbers (position_of game)) (expected_moves (position_of game))) }
{
    let list = listed(game);
    if list.count() == 0 {
        return with_move(begun, game, FIRST);
    }
    with_left(begun, game, list)
}

// Whether a record is the position's.
pub(crate) fn is_met(words: &[u64], game: Game) -> bool
    ensures { result ≡ same_numbers words.now (record_of (position_of game)) }
{
    let analysed = with_analysis(Agreement::new(words), game);
    with_moves(analysed, game).is_whole()
}

// Whether the position is refused as unsound, or the first listed move since the game is over.
pub(crate) fn is_apart(words: &[u64]) -> bool
    ensures { result ≡ is_apart words.now }
{
    decimals::at(words, 0) == Unsound.number()
        || decimals::at(words, 9) == MoveError::GameOver.number()
}
