// A position as twelve words, and moves tried from it.
ghost use Rattle.std.specs.Prelude.{◌≡◌, [], ◌∷◌, ◌≤◌, T, length};
ghost use Rattle.std.proofs.lemmas.List.Edits.{sets};
ghost use Rattle.game.specs.After.{games_after, answers_each};
ghost use Rattle.notation.specs.Parsed.{reading_of};
ghost use Rattle.interface.specs.Lent.{Puts};
ghost use Rattle.interface.specs.Position.{next_board_word, words_of, next_board_from, game_from};
ghost use Rattle.interface.specs.Position.{is_position};
ghost use Rattle.interface.specs.Calls.{read_place};

use crate::lent;
use boards::{GlobalStates, LocalBoards, Move, Row};
use game::Game;
use notation::ParseError;
use rules::{GameState, Player};

// The most that each word may be.
const MOST: [u64; 12] = [
    0xffff_ffff,
    0xffff_ffff,
    0xffff_ffff,
    0xffff_ffff,
    0xffff_ffff,
    0xffff_ffff,
    0xffff,
    0xffff,
    1,
    256,
    3,
    0xffff_ffff_ffff_ffff,
];

// The interface's word for no board due is 256, document 01's; the records of the tests have 255 there (tools/lists.py).
fn next_board_word(next: Option<u8>) -> u64
    ensures { result ≡ next_board_word next }
{
    next.map_or(256, u64::from)
}

fn words_of(game: Game) -> [u64; 12]
    ensures { result ≡ words_of game }
{
    let rows = game.local_boards.rows;
    let states = game.global_states;
    [
        u64::from(rows[0].x),
        u64::from(rows[0].o),
        u64::from(rows[1].x),
        u64::from(rows[1].o),
        u64::from(rows[2].x),
        u64::from(rows[2].o),
        u64::from(states.x),
        u64::from(states.o),
        game.next_player.as_bit() as u64,
        next_board_word(game.next_board),
        u64::from(game.game_state),
        game.hash,
    ]
}

// A position, into the first twelve words.
pub(crate) fn put(out: &mut [u64], game: Game)
    requires { 12 ≤ length out.old }
    ensures { Puts out.old (words_of game) 12 out.new }
{
    lent::put(out, 0, &words_of(game));
}

pub(crate) fn is_position(words: &[u64]) -> bool
    ensures { result ≡ is_position words.now }
{
    words.len() >= MOST.len() && words.iter().zip(&MOST).all(|(word, most)| word <= most)
}

fn next_board_from(w: u64) -> Option<u8>
    requires { w ≤ 256 }
    ensures { result ≡ next_board_from w }
{
    u8::try_from(w).ok()
}

fn row(x: u64, o: u64) -> Row
    requires { (x ≤ 0xffff_ffff) × (o ≤ 0xffff_ffff) }
    ensures { result ≡ record { x = x; o = o } }
{
    Row {
        x: x as u32,
        o: o as u32,
    }
}

// By index: the places of the words are the C interface's.
#[tactic(auto, using(crate::proofs::PositionWords::twelve, crate::proofs::PositionWords::word_most))]
pub(crate) fn game_from(words: &[u64]) -> Game
    requires { T (is_position words.now) }
    ensures { result ≡ game_from words.now }
{
    Game {
        next_player: Player::from_number(words[8]),
        next_board: next_board_from(words[9]),
        local_boards: LocalBoards {
            rows: [
                row(words[0], words[1]),
                row(words[2], words[3]),
                row(words[4], words[5]),
            ],
        },
        global_states: GlobalStates {
            x: words[6] as u16,
            o: words[7] as u16,
        },
        game_state: GameState::from_number(words[10]),
        hash: words[11],
    }
}

fn error_place(error: ParseError) -> [u64; 2]
    ensures { result ≡ error.offset ∷ error.length ∷ [] }
{
    [error.offset as u64, error.length as u64]
}

// Offset and length of the part that is refused.
pub(crate) fn place(parsed: Result<Game, ParseError>) -> [u64; 2]
    ensures { result ≡ read_place (reading_of parsed) }
{
    parsed.err().map_or([0, 0], error_place)
}

// The game after moves, and what each is answered.
pub(crate) fn play(game: Game, moves: &[u8], answers: &mut [u8]) -> Game
    requires { length moves.now ≤ length answers.old }
    ensures { (result ≡ games_after game moves.now)
        × (answers.new ≡ sets answers.old 0 (answers_each game moves.now)) }
{
    let mut game = game;
    // by index: of what a `zip` with `iter_mut` leaves, the library says nothing
    for (i, &bits) in moves.iter().enumerate() {
        let made = game.make_move(Move { bits });
        answers[i] = rules::number(made) as u8;
        game = made.unwrap_or(game);
    }
    game
}
