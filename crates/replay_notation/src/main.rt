// Replays the Rust's answers on texts and on `Status`, and prints how many agree and each record that does not.
// The records are made by tools/lists.py, which says what the numbers of a record are.
#![tactic(auto)]

ghost use Rattle.std.specs.Prelude.{◌≡◌, ◌∷◌, ◌<◌, Some, ltb, length, get_or};
ghost use Rattle.text.specs.Reading.{read};
ghost use Rattle.notation.specs.Parsed.{move_reading_of};
ghost use Rattle.replay.specs.Agreement.{left_of, compared_all, same_numbers};
ghost use Rattle.replay_notation.specs.Records.{byte_in, count_in, bytes_from_2, game_numbers, reading_record, named_byte};
ghost use Rattle.replay_notation.specs.Records.{move_record, set_number, byte_record, merge_record, play_record, won_record};
ghost use Rattle.replay_notation.specs.Records.{reads_back, expected_record, apart, is_apart, comparison_of, outcome_of};

use boards::Move;
use game::Game;
use notation::{ErrorKind, ParseMoveError};
use replay::{Agreement, Comparison, Replayer};
use rules::{Player, Refusal};
use status::Status;
use std::array;

// The most numbers of a record.
const MOST: usize = 1024;

// ---- the question

// The lowest byte of the number at a place, 0 past the end.
fn byte_in(words: &[u64], i: usize) -> u8
    ensures { result ≡ byte_in words.now i }
{
    (decimals::at(words, i) % 256) as u8
}

// How many bytes of text, or moves, a record has.
fn count_in(words: &[u64]) -> usize
    ensures { (result ≡ count_in words.now) × (result < 512) }
{
    (decimals::at(words, 1) % 512) as usize
}

// The bytes from place 2 on: 512 of them, as there is no heap. `count_in` says how many are the text's.
fn bytes_from_2(words: &[u64]) -> [u8; 512]
    ensures { result ≡ bytes_from_2 words.now }
{
    array::from_fn(|k| byte_in(words, k + 2))
}

// ---- the answers, compared

// The kind, and the bytes with their number.
fn question<'a>(words: &'a [u64], kind: u64, bytes: &[u8]) -> Agreement<'a>
    ensures { left_of result ≡ compared_all (Some words.now)
        (kind ∷ length bytes.now ∷ bytes.now) }
{
    Agreement::new(words)
        .number(kind)
        .number(bytes.len() as u64)
        .bytes(bytes)
}

// A game's text, hash, key, state and bound.
fn add_game(begun: Agreement<'_>, g: Game) -> Agreement<'_>
    ensures { left_of result ≡ compared_all (left_of begun.entry) (game_numbers g) }
{
    let text = notation::render(g);
    begun
        .bytes(&text)
        .number(g.hash)
        .number(g.zobrist())
        .number(u64::from(g.game_state()))
        .number(g.bound_depth() as u64)
}

fn same_reading(words: &[u64], text: &[u8]) -> bool
    ensures { result ≡ same_numbers words.now (reading_record text.now (read text.now)) }
{
    match notation::parse(text) {
        Err(e) => question(words, 4, text)
            .number(e.number())
            .number(e.offset as u64)
            .number(e.length as u64)
            .is_whole(),
        Ok(game) => add_game(question(words, 5, text), game).is_whole(),
    }
}

// The byte that a refusal names, 0 where it names none.
fn named_byte(read: Result<Move, ParseMoveError>) -> u8
    ensures { result ≡ named_byte (move_reading_of read) }
{
    match read {
        Err(ParseMoveError::BadCharacter(c)) => c,
        _ => 0,
    }
}

fn same_move(words: &[u64], text: &[u8]) -> bool
    ensures { result ≡ same_numbers words.now (move_record text.now) }
{
    let read = notation::parse_move(text);
    let m = read.unwrap_or(Move::NONE);
    question(words, 6, text)
        .number(rules::number(read))
        .number(u64::from(named_byte(read)))
        .number(u64::from(m.bits))
        .is_whole()
}

// The byte of a set, 0 for none.
fn set_byte(set: Option<Status>) -> u8
    ensures { result ≡ set_number set }
{
    set.map_or(0, |s| s.as_byte())
}

fn same_byte(words: &[u64], byte: u8) -> bool
    ensures { result ≡ same_numbers words.now (byte_record byte) }
{
    let set = set_byte(Status::from_byte(byte));
    Agreement::new(words)
        .number(7)
        .number(u64::from(byte))
        .number(u64::from(set))
        .is_whole()
}

fn same_merge(words: &[u64], a: u8, b: u8) -> bool
    ensures { result ≡ same_numbers words.now (merge_record a b) }
{
    let s = Status { bits: a };
    let t = Status { bits: b };
    let set = set_byte(s.merge(t));
    Agreement::new(words)
        .number(8)
        .number(u64::from(a))
        .number(u64::from(b))
        .number(u64::from(set))
        .is_whole()
}

fn same_won(words: &[u64], byte: u8) -> bool
    ensures { result ≡ same_numbers words.now (won_record byte) }
{
    let s = Status { bits: byte };
    let draw = Status::draw();
    Agreement::new(words)
        .number(12)
        .number(u64::from(byte))
        .number(u64::from(s.is_won(Player::X)))
        .number(u64::from(s.is_won(Player::O)))
        .number(u64::from(draw.as_byte()))
        .is_whole()
}

// Whether a game's text is read as a game with the same hash that is equivalent to it.
fn reads_back(g: Game) -> bool
    ensures { result ≡ reads_back g }
{
    let text = notation::render(g);
    let h = notation::parse(&text).unwrap_or(Game::new());
    h.hash == g.hash && h.equivalent(g)
}

// The text of a game that is played from the empty board; it reads back.
fn same_play(words: &[u64], moves: &[u8]) -> bool
    ensures { result ≡ same_numbers words.now (play_record moves.now) }
{
    let g = Game::new().play_all(moves);
    let text = notation::render(g);
    reads_back(g) && question(words, 9, moves).bytes(&text).is_whole()
}

// ---- a record, a line, all lines

// Whether a record agrees, by its kind.
// Each arm asks another question and its record begins with the number: an enum by TryFrom would list the numbers once more beside both.
fn agrees(words: &[u64]) -> bool
    ensures { result ≡ same_numbers words.now (expected_record words.now) }
{
    let n = count_in(words);
    let bytes = bytes_from_2(words);
    match decimals::at(words, 0) {
        6 => same_move(words, &bytes[..n]),
        7 => same_byte(words, byte_in(words, 1)),
        8 => same_merge(words, byte_in(words, 1), byte_in(words, 2)),
        9 => same_play(words, &bytes[..n]),
        12 => same_won(words, byte_in(words, 1)),
        _ => same_reading(words, &bytes[..n]),
    }
}

// Whether a byte of a text is not ASCII.
fn is_wide(text: &[u8], i: usize) -> bool
    ensures { result ≡ ltb 127 (get_or text.now i 0) }
{
    text.get(i).is_some_and(|b| *b > 127)
}

// Whether document 01's answer for a text is not the Rust's.
fn is_text_apart(text: &[u8]) -> bool
    ensures { result ≡ apart text.now (read text.now) }
{
    let Err(e) = notation::parse(text) else {
        return false;
    };
    match e.why {
        ErrorKind::TooLong => true,
        ErrorKind::BadBoard => is_wide(text, e.offset),
        _ => false,
    }
}

fn is_apart(words: &[u64]) -> bool
    ensures { result ≡ is_apart words.now }
{
    if decimals::at(words, 0) != 4 {
        return false;
    }
    let n = count_in(words);
    let bytes = bytes_from_2(words);
    is_text_apart(&bytes[..n])
}

// What is found of a record.
fn comparison(words: &[u64]) -> Comparison
    ensures { result ≡ comparison_of words.now }
{
    Comparison::of(agrees(words), is_apart(words))
}

// The records of the list.
#[derive(Drop)]
struct Texts;

impl Replayer for Texts {
    ghost outcome_of = { outcome_of };

    // A line that is no list of numbers differs.
    fn outcome(&mut self, line: &[u8]) -> Comparison
        ensures { result ≡ outcome_of line.now }
    {
        let mut words = [0u64; MOST];
        let Some(n) = decimals::numbers(line, &mut words) else {
            return Comparison::Differs;
        };
        comparison(&words[..n])
    }
}

fn main(rt: HostRuntime) {
    replay::run_with(
        &mut Texts,
        rt.stdin(),
        b"with document 01's answer for the Rust's",
    );
}
