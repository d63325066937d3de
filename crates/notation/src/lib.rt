// Positions and moves as text.
// Ported from src/lib/game/notation.rs of nelhage/ultimattt at commit 87ef0d9c7c (Apache-2.0, see NOTICE), changed: bytes for characters,
// at most 256 of them, refusals with number, offset and length, and the text written byte by byte into an array.
#![tactic(auto)]

ghost use Rattle.std.specs.Prelude.{◌≡◌, ◌<◌, length};
ghost use Rattle.std.proofs.Common.{rules};
ghost use Rattle.text.specs.Bytes.{letter};
ghost use Rattle.text.specs.Reading.{overall_mark, cell_mark, lone_side, read_side};
ghost use Rattle.text.specs.Writing.{state_byte, cell_byte, text_of, byte_at};
ghost use Rattle.text.specs.MoveText.{move_text};
ghost use Rattle.game.specs.Meaning.{position_of};
ghost use Rattle.notation.specs.Parsed.{kind_number, parse_number, move_number, Parses, ParsesMove};
ghost use Rattle.notation.specs.Parts.{error_at, AnswersReading, ReadsOverall, with_cell_state, ReadsCell, ReadsCells, coordinate_of};

use boards::{GlobalStates, LocalBoards, Move};
use game::Game;
use rules::{CellState, GameState, Player, Refusal};
use std::array;

// The longest text that is read.
pub const LONGEST: usize = 256;

#[derive(Clone, Copy, PartialEq, Eq)]
pub enum ErrorKind {
    TooLong,
    MissingSection,
    BadPlayer,
    TooFewSquares,
    BadBoard,
    TooShort,
}

impl Refusal for ErrorKind {
    ghost number_of = { kind_number };

    ghost never_0 = { Prim.search rules };

    fn number(self) -> u64
        ensures { result ≡ kind_number self }
    {
        match self {
            ErrorKind::TooLong => 1,
            ErrorKind::MissingSection => 2,
            ErrorKind::BadPlayer => 3,
            ErrorKind::TooFewSquares => 4,
            ErrorKind::BadBoard => 5,
            ErrorKind::TooShort => 6,
        }
    }
}

impl ErrorKind {
    fn at(self, offset: usize, length: usize) -> ParseError
        ensures { result ≡ error_at self offset length }
    {
        ParseError {
            why: self,
            offset,
            length,
        }
    }
}

// Why a text is refused, and the part of it that is at fault.
#[derive(Clone, Copy, PartialEq, Eq)]
pub struct ParseError {
    pub why: ErrorKind,
    pub offset: usize,
    pub length: usize,
}

impl Refusal for ParseError {
    ghost number_of = { parse_number };

    ghost never_0 = { Prim.search rules };

    fn number(self) -> u64
        ensures { result ≡ parse_number self }
    {
        self.why.number()
    }
}

// The position that a text says, or the first fault of the text.
pub fn parse(text: &[u8]) -> Result<Game, ParseError>
    ensures { Parses text.now result }
{
    if text.len() > LONGEST {
        return Err(ErrorKind::TooLong.at(0, 0));
    }
    let mut bits = text.split(|byte| *byte == b';');
    match (bits.next(), bits.next(), bits.next(), bits.next()) {
        (Some(side), Some(overall), Some(cells), None) => parse_sections(side, overall, cells),
        _ => Err(ErrorKind::MissingSection.at(0, text.len())),
    }
}

// With one byte for the side and nine overall marks, the sections start at 0, 2 and 12.
fn parse_sections(side: &[u8], overall: &[u8], cells: &[u8]) -> Result<Game, ParseError>
    ensures { AnswersReading (read_side (lone_side side.now) side.now overall.now
        cells.now) result }
{
    let next_player = parse_player(side).ok_or(ErrorKind::BadPlayer.at(0, side.len()))?;
    if overall.len() != 9 {
        return Err(ErrorKind::TooFewSquares.at(2, overall.len()));
    }
    let (global_states, next_board) = parse_overall(overall)?;
    let local_boards = parse_cells(cells).map_err(|why| why.at(12, cells.len()))?;
    let game = Game::pack(
        next_player,
        next_board,
        local_boards,
        global_states,
        GameState::InPlay,
    );
    Ok(game.recalc_winner())
}

fn parse_player(side: &[u8]) -> Option<Player>
    ensures { result ≡ lone_side side.now }
{
    match side {
        [b'X'] => Some(Player::X),
        [b'O'] => Some(Player::O),
        _ => None,
    }
}

// No `TryFrom<u8>`, here and for a cell: each would need an error type, in place of which its caller has its own.
fn mark_of(byte: u8) -> Option<GameState>
    ensures { result ≡ overall_mark byte }
{
    match byte {
        b'X' => Some(GameState::Won(Player::X)),
        b'O' => Some(GameState::Won(Player::O)),
        b'#' => Some(GameState::Drawn),
        b'.' | b'@' => Some(GameState::InPlay),
        _ => None,
    }
}

// What the overall marks say, unless one is bad. The next board is where the last `@` stands.
fn parse_overall(overall: &[u8]) -> Result<(GlobalStates, Option<u8>), ParseError>
    requires { length overall.now ≡ 9 }
    ensures { ReadsOverall overall.now result }
{
    let mut states = GlobalStates::EMPTY;
    let mut next_board = None;
    for (board, byte) in overall.iter().enumerate() {
        let state = mark_of(*byte).ok_or(ErrorKind::BadBoard.at(2 + board, 1))?;
        states = states.set(board, state);
        if *byte == b'@' {
            next_board = Some(board as u8);
        }
    }
    Ok((states, next_board))
}

fn cell_mark_of(byte: u8) -> Option<CellState>
    ensures { result ≡ cell_mark byte }
{
    match byte {
        b'.' => Some(CellState::Empty),
        b'X' => Some(CellState::Played(Player::X)),
        b'O' => Some(CellState::Played(Player::O)),
        _ => None,
    }
}

// What byte i of the cells' section says of a cell: a `/`, which stands after nine of them, says nothing.
fn parse_cell(cells: &[u8], i: usize) -> Result<CellState, ErrorKind>
    ensures { ReadsCell cells.now i result }
{
    let byte = cells.get(i);
    if i % 10 == 9 {
        return match byte {
            Some(b'/') => Ok(CellState::Empty),
            _ => Err(ErrorKind::BadBoard),
        };
    }
    let byte = byte.ok_or(ErrorKind::TooShort)?;
    cell_mark_of(*byte).ok_or(ErrorKind::BadPlayer)
}

// The boards take what is said of one more cell: in place, so that the loop copies no boards.
fn mark_cell(boards: &mut LocalBoards, board: usize, cell: usize, state: CellState)
    ensures { boards.new ≡ with_cell_state boards.old board cell state }
{
    match state {
        CellState::Empty => {}
        CellState::Played(who) => boards.mark(board, cell, who),
    }
}

// The nine boards, each of nine cells, with a `/` after each but the last; or the first fault.
fn parse_cells(cells: &[u8]) -> Result<LocalBoards, ErrorKind>
    ensures { ReadsCells cells.now result }
{
    let mut boards = LocalBoards::EMPTY;
    // by place: a walk over the bytes would end where one is lacking, and need a second test of which fault that is
    for i in 0..89 {
        let state = parse_cell(cells, i)?;
        mark_cell(&mut boards, i / 10, i % 10, state);
    }
    Ok(boards)
}

// A side's letter. No `From`: a byte of a text is not the number of a side, which is 0 or 1.
pub fn letter(who: Player) -> u8
    ensures { result ≡ letter who }
{
    match who {
        Player::X => b'X',
        Player::O => b'O',
    }
}

// A function as `letter` is: the number of a state is another (`From<GameState> for u64`).
fn state_byte(state: GameState) -> u8
    ensures { result ≡ state_byte state }
{
    match state {
        GameState::InPlay => b'.',
        GameState::Drawn => b'#',
        GameState::Won(who) => letter(who),
    }
}

// No `From`, as for a side and a state: a byte of a text is no number of a cell's.
fn cell_byte(cell: CellState) -> u8
    ensures { result ≡ cell_byte cell }
{
    match cell {
        CellState::Empty => b'.',
        CellState::Played(who) => letter(who),
    }
}

// The byte of the text at a place: the side, nine overall marks from 2 on, the cells from 12 on.
fn render_at(g: Game, i: usize) -> u8
    requires { i < 101 }
    ensures { result ≡ byte_at (position_of g) i }
{
    match i {
        0 => letter(g.player()),
        1 | 11 => b';',
        2..=10 => {
            let board = i - 2;
            if g.board_to_play() == Some(board as u8) {
                b'@'
            } else {
                state_byte(g.global_states.at(board))
            }
        }
        _ => {
            let k = i - 12;
            if k % 10 == 9 {
                b'/'
            } else {
                cell_byte(g.local_boards.at(k / 10, k % 10))
            }
        }
    }
}

// The text of a position; `parse` reads it back.
pub fn render(g: Game) -> [u8; 101]
    ensures { result ≡ text_of (position_of g) }
{
    array::from_fn(|i| render_at(g, i))
}

// Of any byte: `a` and its high half, `a` and its low half.
pub fn render_move(m: Move) -> [u8; 2]
    ensures { result ≡ move_text m.bits }
{
    let board = b'a' + m.bits / 16;
    let cell = b'a' + m.bits % 16;
    [board, cell]
}

#[derive(Clone, Copy, PartialEq, Eq)]
pub enum ParseMoveError {
    BadLength,
    BadCharacter(u8),
}

impl Refusal for ParseMoveError {
    ghost number_of = { move_number };

    ghost never_0 = { Prim.search rules };

    fn number(self) -> u64
        ensures { result ≡ move_number self }
    {
        match self {
            ParseMoveError::BadLength => 7,
            ParseMoveError::BadCharacter(_) => 8,
        }
    }
}

#[tactic(auto, using(crate::proofs::ParsedMoves::letters))]
fn parse_coord(byte: u8) -> Result<u8, ParseMoveError>
    ensures { result ≡ coordinate_of byte }
{
    match byte {
        b'a'..=b'i' => Ok(byte - b'a'),
        _ => Err(ParseMoveError::BadCharacter(byte)),
    }
}

pub fn parse_move(text: &[u8]) -> Result<Move, ParseMoveError>
    ensures { ParsesMove text.now result }
{
    let [board, cell] = text else {
        return Err(ParseMoveError::BadLength);
    };
    let board = parse_coord(*board)?;
    let cell = parse_coord(*cell)?;
    // Not by `from_coords`, whose refusal cannot come here.
    Ok(Move {
        bits: board * 16 + cell,
    })
}
