// The functions of the C interface, on numbers and lent slices; for C, to which interface_c exports them, a slice is a pointer and a
// length. So a function asks for the length of each itself, and takes no arrays.
// Asked wrongly, a call but `ultimattt_answer` returns 255 and changes nothing; a slice that is longer than needed keeps its other places.
#![tactic(auto)]

mod lent;
mod position;
mod report;
mod settings;

ghost use Rattle.interface.specs.Calls.{Answers, Starts, ReadsPosition, Renders, PlaysAll, Analyzes, EvaluatesPosition};

use endgame::Analysis;
use game::Game;
use line_buffer::LineBuffer;

// A slice is too short, words are no position, or a draw winner is over 2. Document 01's numbers are below 32.
// It and the other answers stay numbers, and are no enums: the C interface has them so.
pub const BAD_ARGUMENT: u64 = 255;

// The program's answer to a line without its line feed: how many bytes it has. They are written only if there is room for all.
pub fn ultimattt_answer(line: &[u8], out: &mut [u8]) -> usize
    ensures { Answers line.now out.old out.new result }
{
    let mut held = LineBuffer::new();
    held.push_all(line);
    let answer = program_line::answer(&held);
    let bytes = answer.as_slice();
    if bytes.len() <= out.len() {
        lent::put(out, 0, bytes);
    }
    bytes.len()
}

// The empty board.
pub fn ultimattt_new(position: &mut [u64]) -> u64
    ensures { Starts position.old position.new result }
{
    if position.len() < 12 {
        return BAD_ARGUMENT;
    }
    position::put(position, Game::new());
    0
}

// A text, read as a position: 0, or refusal 1 to 6 with the empty board. In place, offset and length of the part that is refused.
pub fn ultimattt_read(text: &[u8], position: &mut [u64], place: &mut [u64]) -> u64
    ensures { ReadsPosition text.now position.old place.old position.new
        place.new result }
{
    if position.len() < 12 {
        return BAD_ARGUMENT;
    }
    if place.len() < 2 {
        return BAD_ARGUMENT;
    }
    let parsed = notation::parse(text);
    position::put(position, parsed.unwrap_or(Game::new()));
    lent::put(place, 0, &position::place(parsed));
    rules::number(parsed)
}

// A position's text of 101 bytes.
pub fn ultimattt_render(position: &[u64], out: &mut [u8]) -> u64
    ensures { Renders position.now out.old out.new result }
{
    if !position::is_position(position) {
        return BAD_ARGUMENT;
    }
    if out.len() < 101 {
        return BAD_ARGUMENT;
    }
    lent::put(out, 0, &notation::render(position::game_from(position)));
    0
}

// Tries moves one after the other, and answers each with 0 or refusal 9 to 13. A refused one changes nothing.
pub fn ultimattt_play(position: &mut [u64], moves: &[u8], answers: &mut [u8]) -> u64
    ensures { PlaysAll position.old moves.now answers.old
        position.new answers.new result }
{
    if !position::is_position(position) {
        return BAD_ARGUMENT;
    }
    if answers.len() < moves.len() {
        return BAD_ARGUMENT;
    }
    let game = position::play(position::game_from(position), moves, answers);
    position::put(position, game);
    0
}

// The endgame analysis and the search, after moves tried from a position: 0, or refusal 15 to 18 or 20.
// The settings are depth, allowance, draw winner (0 for nobody, 1 for X, 2 for O) and the weights of one place, of two, and of a won board.
// The 512 responses are those to X's moves, then those to O's, each by the move it responds to; the table is in words, and off without any.
pub fn ultimattt_analyze(
    position: &[u64],
    moves: &[u8],
    settings: &[u64],
    responses: &mut [u8],
    words: &mut [u64],
    report: &mut [u64],
) -> u64
    ensures { Analyzes position.now moves.now settings.now
        responses.old words.old report.old
        responses.new words.new report.new result }
{
    if !position::is_position(position) {
        return BAD_ARGUMENT;
    }
    if settings.len() < 6 {
        return BAD_ARGUMENT;
    }
    if settings[2] > 2 {
        return BAD_ARGUMENT;
    }
    if responses.len() < 512 {
        return BAD_ARGUMENT;
    }
    if report.len() < 655 {
        return BAD_ARGUMENT;
    }
    let game = position::game_from(position).play_all(moves);
    let config = settings::config_from(settings);
    let found = report::memory(responses).analyze(game, config, words);
    report::put_memory(responses, found.state);
    report::put(report, found, Analysis::new(game));
    found.ending.number()
}

// The evaluation of a position by three weights, into one word: 0, or refusal 20 with a score of 0.
pub fn ultimattt_evaluate(
    position: &[u64],
    draw_winner: u64,
    weights: &[u64],
    score: &mut [u64],
) -> u64
    ensures { EvaluatesPosition position.now draw_winner weights.now score.old
        score.new result }
{
    if !position::is_position(position) {
        return BAD_ARGUMENT;
    }
    if draw_winner > 2 {
        return BAD_ARGUMENT;
    }
    if weights.len() < 3 {
        return BAD_ARGUMENT;
    }
    if score.len() < 1 {
        return BAD_ARGUMENT;
    }
    let found = evaluation::evaluate(
        position::game_from(position),
        settings::draws_from(draw_winner),
        settings::weights_from(weights, 0),
    );
    lent::put(score, 0, &[table::to_word(found.unwrap_or(0))]);
    rules::number(found)
}
