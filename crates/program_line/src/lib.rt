// One line of the program, from its buffer, and the bytes of the answer.
#![tactic(auto)]

ghost use Rattle.std.specs.Prelude.{◌≡◌, [], T, length};
ghost use Rattle.rules.specs.Moves.{moves};
ghost use Rattle.rules.specs.Hash.{hash};
ghost use Rattle.text.specs.Reading.{read};
ghost use Rattle.status.specs.Sets.{set_of};
ghost use Rattle.game.specs.Meaning.{position_of};
ghost use Rattle.game.specs.Neat.{neat};
ghost use Rattle.minimax.specs.Report.{report_of};
ghost use Rattle.line_buffer.specs.Buffer.{buffer_text, buffer_asks};
ghost use Rattle.answer_text.specs.AnswerBytes.{text_of_bytes};
ghost use Rattle.program_line.specs.Answered.{program_search, report_text, position_text, reading_text, asked_text};

use answer_text::AnswerText;
use endgame::Analysis;
use game::Game;
use line_buffer::LineBuffer;
use minimax::{Config, Ending, Minimax, Report};
use rules::{Refusal, Weights};
use status::Status;

pub const ALLOWANCE: u64 = 1000000;

// From fresh memory, with the table off.
#[tactic(auto, using(crate::proofs::Answered::search_searched))]
fn search(game: Game, depth: u8) -> Report
    requires { T (neat game) × (game.hash ≡ hash (position_of game)) }
    ensures { report_of result [] ≡ program_search depth (position_of game) }
{
    let mut words = [0u64; 0];
    let config = Config {
        max_depth: depth as u64,
        allowance: ALLOWANCE,
        draw_winner: None,
        weights: Weights::DEFAULT,
    };
    Minimax::new().analyze(game, config, &mut words)
}

// What a search's report is answered as.
fn reported(game: Game, status: Status, report: Report) -> AnswerText
    ensures { result ≡ text_of_bytes (report_text (set_of status) (length (moves (position_of game))) (report_of report [])) }
{
    match report.ending {
        Ending::Refused(why) => AnswerText::refused(why.number()),
        Ending::Whole | Ending::Stopped => AnswerText::answer(
            status,
            game.legal_moves() as u64,
            report.depth,
            report.score,
            report.count,
            report.pv,
        ),
    }
}

// What a position that was read is answered as.
#[tactic(auto, using(crate::proofs::Answered::position_refused, crate::proofs::Answered::position_searched))]
fn position(game: Game, depth: u8) -> AnswerText
    requires { T (neat game) × (game.hash ≡ hash (position_of game)) }
    ensures { result ≡ text_of_bytes (position_text (position_of game) depth) }
{
    match Analysis::new(game) {
        Err(why) => AnswerText::refused(why.number()),
        Ok(analysis) => reported(game, analysis.status(), search(game, depth)),
    }
}

// What the buffered text is answered as.
#[tactic(auto, using(crate::proofs::Answered::text_game, crate::proofs::Answered::text_refused, crate::proofs::Answered::text_accepted))]
fn text(line: &LineBuffer, depth: u8) -> AnswerText
    ensures { result ≡ text_of_bytes (reading_text (read (buffer_text line.now)) depth) }
{
    match notation::parse(line.text()) {
        Err(error) => AnswerText::refused(error.number()),
        Ok(game) => position(game, depth),
    }
}

// What a line is answered as. Each refusal is answered where it is met: one error of all, for `?`, would need four `From` and a number.
#[tactic(auto, using(crate::proofs::Answered::line_refused, crate::proofs::Answered::line_asks))]
pub fn answer(line: &LineBuffer) -> AnswerText
    ensures { result ≡ text_of_bytes (asked_text (buffer_asks line.now)) }
{
    match line.depth() {
        Err(bad_depth) => AnswerText::refused(bad_depth.number()),
        Ok(depth) => text(line, depth),
    }
}
