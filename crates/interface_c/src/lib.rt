// The exports of the C interface, for a static library: each is the function of `interface` of its name.
#![tactic(auto)]

ghost use Rattle.interface.specs.Calls.{Answers, Starts, ReadsPosition, Renders, PlaysAll, Analyzes, EvaluatesPosition};

// The program's answer to a line without its line feed.
#[unsafe(no_mangle)]
pub extern "C" fn ultimattt_answer(line: &[u8], out: &mut [u8]) -> usize
    ensures { Answers line.now out.old out.new result }
{
    interface::ultimattt_answer(line, out)
}

// The empty board.
#[unsafe(no_mangle)]
pub extern "C" fn ultimattt_new(position: &mut [u64]) -> u64
    ensures { Starts position.old position.new result }
{
    interface::ultimattt_new(position)
}

// A text, read as a position.
#[unsafe(no_mangle)]
pub extern "C" fn ultimattt_read(text: &[u8], position: &mut [u64], place: &mut [u64]) -> u64
    ensures { ReadsPosition text.now position.old place.old position.new
        place.new result }
{
    interface::ultimattt_read(text, position, place)
}

// A position's text.
#[unsafe(no_mangle)]
pub extern "C" fn ultimattt_render(position: &[u64], out: &mut [u8]) -> u64
    ensures { Renders position.now out.old out.new result }
{
    interface::ultimattt_render(position, out)
}

// Moves tried one after the other.
#[unsafe(no_mangle)]
pub extern "C" fn ultimattt_play(position: &mut [u64], moves: &[u8], answers: &mut [u8]) -> u64
    ensures { PlaysAll position.old moves.now answers.old
        position.new answers.new result }
{
    interface::ultimattt_play(position, moves, answers)
}

// The endgame analysis and the search, after moves tried from a position.
#[unsafe(no_mangle)]
pub extern "C" fn ultimattt_analyze(
    position: &[u64],
    moves: &[u8],
    settings: &[u64],
    responses: &mut [u8],
    words: &mut [u64],
    report: &mut [u64],
) -> u64
    ensures { Analyzes position.now moves.now settings.now
        responses.old words.old report.old
        responses.new words.new report.new result }
{
    interface::ultimattt_analyze(position, moves, settings, responses, words, report)
}

// The evaluation of a position by three weights.
#[unsafe(no_mangle)]
pub extern "C" fn ultimattt_evaluate(
    position: &[u64],
    draw_winner: u64,
    weights: &[u64],
    score: &mut [u64],
) -> u64
    ensures { EvaluatesPosition position.now draw_winner weights.now score.old
        score.new result }
{
    interface::ultimattt_evaluate(position, draw_winner, weights, score)
}
