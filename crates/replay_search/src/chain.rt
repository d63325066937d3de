// A record's searches, run one after the other.
ghost use Rattle.std.specs.Prelude.{◌≡◌, cond, ◌≤◌, ◌%◌, eqb, length, option_map};
ghost use Rattle.rules.specs.Board.{side_from};
ghost use Rattle.theory.specs.Memory.{no_responses, with_response};
ghost use Rattle.minimax.specs.Report.{responses_of, ending_number, report_of};
ghost use Rattle.replay.specs.declared.totals.Comparison.TheVariants.{Agrees as AllAgree, Apart as Refused};
ghost use Rattle.replay_search.specs.Chains.{with_responses, start_of, begun_of, search_of, chain_of, run_of, outcome_of};

use crate::expected;
use boards::Move;
use minimax::{Config, Ending, Minimax, Report};
use replay::Comparison;
use rules::{Player, Weights};

// The most numbers of a field.
const MOST: usize = 1024;

// A table's words, enough for one entry more than a search takes.
pub const ROOM: usize = 196611;

// With one response more.
fn with_response(state: Minimax, side: u64, prev: u64, response: u64) -> Minimax
    ensures { responses_of result.responses
        ≡ with_response (responses_of state.responses) (side_from side) (prev % 256) (response % 256) }
{
    let mut responses = state.responses;
    let at = (prev % 256) as usize;
    let m = Move {
        bits: (response % 256) as u8,
    };
    match Player::from_number(side) {
        Player::X => responses.x[at] = m,
        Player::O => responses.o[at] = m,
    }
    Minimax { responses }
}

// The responses that the numbers give, three for each.
fn from_triples(numbers: &[u64]) -> Minimax
    ensures { responses_of result.responses ≡ with_responses no_responses numbers.now }
{
    let mut state = Minimax::new();
    for triple in numbers.chunks_exact(3) {
        state = with_response(state, triple[0], triple[1], triple[2]);
    }
    state
}

// The response tables that the first search begins with, if they can be read.
fn begin(text: &[u8]) -> Option<Minimax>
    ensures { begun_of result ≡ start_of text.now }
{
    if text.is_empty() {
        return Some(Minimax::new());
    }
    let mut numbers = [0u64; MOST];
    let n = decimals::numbers(text, &mut numbers)?;
    if n % 3 != 0 {
        return None;
    }
    Some(from_triples(&numbers[..n]))
}

// What is found so far, with a search more that is as the record says.
fn with_search(so_far: Comparison, ending: Ending) -> Comparison
    ensures { result ≡ cond (eqb (ending_number ending) 0) so_far Refused }
{
    match ending {
        Ending::Refused(_) => Comparison::Apart,
        Ending::Whole | Ending::Stopped => so_far,
    }
}

// The report of search k of a line: none if it can't be read, or if what is reported is not what the record says.
// Line, draw winner and allowance one by one, as the definition has them: a struct would serve this function and the next alone.
fn searched(
    line: &[u8],
    draw_winner: Option<Player>,
    allowance: u64,
    k: usize,
    state: Minimax,
    table: &mut [u64],
) -> Option<Report>
    requires { k ≤ 1000 }
    ensures { option_map (λ r. report_of r table.new) result
        ≡ search_of line.now draw_winner allowance k (responses_of state.responses) table.old }
{
    // First: where what returns early stands before it, the array is cleared twice.
    let mut numbers = [0u64; MOST];
    let Ok(game) = notation::parse(replay::field(line, 3 * k + 4)) else {
        return None;
    };
    let max_depth = decimals::read_number(replay::field(line, 3 * k + 5))?;
    let n = decimals::numbers(replay::field(line, 3 * k + 6), &mut numbers)?;
    let config = Config {
        max_depth,
        allowance,
        draw_winner,
        weights: Weights::DEFAULT,
    };
    let found = state.analyze(game, config, table);
    expected::agrees(&numbers[..n], found, table).then_some(found)
}

// The searches of a line, of which there are `count`, each with the memory that the one before left.
fn replayed(
    line: &[u8],
    draw_winner: Option<Player>,
    allowance: u64,
    count: usize,
    begun: Minimax,
    table: &mut [u64],
) -> Comparison
    requires { count ≤ 1000 }
    ensures { result ≡ chain_of line.now draw_winner allowance count 0 AllAgree (responses_of begun.responses)
        table.old }
{
    let mut state = begun;
    let mut so_far = Comparison::Agrees;
    for k in 0..count {
        let Some(report) = searched(line, draw_winner, allowance, k, state, table) else {
            return Comparison::Differs;
        };
        so_far = with_search(so_far, report.ending);
        state = report.state;
    }
    so_far
}

// The searches of a line, with a table that is cleared first.
fn run(line: &[u8], count: usize, table: &mut [u64]) -> Comparison
    requires { count ≤ 1000 }
    ensures { result ≡ run_of line.now count (length table.old) }
{
    let Some(draw_winner) = replay::draw_of(replay::field(line, 1)) else {
        return Comparison::Differs;
    };
    let Some(allowance) = decimals::read_number(replay::field(line, 2)) else {
        return Comparison::Differs;
    };
    let Some(begun) = begin(replay::field(line, 3)) else {
        return Comparison::Differs;
    };
    table.fill(0);
    replayed(line, draw_winner, allowance, count, begun, table)
}

// What is found of a line. One that can't be read differs, as does one whose table has no room.
pub fn outcome(line: &[u8], words: &mut [u64]) -> Comparison
    ensures { result ≡ outcome_of (length words.old) line.now }
{
    let tabs = replay::tabs(line);
    if tabs % 3 != 0 {
        return Comparison::Differs;
    }
    let thirds = tabs / 3;
    if thirds < 2 {
        return Comparison::Differs;
    }
    if thirds > 1000 {
        return Comparison::Differs;
    }
    let Some(entries) = decimals::read_number(replay::field(line, 0)) else {
        return Comparison::Differs;
    };
    let room = words.len() / 3;
    if entries > room as u64 {
        return Comparison::Differs;
    }
    run(line, thirds - 1, &mut words[..(entries as usize) * 3])
}
