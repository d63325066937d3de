// The search's memory and report in lent slices.
ghost use Rattle.std.specs.Prelude.{◌≡◌, [], map, ◌+◌, ◌≤◌, length, take, drop};
ghost use Rattle.std.proofs.lemmas.List.Edits.{sets};
ghost use Rattle.rules.specs.Refusal.{answer_number};
ghost use Rattle.endgame.specs.Means.{unsound_number, analysis_status};
ghost use Rattle.minimax.specs.Report.{stats_of, ending_stopped, report_of, bytes_of, responses_of};
ghost use Rattle.interface.specs.Lent.{Puts};
ghost use Rattle.interface.specs.Calls.{responses_from, responses_bytes, stats_words, all_stats, head_words};
ghost use Rattle.interface.specs.Calls.{report_words};

use crate::lent;
use boards::{Move, PLACES};
use endgame::{Analysis, Unsound};
use minimax::{Ending, Minimax, Report, ResponseTables, SearchError, Stats};
use std::array;

// 256 moves, from a place on.
fn moves_from(bytes: &[u8], at: usize) -> [Move; 256]
    requires { at + 256 ≤ length bytes.now }
    ensures { bytes_of result ≡ take 256 (drop at bytes.now) }
{
    array::from_fn(|i| Move {
        bits: bytes[at + i],
    })
}

pub(crate) fn memory(responses: &[u8]) -> Minimax
    requires { 512 ≤ length responses.now }
    ensures { responses_of result.responses ≡ responses_from responses.now }
{
    Minimax {
        responses: ResponseTables {
            x: moves_from(responses, 0),
            o: moves_from(responses, 256),
        },
    }
}

fn bytes_of(moves: [Move; 256]) -> [u8; 256]
    ensures { result ≡ bytes_of moves }
{
    // by place: the library's `map` of an array clears its memory first
    array::from_fn(|i| moves[i].bits)
}

pub(crate) fn put_memory(responses: &mut [u8], state: Minimax)
    requires { 512 ≤ length responses.old }
    ensures { Puts responses.old (responses_bytes (responses_of state.responses)) 512 responses.new }
{
    lent::put(responses, 0, &bytes_of(state.responses.x));
    lent::put(responses, 256, &bytes_of(state.responses.o));
}

// Whether the allowance stopped the search.
fn is_stopped(ending: Ending) -> bool
    ensures { result ≡ ending_stopped ending }
{
    matches!(
        ending,
        Ending::Stopped | Ending::Refused(SearchError::Spent)
    )
}

// The words before the moves.
fn head(found: Report, analysis: Result<Analysis, Unsound>) -> [u64; 7]
    ensures { result ≡ head_words (report_of found []) (answer_number unsound_number analysis) (analysis_status analysis).bits }
{
    let status = Analysis::reported_status(analysis);
    [
        found.ending.number(),
        u64::from(is_stopped(found.ending)),
        found.depth,
        table::to_word(found.score),
        found.count,
        rules::number(analysis),
        u64::from(status.as_byte()),
    ]
}

fn line_words(line: [Move; PLACES]) -> [u64; PLACES]
    ensures { result ≡ bytes_of line }
{
    // by place, as the responses
    array::from_fn(|i| u64::from(line[i].bits))
}

fn stats_words(s: Stats) -> [u64; 7]
    ensures { result ≡ stats_words (stats_of s) }
{
    [
        s.depth,
        table::to_word(s.score),
        s.visited,
        s.terminal,
        s.cuts,
        s.tt_hit,
        s.tt_suffice,
    ]
}

// Seven words for each depth, from a place on.
fn put_stats(out: &mut [u64], at: usize, stats: [Stats; PLACES])
    requires { at + 567 ≤ length out.old }
    ensures { out.new ≡ sets out.old at (all_stats (map stats_of stats)) }
{
    // a loop: an array of all the words would be cleared and copied first
    for (i, &s) in stats.iter().enumerate() {
        lent::put(out, at + 7 * i, &stats_words(s));
    }
}

pub(crate) fn put(out: &mut [u64], found: Report, analysis: Result<Analysis, Unsound>)
    requires { 655 ≤ length out.old }
    ensures { Puts out.old
        (report_words (report_of found []) (answer_number unsound_number analysis) (analysis_status analysis).bits) 655 out.new }
{
    lent::put(out, 0, &head(found, analysis));
    lent::put(out, 7, &line_words(found.pv));
    put_stats(out, 88, found.stats);
}
