// What a record says of a search, compared with the report of it. The numbers are: ending, count, depth, the score's sign and size, the
// digest and the number of the responses and of the table's entries, the line, and eight numbers of each depth (tools/lists.py).
ghost use Rattle.std.specs.Prelude.{◌≡◌, map, nat_abs, take};
ghost use Rattle.minimax.specs.Report.{ending_number, ending_stopped, bytes_of, stats_of, report_of};
ghost use Rattle.replay.specs.Agreement.{same_numbers, left_of, compared_all};
ghost use Rattle.replay_search.specs.Records.{sign, ending, head_numbers, depth_numbers, depths_numbers, search_numbers};

use crate::digest;
use boards::{Move, PLACES};
use minimax::{Ending, Report, Stats};
use replay::Agreement;
use rules::Refusal;

// 1 where the allowance stopped the search.
#[tactic(auto, using(crate::proofs::Records::whole_ending, crate::proofs::Records::stopped_ending, crate::proofs::Records::refusal_number))]
fn ending_number(e: Ending) -> u64
    ensures { result ≡ ending (ending_number e) (ending_stopped e) }
{
    match e {
        Ending::Whole => 0,
        Ending::Stopped => 1,
        Ending::Refused(why) => why.number(),
    }
}

// 1 below 0.
fn sign(score: i64) -> u64
    ensures { result ≡ sign score }
{
    u64::from(score.is_negative())
}

fn size(score: i64) -> u64
    ensures { result ≡ nat_abs score }
{
    score.unsigned_abs()
}

fn depth_numbers(s: Stats) -> [u64; 8]
    ensures { result ≡ depth_numbers (stats_of s) }
{
    [
        s.depth,
        sign(s.score),
        size(s.score),
        s.visited,
        s.terminal,
        s.cuts,
        s.tt_hit,
        s.tt_suffice,
    ]
}

// The numbers before the line.
fn head_numbers(found: Report, table: &[u64]) -> [u64; 9]
    ensures { result ≡ head_numbers (report_of found table.now) }
{
    [
        ending_number(found.ending),
        found.count,
        found.depth,
        sign(found.score),
        size(found.score),
        digest::of_responses(found.state),
        digest::response_count(found.state),
        digest::of_table(table),
        digest::entry_count(table),
    ]
}

// The line's first moves, as many as the depth.
fn with_line(begun: Agreement<'_>, depth: u64, line: [Move; PLACES]) -> Agreement<'_>
    ensures { left_of result ≡ compared_all (left_of begun.entry) (take depth (bytes_of line)) }
{
    let mut so_far = begun;
    for m in line.iter().take(depth as usize) {
        so_far = so_far.number(u64::from(m.bits));
    }
    so_far
}

// The stats of the first depths, as many as the depth.
fn with_stats(begun: Agreement<'_>, depth: u64, stats: [Stats; PLACES]) -> Agreement<'_>
    ensures { left_of result ≡ compared_all (left_of begun.entry) (depths_numbers (take depth (map stats_of stats))) }
{
    let mut so_far = begun;
    for s in stats.iter().take(depth as usize) {
        so_far = so_far.numbers(&depth_numbers(*s));
    }
    so_far
}

// Whether a report and the table after the search are what the numbers say.
pub fn agrees(numbers: &[u64], found: Report, table: &[u64]) -> bool
    ensures { result ≡ same_numbers numbers.now (search_numbers (report_of found table.now)) }
{
    let head = head_numbers(found, table);
    let begun = Agreement::new(numbers).numbers(&head);
    let so_far = with_line(begun, found.depth, found.pv);
    with_stats(so_far, found.depth, found.stats).is_whole()
}
