// The search: depth after depth, each the ordered search of the one position.
// Ported from src/lib/minimax.rs of nelhage/ultimattt at commit 87ef0d9c7c (Apache-2.0, see NOTICE), changed: an allowance of positions for
// the clock, settings and table words as arguments, refusals numbered, and no debug output.
#![tactic(auto)]

mod search;

ghost use Rattle.std.proofs.Common.{rules};
ghost use Rattle.std.specs.Prelude.{◌≡◌, ◌&&◌, List, map, ℕ, ◌+◌, ◌-◌, ◌≤◌, ◌<◌, T, eqb, drop, replicate};
ghost use Rattle.base.specs.Branch.{when◌then◌else◌};
ghost use Rattle.rules.specs.Play.{no_move};
ghost use Rattle.rules.specs.Refusal.{answer_number};
ghost use Rattle.rules.specs.Evaluation.{accepted_weights, Scoring};
ghost use Rattle.theory.specs.Limits.{console};
ghost use Rattle.theory.specs.PlainMinimax.{lowest, highest};
ghost use Rattle.theory.specs.Memory.{fresh_memory};
ghost use Rattle.theory.specs.Deepening.{nothing_yet, one_deeper, decided};
ghost use Rattle.theory.specs.Reported.{no_stats, entry_refusal, report};
ghost use Rattle.minimax.specs.State.{memory_of, pv_of};
ghost use Rattle.minimax.specs.Report.{search_error_number, ending_number, ending_stopped, tally_of, stats_of, settings_of};
ghost use Rattle.minimax.specs.Report.{responses_of, scoring_of, empty_responses, report_of, answer_of};
ghost use Rattle.minimax.specs.Report.{reported_of};
ghost use Rattle.minimax.specs.Structs.{structs};

use boards::{Move, PLACES};
use evaluation::{BadWeight, EVAL_LOST, EVAL_WON, Values};
use game::Game;
use rules::{Player, Refusal, Weights};
use search::{Node, Pv, SearchState};
use table::DEEPEST;

// The most positions that a search may be allowed to enter.
pub const MOST_POSITIONS: u64 = 1000000000;

// The most words of a table, three to an entry.
pub const MOST_WORDS: usize = 196608;

// Of one completed depth.
#[derive(Clone, Copy)]
pub struct Stats {
    pub depth: u64,
    pub score: i64,
    pub visited: u64,
    pub terminal: u64,
    pub cuts: u64,
    pub tt_hit: u64,
    pub tt_suffice: u64,
}

#[derive(Clone, Copy)]
pub struct Config {
    pub max_depth: u64,
    pub allowance: u64,
    pub draw_winner: Option<Player>,
    pub weights: Weights,
}

// The responses to X's moves and to O's, by the move's byte. Document 01 has arrays of 256 empty moves: the empty one stands for none;
// an `Option<Move>` would take two bytes in place of one.
#[derive(Clone, Copy)]
pub struct ResponseTables {
    pub x: [Move; 256],
    pub o: [Move; 256],
}

// What a search leaves for the next one.
#[derive(Clone, Copy)]
pub struct Minimax {
    pub responses: ResponseTables,
}

#[derive(Clone, Copy, PartialEq, Eq)]
pub enum SearchError {
    Depth,
    Allowance,
    Words,
    Weights,
    Spent,
}

impl Refusal for SearchError {
    ghost number_of = { search_error_number };

    ghost never_0 = { Prim.search rules };

    fn number(self) -> u64
        ensures { result ≡ search_error_number self }
    {
        match self {
            SearchError::Depth => 15,
            SearchError::Allowance => 16,
            SearchError::Words => 17,
            SearchError::Weights => BadWeight.number(),
            SearchError::Spent => 18,
        }
    }
}

// `Stopped` is by the allowance with a depth completed. Three ways, and no `Result`: such a search has an answer, and so is neither whole
// nor refused. Nor is a refused search an `Err`: one refused by 18 has entered positions, and by document 01 its report has their count and
// the memory that it leaves.
#[derive(Clone, Copy, PartialEq, Eq)]
pub enum Ending {
    Whole,
    Stopped,
    Refused(SearchError),
}

impl Ending {
    // 0 where the search was not refused.
    pub fn number(self) -> u64
        ensures { result ≡ ending_number self }
    {
        match self {
            Ending::Whole | Ending::Stopped => 0,
            Ending::Refused(why) => why.number(),
        }
    }
}

// The last completed depth with its score and variation, the positions entered, and the stats of each completed depth. By document 01 the
// variation has a fixed 81 moves, a place for each depth, and so have the stats; the places after `depth` are empty.
#[derive(Clone, Copy)]
pub struct Report {
    pub state: Minimax,
    pub ending: Ending,
    pub depth: u64,
    pub score: i64,
    pub count: u64,
    pub pv: [Move; PLACES],
    pub stats: [Stats; PLACES],
}

// What the completed depths have come to: the last one, its score and variation, and the stats of each. The places after the last one are
// empty.
#[derive(Clone, Copy)]
struct CompletedDepths {
    pub pv: Pv,
    pub stats: [Stats; PLACES],
    pub depth: u8,
    pub score: i64,
    ghost at_most: { depth ≤ console.deepest },
    ghost pv_empty: { drop depth pv.moves ≡ replicate (console.deepest - depth) (record { bits = no_move }) },
    ghost stats_empty: { drop depth (map stats_of stats) ≡ replicate (console.deepest - depth) no_stats },
}

impl Stats {
    pub const NONE: Stats = Stats {
        depth: 0,
        score: 0,
        visited: 0,
        terminal: 0,
        cuts: 0,
        tt_hit: 0,
        tt_suffice: 0,
    };
}

impl Config {
    // Whether a search may begin with so many words: refusals 15 to 17, and 20.
    fn check(self, words: usize) -> Result<(), SearchError>
        ensures { answer_number search_error_number result ≡ entry_refusal (settings_of self) words }
    {
        if self.max_depth == 0 || self.max_depth > DEEPEST {
            return Err(SearchError::Depth);
        }
        if self.allowance == 0 || self.allowance > MOST_POSITIONS {
            return Err(SearchError::Allowance);
        }
        if words % 3 != 0 || words > MOST_WORDS {
            return Err(SearchError::Words);
        }
        if !self.weights.are_accepted() {
            return Err(SearchError::Weights);
        }
        Ok(())
    }

    // The node of the root, one depth after the last completed one.
    fn root(self, game: Game, values: Values, completed: CompletedDepths) -> Node
        requires { completed.depth < console.deepest }
        ensures { result ≡ record {
          game = game;
          depth = completed.depth + 1;
          alpha = lowest;
          beta = highest;
          prev = record { bits = no_move };
          draw_winner = self.draw_winner;
          allowance = self.allowance;
          values = values;
        } }
    {
        Node {
            game,
            depth: completed.depth + 1,
            alpha: EVAL_LOST - 1,
            beta: EVAL_WON + 1,
            prev: Move::NONE,
            draw_winner: self.draw_winner,
            allowance: self.allowance,
            values,
        }
    }
}

impl CompletedDepths {
    ghost use Rattle.minimax.specs.Completed.{completed_of};

    fn none() -> CompletedDepths
        ensures { completed_of result ≡ nothing_yet }
    {
        CompletedDepths {
            pv: Pv::empty(),
            stats: [Stats::NONE; PLACES],
            depth: 0,
            score: 0,
        }
    }

    // One depth more, which found this and left the state so.
    fn deeper(self, score: i64, pv: Pv, state: &SearchState) -> CompletedDepths
        requires { (self.depth < console.deepest) × (drop (self.depth + 1) pv.moves ≡ drop (self.depth + 1) self.pv.moves) }
        ensures { completed_of result ≡ one_deeper (completed_of self) score (pv_of pv (self.depth + 1)) (tally_of state.now.stats) }
    {
        let mut stats = self.stats;
        let at = self.depth as usize;
        let depth = self.depth + 1;
        stats[at] = Stats {
            depth: depth as u64,
            score,
            ..state.stats
        };
        CompletedDepths {
            pv,
            stats,
            depth,
            score,
        }
    }

    // Whether the score ends the search.
    fn is_decided(self) -> bool
        ensures { result ≡ decided self.score }
    {
        self.score <= EVAL_LOST || self.score >= EVAL_WON
    }

    fn ending(self, stopped: bool) -> Ending
        ensures { (ending_number result ≡ (when stopped && eqb self.depth 0 then (λ _. 18) else λ _. 0))
            × (ending_stopped result ≡ stopped) }
    {
        if !stopped {
            return Ending::Whole;
        }
        if self.depth == 0 {
            return Ending::Refused(SearchError::Spent);
        }
        Ending::Stopped
    }

    fn report(self, state: &SearchState, stopped: bool) -> Report
        ensures { (sc : Scoring) (game : Game) (words : List ℕ) → report_of result words
            ≡ report (structs sc) game
            (record { is_stopped = stopped; completed = completed_of self; memory = memory_of state.now words }) }
    {
        // By variables: the borrow checker takes no array from a field into a struct.
        let responses = state.responses;
        let pv = self.pv.moves;
        let stats = self.stats;
        Report {
            state: Minimax { responses },
            ending: self.ending(stopped),
            depth: self.depth as u64,
            score: self.score,
            count: state.count,
            pv,
            stats,
        }
    }
}

impl Minimax {
    ghost use Rattle.minimax.specs.Completed.{refused_with};

    pub fn new() -> Minimax
        ensures { result ≡ empty_responses }
    {
        Minimax {
            responses: ResponseTables {
                x: [Move::NONE; 256],
                o: [Move::NONE; 256],
            },
        }
    }

    fn refused(self, why: SearchError) -> Report
        ensures { (words : List ℕ) → report_of result words ≡ refused_with why (responses_of self.responses) words }
    {
        Report {
            state: self,
            ending: Ending::Refused(why),
            depth: 0,
            score: 0,
            count: 0,
            pv: [Move::NONE; PLACES],
            stats: [Stats::NONE; PLACES],
        }
    }

    fn deepen(self, game: Game, config: Config, words: &mut [u64]) -> Report
        requires { (config.max_depth ≤ console.deepest) × (config.allowance ≤ console.positions)
            × T (accepted_weights config.weights) }
        ensures { report_of result words.new
            ≡ report (structs (scoring_of config)) game (answer_of self game config words.old) }
    {
        let values = Values::new(game, config.weights);
        let mut completed = CompletedDepths::none();
        let mut state = SearchState::new(self.responses);
        // A `for` over the depths would count beside `completed`, which has the last one.
        while (completed.depth as u64) < config.max_depth {
            let mut pv = completed.pv;
            state.begin();
            let Some(score) = search::minimax(
                config.root(game, values, completed),
                &mut state,
                &mut pv,
                words,
            ) else {
                return completed.report(&state, true);
            };
            completed = completed.deeper(score, pv, &state);
            if completed.is_decided() {
                return completed.report(&state, false);
            }
        }
        completed.report(&state, false)
    }

    // Depth 1, 2, .. to the limit, ending sooner at a won or lost score, or when the allowance is spent.
    pub fn analyze(self, game: Game, config: Config, words: &mut [u64]) -> Report
        ensures { report_of result words.new ≡ reported_of self game config words.old }
    {
        match config.check(words.len()) {
            Err(why) => self.refused(why),
            Ok(()) => self.deepen(game, config, words),
        }
    }
}
