// The ordered search: of a position, and over its remaining moves. Its state, its variation and the table's words are lent.
// Ported from src/lib/minimax.rs of nelhage/ultimattt at commit 87ef0d9c7c (Apache-2.0, see NOTICE), changed: `minimax` is two functions
// that call each other, variations have a place for each depth, and an allowance counts the positions entered.
ghost use Rattle.std.specs.Prelude.{◌≡◌, true, not, ◌||◌, List, ◌∷◌, ℕ, ◌-◌, ◌<◌, eqb, neg_ℤ, get_or, drop, Some};
ghost use Rattle.base.specs.Branch.{when◌then◌else◌};
ghost use Rattle.rules.specs.Board.{other};
ghost use Rattle.rules.specs.Position.{unfinished};
ghost use Rattle.rules.specs.Play.{no_move};
ghost use Rattle.rules.specs.Evaluation.{evaluate};
ghost use Rattle.theory.specs.Limits.{console};
ghost use Rattle.theory.specs.Memory.{some_move, fresh_memory, begin, enter, responses_to, cut};
ghost use Rattle.theory.specs.Table.{suffices, bound_of};
ghost use Rattle.theory.specs.OrderedSearch.{candidates};
ghost use Rattle.table.specs.Entries.{bound_number, entry_means};
ghost use Rattle.game.specs.Meaning.{position_of};
ghost use Rattle.order.specs.Order.{listed, order_left};
ghost use Rattle.minimax.specs.Report.{responses_of};
ghost use Rattle.minimax.specs.State.{memory_of, pv_of, empty_pv, node_scoring, node_game, outcome_of, node_outcome, over_all};
ghost use Rattle.minimax.specs.State.{then_stored, values_below, Valued, Within, Deep, NodeFits, Counted, Ready, NodeGives};
ghost use Rattle.minimax.specs.declared.search.SearchState.{SearchState};
ghost use Rattle.minimax.specs.declared.search.Pv.{Pv};

use crate::{ResponseTables, Stats};
use boards::{Move, PLACES};
use evaluation::Values;
use game::Game;
use order::{MoveOrder, NextMove};
use rules::Player;
use table::{Bound, Entry};

// The search's state: the two response tables, the positions entered over all depths, and the counts of the depth that is searched.
#[derive(Clone, Copy)]
pub(crate) struct SearchState {
    pub responses: ResponseTables,
    pub count: u64,
    pub stats: Stats,
}

// A variation: a place for each depth, with the empty move where there is none, as in the response tables.
#[derive(Clone, Copy)]
pub(crate) struct Pv {
    pub moves: [Move; PLACES],
}

// A position to be searched, and how; the values are those of its nine boards.
// No ghost fact `NodeFits`: `below` would list all fields, and two contracts would be eight equations. Nor `Deep`: a leaf has depth 0.
#[derive(Clone, Copy)]
pub(crate) struct Node {
    pub game: Game,
    pub depth: u8,
    pub alpha: i64,
    pub beta: i64,
    pub prev: Move,
    pub draw_winner: Option<Player>,
    pub allowance: u64,
    pub values: Values,
}

impl Pv {
    pub(crate) fn empty() -> Pv
        ensures { result ≡ empty_pv }
    {
        Pv {
            moves: [Move::NONE; PLACES],
        }
    }

    fn first(&self) -> Move
        ensures { (d : ℕ) → 0 < d → result.bits ≡ get_or (pv_of self.now d) 0 no_move }
    {
        self.moves[0]
    }

    // A move and the variation below it, in the first `depth` places; the others stay.
    fn put(&mut self, m: Move, below: &Pv, depth: u8)
        requires { Deep depth }
        ensures { (pv_of self.new depth ≡ m.bits ∷ pv_of below.now (depth - 1)) ×
            (drop depth self.new.moves ≡ drop depth self.old.moves) }
    {
        self.moves[0] = m;
        let n = depth as usize;
        self.moves[1..n].copy_from_slice(&below.moves[..n - 1]);
    }
}

impl SearchState {
    // Before the first depth.
    pub(crate) fn new(responses: ResponseTables) -> SearchState
        ensures { (words : List ℕ) → memory_of result words ≡ fresh_memory (responses_of responses) words }
    {
        SearchState {
            responses,
            count: 0,
            stats: Stats::NONE,
        }
    }

    // A depth begins.
    #[tactic(auto, unfolding(theory::specs::Memory::begin))]
    pub(crate) fn begin(&mut self)
        ensures { (words : List ℕ) → memory_of self.new words ≡ begin (memory_of self.old words) }
    {
        self.stats = Stats::NONE;
    }

    // A position is entered.
    #[tactic(auto, unfolding(theory::specs::Memory::enter))]
    fn enter(&mut self)
        requires { (self.old.count < console.positions) × (self.old.stats.visited < console.positions) }
        ensures { (words : List ℕ) → memory_of self.new words ≡ enter (memory_of self.old words) }
    {
        self.count += 1;
        self.stats.visited += 1;
    }

    // The response to the previous move, a move of the side not to move.
    fn response_to(&self, turn: Player, prev: Move) -> Option<Move>
        ensures { (words : List ℕ) → listed result ≡ some_move (get_or (responses_to (memory_of self.now words) (other turn)) prev.bits
            no_move) }
    {
        let at = prev.bits as usize;
        let m = match turn {
            Player::X => self.responses.o[at],
            Player::O => self.responses.x[at],
        };
        unless_empty(m)
    }

    // A cut by a move, which becomes the response to the previous one.
    #[tactic(auto, using(crate::proofs::StateSteps::cut_x, crate::proofs::StateSteps::cut_o))]
    fn cut(&mut self, turn: Player, prev: Move, m: Move)
        requires { self.old.stats.cuts < console.positions }
        ensures { (words : List ℕ) → memory_of self.new words ≡ cut turn (memory_of self.old words) prev.bits m.bits }
    {
        self.stats.cuts += 1;
        let at = prev.bits as usize;
        match turn {
            Player::X => self.responses.o[at] = m,
            Player::O => self.responses.x[at] = m,
        }
    }
}

// A place of a variation or of a response table has the empty move where there is none.
#[tactic(auto, using(crate::proofs::StateOutcomes::empty_listed, crate::proofs::StateOutcomes::move_listed))]
fn unless_empty(m: Move) -> Option<Move>
    ensures { listed result ≡ some_move m.bits }
{
    if m.is_none() { None } else { Some(m) }
}

// ---- the steps of a search, none of which calls another search
impl Node {
    fn is_leaf(self) -> bool
        ensures { result ≡ (eqb self.depth 0 || not (unfinished (position_of self.game))) }
    {
        self.depth == 0 || self.game.game_over()
    }

    // The evaluation, at a position that is not searched further.
    fn evaluate(self) -> i64
        requires { Valued self }
        ensures { result ≡ evaluate (node_scoring self) (position_of self.game) }
    {
        self.values.evaluate(self.game, self.draw_winner)
    }

    // What is found where it is a leaf, unless no position more may be entered.
    fn leaf(self, state: &mut SearchState) -> Option<i64>
        requires { NodeFits self × Counted self state.old × ((eqb self.depth 0 || not (unfinished (position_of self.game))) ≡ true) }
        ensures { (l : Pv) (words : List ℕ) → NodeGives self l result state.new l words (node_outcome self state.old l words) }
    {
        if state.count >= self.allowance {
            return None;
        }
        state.enter();
        state.stats.terminal += 1;
        Some(self.evaluate())
    }

    // Whether an entry answers.
    #[tactic(auto, unfolding(theory::specs::Table::suffices))]
    fn suffices(self, e: Entry) -> bool
        ensures { result ≡ suffices (entry_means e) self.depth self.alpha self.beta }
    {
        e.depth >= self.depth
            && match e.bound {
                Bound::Exact => true,
                Bound::AtLeast => e.value >= self.beta,
                Bound::AtMost => e.value <= self.alpha,
            }
    }

    // What a score is for the window.
    fn bound_of(self, score: i64) -> Bound
        ensures { bound_number result ≡ bound_of self.alpha self.beta score }
    {
        if score <= self.alpha {
            Bound::AtMost
        } else if score >= self.beta {
            Bound::AtLeast
        } else {
            Bound::Exact
        }
    }

    // Stores what the search over the moves found.
    fn store(self, score: i64, pv: &Pv, words: &mut [u64])
        requires { Deep self.depth }
        ensures { (s : SearchState) → outcome_of self (Some score) s pv.now words.new
            ≡ then_stored self (outcome_of self (Some score) s pv.now words.old) }
    {
        let entry = Entry {
            value: score,
            depth: self.depth,
            bound: self.bound_of(score),
            pv: pv.first(),
        };
        table::store(words, self.game.zobrist(), entry);
    }

    // The order of the moves: the table's move; the response, or lacking one the variation's move; then the list.
    fn order(self, first: Option<Move>, state: &SearchState, pv: &Pv) -> MoveOrder
        requires { Deep self.depth }
        ensures { (words : List ℕ) → order_left self.game result
            ≡ candidates (node_game self) (listed first) (memory_of state.now words) self.game self.prev.bits
            (pv_of pv.now self.depth) }
    {
        let response = state.response_to(self.game.next_player, self.prev);
        let second = response.or(unless_empty(pv.first()));
        MoveOrder::new(self.game, first, second)
    }

    // The node of the position after a move, with the lower edge as it is by now.
    fn below(self, child: NextMove, alpha: i64) -> Node
        requires { (0 < self.depth) × Within self.beta × Within alpha }
        ensures { result ≡ record {
          game = child.game;
          depth = self.depth - 1;
          alpha = neg_ℤ self.beta;
          beta = neg_ℤ alpha;
          prev = child.m;
          draw_winner = self.draw_winner;
          allowance = self.allowance;
          values = values_below self child;
        } }
    {
        Node {
            game: child.game,
            depth: self.depth - 1,
            alpha: -self.beta,
            beta: -alpha,
            prev: child.m,
            values: self.values.after(child.game, child.m.global()),
            ..self
        }
    }
}

// ---- the search of a position, and over its remaining moves; none is found where the allowance stops it
// State, variation and words stay three arguments: each step takes one or two of them, and the variation is another at each depth.
#[cycle(minimax_moves)]
pub(crate) fn minimax(
    a: Node,
    state: &mut SearchState,
    pv: &mut Pv,
    words: &mut [u64],
) -> Option<i64>
    requires { NodeFits a × Counted a state.old }
    ensures { NodeGives a pv.old result state.new pv.new words.new (node_outcome a state.old pv.old words.old) }
{
    if a.is_leaf() {
        return a.leaf(state);
    }
    if state.count >= a.allowance {
        return None;
    }
    state.enter();
    let mut first = None;
    if let Some(e) = table::lookup(words, a.game.zobrist()) {
        state.stats.tt_hit += 1;
        if a.suffices(e) {
            state.stats.tt_suffice += 1;
            pv.moves[0] = e.pv;
            return Some(e.value);
        }
        first = Some(e.pv);
    }
    let score = moves(a, first, state, pv, words)?;
    a.store(score, pv, words);
    Some(score)
}

#[cycle(minimax_moves)]
fn moves(
    a: Node,
    first: Option<Move>,
    state: &mut SearchState,
    pv: &mut Pv,
    words: &mut [u64],
) -> Option<i64>
    requires { NodeFits a × Ready a state.old }
    ensures { NodeGives a pv.old result state.new pv.new words.new (over_all a first state.old pv.old words.old) }
{
    let mut order = a.order(first, state, pv);
    let mut alpha = a.alpha;
    let mut local = Pv::empty();
    while let Some(child) = order.next(a.game) {
        let below = a.below(child, alpha);
        // A leaf by `minimax` too is plainer, and takes 2 to 3 % more instructions. `local` is left as it was, as in the Rust.
        let score = if below.is_leaf() {
            below.leaf(state)?
        } else {
            minimax(below, state, &mut local, words)?
        };
        if -score > alpha {
            alpha = -score;
            pv.put(child.m, &local, a.depth);
            if alpha >= a.beta {
                state.cut(a.game.next_player, a.prev, child.m);
                return Some(alpha);
            }
        }
    }
    Some(alpha)
}
