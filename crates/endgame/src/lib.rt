// What the boards of a position alone say of its result.
// Ported from src/lib/endgame.rs of nelhage/ultimattt at commit 87ef0d9c7c (Apache-2.0, see NOTICE), changed: an unfinished position that
// is not sound is refused, and so is a move that play refuses; the counts come back with the analysis, and `Critical` has the position and
// the critical boards that the Rust keeps in `Analysis`; sums of counts and printing are left out.
#![tactic(auto)]

ghost use Rattle.std.specs.Prelude.{◌≡◌, not, cond, ◌||◌, ◌&&◌, ◌<◌, T, eqb};
ghost use Rattle.std.specs.List.{list_any};
ghost use Rattle.base.specs.Bits.{bit, digits};
ghost use Rattle.base.specs.Lists.{any, all};
ghost use Rattle.base.specs.Checks.{first_failed};
ghost use Rattle.rules.specs.Board.{other, nine};
ghost use Rattle.rules.specs.Position.{unfinished, open_board, free_cell};
ghost use Rattle.rules.specs.Play.{cell_of};
ghost use Rattle.rules.specs.Sound.{sound};
ghost use Rattle.rules.specs.Endgame.{critical, prove_attacker, forced_loss, winnable, proven, combine, merged, or_unproven};
ghost use Rattle.rules.specs.Endgame.{endgame_stats, analysis_checks, judge};
ghost use Rattle.rules.specs.Refusal.{answer_number};
ghost use Rattle.status.specs.Sets.{status_of};
ghost use Rattle.game.specs.Meaning.{position_of};
ghost use Rattle.lines.specs.Masks.{masks};
ghost use Rattle.endgame.specs.Parts.{live, lacks_one, critical_by};
ghost use Rattle.endgame.specs.Means.{unsound_number, move_status_number, endgame_stats_of, analysis_status};
ghost use Rattle.endgame.specs.Means.{Analyses, Judges, Narrows, Agrees};
ghost use Rattle.std.proofs.Common.{rules};

use boards::{Move, MoveError};
use game::Game;
use lines::{WIN_MASKS, has_line};
use rules::{Player, Refusal};
use status::Status;

// What one analysis found: each 0 or 1, `unwinnable` up to 2. Numbers, since document 01 counts them, as the Rust does.
#[derive(Clone, Copy)]
pub struct EndgameStats {
    pub attacker_critical: usize,
    pub defender_critical: usize,
    pub both_critical: usize,
    pub unwinnable: usize,
    pub prove_attacker: usize,
    pub prove_defender: usize,
}

// Why no analysis is made: the position is unfinished and not sound.
#[derive(Clone, Copy, PartialEq, Eq)]
pub struct Unsound;

impl Refusal for Unsound {
    ghost number_of = { unsound_number };

    ghost never_0 = { Prim.search rules };

    fn number(self) -> u64
        ensures { result ≡ unsound_number self }
    {
        14
    }
}

// What is proved of a position: the results that are left, and how it was found. Of a finished game the full set and no counts.
#[derive(Clone, Copy)]
pub struct Analysis {
    pub proven: Status,
    pub stats: EndgameStats,
}

// Why a move is not judged.
#[derive(Clone, Copy, PartialEq, Eq)]
pub enum MoveStatusError {
    Unsound,
    Refused(MoveError),
}

impl Refusal for MoveStatusError {
    ghost number_of = { move_status_number };

    ghost never_0 = { Prim.search rules };

    fn number(self) -> u64
        ensures { result ≡ move_status_number self }
    {
        match self {
            MoveStatusError::Unsound => Unsound.number(),
            MoveStatusError::Refused(why) => why.number(),
        }
    }
}

impl From<Unsound> for MoveStatusError {
    ghost use Rattle.endgame.specs.declared.MoveStatusError.TheVariants.{Unsound as NotSound};

    ghost from_gives = { λ _ error. error ≡ NotSound };

    fn from(_why: Unsound) -> MoveStatusError
        ensures { result ≡ NotSound }
    {
        MoveStatusError::Unsound
    }
}

impl From<MoveError> for MoveStatusError {
    ghost use Rattle.endgame.specs.declared.MoveStatusError.TheVariants.{Refused};

    ghost from_gives = { λ why error. error ≡ Refused why };

    fn from(why: MoveError) -> MoveStatusError
        ensures { result ≡ Refused why }
    {
        MoveStatusError::Refused(why)
    }
}

impl EndgameStats {
    pub const NONE: EndgameStats = EndgameStats {
        attacker_critical: 0,
        defender_critical: 0,
        both_critical: 0,
        unwinnable: 0,
        prove_attacker: 0,
        prove_defender: 0,
    };
}

// Whether the board, if it is in play, has room and no line in it.
fn is_live(pos: Game, board: usize) -> bool
    ensures { result ≡ live (position_of pos) board }
{
    let boards = pos.local_boards;
    !pos.global_states.in_play(board)
        || (boards.free_squares(board) != 0
            && !has_line(boards.xbits(board))
            && !has_line(boards.obits(board)))
}

// Whether all boards are live. A loop, which is unrolled; `all` with a closure isn't, at nearly twice the instructions.
fn all_live(pos: Game) -> bool
    ensures { result ≡ all (live (position_of pos)) nine }
{
    for board in 0..9 {
        if !is_live(pos, board) {
            return false;
        }
    }
    true
}

// Whether nobody has a line of boards, and all boards are live.
fn is_sound(pos: Game) -> bool
    ensures { result ≡ sound (position_of pos) }
{
    !has_line(pos.global_states.xbits()) && !has_line(pos.global_states.obits()) && all_live(pos)
}

// What is asked of a position: an unfinished one is sound.
#[tactic(auto, using(crate::proofs::MeansAnswers::soundness))]
fn check_sound(pos: Game) -> Result<(), Unsound>
    ensures { answer_number unsound_number result ≡ first_failed (analysis_checks (position_of pos)) }
{
    if pos.game_over() || is_sound(pos) {
        Ok(())
    } else {
        Err(Unsound)
    }
}

impl Analysis {
    // Of a finished game.
    const NONE: Analysis = Analysis {
        proven: Status::UNPROVEN,
        stats: EndgameStats::NONE,
    };

    pub fn new(pos: Game) -> Result<Analysis, Unsound>
        ensures { Analyses pos result }
    {
        check_sound(pos)?;
        if pos.game_over() {
            return Ok(Analysis::NONE);
        }
        Ok(Critical::of(pos).analysis())
    }

    pub fn status(self) -> Status
        ensures { result ≡ self.proven }
    {
        self.proven
    }

    // What is reported of an analysis: of a refused one the full set.
    pub fn reported_status(analysis: Result<Analysis, Unsound>) -> Status
        ensures { result ≡ analysis_status analysis }
    {
        analysis.map_or(Status::unproven(), Analysis::status)
    }
}

// A move is judged if the position is not refused and play accepts it.
pub fn evaluate_move(game: Game, m: Move) -> Result<Status, MoveStatusError>
    ensures { Judges game m result }
{
    check_sound(game)?;
    game.make_move(m)?;
    Ok(move_status(game, m))
}

// As the Rust gives it, for a move that play accepts. By the other side's critical boards alone: of `Critical`, those of the side to move
// would be worked out for nothing.
fn move_status(pos: Game, m: Move) -> Status
    requires { T (sound (position_of pos)) × (cell_of m.bits < 9) }
    ensures { result ≡ status_of (judge (position_of pos) m.bits) }
{
    let who = pos.player().other();
    let defender = critical_boards(pos, who);
    let bad = pos.global_states.donebits() | defender;
    // A move in a critical board could block or take it: it is left to the search.
    if defender != 0 && !holds(defender, m.global()) && holds(bad, m.local()) {
        return Status::for_player(who);
    }
    Status::unproven()
}

// A sound position, with the critical boards of the side to move and of the other side.
#[derive(Clone, Copy)]
struct Critical {
    pos: Game,
    attacker: u32,
    defender: u32,
    ghost is_sound: { T (sound (position_of pos)) },
    ghost of_attacker: { attacker ≡ digits (critical (position_of pos) (position_of pos).turn) 9 },
    ghost of_defender: { defender ≡ digits (critical (position_of pos) (other (position_of pos).turn)) 9 },
}

impl Critical {
    fn of(pos: Game) -> Critical
        requires { T (sound (position_of pos)) }
        ensures { result.pos ≡ pos }
    {
        let who = pos.player();
        Critical {
            pos,
            attacker: critical_boards(pos, who),
            defender: critical_boards(pos, who.other()),
        }
    }

    fn analysis(self) -> Analysis
        ensures { (result.proven ≡ status_of (or_unproven (merged (position_of self.pos)))) ×
            (endgame_stats_of result.stats ≡ endgame_stats (position_of self.pos)) }
    {
        let attacker = self.attacker != 0;
        let defender = self.defender != 0;
        let wins = self.prove_attacker();
        let loses = !wins && self.forced_loss();
        let x = is_winnable(self.pos, Player::X);
        let o = is_winnable(self.pos, Player::O);
        let stats = EndgameStats {
            attacker_critical: usize::from(attacker),
            defender_critical: usize::from(defender),
            both_critical: usize::from(attacker && defender),
            unwinnable: usize::from(!x) + usize::from(!o),
            prove_attacker: usize::from(wins),
            prove_defender: usize::from(loses),
        };
        Analysis {
            proven: combined(self.pos.player(), wins, loses, x, o),
            stats,
        }
    }

    // By guards, as in `forced_loss`: one chain would hold all that is said of the due board, with its sets, in a closure.
    #[tactic(auto, using(crate::proofs::PartsAttack::attacks))]
    fn prove_attacker(self) -> bool
        ensures { result ≡ prove_attacker (position_of self.pos) }
    {
        if self.attacker == 0 {
            return false;
        }
        // With a critical board in which the attacker may play, she wins.
        let Some(due) = self.pos.board_to_play() else {
            return true;
        };
        let board = due as usize;
        if holds(self.attacker, board) {
            return true;
        }
        // Can the defender be made to send the attacker where she wins? Not from a board in which the defender wins, blocks or takes, nor
        // from this one, which the attacker's move could close, leaving the defender free.
        let dests = dests_of(self.pos, board, self.attacker | self.defender);
        let want = self.pos.global_states.donebits() | self.attacker;
        any_sends_to(self.pos, dests, want)
    }

    #[tactic(auto, using(crate::proofs::PartsAttack::losses))]
    fn forced_loss(self) -> bool
        ensures { result ≡ forced_loss (position_of self.pos) }
    {
        if self.defender == 0 {
            return false;
        }
        // With free choice nothing is forced, and in a critical board the defender could be blocked.
        let Some(due) = self.pos.board_to_play() else {
            return false;
        };
        let board = due as usize;
        let bad = self.pos.global_states.donebits() | self.defender;
        !holds(self.defender, board) && sends_to(self.pos, board, bad)
    }
}

// What is proved of the side to move, who wins, or loses, or neither. Two facts and no `Option<Player>`: each is also counted by itself.
#[tactic(auto, using(crate::proofs::MeansStatuses::proofs_of_a_side))]
fn proven_of(who: Player, wins: bool, loses: bool) -> Status
    ensures { result ≡ status_of (proven who wins loses) }
{
    if wins {
        Status::for_player(who)
    } else if loses {
        Status::for_player(who.other())
    } else {
        Status::unproven()
    }
}

// What is left of a set if a side can no longer win. Nothing is said of a byte that is no set's: `combined`, the only caller, has none.
fn limited(can: bool, left: Status, proven: Option<Status>) -> Option<Status>
    ensures { Narrows can left proven result }
{
    if can { proven } else { proven?.merge(left) }
}

// What is proved and what can still be won are not in conflict, so the Rust's two panics are never met.
fn combined(who: Player, wins: bool, loses: bool, x: bool, o: bool) -> Status
    requires { Agrees (combine who wins loses x o) }
    ensures { result ≡ status_of (or_unproven (combine who wins loses x o)) }
{
    let proven = Some(proven_of(who, wins, loses));
    let without_x = limited(x, Status::draw_or_o(), proven);
    let without_o = limited(o, Status::draw_or_x(), without_x);
    without_o.unwrap()
}

fn is_winnable(pos: Game, by: Player) -> bool
    ensures { result ≡ winnable (position_of pos) by }
{
    has_line(pos.global_states.playerbits(by) | pos.global_states.openbits())
}

// Whether a set of boards holds a board.
fn holds(set: u32, board: usize) -> bool
    ensures { result ≡ bit set board }
{
    board < 32 && (set >> board) & 1 == 1
}

// Whether every empty cell of a board sends to a wanted one.
fn sends_to(pos: Game, board: usize, want: u32) -> bool
    ensures { result ≡ all (λ c. not (free_cell (position_of pos) board c) || bit want c) nine }
{
    pos.local_boards.free_squares(board) & !want == 0
}

// The other boards in play to which a board's empty cells send, but for the critical ones.
fn dests_of(pos: Game, board: usize, critical: u32) -> u32
    ensures { result ≡ digits (λ i. free_cell (position_of pos) board i &&
        (open_board (position_of pos) i && (not (bit critical i) && not (eqb i board)))) 9 }
{
    let dests = pos.local_boards.free_squares(board) & pos.global_states.openbits() & !critical;
    if board < 9 {
        dests & !(1u32 << board)
    } else {
        dests
    }
}

// Whether one of the boards sends only to wanted ones.
fn any_sends_to(pos: Game, dests: u32, want: u32) -> bool
    ensures { result ≡ any (λ i. bit dests i && all (λ c. not (free_cell (position_of pos) i c) || bit want c) nine) nine }
{
    (0..9).any(|board| holds(dests, board) && sends_to(pos, board, want))
}

// Whether the line of a mask lacks one place only, which is empty.
fn lacks_one(player: u32, empty: u32, mask: u32) -> bool
    ensures { result ≡ lacks_one player empty mask }
{
    (player | empty) & mask == mask && (empty & mask).count_ones() == 1
}

// Whether one of the eight lines does.
fn has_line_lacking_one(player: u32, empty: u32) -> bool
    ensures { result ≡ list_any (lacks_one player empty) masks }
{
    WIN_MASKS.iter().any(|&mask| lacks_one(player, empty, mask))
}

// The board that a line lacks only, if the player could win it at once.
#[tactic(auto, using(crate::proofs::PartsCritical::lacked_boards))]
fn critical_board(pos: Game, who: Player, mask: u32) -> u32
    ensures { result ≡ digits (critical_by (position_of pos) who mask) 9 }
{
    let boards = pos.local_boards;
    let open = pos.global_states.openbits();
    if !lacks_one(pos.global_states.playerbits(who), open, mask) {
        return 0;
    }
    let lacked = open & mask;
    let board = lacked.trailing_zeros() as usize;
    if has_line_lacking_one(boards.playerbits(who, board), boards.free_squares(board)) {
        lacked
    } else {
        0
    }
}

fn critical_boards(pos: Game, who: Player) -> u32
    requires { T (sound (position_of pos)) }
    ensures { result ≡ digits (critical (position_of pos) who) 9 }
{
    WIN_MASKS
        .iter()
        .fold(0, |out, &mask| out | critical_board(pos, who, mask))
}
