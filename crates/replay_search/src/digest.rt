// What the driver around the Rust prints of a memory: digests (FNV-1a, 64 bits), and how many responses and entries there are.
ghost use Rattle.std.specs.Prelude.{◌≡◌, not, ◌≤◌, count_by, eqb};
ghost use Rattle.std.specs.Int.{w64, to_le_bytes};
ghost use Rattle.rules.specs.Play.{no_move};
ghost use Rattle.minimax.specs.Report.{bytes_of, responses_of};
ghost use Rattle.replay_search.specs.Digests.{mixed, mixed_all, responses_digest, response_count};
ghost use Rattle.replay_search.specs.Digests.{table_digest, entry_count};

use boards::Move;
use minimax::{Minimax, ResponseTables};

const START: u64 = 0xcbf29ce484222325;

const PRIME: u64 = 0x100000001b3;

#[tactic(auto, unfolding(crate::specs::Digests::mixed))]
fn mixed(h: u64, b: u8) -> u64
    ensures { result ≡ mixed h b }
{
    (h ^ u64::from(b)).wrapping_mul(PRIME)
}

// The eight bytes of a word, the lowest first.
fn mixed_word(h: u64, word: u64) -> u64
    ensures { result ≡ mixed_all h (to_le_bytes w64 word) }
{
    word.to_le_bytes()
        .iter()
        .fold(h, |digest, &b| mixed(digest, b))
}

fn mixed_moves(h: u64, moves: [Move; 256]) -> u64
    ensures { result ≡ mixed_all h (bytes_of moves) }
{
    moves.iter().fold(h, |digest, m| mixed(digest, m.bits))
}

pub fn of_responses(state: Minimax) -> u64
    ensures { result ≡ responses_digest (responses_of state.responses) }
{
    let ResponseTables { x, o } = state.responses;
    mixed_moves(mixed_moves(START, x), o)
}

pub fn of_table(words: &[u64]) -> u64
    ensures { result ≡ table_digest words.now }
{
    words
        .iter()
        .fold(START, |digest, &word| mixed_word(digest, word))
}

// How many of a side's moves have a response.
fn responses_to(moves: [Move; 256]) -> usize
    ensures { (result ≡ count_by (λ m. not (eqb m.bits no_move)) moves) × (result ≤ 256) }
{
    moves.iter().filter(|m| m.is_some()).count()
}

// How many moves have a response.
pub fn response_count(state: Minimax) -> u64
    ensures { result ≡ response_count (responses_of state.responses) }
{
    let ResponseTables { x, o } = state.responses;
    (responses_to(x) + responses_to(o)) as u64
}

// How many entries are valid: those whose third word is not 0.
pub fn entry_count(words: &[u64]) -> u64
    ensures { result ≡ entry_count words.now }
{
    let mut n: u64 = 0;
    for entry in words.chunks_exact(3) {
        n += u64::from(entry[2] != 0);
    }
    n
}
