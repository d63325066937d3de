// The transposition table in lent words. An entry takes three: its hash, its value in two's complement, and depth, bound and move in one.
// Ported from src/lib/table.rs and the entry of src/lib/minimax.rs of nelhage/ultimattt at commit 87ef0d9c7c (Apache-2.0, see NOTICE),
// changed: one slot, lent words for a box of entries, no index bytes and no statistics.
#![tactic(auto)]

ghost use Rattle.std.specs.Prelude.{◌≡◌, ◌+◌, ◌≤◌, ◌<◌, MatchOption, option_map};
ghost use Rattle.theory.specs.Table.{from_word, to_word, rest_of, entry_of, begins, look_up, replaces, store};
ghost use Rattle.table.specs.Entries.{bound_number, entry_means};

use boards::{Move, PLACES};

#[derive(Clone, Copy, PartialEq, Eq)]
pub enum Bound {
    Exact,
    AtLeast,
    AtMost,
}

#[derive(Clone, Copy)]
pub struct Entry {
    pub value: i64,
    pub depth: u8,
    pub bound: Bound,
    pub pv: Move,
}

// The largest value of an entry, either way.
const WIDEST: i64 = 1152921504606846977;

// The deepest search.
pub const DEEPEST: u64 = PLACES as u64;

// A word as a number in two's complement.
fn from_word(w: u64) -> i64
    ensures { result ≡ from_word w }
{
    w.cast_signed()
}

pub fn to_word(value: i64) -> u64
    ensures { result ≡ to_word value }
{
    value.cast_unsigned()
}

// Where a hash's three words begin, unless there are fewer than three.
fn slot(hash: u64, words: usize) -> Option<usize>
    ensures { MatchOption result (words < 3) (λ i. (3 ≤ words) × (i ≡ begins words hash) × (i + 2 < words)) }
{
    if words < 3 {
        return None;
    }
    let entries = (words / 3) as u64;
    Some(3 * ((hash % entries) as usize))
}

impl From<Bound> for u64 {
    ghost from_gives = { λ bound number. number ≡ bound_number bound };

    fn from(bound: Bound) -> u64
        ensures { result ≡ bound_number bound }
    {
        match bound {
            Bound::Exact => 0,
            Bound::AtLeast => 1,
            Bound::AtMost => 2,
        }
    }
}

// The bound of a number, if it is one's. As `TryFrom<u64>` it would need an error type, which `entry_of` would only drop.
fn bound_of(number: u64) -> Option<Bound>
    ensures { MatchOption result (2 < number) (λ bound. bound_number bound ≡ number) }
{
    match number {
        0 => Some(Bound::Exact),
        1 => Some(Bound::AtLeast),
        2 => Some(Bound::AtMost),
        _ => None,
    }
}

// What an entry's second and third words say.
fn entry_of(value: u64, rest: u64) -> Option<Entry>
    ensures { option_map entry_means result ≡ entry_of value rest }
{
    let value = from_word(value);
    let depth = rest % 256;
    let bound = bound_of(rest / 256 % 256)?;
    let pv = rest / 65536;
    if value < -WIDEST || value > WIDEST || depth == 0 || depth > DEEPEST || pv > 255 {
        return None;
    }
    Some(Entry {
        value,
        depth: depth as u8,
        bound,
        pv: Move { bits: pv as u8 },
    })
}

// The third word of an entry.
fn rest_of(e: Entry) -> u64
    ensures { result ≡ rest_of (entry_means e) }
{
    u64::from(e.depth) + 256 * u64::from(e.bound) + 65536 * u64::from(e.pv.bits)
}

// The entry of a hash, if the table has it.
pub fn lookup(words: &[u64], hash: u64) -> Option<Entry>
    ensures { option_map entry_means result ≡ look_up words.now hash }
{
    let i = slot(hash, words.len())?;
    if words[i] != hash {
        return None;
    }
    entry_of(words[i + 1], words[i + 2])
}

// Whether an entry of a depth replaces what is held.
fn replaces(depth: u8, held: Option<Entry>) -> bool
    ensures { result ≡ replaces depth (option_map entry_means held) }
{
    held.is_none_or(|e| e.depth < depth)
}

// Stores an entry where there is none, or one of less depth.
pub fn store(words: &mut [u64], hash: u64, e: Entry)
    ensures { words.new ≡ store words.old hash (entry_means e) }
{
    let Some(i) = slot(hash, words.len()) else {
        return;
    };
    if replaces(e.depth, entry_of(words[i + 1], words[i + 2])) {
        words[i] = hash;
        words[i + 1] = to_word(e.value);
        words[i + 2] = rest_of(e);
    }
}
