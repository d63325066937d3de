// The eight lines of a square of nine, twice: as three indices and as a mask.
// Ported from src/lib/game.rs of nelhage/ultimattt at commit 87ef0d9c7c (Apache-2.0, see NOTICE), changed: eight masks in turn for the
// lanes of a vector.
#![tactic(auto)]

ghost use Rattle.std.specs.Prelude.{◌≡◌, get_or};
ghost use Rattle.base.specs.Bits.{bit};
ghost use Rattle.rules.specs.Board.{has_line};
ghost use Rattle.lines.specs.Masks.{masks, pattern_at};

pub const WIN_PATTERNS: [[usize; 3]; 8] = [
    // rows
    [0, 1, 2],
    [3, 4, 5],
    [6, 7, 8],
    // columns
    [0, 3, 6],
    [1, 4, 7],
    [2, 5, 8],
    // diagonals
    [0, 4, 8],
    [6, 4, 2],
];

// Place j of line i, 9 where there is none. No code calls it, nor `win_mask`: they are the promise of the two tables (document 01).
pub fn win_pattern(i: usize, j: usize) -> usize
    ensures { result ≡ pattern_at i j }
{
    WIN_PATTERNS
        .get(i)
        .and_then(|places| places.get(j))
        .copied()
        .unwrap_or(9)
}

pub const WIN_MASKS: [u32; 8] = [0x7, 0x38, 0x1c0, 0x49, 0x92, 0x124, 0x111, 0x54];

pub const BOARD_MASK: u32 = 0x1ff;

// The mask of a line, none over 7.
pub fn win_mask(i: usize) -> u32
    ensures { result ≡ get_or masks i 0 }
{
    WIN_MASKS.get(i).copied().unwrap_or(0)
}

// Whether one of the eight lines lies in the bits.
pub fn has_line(bits: u32) -> bool
    ensures { result ≡ has_line (bit bits) }
{
    WIN_MASKS.iter().any(|&m| bits & m == m)
}
