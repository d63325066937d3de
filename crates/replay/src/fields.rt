// Fields of a line, parted by tabs.
ghost use Rattle.std.specs.Prelude.{◌≡◌, ◌==◌, position};
ghost use Rattle.replay.specs.Fields.{until_tab, past_tab, field, tabs};

const TAB: u8 = b'\t';

fn first_tab(line: &[u8]) -> Option<usize>
    ensures { result ≡ position (λ b. b == TAB) line.now }
{
    line.iter().position(|b| *b == TAB)
}

// What stands before the first tab.
fn until_tab(line: &[u8]) -> &[u8]
    ensures { result.now ≡ until_tab line.now }
{
    match first_tab(line) {
        Some(at) => &line[..at],
        None => line,
    }
}

// What stands after it.
fn past_tab(line: &[u8]) -> &[u8]
    ensures { result.now ≡ past_tab line.now }
{
    match first_tab(line) {
        Some(at) => &line[at + 1..],
        None => &[],
    }
}

// Field k, counted from 0; nothing if the line has none so far on.
// Tab by tab: by `split(..).nth(k)` it was tried, and the proof did not close (`nth` promises of each run of `split`, not of the parts).
pub fn field(line: &[u8], k: usize) -> &[u8]
    ensures { result.now ≡ field k line.now }
{
    let mut rest = line;
    for _ in 0..k {
        rest = past_tab(rest);
    }
    until_tab(rest)
}

// How many tabs a line has: one less than its fields.
pub fn tabs(line: &[u8]) -> usize
    ensures { result ≡ tabs line.now }
{
    line.iter().filter(|b| **b == TAB).count()
}
