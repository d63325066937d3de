// A line of any length, held in bounded memory: its first 257 bytes, where its last blank stands, and what follows that blank.
#![tactic(auto)]

ghost use Rattle.std.specs.Prelude.{◌≡◌, ◌==◌, [], ◌∷◌, ◌<◌, IfSome, eqb, length, position};
ghost use Rattle.text.specs.ProgramLine.{depth_of};
ghost use Rattle.base.specs.LineFeed.{line_feed};
ghost use Rattle.std.proofs.Common.{rules};
ghost use Rattle.line_buffer.specs.Buffer.{bad_depth_number, after_with, depth_after, depth_held};
ghost use Rattle.line_buffer.specs.Buffer.{new_buffer, pushed, pushed_all, buffer_text};
ghost use Rattle.line_buffer.specs.Taking.{BuffersLine};

use byte_row::ByteRow;
use rules::Refusal;

// Why a line asks nothing: it has no blank, or after its last blank stands anything but one or two digits.
#[derive(Clone, Copy, PartialEq, Eq)]
pub struct BadDepth;

impl Refusal for BadDepth {
    ghost number_of = { bad_depth_number };

    ghost never_0 = { Prim.search rules };

    fn number(self) -> u64
        ensures { result ≡ bad_depth_number self }
    {
        19
    }
}

// What follows the last blank. `Other`: more than two bytes, or there is no blank. It stands beside the kept bytes: those of a text that
// is too long to be read end before the depth does.
#[derive(Clone, Copy)]
pub enum AfterBlank {
    Nothing,
    One(u8),
    Two(u8, u8),
    Other,
}

// What one digit says.
#[tactic(auto, using(crate::proofs::BufferDepth::digit_says, crate::proofs::BufferDepth::no_digit))]
fn digit(b: u8) -> Option<u8>
    ensures value { result ≡ depth_of (b ∷ []) }
    ensures bound { IfSome result (λ n. n < 10) }
{
    if b.is_ascii_digit() {
        Some(b - b'0')
    } else {
        None
    }
}

impl AfterBlank {
    // With a byte that is no blank.
    fn longer(self, b: u8) -> AfterBlank
        ensures { result ≡ after_with self b }
    {
        match self {
            AfterBlank::Nothing => AfterBlank::One(b),
            AfterBlank::One(a) => AfterBlank::Two(a, b),
            AfterBlank::Two(_, _) => AfterBlank::Other,
            AfterBlank::Other => AfterBlank::Other,
        }
    }

    #[tactic(auto, using(crate::proofs::BufferDepth::two_digits), unfolding(text::specs::ProgramLine::depth_of))]
    pub fn depth(self) -> Option<u8>
        ensures { result ≡ depth_after self }
    {
        match self {
            AfterBlank::One(a) => digit(a),
            AfterBlank::Two(a, b) => Some(10 * digit(a)? + digit(b)?),
            AfterBlank::Nothing | AfterBlank::Other => None,
        }
    }
}

// The place of the first line feed.
fn first_feed(bytes: &[u8]) -> Option<usize>
    ensures { result ≡ position (λ b. b == line_feed) bytes.now }
{
    bytes.iter().position(|b| *b == b'\n')
}

// The first 257 bytes are kept, one more than the longest text that is read: a longer one is refused by them. `text` of these stand before
// the last blank.
#[derive(Clone, Copy)]
pub struct LineBuffer {
    kept: ByteRow<257>,
    text: usize,
    after: AfterBlank,
}

impl LineBuffer {
    // The empty line.
    pub fn new() -> LineBuffer
        ensures { result ≡ new_buffer }
    {
        LineBuffer {
            kept: ByteRow::new(),
            text: 0,
            after: AfterBlank::Other,
        }
    }

    // One byte more: a blank is the last one so far.
    #[tactic(auto, unfolding(crate::specs::Buffer::pushed))]
    pub fn push(&mut self, b: u8)
        ensures { self.new ≡ pushed self.old b }
    {
        if b == b' ' {
            self.text = self.kept.len();
            self.after = AfterBlank::Nothing;
        } else {
            self.after = self.after.longer(b);
        }
        self.kept.push(b);
    }

    // Some bytes more, line feeds as any other.
    pub fn push_all(&mut self, bytes: &[u8])
        ensures { self.new ≡ pushed_all self.old bytes.now }
    {
        for &b in bytes {
            self.push(b);
        }
    }

    pub fn is_empty(&self) -> bool
        ensures { result ≡ eqb (length self.now.kept) 0 }
    {
        self.kept.is_empty()
    }

    // Takes the bytes up to a line feed, and answers what follows it; or all, and the line goes on.
    #[tactic(auto, using(crate::proofs::Taking::feed_line, crate::proofs::Taking::feed_rest, crate::proofs::Taking::no_feed))]
    pub fn take<'a>(&mut self, bytes: &'a [u8]) -> Option<&'a [u8]>
        ensures { BuffersLine self.old bytes.now self.new result }
    {
        match first_feed(bytes) {
            Some(end) => {
                self.push_all(&bytes[..end]);
                Some(&bytes[end + 1..])
            }
            None => {
                self.push_all(bytes);
                None
            }
        }
    }

    pub fn depth(&self) -> Result<u8, BadDepth>
        ensures { result ≡ depth_held self.now }
    {
        self.after.depth().ok_or(BadDepth)
    }

    // What is held of the position's text.
    pub fn text(&self) -> &[u8]
        ensures { result.now ≡ buffer_text self.now }
    {
        let kept = self.kept.as_slice();
        &kept[..self.text.min(kept.len())]
    }
}
