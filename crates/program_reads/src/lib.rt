// The answers to the lines of an input that comes in reads.
#![tactic(auto)]

ghost use Rattle.std.specs.Prelude.{◌≡◌, ltb};
ghost use Rattle.program_reads.specs.Promises.{buffer_answer, last_answer, new_program, values, AnswersNext};

use answer_text::AnswerText;
use line_buffer::LineBuffer;

// The line that goes on from read to read, and how many reads may still come. A proved loop has to end, and nothing says that the
// input does: reads are counted down from a number that no run uses up.
#[derive(Clone, Copy)]
pub struct Program {
    line: LineBuffer,
    reads: u64,
}

// A line's answer and a line feed.
fn answered(line: &LineBuffer) -> AnswerText
    ensures { result ≡ buffer_answer line.now }
{
    program_line::answer(line).push(b'\n')
}

impl Program {
    pub fn new() -> Program
        ensures { result ≡ new_program }
    {
        Program {
            line: LineBuffer::new(),
            reads: u64::MAX,
        }
    }

    pub fn may_read(&self) -> bool
        ensures { result ≡ ltb 0 self.now.reads }
    {
        self.reads > 0
    }

    // The answer to the line that ends next in the bytes, and the bytes after it; or the line goes on into the next read.
    pub fn next<'a>(&mut self, bytes: &'a [u8]) -> Option<(AnswerText, &'a [u8])>
        ensures { AnswersNext self.old bytes.now self.new (values result) }
    {
        let Some(rest) = self.line.take(bytes) else {
            self.reads = self.reads.saturating_sub(1);
            return None;
        };
        let text = answered(&self.line);
        self.line = LineBuffer::new();
        Some((text, rest))
    }

    // The answer to a last line without a line feed, if there is anything on it.
    pub fn last(&self) -> Option<AnswerText>
        ensures { result ≡ last_answer self.now.line }
    {
        if self.line.is_empty() {
            None
        } else {
            Some(answered(&self.line))
        }
    }
}
