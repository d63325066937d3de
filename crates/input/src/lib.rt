// Lines of standard input, of any length, read into lent memory of any size.
#![tactic(auto)]

ghost use Rattle.std.specs.Prelude.{◌≡◌, set, ok_or};
ghost use Rattle.std.specs.Result.{result_ok};
ghost use Rattle.input.specs.Lines.{one_longer, complete_line, line_at_end, new_input, filled, failed_at, TakesLine, ReadsLine};

use std::io::Read;
use std::rt::Stdin;

// A line as far as it came: its length, and whether its line feed came.
#[derive(Clone, Copy)]
pub struct InputLine {
    pub length: usize,
    pub ended: bool,
}

// The bytes of the buffer from `at` up to `end` are not yet used.
#[derive(Clone, Copy)]
pub struct Input {
    pub at: usize,
    pub end: usize,
}

// A read failed before the line's end came: what came of the line.
#[derive(Clone, Copy)]
pub struct ReadFailed {
    pub line: InputLine,
}

impl InputLine {
    pub const NEW: InputLine = InputLine {
        length: 0,
        ended: false,
    };

    // One byte more. It is kept if there is room.
    pub fn push(self, b: u8, kept: &mut [u8]) -> InputLine
        ensures { (result ≡ one_longer self) × (kept.new ≡ set kept.old self.length b) }
    {
        if self.length < kept.len() {
            kept[self.length] = b;
        }
        InputLine {
            length: self.length.saturating_add(1),
            ..self
        }
    }

    // The line, or nothing if not all of it was kept.
    pub fn whole(self, kept: &[u8]) -> &[u8]
        ensures { result.now ≡ complete_line self kept.now }
    {
        if self.length <= kept.len() {
            &kept[..self.length]
        } else {
            &[]
        }
    }

    // The line where no more comes: none if neither a byte nor a line feed came.
    fn at_end(self) -> Option<InputLine>
        ensures { result ≡ line_at_end self }
    {
        (self.ended || self.length > 0).then_some(self)
    }
}

impl Input {
    pub fn new() -> Input
        ensures { result ≡ new_input }
    {
        Input { at: 0, end: 0 }
    }

    // Takes the buffer's bytes up to the line's end, or all: the line with them.
    pub fn take(&mut self, line: InputLine, buffer: &[u8], kept: &mut [u8]) -> InputLine
        ensures { TakesLine self.old line buffer.now kept.old result self.new kept.new }
    {
        let mut line = InputLine {
            ended: false,
            ..line
        };
        let end = self.end.min(buffer.len());
        for b in &buffer[self.at.min(end)..end] {
            self.at += 1;
            if *b == b'\n' {
                line.ended = true;
                return line;
            }
            line = line.push(*b, kept);
        }
        line
    }

    // The bytes of a read to use, and how many they are; or that it failed, with what came of the line.
    fn fill(&mut self, read: std::io::Result<usize>, line: InputLine) -> Result<usize, ReadFailed>
        ensures { (self.new ≡ filled (result_ok read)) × (result ≡ ok_or (result_ok read) (failed_at line)) }
    {
        *self = Input::new();
        self.end = read.map_err(|_| ReadFailed { line })?;
        Ok(self.end)
    }

    // The next line: reads until its end is met, the input ends or a read fails. None if the input ended with nothing on its last line.
    pub fn next_line(
        &mut self,
        mut stdin: Stdin,
        buffer: &mut [u8],
        kept: &mut [u8],
    ) -> Result<Option<InputLine>, ReadFailed>
        ensures { ReadsLine self.old buffer.old kept.old result self.new buffer.new kept.new }
    {
        let mut line = InputLine::NEW;
        // A proved loop has to end, and nothing says that the input does: reads are counted up to a number that no run uses up.
        for _turn in 0..u64::MAX {
            line = self.take(line, buffer, kept);
            if line.ended {
                return Ok(Some(line));
            }
            let read = stdin.read(buffer);
            if self.fill(read, line)? == 0 {
                return Ok(line.at_end());
            }
        }
        Ok(self.take(line, buffer, kept).at_end())
    }
}
