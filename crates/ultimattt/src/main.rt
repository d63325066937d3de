// For each line `position depth` of standard input a line with its answer. There may be any number of lines, of any length.
#![tactic(auto)]

ghost use Rattle.std.specs.Prelude.{◌≡◌, None, true, option_map};
ghost use Rattle.std.specs.Result.{result_ok};
ghost use Rattle.std.specs.Io.{ReadsAtMost};
ghost use Rattle.answer_text.specs.AnswerBytes.{text_of_bytes};
ghost use Rattle.ultimattt.specs.Runs.{new_run, goes_on, AfterFeeding, AfterRead, SomeRun, last_of_run, told_of_run, Concluded};

use answer_text::AnswerText;
use program_reads::Program;
use std::io::Read;
use std::rt::Stdin;

const STDOUT_FILENO: i32 = 1;

const STDERR_FILENO: i32 = 2;

// How a run stands after its reads. Two of the four are no failure, so a `Result` would hold a second enum.
#[derive(Clone, Copy)]
enum Progress {
    Reading,
    InputEnded,
    ReadFailed,
    WriteFailed,
}

// A run so far: the program after all reads whose answers could be written, and how the run stands.
#[derive(Clone, Copy)]
struct ProgramRun {
    program: Program,
    progress: Progress,
}

// What is to be written at the end of a run, and what is to be told on standard error, if anything.
#[derive(Clone, Copy)]
struct RunEnd {
    text: Option<AnswerText>,
    told: Option<AnswerText>,
}

// Writes a text, if there is one, and answers whether all of it could be written.
fn written(fd: i32, text: &Option<AnswerText>) -> bool
    ensures { text.now ≡ None → result ≡ true }
{
    match text {
        Some(text) => io::write_all(fd, text.as_slice()),
        None => true,
    }
}

// Writes the answers to the lines that end in a read's bytes. Where one can't be written the program is as it was before the read.
fn feed(begun: Program, bytes: &[u8]) -> ProgramRun
    ensures { AfterFeeding begun bytes.now result }
{
    let mut program = begun;
    let mut left = bytes;
    while let Some((text, rest)) = program.next(left) {
        if !io::write_all(STDOUT_FILENO, text.as_slice()) {
            return ProgramRun {
                program: begun,
                progress: Progress::WriteFailed,
            };
        }
        left = rest;
    }
    ProgramRun {
        program,
        progress: Progress::Reading,
    }
}

impl ProgramRun {
    fn new() -> ProgramRun
        ensures { result ≡ new_run }
    {
        ProgramRun {
            program: Program::new(),
            progress: Progress::Reading,
        }
    }

    // Whether one more read comes.
    fn goes_on(&self) -> bool
        ensures { result ≡ goes_on self.now }
    {
        match self.progress {
            Progress::Reading => self.program.may_read(),
            Progress::InputEnded | Progress::ReadFailed | Progress::WriteFailed => false,
        }
    }

    // One read more: what `read` returned, and the buffer.
    fn after_read(self, read: std::io::Result<usize>, buffer: &[u8]) -> ProgramRun
        requires { ReadsAtMost read buffer.now }
        ensures { AfterRead self.program (result_ok read) buffer.now result }
    {
        match read {
            Err(_) => ProgramRun {
                progress: Progress::ReadFailed,
                ..self
            },
            Ok(0) => ProgramRun {
                progress: Progress::InputEnded,
                ..self
            },
            Ok(n) => feed(self.program, &buffer[..n]),
        }
    }

    // The answer to the last line, if the input ended.
    fn last(&self) -> Option<AnswerText>
        ensures { result ≡ last_of_run self.now.progress self.now.program }
    {
        match self.progress {
            Progress::InputEnded => self.program.last(),
            Progress::Reading | Progress::ReadFailed | Progress::WriteFailed => None,
        }
    }
}

impl Progress {
    // What is told on standard error, if anything. `written`: the last answer could be written.
    fn told(self, written: bool) -> Option<AnswerText>
        ensures { result ≡ option_map text_of_bytes (told_of_run self written) }
    {
        let said = AnswerText::new();
        match (self, written) {
            (Progress::InputEnded, true) => None,
            (Progress::InputEnded, false) => {
                Some(said.text(b"ultimattt: writing failed, the last answer is missing\n"))
            }
            (Progress::Reading, _) => {
                Some(said.text(
                    b"ultimattt: too many reads, the rest of the input is not answered\n",
                ))
            }
            (Progress::ReadFailed, _) => {
                Some(said.text(
                    b"ultimattt: reading failed, what came of the last line is not answered\n",
                ))
            }
            (Progress::WriteFailed, _) => {
                Some(said.text(b"ultimattt: writing failed, answers are missing\n"))
            }
        }
    }
}

// Goes on with standard input until it ends, something fails or the reads are used up.
fn answer_from(begun: ProgramRun, mut stdin: Stdin) -> ProgramRun
    ensures { SomeRun begun result }
{
    let mut buffer = io::large_buffer();
    let mut run = begun;
    while run.goes_on() {
        let read = stdin.read(&mut buffer);
        run = run.after_read(read, &buffer);
    }
    run
}

// Answers standard input.
fn answer_input(stdin: Stdin) -> ProgramRun
    ensures { SomeRun new_run result }
{
    answer_from(ProgramRun::new(), stdin)
}

// Writes the last answer, if there is one. There is no exit status: what failed is told on standard error.
#[tactic(auto, using(crate::proofs::Runs::concluded))]
fn conclude(run: ProgramRun) -> RunEnd
    ensures { Concluded run result }
{
    let text = run.last();
    let told = run.progress.told(written(STDOUT_FILENO, &text));
    written(STDERR_FILENO, &told);
    RunEnd { text, told }
}

fn main(rt: HostRuntime) {
    conclude(answer_input(rt.stdin()));
}
