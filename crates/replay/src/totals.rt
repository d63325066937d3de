// How many records agree, and what is printed of them.
ghost use Rattle.std.specs.Prelude.{◌≡◌, option_map};
ghost use Rattle.answer_text.specs.AnswerBytes.{text_of_bytes};
ghost use Rattle.replay.specs.Totals.{comparison, new_totals, with_record, written, Prints, RecordCounted, may_go_on};
ghost use Rattle.replay.specs.Totals.{record_text, verdict_text, failure_text, Concludes};

use answer_text::AnswerText;
use input::ReadFailed;

const STDOUT_FILENO: i32 = 1;

const STDERR_FILENO: i32 = 2;

// What is found of a record. `Apart`: it agrees, with document 01's answer in place of the Rust's.
#[derive(Clone, Copy, PartialEq, Eq)]
pub enum Comparison {
    Agrees,
    Apart,
    Differs,
}

impl Comparison {
    // By whether a record agrees, and whether it then is apart.
    pub fn of(agrees: bool, apart: bool) -> Comparison
        ensures { result ≡ comparison agrees apart }
    {
        match (agrees, apart) {
            (true, true) => Comparison::Apart,
            (true, false) => Comparison::Agrees,
            (false, _) => Comparison::Differs,
        }
    }
}

// Why not all of a list was counted, or not all of it printed.
#[derive(Clone, Copy)]
pub enum Failure {
    Reading,
    Writing,
}

// How many records there are, how many of them agree, and how many of these are apart.
#[derive(Clone, Copy)]
pub struct Totals {
    pub records: usize,
    pub agreed: usize,
    pub apart: usize,
}

// The end of a list: the totals, what was to be printed of them, what failed, and what was to be told of that on standard error.
#[derive(Clone, Copy)]
pub struct Conclusion {
    pub totals: Totals,
    pub text: Option<AnswerText>,
    pub ended: Result<(), Failure>,
    pub told: Option<AnswerText>,
}

impl From<ReadFailed> for Failure {
    ghost use Rattle.replay.specs.declared.totals.Failure.TheVariants.{Reading};

    ghost from_gives = { λ _ failure. failure ≡ Reading };

    fn from(_why: ReadFailed) -> Failure
        ensures { result ≡ Reading }
    {
        Failure::Reading
    }
}

impl Failure {
    // What is told of it.
    fn text(self) -> AnswerText
        ensures { result ≡ text_of_bytes (failure_text self) }
    {
        let said = AnswerText::new();
        match self {
            Failure::Reading => said.text(b"reading failed: the list is not whole\n"),
            Failure::Writing => said.text(b"writing failed: not all is printed\n"),
        }
    }
}

// What is answered of a print, by whether all of it was written.
fn written(all: bool) -> Result<(), Failure>
    ensures { result ≡ written all }
{
    if all { Ok(()) } else { Err(Failure::Writing) }
}

// Prints a text, if there is one.
fn print(file: i32, text: &Option<AnswerText>) -> Result<(), Failure>
    ensures { Prints text.now result }
{
    match text {
        Some(text) => written(io::write_all(file, text.as_slice())),
        None => Ok(()),
    }
}

// What is printed of a record, by its number: nothing if it agrees.
fn record_text(number: usize, outcome: Comparison) -> Option<AnswerText>
    ensures { result ≡ option_map text_of_bytes (record_text number outcome) }
{
    match outcome {
        Comparison::Agrees | Comparison::Apart => None,
        Comparison::Differs => {
            let begun = AnswerText::new().text(b"differs: record ");
            Some(begun.decimal(number as u64).push(b'\n'))
        }
    }
}

impl Totals {
    pub fn new() -> Totals
        ensures { result ≡ new_totals }
    {
        Totals {
            records: 0,
            agreed: 0,
            apart: 0,
        }
    }

    // One record more.
    fn with_record(self, outcome: Comparison) -> Totals
        ensures { result ≡ with_record self outcome }
    {
        let more = Totals {
            records: self.records.saturating_add(1),
            ..self
        };
        match outcome {
            Comparison::Agrees => Totals {
                agreed: self.agreed.saturating_add(1),
                ..more
            },
            Comparison::Apart => Totals {
                agreed: self.agreed.saturating_add(1),
                apart: self.apart.saturating_add(1),
                ..more
            },
            Comparison::Differs => more,
        }
    }

    // One record more, and what is to be printed of it.
    fn add(&mut self, outcome: Comparison) -> Option<AnswerText>
        ensures { (self.new ≡ with_record self.old outcome) ×
            (result ≡ option_map text_of_bytes (record_text self.new.records outcome)) }
    {
        *self = self.with_record(outcome);
        record_text(self.records, outcome)
    }

    // One record more; one that differs is printed with its number.
    pub fn count(&mut self, outcome: Comparison) -> Result<(), Failure>
        ensures { RecordCounted self.old outcome self.new result }
    {
        print(STDOUT_FILENO, &self.add(outcome))
    }

    // Whether records may go on to be counted.
    pub fn may_go_on(self) -> bool
        ensures { result ≡ may_go_on self }
    {
        self.records < usize::MAX
    }

    // How many agree, and how many of them are apart with what is said of those.
    pub fn verdict(self, said: &[u8]) -> AnswerText
        ensures { result ≡ text_of_bytes (verdict_text self said.now) }
    {
        let agreed = AnswerText::new().decimal(self.agreed as u64);
        let records = agreed.text(b" of ").decimal(self.records as u64);
        let agree = records.text(b" records agree");
        if self.apart == 0 {
            return agree.push(b'\n');
        }
        let apart = agree.text(b", ").decimal(self.apart as u64);
        apart.text(b" of them ").text(said).push(b'\n')
    }

    // The end of a list, by whether all of it was counted: the verdict is printed then, and what failed is told on standard error.
    pub fn conclude(self, said: &[u8], counted: Result<(), Failure>) -> Conclusion
        ensures { Concludes self said.now counted result }
    {
        let text = counted.is_ok().then_some(self.verdict(said));
        let ended = counted.and(print(STDOUT_FILENO, &text));
        let told = ended.err().map(Failure::text);
        let _ = print(STDERR_FILENO, &told);
        Conclusion {
            totals: self,
            text,
            ended,
            told,
        }
    }
}
