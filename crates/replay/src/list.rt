// A list of records, read from standard input and counted.
ghost use Rattle.std.specs.Prelude.{◌≡◌, List, ℕ};
ghost use Rattle.replay.specs.declared.totals.Comparison.{Comparison};
ghost use Rattle.replay.specs.ListCounted.{CountsFrom, Replays};

use crate::totals::{Comparison, Conclusion, Failure, Totals};
use input::Input;
use std::marker::PhantomData;
use std::rt::Stdin;

// What a list's records are compared with. A trait: a closure would need a condition on what it is handed, and `run` asks for none.
pub trait Records {
    ghost outcome_of: { List ℕ → Comparison };

    // What is found of a line.
    fn outcome(line: &[u8]) -> Comparison
        ensures { result ≡ outcome_of line.now };
}

// The same for records with memory to work in. What implements it is the memory: `outcome_of` is the type's, so whatever stands there, the
// same is found of a line.
pub trait Replayer {
    ghost outcome_of: { List ℕ → Comparison };

    // What is found of a line. Of what is left in the memory nothing is said, and nothing can depend on it.
    fn outcome(&mut self, line: &[u8]) -> Comparison
        ensures { result ≡ outcome_of line.now };
}

// Records without memory: what is lent holds nothing.
impl<R: Records> Replayer for PhantomData<R> {
    ghost outcome_of = { R.outcome_of };

    fn outcome(&mut self, line: &[u8]) -> Comparison
        ensures { result ≡ R.outcome_of line.now }
    {
        R::outcome(line)
    }
}

// Counts the records of an input, a line each, up to its end, to what fails, or to as many as can be counted.
fn count_all<R: Replayer>(records: &mut R, totals: &mut Totals, stdin: Stdin) -> Result<(), Failure>
    ensures { CountsFrom R.outcome_of totals.old totals.new result }
{
    let mut buffer = io::large_buffer();
    let mut kept = io::buffer();
    let mut input = Input::new();
    // A proved loop has to end, and nothing says that the input does: the lines counted are fewer than a bound that no run reaches.
    while totals.may_go_on() {
        let Some(line) = input.next_line(stdin, &mut buffer, &mut kept)? else {
            return Ok(());
        };
        totals.count(records.outcome(line.whole(&kept)))?;
    }
    Ok(())
}

// Counts the records of an input, and concludes.
pub fn run_with<R: Replayer>(records: &mut R, stdin: Stdin, said: &[u8]) -> Conclusion
    ensures { Replays R.outcome_of said.now result }
{
    let mut totals = Totals::new();
    let counted = count_all(records, &mut totals, stdin);
    totals.conclude(said, counted)
}

// The same of records without memory: a caller names their type, and needs no value of it.
pub fn run<R: Records>(stdin: Stdin, said: &[u8]) -> Conclusion
    ensures { Replays R.outcome_of said.now result }
{
    run_with(&mut PhantomData::<R>, stdin, said)
}
