// Refusals with document 01's numbers.
ghost use Rattle.std.specs.Prelude.{◌≡◌, ◌<◌, ℕ};
ghost use Rattle.rules.specs.Refusal.{answer_number};

// Why something is refused: its number, which is never 0.
pub trait Refusal {
    ghost number_of: { Self → ℕ };

    fn number(self) -> u64
        ensures { result ≡ number_of self };

    ghost never_0: { (why : Self) → 0 < number_of why };
}

// The number of an answer, 0 where nothing is refused.
pub fn number<T: Copy, E: Refusal + Copy>(answer: Result<T, E>) -> u64
    ensures { result ≡ answer_number E.number_of answer }
{
    match answer {
        Ok(_) => 0,
        Err(why) => why.number(),
    }
}
