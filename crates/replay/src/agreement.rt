// A record's numbers, compared with the expected ones as these come.
ghost use Rattle.std.specs.Prelude.{◌≡◌, Some, option_copied};
ghost use Rattle.replay.specs.Agreement.{left_of, compared, compared_all, wholly_agrees};

// The record's numbers that are left to meet: none where one that came was not as expected.
#[derive(Clone, Copy)]
pub struct Agreement<'a> {
    pub left: Option<&'a [u64]>,
}

// The numbers after n, if it is the first of them.
fn after(numbers: &[u64], n: u64) -> Option<&[u64]>
    ensures { option_copied result ≡ compared (Some numbers.now) n }
{
    let (first, left) = numbers.split_first()?;
    (*first == n).then_some(left)
}

impl<'a> Agreement<'a> {
    // No number came yet.
    pub fn new(numbers: &'a [u64]) -> Agreement<'a>
        ensures { left_of result ≡ Some numbers.now }
    {
        Agreement {
            left: Some(numbers),
        }
    }

    // The next number is to be n.
    #[tactic(auto, unfolding(crate::specs::Agreement::compared))]
    pub fn number(self, n: u64) -> Agreement<'a>
        ensures { left_of result ≡ compared (left_of self.entry) n }
    {
        Agreement {
            left: self.left.and_then(|numbers| after(numbers, n)),
        }
    }

    // A loop, since the law of `fold` asks what the next state is, and of an Agreement only what is left is promised.
    pub fn numbers(self, ns: &[u64]) -> Agreement<'a>
        ensures { left_of result ≡ compared_all (left_of self.entry) ns.now }
    {
        let mut agreement = self;
        for n in ns {
            agreement = agreement.number(*n);
        }
        agreement
    }

    // Beside `numbers`: the promise of a generic one would need a trait by which a u8 and a u64 have their values, as long as this.
    pub fn bytes(self, bytes: &[u8]) -> Agreement<'a>
        ensures { left_of result ≡ compared_all (left_of self.entry) bytes.now }
    {
        let mut agreement = self;
        for b in bytes {
            agreement = agreement.number(u64::from(*b));
        }
        agreement
    }

    // Whether the record's numbers are the expected ones, and no more.
    pub fn is_whole(self) -> bool
        ensures { result ≡ wholly_agrees (left_of self.entry) }
    {
        match self.left {
            Some(left) => left.is_empty(),
            None => false,
        }
    }
}
