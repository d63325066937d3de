// Lists of decimal numbers parted by single blanks, read byte by byte into lent words.
ghost use Rattle.std.specs.Prelude.{◌≡◌, length, get_or, unwrap_or};
ghost use Rattle.decimals.specs.Lists.{spoilt, with_number, scanned, words_after, counted, ListRead};
ghost use Rattle.decimals.specs.Numbers.{with_digit};

use crate::number::with_digit;

// The number that is being read, if it has a digit yet, and how many numbers stand before it.
// `good` stays a flag: past what can't be read the scan goes on, since what the words then hold is promised too.
#[derive(Clone, Copy)]
pub struct Scan {
    pub number: Option<u64>,
    pub count: usize,
    pub good: bool,
}

impl Scan {
    pub const NEW: Scan = Scan {
        number: None,
        count: 0,
        good: true,
    };

    fn spoilt(self) -> Scan
        ensures { result ≡ spoilt self }
    {
        Scan {
            number: None,
            good: false,
            ..self
        }
    }

    // With a digit more.
    fn longer(self, b: u8) -> Scan
        ensures { result ≡ with_number self (with_digit (unwrap_or self.number 0) b) }
    {
        match with_digit(self.number.unwrap_or(0), b) {
            None => self.spoilt(),
            number => Scan { number, ..self },
        }
    }

    // A digit makes the number longer; a blank ends it, and it is written at its place.
    pub fn push(self, b: u8, words: &mut [u64]) -> Scan
        ensures { (result ≡ scanned self b (length words.old)) ×
            (words.new ≡ words_after self b words.old) }
    {
        if b != b' ' {
            return self.longer(b);
        }
        match self.number {
            Some(number) if self.count < words.len() => {
                words[self.count] = number;
                Scan {
                    number: None,
                    count: self.count + 1,
                    ..self
                }
            }
            _ => self.spoilt(),
        }
    }

    fn counted(self) -> Option<usize>
        ensures { result ≡ counted self }
    {
        self.good.then_some(self.count)
    }
}

// How many numbers a text holds, which are written from the first word on.
// How many, and not the slice of them: what all words hold after it is promised too, also where the text can't be read.
pub fn numbers(text: &[u8], words: &mut [u64]) -> Option<usize>
    ensures { ListRead text.now words.old result words.new }
{
    let mut scan = Scan::NEW;
    for b in text {
        scan = scan.push(*b, words);
    }
    scan.push(b' ', words).counted()
}

// The number at a place, 0 past the end.
pub fn at(words: &[u64], i: usize) -> u64
    ensures { result ≡ get_or words.now i 0 }
{
    words.get(i).copied().unwrap_or(0)
}
