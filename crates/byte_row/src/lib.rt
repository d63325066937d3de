// A few bytes in memory of fixed length. A row is `Copy`, and nothing that is done with it fails: of `arrayvec`'s vectors neither is so.
#![tactic(auto)]

ghost use Rattle.std.specs.Prelude.{◌≡◌, [], ◌∷◌, ◌++◌, eqb, take, length};

use std::marker::Model;

// Up to `N` bytes: the first `len` of the memory, whose other places are 0.
#[derive(Clone, Copy)]
pub struct ByteRow<const N: usize> {
    bytes: [u8; N],
    len: usize,
}

impl<const N: usize> Model for ByteRow<N> {
    ghost use Rattle.std.specs.Prelude.{◌≡◌, ℕ, ◌≤◌, List, length, take};
    ghost use Rattle.std.proofs.Common.{sym};
    ghost use Rattle.text.specs.Padded.{padded};
    ghost use Rattle.text.proofs.Padded.{held_length};

    ghost Value = { List ℕ };

    ghost view = { λ r. take r.len r.bytes };

    ghost invariant = { λ r. (r.len ≤ N) × (r.bytes ≡ padded N (take r.len r.bytes)) };

    ghost inverse = { λ t. record { bytes = padded N t; len = length t } };

    ghost inverse_ok = { λ r h i. record {
      bytes = sym h.1 i;
      len = held_length N r.bytes r.len h.0 h.1 i;
    } };
}

impl<const N: usize> ByteRow<N> {
    // No byte.
    #[tactic(auto, using(text::proofs::Padded::padded_none))]
    pub fn new() -> ByteRow<N>
        ensures { result ≡ [] }
    {
        ByteRow {
            bytes: [0; N],
            len: 0,
        }
    }

    pub fn len(&self) -> usize
        ensures { result ≡ length self.now }
    {
        self.len
    }

    pub fn is_empty(&self) -> bool
        ensures { result ≡ eqb (length self.now) 0 }
    {
        self.len == 0
    }

    // One byte more; where there is no room it is dropped.
    #[tactic(auto, using(text::proofs::Padded::held_next, text::proofs::Padded::held_more))]
    pub fn push(&mut self, b: u8)
        ensures { self.new ≡ take N (self.old ++ b ∷ []) }
    {
        if self.len < N {
            self.bytes[self.len] = b;
            self.len += 1;
        }
    }

    pub fn as_slice(&self) -> &[u8]
        ensures { result.now ≡ self.now }
    {
        &self.bytes[..self.len]
    }
}
