// Decimal numbers, with and without a sign, and lists of them.
#![tactic(auto)]

pub mod list;
pub mod number;

pub use list::{Scan, at, numbers};
pub use number::{read_number, read_signed, with_digit, with_sign, within};
