// Records, a line each: fields parted by tabs, draw winners, numbers compared with the expected ones, and how many records agree.
#![tactic(auto)]

pub mod agreement;
pub mod draws;
pub mod fields;
pub mod list;
pub mod totals;

pub use agreement::Agreement;
pub use draws::draw_of;
pub use fields::{field, tabs};
pub use list::{Records, Replayer, run, run_with};
pub use totals::{Comparison, Totals};
