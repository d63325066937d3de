// Packed boards: moves and the iterator over them, the nine boards and their states.
#![tactic(auto)]

mod local;
mod moves;
mod states;

pub use local::{LocalBoards, Row};
pub use moves::{Move, MoveError, MoveIterator, PLACES};
pub use states::GlobalStates;
