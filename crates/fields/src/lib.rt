// The parts of a record, as types: one for each kind of quantity and text, and the leg and the continuation that they make. A leg and a
// continuation are read from the columns of any slice, and give the 132 columns that they make, legal or not. Assumes nothing of the caller.
#![tactic(auto)]

pub mod continuation;
pub mod head;
mod numbers;
mod part;
pub mod primary;
pub mod quantities;
pub mod text;
pub mod turn;
pub mod units;
