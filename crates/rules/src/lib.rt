// The rules of moves and prices.
#![tactic(auto)]

pub mod end;
pub mod list;
pub mod overhead;
pub mod price;
pub mod seen;
pub mod segment;
pub mod step;
pub mod totals;
pub mod track;
