// Sessions: what the commands of a script do, and what is printed.
#![tactic(auto)]

pub mod answer;
mod player;
pub mod replay;
pub mod session;
pub mod text;
