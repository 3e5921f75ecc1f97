// The script language: how a script is cut into lines, and what a line says.
#![tactic(auto)]

pub mod command;
mod hex;
pub mod laws;
pub mod lines;
pub mod mistake;
mod name;
mod number;
mod operands;
pub mod request;
pub mod spelled;
pub mod text;
mod words;
