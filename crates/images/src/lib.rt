// Table images: how the bytes of an image write down a rule table, and the table that is loaded from one.
#![tactic(auto)]

pub mod faults;
pub mod laws;
pub mod loaded;
mod reader;
