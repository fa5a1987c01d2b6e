//! A lift group driven by lines: what a line says, what it does, and what it is answered.
#![tactic(auto)]

pub mod act;
pub mod answer;
pub mod going;
pub mod input;
pub mod said;
pub mod serve;
pub mod server;
pub mod waiting;
