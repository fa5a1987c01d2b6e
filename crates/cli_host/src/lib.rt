//! What a program is given and how it ends: its words, readers of its files, sinks for what it prints, exit statuses
//! and messages.
#![tactic(auto)]

pub mod calls;
pub mod files;
pub mod press;
pub mod request;
pub mod serving;
pub mod sink;
pub mod status;
