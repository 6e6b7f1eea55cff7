//! A script: its lines, and the commands that they say.
#![tactic(auto)]

pub mod commands;
mod numbers;
pub mod parsing;
mod pieces;
pub mod scripts;
