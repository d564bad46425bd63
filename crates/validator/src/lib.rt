// The Lua 5.1 validator, after luad's validator.rs: the diagnostics of each prototype, the walk over them with its limit, and the verdict.
#![tactic(auto)]

pub mod calls;
mod child_counts;
mod clean;
pub mod codes;
mod fault;
mod image;
mod operands;
mod rows;
mod state;
mod walk;
mod word;
