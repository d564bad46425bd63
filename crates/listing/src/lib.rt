// From the bytes of a listing to the bytes of what packcheck writes for it.
#![tactic(auto)]

pub mod check;
mod lines;
mod numbers;
mod printer;
mod reader;
mod report;
pub mod run;
