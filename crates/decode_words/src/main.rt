// Splits instruction words. Standard input has a word a line, eight lower-case hexadecimal digits; standard output has a
// names line and a line a word: its fields, what its opcode says of A, B and C, and a record of opcode, A and sBx as bytes.
#![tactic(auto)]

mod columns;
mod listing;

use input::{INPUT_BYTES, read_full};
use listing::{LINE_BYTES, parse_line};
use std::io;

fn main(rt: HostRuntime) {
    // An array: no more is read, and no memory is taken from a heap.
    let mut text = [0u8; INPUT_BYTES];
    let got = read_full(&mut rt.reader(), &mut text);
    // An output that cannot be written is not reported.
    let _ = print_listing(&rt, &text[..got]);
}

// Prints the lines of the words, or, where a line is malformed, the number of the first such line, counted from 1.
fn print_listing(rt: &impl Print, text: &[u8]) -> io::Result<()> {
    let malformed = text
        .chunks(LINE_BYTES)
        .position(|line| parse_line(line).is_none());
    if let Some(before) = malformed {
        let line = before + 1;
        return println!(rt; "malformed line {line}");
    }
    println!(rt;
        "word opcode a b c bx sbx b_k b_index c_k c_index record name mode a_reg b_reg b_rk c_reg c_rk"
    )?;
    for word in text.chunks(LINE_BYTES).filter_map(parse_line) {
        columns::print_word(rt, word)?;
    }
    Ok(())
}
