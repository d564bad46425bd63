// One number for a list of words, for benchmarks of the word split and comparisons of it with the Rust.
#![tactic(auto)]

ghost use Rattle.std.specs.Prelude.{◌≡◌, ◌<◌};
ghost use Rattle.base.specs.Bytes.{u32s};
ghost use Rattle.words_digest.specs.Digest.{digest, kind_weight, opcode_weight, unknown_number, weight};

use base::bytes::{i32_bits, read_u32};
use opcodes::{OpcodeField, RawInstruction51};

// The digest of the words, four bytes each. Bytes past the last whole word are left out.
#[unsafe(no_mangle)]
pub extern "C" fn words_digest(words: &[u8]) -> u64
    ensures { result ≡ digest (u32s words.now) }
{
    let mut sum = 0u64;
    for word in words.chunks_exact(4) {
        let w = RawInstruction51::decode(read_u32(word, 0));
        sum = sum.wrapping_add(weigh(w));
    }
    sum
}

// The fields of a word, each with its weight.
#[tactic(auto, unfolding(crate::specs::Digest::weight))]
fn weigh(w: RawInstruction51) -> u64
    ensures { result ≡ weight w }
{
    u64::from(w.opcode_num)
        + u64::from(w.a) * 3
        + u64::from(w.b) * 5
        + u64::from(w.c) * 7
        + u64::from(w.bx) * 11
        + u64::from(i32_bits(w.sbx)) * 13
        + weigh_opcode(w.opcode)
}

// The weight of an opcode. Two matches and not one, which would compile to a branch that words of any bits mispredict.
#[tactic(auto, unfolding(crate::specs::Digest::opcode_weight))]
fn weigh_opcode(o: OpcodeField) -> u64
    ensures value { result ≡ opcode_weight o }
    ensures upper_bound { result < 300 }
{
    weigh_kind(o) + unknown_number(o)
}

// The weight by whether an opcode is known and has a register A.
#[tactic(auto, unfolding(crate::specs::Digest::kind_weight))]
fn weigh_kind(o: OpcodeField) -> u64
    ensures value { result ≡ kind_weight o }
    ensures upper_bound { result < 24 }
{
    match o {
        OpcodeField::Known(op) if op.a_is_register() => 17,
        OpcodeField::Known(_) => 19,
        OpcodeField::Unknown(_) => 23,
    }
}

// The number of an unknown opcode, and 0 for a known one.
#[tactic(auto, unfolding(crate::specs::Digest::unknown_number))]
fn unknown_number(o: OpcodeField) -> u64
    ensures value { result ≡ unknown_number o }
    ensures upper_bound { result < 256 }
{
    match o {
        OpcodeField::Known(_) => 0,
        OpcodeField::Unknown(n) => u64::from(n),
    }
}
