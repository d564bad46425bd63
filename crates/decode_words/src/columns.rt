// The columns of a word's line.
use base::bytes::{write_i32, write_record};
use opcodes::{Field, Opcode51, OpcodeField, RawInstruction51};
use std::fmt::Display;
use std::io;

// The line of a word.
pub fn print_word(rt: &impl Print, raw: u32) -> io::Result<()> {
    let w = RawInstruction51::decode(raw);
    print!(rt; "{raw:08x}")?;
    print_fields(rt, w)?;
    print_constant(rt, w, Field::B)?;
    print_constant(rt, w, Field::C)?;
    print_record(rt, w)?;
    match w.opcode {
        OpcodeField::Known(op) => print_opcode(rt, op)?,
        OpcodeField::Unknown(_) => print!(rt; " - - - - - - -")?,
    }
    println!(rt)
}

// The numbers that a word splits into.
fn print_fields(rt: &impl Print, w: RawInstruction51) -> io::Result<()> {
    print_column(rt, w.opcode_num)?;
    print_column(rt, w.a)?;
    print_column(rt, w.b)?;
    print_column(rt, w.c)?;
    print_column(rt, w.bx)?;
    print_column(rt, w.sbx)
}

// Whether B, or C, names a constant, and which one.
fn print_constant(rt: &impl Print, w: RawInstruction51, field: Field) -> io::Result<()> {
    print_flag(rt, w.is_k(field))?;
    print_column(rt, w.index_k(field))
}

// Opcode, A and sBx as a record's bytes.
fn print_record(rt: &impl Print, w: RawInstruction51) -> io::Result<()> {
    let mut record = [0u8; 12];
    write_record(&mut record, 0, &[u32::from(w.opcode_num), u32::from(w.a)]);
    write_i32(&mut record, 8, w.sbx);
    print!(rt; " ")?;
    for byte in record.iter() {
        print!(rt; "{byte:02x}")?;
    }
    Ok(())
}

// What an opcode says of A, B and C.
fn print_opcode(rt: &impl Print, op: Opcode51) -> io::Result<()> {
    print_column(rt, op)?;
    print_column(rt, op.mode())?;
    print_flag(rt, op.a_is_register())?;
    print_operand(rt, op, Field::B)?;
    print_operand(rt, op, Field::C)
}

// What an opcode says of B alone, or of C.
fn print_operand(rt: &impl Print, op: Opcode51, field: Field) -> io::Result<()> {
    print_flag(rt, op.is_fixed_register(field))?;
    print_flag(rt, op.is_rk(field))
}

// A flag as 1 or 0.
fn print_flag(rt: &impl Print, flag: bool) -> io::Result<()> {
    print_column(rt, u8::from(flag))
}

// One column of any kind, after its space.
fn print_column(rt: &impl Print, value: impl Display + Drop) -> io::Result<()> {
    print!(rt; " {value}")
}
