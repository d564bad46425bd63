// Upvalue bindings, after the end of luad's `load_proto_51`. A record is three i32: instack, index and the pc of the word that binds.
ghost use Rattle.std.specs.Prelude.{◌≡◌, ◌+◌, ◌*◌, ◌/◌, ◌%◌, ◌<◌, ◌≤◌, [], ◌∷◌, length, replicate};
ghost use Rattle.std.specs.Int.{from_bool};
ghost use Rattle.base.specs.Bytes.{overwrite, u32_record, u32s};
ghost use Rattle.roles_spec.specs.Bindings.{binding_bytes, binding_records, unbound};
ghost use Rattle.roles_spec.specs.Refusals.{max_word_bytes};
ghost use Rattle.roles.specs.Bounds.{FewWords, HasRecord, HasWord, RecordsFit};
ghost use Rattle.roles.specs.BindingSteps.{Bindable, bound_by, bound_claim, bound_from, max_bindings};

use crate::discovery::Companions;
use base::bytes::{MINUS_ONE, u32_at, write_record};
use opcodes::{Opcode51, RawInstruction51};

// The length of a record in bytes.
pub const BINDING_BYTES: usize = 12;

// Writes `count` records of upvalues that nothing binds. (Each is written by its number, as binding words write theirs: one function for both.)
#[tactic(auto, using(roles_spec::proofs::BindingRecordLaws::unbound_none, roles_spec::proofs::BindingRecordLaws::unbound_next))]
pub fn unbind(bindings: &mut [u8], count: usize)
    requires { RecordsFit binding_bytes count bindings.old }
    ensures { bindings.new ≡ overwrite bindings.old 0 (binding_records (replicate count unbound)) }
{
    for i in 0..count {
        write_binding(bindings, i, false, 0, MINUS_ONE);
    }
}

// The code of a prototype, the pc of an owner in it, and how many of the owner's companions exist. (The whole code and not only the companions: a
// record has a word's pc, which is its index in the whole code.)
#[derive(Clone, Copy)]
pub struct CompanionWords<'a> {
    pub code: &'a [u8],
    pub pc: usize,
    pub existing: usize,
    ghost there: { HasWord code.now (pc + existing) × FewWords code.now },
}

// Binds the upvalues of a child by the companions of an owner, where the owner is a CLOSURE of such a child. Nothing is written to a buffer without
// room for a record.
pub fn bind_claim(bindings: &mut [u8], base: usize, companions: Companions, words: &CompanionWords)
    requires few_bindings { base ≤ max_bindings }
    requires bindable { Bindable base words.now.existing (length bindings.old) companions }
    ensures { bindings.new ≡ bound_claim (u32s words.now.code.now) words.now.pc base words.now.existing companions bindings.old }
{
    if let Companions::Bindings(upvalues, first) = companions {
        if BINDING_BYTES <= bindings.len() {
            bind_child(bindings, base + first as usize, upvalues as usize, words);
        }
    }
}

// Binds the upvalues of a child in the part of the buffer that has the child's records.
fn bind_child(bindings: &mut [u8], first: usize, upvalues: usize, words: &CompanionWords)
    requires { (words.now.existing ≤ upvalues) × RecordsFit binding_bytes (first + upvalues) bindings.old }
    ensures { bindings.new ≡ bound_from (u32s words.now.code.now) (words.now.pc + 1) first words.now.existing bindings.old }
{
    bind_words(
        &mut bindings[BINDING_BYTES * first..BINDING_BYTES * (first + upvalues)],
        words,
    );
}

// Each of the companions sets a record, in order.
#[tactic(auto, using(crate::proofs::BindingStepLaws::bound_none, crate::proofs::BindingStepLaws::bound_more))]
fn bind_words(records: &mut [u8], words: &CompanionWords)
    requires { RecordsFit binding_bytes words.now.existing records.old }
    ensures { records.new ≡ bound_from (u32s words.now.code.now) (words.now.pc + 1) 0 words.now.existing records.old }
{
    for j in 0..words.existing {
        let at = words.pc + 1 + j;
        bind_word(records, j, at as u32, u32_at(words.code, at));
    }
}

// The binding word at pc sets record i: MOVE to a register, GETUPVAL to an upvalue of the parent. Another opcode leaves it.
// (The opcode is told by its number, as an owner's is: docs/DECISIONS.md has the measurement.)
#[tactic(auto, using(crate::proofs::BindingStepLaws::bound_move, crate::proofs::BindingStepLaws::bound_getupval, crate::proofs::BindingStepLaws::bound_other))]
fn bind_word(records: &mut [u8], i: usize, pc: u32, word: u32)
    requires { HasRecord binding_bytes i records.old }
    ensures { records.new ≡ bound_by i pc word records.old }
{
    let w = RawInstruction51::decode(word);
    let index = binding_index(w.b);
    if w.opcode_num == Opcode51::Move as u8 {
        write_binding(records, i, true, index, pc);
    } else if w.opcode_num == Opcode51::GetUpval as u8 {
        write_binding(records, i, false, index, pc);
    }
}

// The index that a binding word gives, from its B.
fn binding_index(b: u16) -> u32
    ensures { result ≡ b % 256 }
{
    (b % 256) as u32
}

// Writes record i.
fn write_binding(records: &mut [u8], i: usize, instack: bool, index: u32, pc: u32)
    requires { HasRecord binding_bytes i records.old }
    ensures { records.new ≡ overwrite records.old (binding_bytes * i) (u32_record ((from_bool instack) ∷ index ∷ pc ∷ [])) }
{
    let record = [u32::from(instack), index, pc];
    write_record(records, BINDING_BYTES * i, &record);
}
