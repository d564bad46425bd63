// The diagnostics of one executable word, in the order of document 01's table.
ghost use Rattle.std.specs.Prelude.{◌≡◌, ◌+◌, ◌*◌, ◌/◌, ◌<◌, not, ◌&&◌, T, [], ◌∷◌, length, pos, ◌-ℤ◌};
ghost use mathlib.Core.List.{flat_map, flatten};
ghost use Rattle.base.specs.Lists.{only, up_from};
ghost use Rattle.opcodes.specs.Words.{CLOSURE, is, offset_sbx};
ghost use Rattle.roles_spec.specs.Roles.{Executable, binding_words, is_executable, role_in, word_at};
ghost use Rattle.roles_spec.specs.Table.{Proto};
ghost use Rattle.roles.specs.Bounds.{HasWord};
ghost use Rattle.validator_spec.specs.Diagnostics.{binding_diagnostics, diagnostic, jump_diagnostics, not_below, opcode_value, operand_diagnostics, skip_diagnostics, target_diagnostics, word_diagnostics};
ghost use Rattle.validator_spec.specs.Operands.{captured_register, captured_upvalue, is_binding, is_skip, skip_target};
ghost use Rattle.validator.specs.Terms.{Describes, HasLimits, Stands};
ghost use Rattle.validator.specs.Steps.{emit_all};

use crate::codes::Code;
use crate::operands::{FLAG_LIMIT, KnownWord};
use crate::rows::{Body, RowLimits};
use crate::state::{Location, WalkState};
use base::bytes::{MINUS_ONE, u32_at};
use opcodes::Field::{B, C};
use opcodes::{OFFSET_SBX, OpMode51, Opcode51, OpcodeField, RawInstruction51};
use roles::role::role_at;

// Judges the word at pc. Where its opcode is unknown, code 4 is all.
pub fn validate_word(walk: WalkState, out: &mut [u8], body: &Body, pc: usize) -> WalkState
    requires { HasWord body.now.code.now pc }
    ensures { (p : Proto) → Describes p body.now.limits body.now.code.now body.now.roles.now → Executable p pc → (result, out.new) ≡ emit_all body.now.limits.row (word_diagnostics p pc (word_at p pc)) (walk, out.old) }
{
    let at = Location {
        row: body.limits.row,
        pc: pc as u32,
    };
    let w = RawInstruction51::decode(u32_at(body.code, pc));
    let OpcodeField::Known(op) = w.opcode else {
        return walk.emit(out, at, Code::Op001, w.opcode_num as u32);
    };
    let word = KnownWord { at, op, w };
    let walk = validate_flow(walk, out, body, &word);
    let walk = validate_operands(walk, out, &body.limits, &word);
    if word.is_closure() {
        return validate_bindings(walk, out, body, pc);
    }
    walk
}

// Judges where the word goes: codes 5 and 6.
fn validate_flow(walk: WalkState, out: &mut [u8], body: &Body, word: &KnownWord) -> WalkState
    ensures { (p : Proto) → Stands p body.now.limits body.now.roles.now → (result, out.new) ≡ emit_all word.now.at.row (flatten (jump_diagnostics p word.now.at.pc word.now.w.raw ∷ skip_diagnostics p word.now.at.pc word.now.w.raw ∷ [])) (walk, out.old) }
{
    let walk = validate_jump(walk, out, body, word);
    let hit = skips_to_companion(body.roles, word);
    walk.emit_if(out, word.at, Code::Jmp002, hit.then_some(word.at.pc + 2))
}

// Judges the target of a word that has one.
fn validate_jump(walk: WalkState, out: &mut [u8], body: &Body, word: &KnownWord) -> WalkState
    ensures { (p : Proto) → Stands p body.now.limits body.now.roles.now → (result, out.new) ≡ emit_all word.now.at.row (jump_diagnostics p word.now.at.pc word.now.w.raw) (walk, out.old) }
{
    let at = word.at;
    match word.op.mode() {
        OpMode51::IAsBx => validate_target(walk, out, body, at, at.pc + 1 + word.w.bx),
        _ => walk,
    }
}

// Judges a target. `sum` is pc + 1 + Bx; the target is sum - OFFSET_SBX. (`target_is_word` makes the same tests and answers a bool.)
fn validate_target(
    walk: WalkState,
    out: &mut [u8],
    body: &Body,
    at: Location,
    sum: u32,
) -> WalkState
    ensures { (p : Proto) → Stands p body.now.limits body.now.roles.now → (result, out.new) ≡ emit_all at.row (target_diagnostics p at.pc (pos sum -ℤ pos offset_sbx)) (walk, out.old) }
{
    if sum < OFFSET_SBX {
        return walk.emit(out, at, Code::Jmp001, MINUS_ONE - (OFFSET_SBX - 1 - sum));
    }
    let target = sum - OFFSET_SBX;
    if body.limits.words <= target {
        return walk.emit(out, at, Code::Jmp001, target);
    }
    let hit = is_companion(body.roles, target as usize);
    walk.emit_if(out, at, Code::Jmp002, hit.then_some(target))
}

// Whether the word may go to pc + 2 and a companion stands there.
fn skips_to_companion(roles: &[u8], word: &KnownWord) -> bool
    ensures { result ≡ is_skip word.now.w.raw && not (is_executable (role_in roles.now (skip_target word.now.at.pc))) }
{
    word.is_conditional_skip() && is_companion(roles, (word.at.pc + 2) as usize)
}

// Whether the word at pc is a companion. A pc past the last word counts as executable.
pub fn is_companion(roles: &[u8], pc: usize) -> bool
    ensures { result ≡ not (is_executable (role_in roles.now pc)) }
{
    !role_at(roles, pc).is_executable()
}

// Judges what the word names: codes 7 to 16.
fn validate_operands(
    walk: WalkState,
    out: &mut [u8],
    limits: &RowLimits,
    word: &KnownWord,
) -> WalkState
    ensures { (p : Proto) → HasLimits p limits.now → (result, out.new) ≡ emit_all word.now.at.row (operand_diagnostics p word.now.at.pc word.now.w.raw) (walk, out.old) }
{
    let at = word.at;
    let constants = limits.constants;
    let stack = limits.stack;
    let (first, second) = word.span_ends();
    let walk = walk.check(out, at, Code::Const003, word.constant_bx(), constants);
    let walk = walk.check(out, at, Code::Upval001, word.upvalue_b(), limits.upvalues);
    let walk = walk.check(out, at, Code::Bool001, word.flag_a(), FLAG_LIMIT);
    let walk = walk.check(out, at, Code::Reg001, word.register_a(), stack);
    let walk = walk.check(out, at, Code::RegSpan001, first, stack);
    let walk = walk.check(out, at, Code::RegSpan001, second, stack);
    let walk = walk.check(out, at, Code::Reg002, word.register_in(B), stack);
    let walk = walk.check(out, at, Code::Reg003, word.register_in(C), stack);
    let walk = walk.check(out, at, Code::Const004, word.constant_in(B), constants);
    let walk = walk.check(out, at, Code::Const005, word.constant_in(C), constants);
    walk.check(out, at, Code::Proto002, word.child_bx(), limits.children)
}

// Judges the companions of the CLOSURE at pc, each at its own pc. (A `while`: the roles alone tell where the companions end. A `for` over the words
// would test for the end of the words too.)
#[tactic(auto, using(crate::proofs::BindingLaws::has_record))]
fn validate_bindings(mut walk: WalkState, out: &mut [u8], body: &Body, pc: usize) -> WalkState
    requires { HasWord body.now.code.now pc }
    ensures { (p : Proto) → Describes p body.now.limits body.now.code.now body.now.roles.now → Executable p pc → T (is (word_at p pc) (CLOSURE ∷ [])) → (result, out.new) ≡ emit_all body.now.limits.row (flat_map (binding_diagnostics p) (up_from (pc + 1) (binding_words p pc))) (walk, out.old) }
{
    let mut next = pc + 1;
    while is_companion(body.roles, next) {
        let word = u32_at(body.code, next);
        let at = Location {
            row: body.limits.row,
            pc: next as u32,
        };
        walk = validate_binding(walk, out, &body.limits, at, word);
        next += 1;
    }
    walk
}

// Judges a binding word: code 12 or 8 for what it captures, or code 17 where its opcode captures nothing.
fn validate_binding(
    walk: WalkState,
    out: &mut [u8],
    limits: &RowLimits,
    at: Location,
    word: u32,
) -> WalkState
    ensures { (result, out.new) ≡ emit_all at.row (flatten (only (not (is_binding word)) (diagnostic at.pc 17 (opcode_value word)) ∷ not_below at.pc 12 limits.now.stack (captured_register word) ∷ not_below at.pc 8 limits.now.upvalues (captured_upvalue word) ∷ [])) (walk, out.old) }
{
    let w = RawInstruction51::decode(word);
    match w.opcode {
        OpcodeField::Known(Opcode51::Move) => walk.check(
            out,
            at,
            Code::Reg002,
            Some(w.b as u32),
            limits.stack,
        ),
        OpcodeField::Known(Opcode51::GetUpval) => walk.check(
            out,
            at,
            Code::Upval001,
            Some(w.b as u32),
            limits.upvalues,
        ),
        OpcodeField::Known(_) => walk.emit(out, at, Code::Closure002, w.opcode_num as u32),
        OpcodeField::Unknown(_) => walk.emit(out, at, Code::Closure002, MINUS_ONE),
    }
}
