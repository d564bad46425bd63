// The truncated owner of a prototype, after the faults of luad's `discover_roles_lua51`. There is at most one: it owns all words after it.
ghost use Rattle.std.specs.Prelude.{◌≡◌, ℕ, ◌+◌, ◌/◌, List, length, slice_index};
ghost use mathlib.Core.List.{flat_map};
ghost use Rattle.base.specs.Lists.{up_from};
ghost use Rattle.opcodes.specs.Words.{decoded};
ghost use Rattle.roles_spec.specs.Roles.{claims, last_owner, role_in};
ghost use Rattle.validator_spec.specs.Diagnostics.{truncation_at};
ghost use Rattle.validator.specs.Rows.{proto_of_row, proto_with};
ghost use Rattle.validator.specs.Terms.{fault_diagnostics};

use crate::rows::RowBody;
use base::bytes::u32_at;
use opcodes::{Opcode51, OpcodeField, RawInstruction51};
use roles::role::role_at;
use roles::table::{Child, Column, Row, find_child};

// A truncated CLOSURE, with its child's upvalues; a truncated SETLIST.
#[derive(Clone, Copy)]
pub enum Lua51RoleFault {
    TruncatedClosure { owner_pc: u32, declared: u32 },
    TruncatedSetlist { owner_pc: u32 },
}

// The fault of a row's prototype, if it has one.
pub fn find_fault(row: &RowBody) -> Option<Lua51RoleFault>
    ensures { fault_diagnostics result ≡ flat_map (truncation_at (proto_of_row row.now)) (up_from 0 (length row.now.body.code.now / 4)) }
{
    let code = row.body.code;
    let n = code.len() / 4;
    if n == 0 {
        return None;
    }
    let owner_pc = last_owner(row.body.roles, (n - 1) as u32);
    let w = RawInstruction51::decode(u32_at(code, owner_pc as usize));
    let owned = owned_words(row, w);
    if (owner_pc as u64) + (owned as u64) < n as u64 {
        return None;
    }
    match w.opcode {
        OpcodeField::Known(Opcode51::Closure) => Some(Lua51RoleFault::TruncatedClosure {
            owner_pc,
            declared: owned,
        }),
        _ => Some(Lua51RoleFault::TruncatedSetlist { owner_pc }),
    }
}

// The pc of the owner of the word at pc, or pc itself where that word is executable.
#[tactic(auto, unfolding(roles_spec::specs::Roles::last_owner))]
fn last_owner(roles: &[u8], pc: u32) -> u32
    ensures { result ≡ last_owner pc (role_in roles.now pc) }
{
    role_at(roles, pc as usize).companion_pc().unwrap_or(pc)
}

// How many words an executable word of the row's prototype owns.
fn owned_words(row: &RowBody, w: RawInstruction51) -> u32
    requires { w ≡ decoded w.raw }
    ensures { (pc : ℕ) (words : List ℕ) → result ≡ length (claims (proto_with row.now words) pc w.raw) }
{
    match w.opcode {
        OpcodeField::Known(Opcode51::Closure) => child_upvalues(row, w.bx),
        OpcodeField::Known(Opcode51::SetList) if w.c == 0 => 1,
        _ => 0,
    }
}

// The number of upvalues of child k of the row's prototype. A missing child has none. (Inlined: otherwise the row takes 96 bytes in each frame of the
// walk.)
#[inline(always)]
fn child_upvalues(row: &RowBody, k: u32) -> u32
    ensures { (words : List ℕ) → result ≡ slice_index (proto_with row.now words).children k }
{
    let table = row.table;
    let limits = row.body.limits;
    match find_child(table, (limits.row as usize) + 1, limits.depth, k, 0) {
        None => 0,
        Some(Child { row: number, .. }) => Row { table, number }.field(Column::Upvalues),
    }
}
