// The roles of a prototype's words, front to back, after luad's `discover_roles_lua51`, and on the way the bindings of its children.
ghost use Rattle.std.specs.Prelude.{◌≡◌, ◌+◌, ◌*◌, ◌/◌, ◌<◌, ◌≤◌, length, min, take, if◌then◌else◌, nat_eq};
ghost use Rattle.base.specs.Bytes.{overwrite, u32s};
ghost use Rattle.base.specs.Lists.{tabulate};
ghost use Rattle.roles_spec.specs.Bindings.{writes};
ghost use Rattle.roles_spec.specs.Refusals.{max_rows, max_word_bytes};
ghost use Rattle.roles_spec.specs.Roles.{ClosureBinding, records_of, role_bytes, roles};
ghost use Rattle.roles_spec.specs.Table.{proto_in, row_at, row_bytes};
ghost use Rattle.roles.specs.Bounds.{FewWords, RolesFit};
ghost use Rattle.roles.specs.BindingSteps.{BindsFrom, bound_in};
ghost use Rattle.roles.specs.Terms.{RoomForChildren, child_bindings, claimed_roles, companions_of, owned_bindings};
ghost use Rattle.roles.specs.declared.discovery.Companions.TheVariants.{Extra, None};

use crate::bindings::{CompanionWords, bind_claim};
use crate::role::{Lua51PhysicalRole, ROLE_BYTES, write_role};
use crate::search::Children;
use crate::table::{Child, Column, Row};
use base::bytes::u32_at;
use opcodes::{Opcode51, RawInstruction51};

// The words that an executable word owns: none, the binding words of a child's upvalues, or a SETLIST's extra word. `Bindings` has the number of the
// words, and the number of binding records between the prototype's own and those of the child. (Not an `Option` of two cases: `mark` tells all three
// apart, and the pattern in `bind_claim` would be one level deeper.)
#[derive(Clone, Copy)]
pub enum Companions {
    None,
    Bindings(u32, u32),
    Extra,
}

// Writes the roles of a prototype's words to the front of its part of the role buffer, and binds the upvalues of its children. The binding records of
// the rows after its own begin at index `base`. Each word is read at most once: an owner's companions, as far as they exist, are marked, those of a
// CLOSURE bind, and the pass goes on after them. (The bindings buffer is lent whole: where it has room for none, no part of it begins at `base`.)
pub(crate) fn discover_roles_lua51(
    children: &mut Children,
    code: &[u8],
    out: &mut [u8],
    bindings: &mut [u8],
    base: usize,
)
    requires words_stated { (row_at children.old.parent.table.now children.old.parent.number).words ≡ length code.now / 4 }
    requires roles_fit { FewWords code.now × RolesFit code.now out.old }
    requires binds_from { BindsFrom children.old.parent.table.now children.old.parent.number base (length bindings.old) }
    ensures out_after { out.new ≡ overwrite out.old 0 (records_of (roles (proto_in children.old.parent.table.now children.old.parent.number (u32s code.now)))) }
    ensures bindings_after { bindings.new ≡ bound_in children.old.parent.table.now children.old.parent.number (writes (proto_in children.old.parent.table.now children.old.parent.number (u32s code.now))) bindings.old }
    ensures same_parent { children.new.parent ≡ children.old.parent }
{
    let n = code.len() / 4;
    let mut pc = 0;
    // A `while`: the pass goes on after the companions of each word.
    while pc < n {
        let companions = claim_of(children, u32_at(code, pc));
        write_role(out, pc, Lua51PhysicalRole::Instruction);
        let existing = mark(
            &mut out[ROLE_BYTES * (pc + 1)..ROLE_BYTES * n],
            pc as u32,
            companions,
        );
        let words = CompanionWords { code, pc, existing };
        bind_claim(bindings, base, companions, &words);
        pc += 1 + existing;
    }
}

// What an executable word of the row owns. An owner is told by the number of its opcode and not by matching `Opcode51`, which makes a jump that is
// often mispredicted: docs/DECISIONS.md has the measurement.
#[tactic(auto, using(crate::proofs::CompanionLaws::owns_bindings, crate::proofs::CompanionLaws::owns_extra, crate::proofs::CompanionLaws::owns_nothing))]
fn claim_of(children: &mut Children, word: u32) -> Companions
    ensures owned { result ≡ companions_of children.old.parent.table.now children.old.parent.number word }
    ensures same_parent { children.new.parent ≡ children.old.parent }
{
    let w = RawInstruction51::decode(word);
    if w.opcode_num == Opcode51::Closure as u8 {
        claim_child(children, w.bx)
    } else if w.opcode_num == Opcode51::SetList as u8 {
        claim_extra(w.c)
    } else {
        Companions::None
    }
}

// A CLOSURE that names child k owns a word for each of its upvalues, where there is such a child.
fn claim_child(children: &mut Children, k: u32) -> Companions
    ensures owned { result ≡ child_bindings children.old.parent.table.now children.old.parent.number k }
    ensures same_parent { children.new.parent ≡ children.old.parent }
{
    let table = children.parent.table;
    match children.find(k) {
        None => Companions::None,
        Some(Child { first, row: number }) => {
            binding_words(Row { table, number }.field(Column::Upvalues), first)
        }
    }
}

// `count` binding words of a child, or nothing where it is 0. `first` is the number of binding records between the prototype's own and the child's.
#[tactic(auto, unfolding(crate::specs::Terms::owned_bindings))]
fn binding_words(count: u32, first: u32) -> Companions
    ensures { result ≡ owned_bindings count first }
{
    if count == 0 {
        Companions::None
    } else {
        Companions::Bindings(count, first)
    }
}

// A SETLIST owns a word where its C is 0.
fn claim_extra(c: u16) -> Companions
    ensures { result ≡ (if nat_eq c 0 then Extra else None) }
{
    if c == 0 {
        Companions::Extra
    } else {
        Companions::None
    }
}

// Marks the companions of the owner at pc in the records after its own, as far as they exist. Answers how many.
fn mark(records: &mut [u8], pc: u32, companions: Companions) -> usize
    ensures value { result ≡ length (take (length records.old / role_bytes) (claimed_roles pc companions)) }
    ensures records_after { records.new ≡ overwrite records.old 0 (records_of (take (length records.old / role_bytes) (claimed_roles pc companions))) }
    ensures within_room { result ≤ length records.old / role_bytes }
{
    match companions {
        Companions::None => 0,
        Companions::Bindings(n, _) => mark_bindings(records, pc, n),
        Companions::Extra => mark_extra(records, pc),
    }
}

// Marks `count` binding words of the CLOSURE at pc, as far as they exist.
fn mark_bindings(records: &mut [u8], pc: u32, count: u32) -> usize
    ensures value { result ≡ min (length records.old / role_bytes) count }
    ensures records_after { records.new ≡ overwrite records.old 0 (records_of (tabulate result (ClosureBinding pc))) }
{
    let existing = (records.len() / ROLE_BYTES).min(count as usize);
    for j in 0..existing {
        write_role(records, j, Lua51PhysicalRole::ClosureBinding(pc, j as u32));
    }
    existing
}

// Marks the extra word of the SETLIST at pc, where it exists.
#[tactic(auto, using(crate::proofs::MarkLaws::mark_steps), unfolding(crate::specs::Terms::claimed_roles))]
fn mark_extra(records: &mut [u8], pc: u32) -> usize
    ensures value { result ≡ length (take (length records.old / role_bytes) (claimed_roles pc Extra)) }
    ensures records_after { records.new ≡ overwrite records.old 0 (records_of (take (length records.old / role_bytes) (claimed_roles pc Extra))) }
{
    if records.len() < ROLE_BYTES {
        return 0;
    }
    write_role(records, 0, Lua51PhysicalRole::SetlistExtra(pc));
    1
}
