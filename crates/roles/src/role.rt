// The role of a word, and its record in a role buffer: two i32, the owner's pc and the upvalue's index, each -1 where there is none.
ghost use Rattle.std.specs.Prelude.{◌≡◌, ◌+◌, ◌*◌, ◌≤◌, [], ◌∷◌, length};
ghost use Rattle.base.specs.Bytes.{overwrite};
ghost use Rattle.roles_spec.specs.Roles.{index_field, is_executable, owner_field, records_of, role_bytes, role_in};
ghost use Rattle.roles.specs.Bounds.{HasRecord};
ghost use Rattle.roles.specs.Terms.{companion_pc, role_of};

use base::bytes::{MINUS_ONE, read_u32, write_record};

// The length of a record in bytes.
pub const ROLE_BYTES: usize = 8;

// An executable word; a CLOSURE's binding word, with the CLOSURE's pc and the upvalue's index; a SETLIST's extra word, with the SETLIST's pc.
#[derive(Clone, Copy)]
pub enum Lua51PhysicalRole {
    Instruction,
    ClosureBinding(u32, u32),
    SetlistExtra(u32),
}

impl Lua51PhysicalRole {
    // Whether the word is executable.
    pub fn is_executable(self) -> bool
        ensures { result ≡ is_executable (role_of self) }
    {
        matches!(self, Lua51PhysicalRole::Instruction)
    }

    // The pc of a companion's owner.
    pub fn companion_pc(self) -> Option<u32>
        ensures { result ≡ companion_pc (role_of self) }
    {
        match self {
            Lua51PhysicalRole::Instruction => None,
            Lua51PhysicalRole::ClosureBinding(owner, _) | Lua51PhysicalRole::SetlistExtra(owner) =>
                Some(owner),
        }
    }

    // The bits of the owner's pc.
    #[tactic(auto, unfolding(roles_spec::specs::Roles::owner_field, roles_spec::specs::Roles::role_fields, base::specs::Bytes::i32_bits))]
    fn owner(self) -> u32
        ensures { result ≡ owner_field (role_of self) }
    {
        self.companion_pc().unwrap_or(MINUS_ONE)
    }

    // The bits of the upvalue's index.
    #[tactic(auto, unfolding(roles_spec::specs::Roles::index_field, roles_spec::specs::Roles::role_fields, base::specs::Bytes::i32_bits))]
    fn index(self) -> u32
        ensures { result ≡ index_field (role_of self) }
    {
        match self {
            Lua51PhysicalRole::ClosureBinding(_, index) => index,
            Lua51PhysicalRole::Instruction | Lua51PhysicalRole::SetlistExtra(_) => MINUS_ONE,
        }
    }
}

// The role of the word at pc, from a prototype's part of a filled buffer. A pc past its records counts as executable.
#[tactic(auto, unfolding(roles_spec::specs::Roles::role_in, roles_spec::specs::Roles::role_from))]
pub fn role_at(roles: &[u8], pc: usize) -> Lua51PhysicalRole
    ensures { role_of result ≡ role_in roles.now pc }
{
    if roles.len() / ROLE_BYTES <= pc {
        return Lua51PhysicalRole::Instruction;
    }
    let owner = read_u32(roles, ROLE_BYTES * pc);
    if owner == MINUS_ONE {
        return Lua51PhysicalRole::Instruction;
    }
    let index = read_u32(roles, ROLE_BYTES * pc + 4);
    if index == MINUS_ONE {
        return Lua51PhysicalRole::SetlistExtra(owner);
    }
    Lua51PhysicalRole::ClosureBinding(owner, index)
}

// Writes the record of the word at pc.
#[tactic(auto, using(crate::proofs::MarkLaws::record_pasted))]
pub(crate) fn write_role(roles: &mut [u8], pc: usize, role: Lua51PhysicalRole)
    requires { HasRecord role_bytes pc roles.old }
    ensures { roles.new ≡ overwrite roles.old (role_bytes * pc) (records_of (role_of role ∷ [])) }
{
    let record = [role.owner(), role.index()];
    write_record(
        &mut roles[ROLE_BYTES * pc..ROLE_BYTES * pc + ROLE_BYTES],
        0,
        &record,
    );
}
