// What a word of a known opcode names and where it goes.
ghost use Rattle.std.specs.Prelude.{◌≡◌, ◌+◌, ◌-◌, ◌*◌, ◌<◌, ◌≤◌, [], ◌∷◌, ◌++◌, nat_lt};
ghost use Rattle.base.specs.Lists.{only};
ghost use Rattle.opcodes.specs.Words.{CLOSURE, field_of, is};
ghost use Rattle.roles.specs.Bounds.{SmallPc};
ghost use Rattle.validator_spec.specs.Operands.{child_bx, constant_bx, constant_in, flag_a, is_skip, register_a, register_in, span_ends, upvalue_b};
ghost use Rattle.validator.specs.Terms.{Decodes, as_list};

use crate::state::Location;
use opcodes::{Field, Opcode51, RawInstruction51, index_k, is_k};

// A comparison's flag is below this.
pub const FLAG_LIMIT: u32 = 2;

// A word that was split, with its place and its opcode, which is known.
#[derive(Clone, Copy)]
pub struct KnownWord {
    pub at: Location,
    pub op: Opcode51,
    pub w: RawInstruction51,
    ghost decodes: { Decodes op w },
    ghost small: { SmallPc at.pc },
}

impl KnownWord {
    // The constant that Bx names.
    pub fn constant_bx(&self) -> Option<u32>
        ensures { as_list result ≡ constant_bx self.now.w.raw }
    {
        match self.op {
            Opcode51::LoadK | Opcode51::GetGlobal | Opcode51::SetGlobal => Some(self.w.bx),
            _ => None,
        }
    }

    // The upvalue that B names.
    pub fn upvalue_b(&self) -> Option<u32>
        ensures { as_list result ≡ upvalue_b self.now.w.raw }
    {
        match self.op {
            Opcode51::GetUpval | Opcode51::SetUpval => Some(self.w.b as u32),
            _ => None,
        }
    }

    // A comparison's flag.
    pub fn flag_a(&self) -> Option<u32>
        ensures { as_list result ≡ flag_a self.now.w.raw }
    {
        match self.op {
            Opcode51::Eq | Opcode51::Lt | Opcode51::Le => Some(self.w.a as u32),
            _ => None,
        }
    }

    // Register A.
    pub fn register_a(&self) -> Option<u32>
        ensures { as_list result ≡ register_a self.now.w.raw }
    {
        self.op.a_is_register().then_some(self.w.a as u32)
    }

    // The child that Bx names.
    pub fn child_bx(&self) -> Option<u32>
        ensures { as_list result ≡ child_bx self.now.w.raw }
    {
        self.is_closure().then_some(self.w.bx)
    }

    // Whether it is a CLOSURE, which words may bind to.
    pub fn is_closure(&self) -> bool
        ensures { result ≡ is self.now.w.raw (CLOSURE ∷ []) }
    {
        matches!(self.op, Opcode51::Closure)
    }

    // The register that B, or C, names.
    pub fn register_in(&self, field: Field) -> Option<u32>
        ensures { as_list result ≡ register_in (field_of field) self.now.w.raw }
    {
        let fixed = self.op.is_fixed_register(field);
        let rk = self.op.is_rk(field);
        let value = self.w.operand(field);
        let is_register = fixed || rk && !is_k(value);
        is_register.then_some(value as u32)
    }

    // The constant that B, or C, names.
    pub fn constant_in(&self, field: Field) -> Option<u32>
        ensures { as_list result ≡ constant_in (field_of field) self.now.w.raw }
    {
        let rk = self.op.is_rk(field);
        let value = self.w.operand(field);
        let is_constant = rk && is_k(value);
        is_constant.then_some(index_k(value) as u32)
    }

    // Whether the word may go to pc + 2.
    pub fn is_conditional_skip(&self) -> bool
        ensures { result ≡ is_skip self.now.w.raw }
    {
        match self.op {
            Opcode51::Eq
            | Opcode51::Lt
            | Opcode51::Le
            | Opcode51::Test
            | Opcode51::TestSet
            | Opcode51::TForLoop => true,
            Opcode51::LoadBool => 0 < self.w.c,
            _ => false,
        }
    }

    // The last registers of the spans that the word names, in their order.
    pub fn span_ends(&self) -> (Option<u32>, Option<u32>)
        ensures { as_list result.0 ++ as_list result.1 ≡ span_ends self.now.w.raw }
    {
        let w = self.w;
        let a = w.a as u32;
        match self.op {
            Opcode51::SelfOp => (Some(a + 1), None),
            Opcode51::ForPrep | Opcode51::ForLoop => (Some(a + 3), None),
            Opcode51::TForLoop => (Some(a + 2 + w.c as u32), None),
            Opcode51::Call => (window(a, w.b, 0), window(a, w.c, 1)),
            Opcode51::TailCall => (window(a, w.b, 0), None),
            Opcode51::Return | Opcode51::VarArg => (window(a, w.b, 1), None),
            Opcode51::SetList => (window(a + 1, w.b, 0), None),
            _ => (None, None),
        }
    }
}

// The last of `count - implied` registers from `start` on, if there are any.
#[tactic(auto, unfolding(base::specs::Lists::only))]
fn window(start: u32, count: u16, implied: u16) -> Option<u32>
    requires { start ≤ 256 }
    ensures { as_list result ≡ only (nat_lt implied count) (start + count - (implied + 1)) }
{
    if count <= implied {
        return None;
    }
    Some(start + (count - implied) as u32 - 1)
}
