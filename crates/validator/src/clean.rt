// Finds words without a diagnostic fast: what an opcode names is looked up in a table. The code branches only on whether the opcode is known and on
// where the word goes, and does not touch the walk's state. A word that is not found clean is judged by `word`, whether it has diagnostics or not.
// (The functions of `operands` branch on the opcode. The check takes 19.5 ns a word without the table and 9.3 with it; a transcription with those
// functions takes 21.8, and 14.9 with the table.)
ghost use Rattle.std.specs.Prelude.{◌≡◌, ℕ, ◌+◌, ◌*◌, ◌/◌, ◌%◌, ◌<◌, ◌≤◌, true, false, [], length, pos, ◌-ℤ◌, nat_le, nat_lt, slice_index, slice_index_or};
ghost use Rattle.opcodes.specs.Words.{decoded, offset_sbx, opcode_count};
ghost use Rattle.roles_spec.specs.Refusals.{max_word_bytes};
ghost use Rattle.roles_spec.specs.Roles.{Executable};
ghost use Rattle.roles_spec.specs.Table.{Proto};
ghost use Rattle.roles.specs.Bounds.{HasWord, SmallPc};
ghost use Rattle.validator_spec.specs.Diagnostics.{diagnostics_at};
ghost use Rattle.validator_spec.specs.Rules.{Lands};
ghost use Rattle.validator.specs.Terms.{Describes, Stands};
ghost use Rattle.validator.specs.Clean.{FlowKept, OperandsBelow, slot_limits, names_nothing, no_limit, slot, shapes};

use crate::operands::FLAG_LIMIT;
use crate::rows::Body;
use crate::word::is_companion;
use base::bytes::u32_at;
use opcodes::{LAST_OPCODE, OFFSET_SBX, OPCODE_COUNT, RawInstruction51};

// Above every field of a word.
const NO_LIMIT: u32 = 262144;

// The limits of operands, in the order of the list of limits: of a field that names nothing, a register, an RK operand, a constant, an upvalue, a
// flag, a child. A B or C of 256 or more has the bit of a constant and the next limit in the list: for an RK operand this is a constant's.
#[derive(Clone, Copy)]
enum Limit {
    Nothing,
    NothingK,
    Register,
    RegisterK,
    Rk,
    Constant,
    Upvalue,
    UpvalueK,
    Flag,
    Child,
}

impl Limit {
    // The limit's slot in the list.
    fn slot(self) -> usize
        ensures { result ≡ slot self }
    {
        self as usize
    }
}

// Where a word goes: `Next`, to the next word alone; `Target`, to its target; `Past(n)`, past companions or past the next word: the word n ahead has
// to be executable.
#[derive(Clone, Copy)]
enum Flow {
    Next,
    Target,
    Past(u8),
}

// What an opcode names, and where its word goes: the limits of A, Bx, B and C, and the spans that B and C end. A span is one number: 2 * n + 1 ends at
// register A + n - 2 + the field, 2 * n at A + n - 2; 0 is none. So a shape has eight bytes: docs/DECISIONS.md has the measurement.
#[derive(Clone, Copy)]
struct Shape {
    a: Limit,
    bx: Limit,
    b: Limit,
    c: Limit,
    b_span: u8,
    c_span: u8,
    flow: Flow,
}

// Register A alone, and on to the next word.
const A: Shape = Shape {
    a: Limit::Register,
    bx: Limit::Nothing,
    b: Limit::Nothing,
    c: Limit::Nothing,
    b_span: 0,
    c_span: 0,
    flow: Flow::Next,
};

// Registers A and B.
const A_B: Shape = Shape {
    b: Limit::Register,
    ..A
};

// Registers A, B and C.
const A_B_C: Shape = Shape {
    c: Limit::Register,
    ..A_B
};

// Registers A and B, and the RK operand C.
const A_B_RK: Shape = Shape {
    c: Limit::Rk,
    ..A_B
};

// Register A, and the RK operands B and C.
const A_RK_RK: Shape = Shape {
    b: Limit::Rk,
    c: Limit::Rk,
    ..A
};

// Register A, and the constant Bx.
const A_CONSTANT: Shape = Shape {
    bx: Limit::Constant,
    ..A
};

// Register A, and the upvalue B.
const A_UPVALUE: Shape = Shape {
    b: Limit::Upvalue,
    ..A
};

// Register A, and over the next word.
const A_SKIP: Shape = Shape {
    flow: Flow::Past(2),
    ..A
};

// Registers A and B, and over the next word.
const A_B_SKIP: Shape = Shape {
    flow: Flow::Past(2),
    ..A_B
};

// A flag in A, the RK operands B and C, and over the next word.
const COMPARISON: Shape = Shape {
    a: Limit::Flag,
    flow: Flow::Past(2),
    ..A_RK_RK
};

// Nothing, and to the target.
const JUMP: Shape = Shape {
    a: Limit::Nothing,
    flow: Flow::Target,
    ..A
};

// Registers A to A + 3, and to the target.
const NUMERIC_FOR: Shape = Shape {
    b_span: 2 * 5,
    flow: Flow::Target,
    ..A
};

// Registers A to A + 2 + C, and over the next word.
const GENERIC_FOR: Shape = Shape {
    c_span: 2 * 4 + 1,
    flow: Flow::Past(2),
    ..A
};

// Registers A and B, register A + 1, and the RK operand C.
const METHOD: Shape = Shape {
    b_span: 2 * 3,
    ..A_B_RK
};

// Registers A to A - 1 + B.
const ARGUMENTS: Shape = Shape {
    b_span: 2 * 1 + 1,
    ..A
};

// Registers A to A - 1 + B, and A to A - 2 + C.
const CALL: Shape = Shape {
    c_span: 1,
    ..ARGUMENTS
};

// Registers A to A - 2 + B.
const VALUES: Shape = Shape { b_span: 1, ..A };

// Registers A to A + B.
const ELEMENTS: Shape = Shape {
    b_span: 2 * 2 + 1,
    ..A
};

// Register A, the child Bx, and past one binding word.
const CHILD: Shape = Shape {
    bx: Limit::Child,
    flow: Flow::Past(1),
    ..A
};

// What each opcode names and where its word goes. (It is a static, since a constant is copied to the stack where it is named.)
static SHAPES: [Shape; OPCODE_COUNT] = [
    A_B, // MOVE
    A_CONSTANT, // LOADK
    A_SKIP, // LOADBOOL
    A_B, // LOADNIL
    A_UPVALUE, // GETUPVAL
    A_CONSTANT, // GETGLOBAL
    A_B_RK, // GETTABLE
    A_CONSTANT, // SETGLOBAL
    A_UPVALUE, // SETUPVAL
    A_RK_RK, // SETTABLE
    A, // NEWTABLE
    METHOD, // SELF
    A_RK_RK, // ADD
    A_RK_RK, // SUB
    A_RK_RK, // MUL
    A_RK_RK, // DIV
    A_RK_RK, // MOD
    A_RK_RK, // POW
    A_B, // UNM
    A_B, // NOT
    A_B, // LEN
    A_B_C, // CONCAT
    JUMP, // JMP
    COMPARISON, // EQ
    COMPARISON, // LT
    COMPARISON, // LE
    A_SKIP, // TEST
    A_B_SKIP, // TESTSET
    CALL, // CALL
    ARGUMENTS, // TAILCALL
    VALUES, // RETURN
    NUMERIC_FOR, // FORLOOP
    NUMERIC_FOR, // FORPREP
    GENERIC_FOR, // TFORLOOP
    ELEMENTS, // SETLIST
    A, // CLOSE
    CHILD, // CLOSURE
    VALUES, // VARARG
];

// The first pc from `from` on whose word is not found clean, or the number of words. A word at this pc is executable.
pub fn next_suspect(body: &Body, from: usize) -> usize
    requires { from ≤ length body.now.code.now / 4 }
    ensures in_range { (from ≤ result) × (result ≤ length body.now.code.now / 4) }
    ensures clean { (p : Proto) → Describes p body.now.limits body.now.code.now body.now.roles.now → (pc : ℕ) → from ≤ pc → pc < result → diagnostics_at p pc ≡ [] }
    ensures executable { result < length body.now.code.now / 4 → (p : Proto) → Describes p body.now.limits body.now.code.now body.now.roles.now → Executable p result }
{
    let row = body.limits;
    let slots = [
        NO_LIMIT,
        NO_LIMIT,
        row.stack,
        0,
        row.stack,
        row.constants,
        row.upvalues,
        0,
        FLAG_LIMIT,
        row.children,
    ];
    let test = CleanTest {
        body,
        slots: &slots,
    };
    let n = body.code.len() / 4;
    for pc in from..n {
        if !test.is_clean(pc) {
            return pc;
        }
    }
    n
}

// What the test of each word looks at: its prototype's words and roles, and the limits by their slots.
#[derive(Clone, Copy)]
struct CleanTest<'a> {
    body: &'a Body<'a>,
    slots: &'a [u32],
    ghost slots_of_body: { slots.now ≡ slot_limits body.now.limits },
}

impl<'a> CleanTest<'a> {
    // Whether the word at pc is a companion or is found clean.
    fn is_clean(&self, pc: usize) -> bool
        requires { HasWord self.now.body.now.code.now pc }
        ensures clean { (p : Proto) → Describes p self.now.body.now.limits self.now.body.now.code.now self.now.body.now.roles.now → result ≡ true → diagnostics_at p pc ≡ [] }
        ensures executable { (p : Proto) → Describes p self.now.body.now.limits self.now.body.now.code.now self.now.body.now.roles.now → result ≡ false → Executable p pc }
    {
        let body = self.body;
        if is_companion(body.roles, pc) {
            return true;
        }
        let w = RawInstruction51::decode(u32_at(body.code, pc));
        if LAST_OPCODE < w.opcode_num {
            return false;
        }
        let shape = SHAPES[w.opcode_num as usize];
        self.operands_below(shape, w) && goes_to_word(body, shape.flow, pc as u32, w.bx)
    }

    // Whether all that the word names is below its limit.
    fn operands_below(&self, shape: Shape, w: RawInstruction51) -> bool
        requires { (w ≡ decoded w.raw) × (w.opcode_num < opcode_count) × (shape ≡ slice_index_or shapes w.opcode_num names_nothing) }
        ensures { result ≡ true → OperandsBelow self.now.body.now.limits w.raw }
    {
        let slots = self.slots;
        let stack = self.body.limits.stack;
        is_below(slots, shape.a, w.a as u32)
            && is_below(slots, shape.bx, w.bx)
            && field_below(slots, shape.b, w.b)
            && field_below(slots, shape.c, w.c)
            && span_below(stack, shape.b_span, w.a, w.b)
            && span_below(stack, shape.c_span, w.a, w.c)
    }
}

// Whether a value is below this limit.
fn is_below(slots: &[u32], limit: Limit, value: u32) -> bool
    requires { slot limit < length slots.now }
    ensures { result ≡ nat_lt value (slice_index slots.now (slot limit)) }
{
    value < slots[limit.slot()]
}

// Whether B or C is below its limit. The limit of a value with the bit of a constant is in the next slot.
fn field_below(slots: &[u32], limit: Limit, value: u16) -> bool
    requires { (slot limit + 1 < length slots.now) × (value < 512) }
    ensures { result ≡ nat_lt (value % 256) (slice_index slots.now (slot limit + value / 256)) }
{
    ((value % 256) as u32) < slots[limit.slot() + (value / 256) as usize]
}

// Whether the span that a field of this value ends is below the stack.
fn span_below(stack: u32, span: u8, a: u8, value: u16) -> bool
    ensures { result ≡ nat_le (a + span / 2 + span % 2 * value) (stack + 1) }
{
    ((a as u32) + (span / 2) as u32 + (span % 2) as u32 * (value as u32)) as u64
        <= (stack as u64) + 1
}

// Whether the word has no target or an executable one, and skips to no companion and owns none.
fn goes_to_word(body: &Body, flow: Flow, pc: u32, bx: u32) -> bool
    requires { SmallPc pc × (bx < no_limit) }
    ensures { (p : Proto) → Stands p body.now.limits body.now.roles.now → result ≡ true → FlowKept p flow pc bx }
{
    match flow {
        Flow::Next => true,
        Flow::Target => target_is_word(body, pc + 1 + bx),
        Flow::Past(words) => !is_companion(body.roles, (pc + words as u32) as usize),
    }
}

// Whether an executable word stands at a target. `sum` is pc + 1 + Bx; the target is sum - OFFSET_SBX.
fn target_is_word(body: &Body, sum: u32) -> bool
    ensures { (p : Proto) → Stands p body.now.limits body.now.roles.now → result ≡ true → Lands p (pos sum -ℤ pos offset_sbx) }
{
    if sum < OFFSET_SBX {
        return false;
    }
    let target = sum - OFFSET_SBX;
    if body.limits.words <= target {
        return false;
    }
    !is_companion(body.roles, target as usize)
}
