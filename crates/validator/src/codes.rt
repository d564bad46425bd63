// The codes of diagnostics.
ghost use Rattle.std.specs.Prelude.{◌≡◌};
ghost use Rattle.validator.specs.Terms.{code_number};

// The number of codes, which are numbered from 1.
pub const CODE_COUNT: usize = 17;

// The codes, by luad's names and document 01's numbers.
#[derive(Clone, Copy, PartialEq, Eq, Debug)]
pub enum Code {
    // L51-CLOSURE-001
    Closure001 = 1,
    // L51-SETLIST-001
    Setlist001 = 2,
    // L51-STACK-001, the only warning
    Stack001 = 3,
    // L51-OP-001
    Op001 = 4,
    // L51-JMP-001
    Jmp001 = 5,
    // L51-JMP-002
    Jmp002 = 6,
    // L51-CONST-003
    Const003 = 7,
    // L51-UPVAL-001
    Upval001 = 8,
    // L51-BOOL-001
    Bool001 = 9,
    // L51-REG-001
    Reg001 = 10,
    // L51-REG-SPAN-001
    RegSpan001 = 11,
    // L51-REG-002
    Reg002 = 12,
    // L51-REG-003
    Reg003 = 13,
    // L51-CONST-004
    Const004 = 14,
    // L51-CONST-005
    Const005 = 15,
    // L51-PROTO-002
    Proto002 = 16,
    // L51-CLOSURE-002
    Closure002 = 17,
}

impl Code {
    // Document 01's number.
    #[tactic(auto, unfolding(crate::specs::Terms::code_number))]
    pub fn number(self) -> u32
        ensures { result ≡ code_number self }
    {
        self as u32
    }
}
