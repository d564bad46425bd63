// Lua 5.1 opcodes and the split of an instruction word, after luad's opcodes.rs.
#![tactic(auto)]

ghost use Rattle.std.specs.Prelude.{◌≡◌, Option, Some};
ghost use Rattle.opcodes.specs.Names.{mode_name, opcode_name};
ghost use Rattle.opcodes.specs.Words.{a_is_register, constant_index, decoded, field_of, is_constant, is_fixed_register, is_rk, mode_of, opcode_number, opcode_of, operand_in};

use std::fmt;

// The bit that makes an RK operand a constant.
pub const BITRK_51: u16 = 256;

// sBx is Bx - OFFSET_SBX.
pub const OFFSET_SBX: u32 = 131071;

// The number of the last known opcode. Greater numbers have no opcode.
pub const LAST_OPCODE: u8 = Opcode51::VarArg as u8;

// The number of known opcodes, and so of entries in a table by opcode number.
pub const OPCODE_COUNT: usize = LAST_OPCODE as usize + 1;

// All 38 official Lua 5.1 opcodes.
#[derive(Debug, Clone, Copy, PartialEq, Eq)]
pub enum Opcode51 {
    Move = 0,
    LoadK = 1,
    LoadBool = 2,
    LoadNil = 3,
    GetUpval = 4,
    GetGlobal = 5,
    GetTable = 6,
    SetGlobal = 7,
    SetUpval = 8,
    SetTable = 9,
    NewTable = 10,
    SelfOp = 11,
    Add = 12,
    Sub = 13,
    Mul = 14,
    Div = 15,
    Mod = 16,
    Pow = 17,
    Unm = 18,
    Not = 19,
    Len = 20,
    Concat = 21,
    Jmp = 22,
    Eq = 23,
    Lt = 24,
    Le = 25,
    Test = 26,
    TestSet = 27,
    Call = 28,
    TailCall = 29,
    Return = 30,
    ForLoop = 31,
    ForPrep = 32,
    TForLoop = 33,
    SetList = 34,
    Close = 35,
    Closure = 36,
    VarArg = 37,
}

// The opcode of a number: one of the 38, or the unknown number itself, which in a decoded word is its six bits.
// An enum and not a Result, as in document 01: a decoded word holds a known or an unknown opcode.
#[derive(Debug, Clone, Copy, PartialEq, Eq)]
pub enum OpcodeField {
    Known(Opcode51),
    Unknown(u8),
}

// B and C, which have the same kinds of rules. In specs/ they are two values of its own `Field`.
#[derive(Debug, Clone, Copy, PartialEq, Eq)]
pub enum Field {
    B,
    C,
}

// Which operand fields a word has: A B C, A Bx or A sBx.
#[derive(Debug, Clone, Copy, PartialEq, Eq)]
pub enum OpMode51 {
    IABC,
    IABx,
    IAsBx,
}

// The fields of a 32-bit Lua 5.1 instruction word.
#[derive(Debug, Clone, Copy, PartialEq, Eq)]
pub struct RawInstruction51 {
    pub raw: u32,
    pub opcode_num: u8,
    pub opcode: OpcodeField,
    pub a: u8,
    pub b: u16,
    pub c: u16,
    pub bx: u32,
    pub sbx: i32,
}

// The opcode of a number, or the unknown number. (A `match` and not a table: it compiles to a comparison without a load.)
impl From<u8> for OpcodeField {
    ghost from_gives = { λ n o. (o ≡ opcode_of n) × (opcode_number o ≡ n) };

    #[tactic(auto, unfolding(crate::specs::Words::opcode_of, crate::specs::Words::opcodes, crate::specs::Words::opcode_at, crate::specs::Words::opcode_number, crate::specs::Words::number_of))]
    fn from(val: u8) -> OpcodeField {
        match val {
            0 => OpcodeField::Known(Opcode51::Move),
            1 => OpcodeField::Known(Opcode51::LoadK),
            2 => OpcodeField::Known(Opcode51::LoadBool),
            3 => OpcodeField::Known(Opcode51::LoadNil),
            4 => OpcodeField::Known(Opcode51::GetUpval),
            5 => OpcodeField::Known(Opcode51::GetGlobal),
            6 => OpcodeField::Known(Opcode51::GetTable),
            7 => OpcodeField::Known(Opcode51::SetGlobal),
            8 => OpcodeField::Known(Opcode51::SetUpval),
            9 => OpcodeField::Known(Opcode51::SetTable),
            10 => OpcodeField::Known(Opcode51::NewTable),
            11 => OpcodeField::Known(Opcode51::SelfOp),
            12 => OpcodeField::Known(Opcode51::Add),
            13 => OpcodeField::Known(Opcode51::Sub),
            14 => OpcodeField::Known(Opcode51::Mul),
            15 => OpcodeField::Known(Opcode51::Div),
            16 => OpcodeField::Known(Opcode51::Mod),
            17 => OpcodeField::Known(Opcode51::Pow),
            18 => OpcodeField::Known(Opcode51::Unm),
            19 => OpcodeField::Known(Opcode51::Not),
            20 => OpcodeField::Known(Opcode51::Len),
            21 => OpcodeField::Known(Opcode51::Concat),
            22 => OpcodeField::Known(Opcode51::Jmp),
            23 => OpcodeField::Known(Opcode51::Eq),
            24 => OpcodeField::Known(Opcode51::Lt),
            25 => OpcodeField::Known(Opcode51::Le),
            26 => OpcodeField::Known(Opcode51::Test),
            27 => OpcodeField::Known(Opcode51::TestSet),
            28 => OpcodeField::Known(Opcode51::Call),
            29 => OpcodeField::Known(Opcode51::TailCall),
            30 => OpcodeField::Known(Opcode51::Return),
            31 => OpcodeField::Known(Opcode51::ForLoop),
            32 => OpcodeField::Known(Opcode51::ForPrep),
            33 => OpcodeField::Known(Opcode51::TForLoop),
            34 => OpcodeField::Known(Opcode51::SetList),
            35 => OpcodeField::Known(Opcode51::Close),
            36 => OpcodeField::Known(Opcode51::Closure),
            37 => OpcodeField::Known(Opcode51::VarArg),
            _ => OpcodeField::Unknown(val),
        }
    }
}

impl Opcode51 {
    // Lua's name of the variant, which shows to which variant a word was decoded.
    #[tactic(auto, unfolding(crate::specs::Names::opcode_name))]
    fn name(self) -> &'static str
        ensures { result.now ≡ opcode_name self }
    {
        match self {
            Opcode51::Move => "MOVE",
            Opcode51::LoadK => "LOADK",
            Opcode51::LoadBool => "LOADBOOL",
            Opcode51::LoadNil => "LOADNIL",
            Opcode51::GetUpval => "GETUPVAL",
            Opcode51::GetGlobal => "GETGLOBAL",
            Opcode51::GetTable => "GETTABLE",
            Opcode51::SetGlobal => "SETGLOBAL",
            Opcode51::SetUpval => "SETUPVAL",
            Opcode51::SetTable => "SETTABLE",
            Opcode51::NewTable => "NEWTABLE",
            Opcode51::SelfOp => "SELF",
            Opcode51::Add => "ADD",
            Opcode51::Sub => "SUB",
            Opcode51::Mul => "MUL",
            Opcode51::Div => "DIV",
            Opcode51::Mod => "MOD",
            Opcode51::Pow => "POW",
            Opcode51::Unm => "UNM",
            Opcode51::Not => "NOT",
            Opcode51::Len => "LEN",
            Opcode51::Concat => "CONCAT",
            Opcode51::Jmp => "JMP",
            Opcode51::Eq => "EQ",
            Opcode51::Lt => "LT",
            Opcode51::Le => "LE",
            Opcode51::Test => "TEST",
            Opcode51::TestSet => "TESTSET",
            Opcode51::Call => "CALL",
            Opcode51::TailCall => "TAILCALL",
            Opcode51::Return => "RETURN",
            Opcode51::ForLoop => "FORLOOP",
            Opcode51::ForPrep => "FORPREP",
            Opcode51::TForLoop => "TFORLOOP",
            Opcode51::SetList => "SETLIST",
            Opcode51::Close => "CLOSE",
            Opcode51::Closure => "CLOSURE",
            Opcode51::VarArg => "VARARG",
        }
    }

    // Which operand fields the opcode has.
    #[tactic(auto, unfolding(crate::specs::Words::mode_of, crate::specs::Words::number_of))]
    pub fn mode(self) -> OpMode51
        ensures { result ≡ mode_of self }
    {
        match self {
            Opcode51::LoadK | Opcode51::GetGlobal | Opcode51::SetGlobal | Opcode51::Closure =>
                OpMode51::IABx,
            Opcode51::Jmp | Opcode51::ForLoop | Opcode51::ForPrep => OpMode51::IAsBx,
            _ => OpMode51::IABC,
        }
    }

    // Whether A names a register.
    #[tactic(auto, unfolding(crate::specs::Words::a_is_register, crate::specs::Words::number_of))]
    pub fn a_is_register(self) -> bool
        ensures { result ≡ a_is_register self }
    {
        !matches!(
            self,
            Opcode51::Jmp | Opcode51::Eq | Opcode51::Lt | Opcode51::Le
        )
    }

    // Whether B, or C, always names a register.
    #[tactic(auto, unfolding(crate::specs::Words::B, crate::specs::Words::C, crate::specs::Words::is_fixed_register, crate::specs::Words::number_of))]
    pub fn is_fixed_register(self, field: Field) -> bool
        ensures { result ≡ is_fixed_register (field_of field) self }
    {
        match field {
            Field::B => matches!(
                self,
                Opcode51::Move
                    | Opcode51::LoadNil
                    | Opcode51::GetTable
                    | Opcode51::SelfOp
                    | Opcode51::Unm
                    | Opcode51::Not
                    | Opcode51::Len
                    | Opcode51::Concat
                    | Opcode51::TestSet
            ),
            Field::C => matches!(self, Opcode51::Concat),
        }
    }

    // Whether B, or C, is an RK operand, which names a register or a constant. C is one wherever B is, and in two more opcodes.
    #[tactic(auto, unfolding(crate::specs::Words::B, crate::specs::Words::C, crate::specs::Words::is_rk, crate::specs::Words::number_of))]
    pub fn is_rk(self, field: Field) -> bool
        ensures { result ≡ is_rk (field_of field) self }
    {
        match self {
            Opcode51::SetTable
            | Opcode51::Add
            | Opcode51::Sub
            | Opcode51::Mul
            | Opcode51::Div
            | Opcode51::Mod
            | Opcode51::Pow
            | Opcode51::Eq
            | Opcode51::Lt
            | Opcode51::Le => true,
            Opcode51::GetTable | Opcode51::SelfOp => field == Field::C,
            _ => false,
        }
    }
}

// Prints Lua's name.
impl fmt::Display for Opcode51 {
    ghost output = { λ o. Some (opcode_name o) };

    fn fmt<W: fmt::Write>(&self, f: &mut fmt::Formatter<W>) -> fmt::Result {
        f.pad(self.name())
    }
}

impl OpMode51 {
    // lopcodes.h's name.
    #[tactic(auto, unfolding(crate::specs::Names::mode_name))]
    fn name(self) -> &'static str
        ensures { result.now ≡ mode_name self }
    {
        match self {
            OpMode51::IABC => "iABC",
            OpMode51::IABx => "iABx",
            OpMode51::IAsBx => "iAsBx",
        }
    }
}

// Prints lopcodes.h's name.
impl fmt::Display for OpMode51 {
    ghost output = { λ m. Some (mode_name m) };

    fn fmt<W: fmt::Write>(&self, f: &mut fmt::Formatter<W>) -> fmt::Result {
        f.pad(self.name())
    }
}

impl RawInstruction51 {
    // Splits a word. The field of n bits from bit k on is raw / 2^k % 2^n.
    #[tactic(auto, unfolding(crate::specs::Words::decoded, crate::specs::Words::B, crate::specs::Words::C))]
    pub fn decode(raw: u32) -> RawInstruction51
        ensures { result ≡ decoded raw }
    {
        let opcode_num = (raw % 0x40) as u8;
        let opcode = OpcodeField::from(opcode_num);
        let a = (raw / 0x40 % 0x100) as u8;
        let c = (raw / 0x4000 % 0x200) as u16;
        let b = (raw / 0x80_0000 % 0x200) as u16;
        let bx = raw / 0x4000 % 0x4_0000;
        let sbx = (bx as i32) - (OFFSET_SBX as i32);
        RawInstruction51 {
            raw,
            opcode_num,
            opcode,
            a,
            b,
            c,
            bx,
            sbx,
        }
    }

    // The value of B, or of C.
    pub fn operand(self, field: Field) -> u16
        ensures { result ≡ operand_in field self }
    {
        match field {
            Field::B => self.b,
            Field::C => self.c,
        }
    }

    // Whether B, or C, names a constant in an RK operand.
    pub fn is_k(self, field: Field) -> bool
        ensures { result ≡ is_constant (operand_in field self) }
    {
        is_k(self.operand(field))
    }

    // The index of the constant that B, or C, names, or the field's value as it stands.
    pub fn index_k(self, field: Field) -> u16
        ensures { result ≡ constant_index (operand_in field self) }
    {
        index_k(self.operand(field))
    }
}

// Whether an RK operand of this value, B or C, names a constant.
#[tactic(auto, unfolding(crate::specs::Words::is_constant))]
pub fn is_k(value: u16) -> bool
    ensures { result ≡ is_constant value }
{
    BITRK_51 <= value
}

// The index of the constant that an RK operand of this value names, or the value as it stands.
#[tactic(auto, unfolding(crate::specs::Words::is_constant, crate::specs::Words::constant_index))]
pub fn index_k(value: u16) -> u16
    ensures { result ≡ constant_index value }
{
    if is_k(value) { value - BITRK_51 } else { value }
}
