// Text into a byte buffer. Decimals and names are printed by hand: nothing promises that a `write!` is `Ok`, or that `InlineText::of` cuts no text that fits,
// and here every output must be whole.
ghost use Rattle.std.specs.Prelude.{◌≡◌, [], ◌∷◌, ◌++◌, length};
ghost use Rattle.listing.specs.Terms.{HasRoomFor, Prints, code_room, signed_room};
ghost use Rattle.listing_spec.specs.Text.{number_room};
ghost use Rattle.validator_spec.specs.Records.{signed};
ghost use Rattle.listing_spec.specs.Packcheck.{code_name};
ghost use Rattle.listing_spec.specs.Text.{decimal, digits, integer, text as text_of};

use validator::codes::CODE_COUNT;

// The most digits of a u32.
const LONGEST_NUMBER: usize = 10;

// The length of the longest name of a code.
const LONGEST_NAME: usize = 16;

// Room for a number, a signed number, a code's name, a verdict's name, each with the byte after it.
pub const NUMBER_ROOM: usize = LONGEST_NUMBER + 1;

pub const SIGNED_ROOM: usize = NUMBER_ROOM + 1;

pub const CODE_ROOM: usize = LONGEST_NAME + 1;

pub const VERDICT_ROOM: usize = b"ValidForParser".len() + 1;

// The names of the codes from 1 on, found by number and not by validator's `Code`: a record of the buffer has the number, and by the definition
// 0 and a number past the last have a text too.
const CODE_NAMES: [&str; CODE_COUNT] = [
    "L51-CLOSURE-001",
    "L51-SETLIST-001",
    "L51-STACK-001",
    "L51-OP-001",
    "L51-JMP-001",
    "L51-JMP-002",
    "L51-CONST-003",
    "L51-UPVAL-001",
    "L51-BOOL-001",
    "L51-REG-001",
    "L51-REG-SPAN-001",
    "L51-REG-002",
    "L51-REG-003",
    "L51-CONST-004",
    "L51-CONST-005",
    "L51-PROTO-002",
    "L51-CLOSURE-002",
];

// A buffer, and where the text in it ends. Each method writes on from there and requires the room for its own text. (No ghost field has the room that
// is left: it is another at each call.)
#[derive(Drop)]
pub struct Printer<'a> {
    pub out: &'a mut [u8],
    pub end: usize,
}

impl Printer<'_> {
    // A text.
    pub fn text(&mut self, text: &[u8])
        requires { HasRoomFor self.old (length text.now) }
        ensures { Prints self.old text.now self.new }
    {
        let end = self.end + text.len();
        self.out[self.end..end].copy_from_slice(text);
        self.end = end;
    }

    // A number and a byte after it.
    pub fn number(&mut self, n: usize, after: u8)
        requires { HasRoomFor self.old number_room }
        ensures { Prints self.old (decimal n ++ (after ∷ [])) self.new }
    {
        self.digits(n, LONGEST_NUMBER);
        self.byte(after);
    }

    // A signed number, given by its bits, as the record has it, and a byte after it.
    pub fn signed(&mut self, bits: u32, after: u8)
        requires { HasRoomFor self.old signed_room }
        ensures { Prints self.old (integer (signed bits) ++ (after ∷ [])) self.new }
    {
        if bits < 0x8000_0000 {
            self.number(bits as usize, after);
        } else {
            self.byte(b'-');
            self.number((0xffff_ffff - bits) as usize + 1, after);
        }
    }

    // The name of a code, and a space. A number past the last code has an empty name.
    pub fn code(&mut self, code: usize)
        requires { HasRoomFor self.old code_room }
        ensures { Prints self.old (text_of (code_name code) ++ (32 ∷ [])) self.new }
    {
        self.text(name_of(code).as_bytes());
        self.byte(b' ');
    }

    // At most `most` decimal digits of n.
    fn digits(&mut self, n: usize, most: usize)
        requires { HasRoomFor self.old most }
        ensures { Prints self.old (digits most n) self.new }
    {
        if most == 0 {
            return;
        }
        if 10 <= n {
            self.digits(n / 10, most - 1);
        }
        self.byte(b'0' + (n % 10) as u8);
    }

    // A byte.
    fn byte(&mut self, byte: u8)
        requires { HasRoomFor self.old 1 }
        ensures { Prints self.old (byte ∷ []) self.new }
    {
        self.out[self.end] = byte;
        self.end += 1;
    }
}

// The name of a code, at the index one below its number. 0 has the name of 1, and a number past the last an empty one.
fn name_of(code: usize) -> &'static str
    ensures { result.now ≡ text_of (code_name code) }
{
    let index = code.saturating_sub(1);
    if index < CODE_COUNT {
        CODE_NAMES[index]
    } else {
        ""
    }
}
