// What packcheck writes: a refusal as the only line, or the diagnostics and the verdict.
ghost use Rattle.std.specs.Prelude.{◌*◌};
ghost use mathlib.Core.List.{[], ◌∷◌, ◌++◌, flat_map};
ghost use Rattle.listing.specs.Terms.{HasRoomFor, Prints, longest_answer, longest_diagnostic, records, refusal_room, verdict_room};
ghost use Rattle.listing_spec.specs.Packcheck.{diagnostic_text, refusal_text, result_text, verdict_name};
ghost use Rattle.listing_spec.specs.Text.{text as text_of};
ghost use Rattle.validator.specs.Terms.{verdict_of_case};
ghost use Rattle.validator_spec.specs.Records.{diagnostic_in, diagnostics_in};

use crate::printer::{CODE_ROOM, NUMBER_ROOM, Printer, SIGNED_ROOM};
use base::bytes::read_u32;
use validator::calls::{DIAGNOSTIC_BYTES, Verdict};

// The names lines: before the diagnostics, and before the verdict.
pub const DIAGNOSTIC_NAMES: &[u8] = b"row place code value\n";

pub const VERDICT_NAMES: &[u8] = b"verdict findings\n";

// The longest line of a diagnostic.
pub const LONGEST_DIAGNOSTIC: usize = NUMBER_ROOM + SIGNED_ROOM + CODE_ROOM + SIGNED_ROOM;

impl Printer<'_> {
    // A refusal's number and its figure.
    pub fn refusal(&mut self, number: usize, figure: usize)
        requires { HasRoomFor self.old refusal_room }
        ensures { Prints self.old (refusal_text (record { number = number; figure = figure })) self.new }
    {
        self.text(b"refused ");
        self.number(number, b' ');
        self.number(figure, b'\n');
    }

    // The diagnostics of these records, and the verdict.
    pub fn result(&mut self, diagnostics: &[u8], verdict: Verdict)
        requires { HasRoomFor self.old (longest_answer (records diagnostics.now)) }
        ensures { Prints self.old (result_text (diagnostics_in diagnostics.now (records diagnostics.now)) (record { verdict = verdict_of_case verdict; count = records diagnostics.now })) self.new }
    {
        self.text(DIAGNOSTIC_NAMES);
        self.diagnostics(diagnostics);
        self.text(VERDICT_NAMES);
        self.verdict(verdict);
        self.number(diagnostics.len() / DIAGNOSTIC_BYTES, b'\n');
    }

    // The diagnostics of these records, a line each.
    fn diagnostics(&mut self, diagnostics: &[u8])
        requires { HasRoomFor self.old (longest_diagnostic * records diagnostics.now) }
        ensures { Prints self.old (flat_map diagnostic_text (diagnostics_in diagnostics.now (records diagnostics.now))) self.new }
    {
        for bytes in diagnostics.chunks_exact(DIAGNOSTIC_BYTES) {
            self.diagnostic(bytes);
        }
    }

    // The diagnostic of a record's bytes.
    fn diagnostic(&mut self, bytes: &[u8])
        requires { HasRoomFor self.old longest_diagnostic }
        ensures { Prints self.old (diagnostic_text (diagnostic_in bytes.now 0)) self.new }
    {
        self.number(read_u32(bytes, 0) as usize, b' ');
        self.signed(read_u32(bytes, 4), b' ');
        self.code(read_u32(bytes, 8) as usize);
        self.signed(read_u32(bytes, 12), b'\n');
    }

    // A verdict's name, and a space.
    fn verdict(&mut self, verdict: Verdict)
        requires { HasRoomFor self.old verdict_room }
        ensures { Prints self.old (text_of (verdict_name (verdict_of_case verdict)) ++ (32 ∷ [])) self.new }
    {
        match verdict {
            Verdict::ValidForParser => self.text(b"ValidForParser "),
            Verdict::Incomplete => self.text(b"Incomplete "),
            Verdict::Invalid => self.text(b"Invalid "),
        }
    }
}
