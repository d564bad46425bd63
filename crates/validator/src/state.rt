// What the walk carries, and how a diagnostic is added to it.
ghost use Rattle.std.specs.Prelude.{◌≡◌, ◌<◌, [], ◌∷◌, pos};
ghost use Rattle.roles_spec.specs.Refusals.{max_rows};
ghost use Rattle.validator_spec.specs.Diagnostics.{diagnostic, not_below, tested_step};
ghost use Rattle.validator.specs.Steps.{take_step, emit_all, emitted, emitted_if, moved_to, tested_of};
ghost use Rattle.validator.specs.Terms.{code_number, as_list};

use crate::calls::DIAGNOSTIC_BYTES;
use crate::codes::Code;
use base::bytes::write_record;

// The next row and the index of its first word; how many diagnostics were found, and how many of them end the walk at a test; whether one is an
// error; whether a test ended the walk. (The fields fill the struct: docs/DECISIONS.md says what its padding cost.)
// The state is a value that methods take and hand back beside the lent buffer, document 01's form; `limit` is in it for the same reason.
#[derive(Clone, Copy)]
pub struct WalkState {
    pub row: usize,
    pub first: usize,
    pub count: u32,
    pub stop: u16,
    pub error: bool,
    pub limit: bool,
}

// Where a diagnostic stands: the row of a prototype and a pc in it, by the bits of its fields. (A stack's diagnostic has no word: its pc is -1, which
// is document 01's place for the whole prototype. An Option would have to be made -1 in each record.)
#[derive(Clone, Copy)]
pub struct Location {
    pub row: u32,
    pub pc: u32,
}

impl WalkState {
    // The test of the limit.
    #[tactic(auto, unfolding(crate::specs::Steps::tested_of))]
    pub fn tested(mut self) -> WalkState
        ensures { result ≡ tested_of self }
    {
        if self.stop as u32 <= self.count {
            self.limit = true;
        }
        self
    }

    // On to the next row, whose words begin at `first`.
    #[tactic(auto, unfolding(crate::specs::Steps::moved_to))]
    pub(crate) fn moved(mut self, first: usize) -> WalkState
        requires { self.row < max_rows }
        ensures { result ≡ moved_to first self }
    {
        self.row += 1;
        self.first = first;
        self
    }

    // Adds a diagnostic, its value given by its bits: it is counted, and written where its record fits. (It is counted modulo 2^32, which the limit
    // keeps far away. Place, code and value are parameters of their own: two of the four methods get place and code before there is a value.)
    #[tactic(auto, unfolding(crate::specs::Steps::emitted))]
    pub fn emit(mut self, out: &mut [u8], at: Location, code: Code, value: u32) -> WalkState
        ensures { (result, out.new) ≡ emitted at.row at.pc (code_number code) value (self, out.old) }
    {
        let record = [at.row, at.pc, code.number(), value];
        write_record(out, DIAGNOSTIC_BYTES * (self.count as usize), &record);
        self.count = self.count.wrapping_add(1);
        if code != Code::Stack001 {
            self.error = true;
        }
        self
    }

    // Tests the limit and, where the walk goes on, adds the diagnostic of a word.
    pub fn report(self, out: &mut [u8], at: Location, code: Code, value: u32) -> WalkState
        ensures { (result, out.new) ≡ take_step at.row (self, out.old) (tested_step (diagnostic at.pc (code_number code) (pos value) ∷ [])) }
    {
        let walk = self.tested();
        if walk.limit {
            return walk;
        }
        walk.emit(out, at, code, value)
    }

    // Adds a diagnostic where there is a value for it.
    #[tactic(auto, unfolding(crate::specs::Steps::emitted_if))]
    pub fn emit_if(self, out: &mut [u8], at: Location, code: Code, value: Option<u32>) -> WalkState
        ensures { (result, out.new) ≡ emitted_if at.row at.pc (code_number code) value (self, out.old) }
    {
        match value {
            None => self,
            Some(value) => self.emit(out, at, code, value),
        }
    }

    // Adds the diagnostic of an operand, where the word names it and it is not below its limit.
    pub fn check(
        self,
        out: &mut [u8],
        at: Location,
        code: Code,
        operand: Option<u32>,
        limit: u32,
    ) -> WalkState
        ensures { (result, out.new) ≡ emit_all at.row (not_below at.pc (code_number code) limit (as_list operand)) (self, out.old) }
    {
        let over = operand.filter(|value| limit <= *value);
        self.emit_if(out, at, code, over)
    }
}
