// The check of a listing: all that packcheck does, except reading its input and writing its output.
ghost use Rattle.std.specs.Prelude.{◌≡◌, ℕ, ◌≤◌, List, length, take};
ghost use Rattle.listing.specs.Terms.{HasRoom, Prints, listing_of, unread};
ghost use Rattle.listing_spec.specs.Longest.{input_bytes};
ghost use Rattle.listing_spec.specs.Packcheck.{output_text, packcheck};
ghost use Rattle.base.specs.Bytes.{overwrite};

use crate::printer::{NUMBER_ROOM, Printer, VERDICT_ROOM};
use crate::reader::{Listing, MAX_LISTING_WORDS, TABLE_ROOM, Unread, WORD_ROOM, read_listing};
use crate::report::{DIAGNOSTIC_NAMES, LONGEST_DIAGNOSTIC, VERDICT_NAMES};
use roles::role::ROLE_BYTES;
use validator::calls::{DIAGNOSTIC_BYTES, validate_chunk_lua51};

// The most diagnostics that there is room for.
const MAX_LISTING_DIAGNOSTICS: usize = 2048;

// No output is longer: the names lines, the diagnostics, the longest name of a verdict and the number.
pub const OUTPUT_BYTES: usize = DIAGNOSTIC_NAMES.len()
    + LONGEST_DIAGNOSTIC * MAX_LISTING_DIAGNOSTICS
    + VERDICT_NAMES.len()
    + VERDICT_ROOM
    + NUMBER_ROOM;

// Room for the roles of all the words that are read, and for the diagnostics. (Arrays: every input has an output, so nothing may fail for want of memory.)
const ROLE_ROOM: usize = ROLE_BYTES * MAX_LISTING_WORDS;

const DIAGNOSTIC_ROOM: usize = DIAGNOSTIC_BYTES * MAX_LISTING_DIAGNOSTICS;

// Writes to the front of a buffer what packcheck writes for an input, and answers how many bytes that are. It writes the same for every longer
// input of which these are the first 65,536 bytes.
pub fn check_listing(input: &[u8], output: &mut [u8; OUTPUT_BYTES]) -> usize
    ensures output_written { output.new ≡ overwrite output.old 0 (packcheck input.now) }
    ensures output_length { result ≡ length (packcheck input.now) }
    ensures within_output { result ≤ length output.new }
    ensures front_decides { (whole : List ℕ) → take input_bytes whole ≡ input.now → packcheck whole ≡ packcheck input.now }
{
    let mut table = [0u8; TABLE_ROOM];
    let mut words = [0u8; WORD_ROOM];
    let mut printer = Printer {
        out: output,
        end: 0,
    };
    match read_listing(input, &mut table, &mut words) {
        Ok(listing) => print_check(&mut printer, &listing),
        Err(why) => print_unread(&mut printer, why),
    }
    printer.end
}

// Prints refusal 9 or 10.
fn print_unread(printer: &mut Printer, why: Unread)
    requires { HasRoom printer.old }
    ensures { Prints printer.old (output_text (unread why)) printer.new }
{
    printer.refusal(why.number() as usize, why.figure())
}

// Checks the image of a listing and prints the answer.
fn print_check(printer: &mut Printer, listing: &Listing)
    requires { HasRoom printer.old }
    ensures { Prints printer.old (output_text (listing_of (Ok listing.now))) printer.new }
{
    let mut roles = [0u8; ROLE_ROOM];
    let mut diagnostics = [0u8; DIAGNOSTIC_ROOM];
    match validate_chunk_lua51(
        listing.table,
        listing.words,
        listing.warnings,
        listing.errors,
        &mut roles,
        &mut diagnostics,
    ) {
        Ok(validation) => printer.result(
            &diagnostics[..DIAGNOSTIC_BYTES * validation.count as usize],
            validation.verdict,
        ),
        Err(refusal) => printer.refusal(refusal.number() as usize, refusal.figure() as usize),
    }
}
