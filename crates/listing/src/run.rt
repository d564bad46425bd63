// What packcheck does: reads an input and writes its output.
ghost use Rattle.std.specs.Prelude.{List, ℕ, OnOk};
ghost use Rattle.std.specs.Io.KnownBytes.{Appends};
ghost use Rattle.listing.specs.Terms.{FrontRead};
ghost use Rattle.listing_spec.specs.Packcheck.{packcheck};

use crate::check::{OUTPUT_BYTES, check_listing};
use input::{INPUT_BYTES, read_full};
use std::io;
use std::io::{Read, Write};

// Reads the front of an input, at most 65,536 bytes, and writes the output for it. Where the front is all of the input's first 65,536 bytes, this is
// the output for the whole input. No clause says that it reads as far as it can: see `read_full`.
pub fn run<R: Read, W: Write>(input: &mut R, output: &mut W) -> io::Result<()>
    ensures { (front : List ℕ) × FrontRead (R.remaining input.old) (R.remaining input.new) front × OnOk result (Appends (W.contents output.old) (W.contents output.new) (packcheck front)) }
{
    // Arrays: no more is read or written, and no memory is taken from a heap.
    let mut front = [0u8; INPUT_BYTES];
    let got = read_full(input, &mut front);
    let mut text = [0u8; OUTPUT_BYTES];
    let end = check_listing(&front[..got], &mut text);
    output.write_all(&text[..end])
}
