// The check call.
ghost use Rattle.std.specs.Prelude.{◌≡◌, ◌+◌, ◌-◌, ◌*◌, ◌/◌, ◌≤◌, ◌||◌, length, nat_lt};
ghost use mathlib.Core.List.{flat_map};
ghost use Rattle.base.specs.Bytes.{i32_record, overwrite};
ghost use Rattle.roles_spec.specs.Calls.{accepted, answer, filled, roles_after};
ghost use Rattle.roles_spec.specs.Refusals.{max_rows, too_short};
ghost use Rattle.roles_spec.specs.Table.{row_bytes};
ghost use Rattle.roles.specs.Bounds.{CoversRows};
ghost use Rattle.validator_spec.specs.Check.{Checked, check_answer, checked, diagnostics_after};
ghost use Rattle.validator_spec.specs.Image.{diagnostics as found};
ghost use Rattle.validator_spec.specs.Statements.{Guarantee};
ghost use Rattle.validator_spec.specs.Walk.{diagnostic_limit, diagnostic_bytes, diagnostic_fields, verdict_of};
ghost use Rattle.validator.specs.Terms.{answer_of, checked_of, concluded, image_in, image_of, verdict_of_case};
ghost use Rattle.validator.specs.Steps.{Walked};

use crate::child_counts::count_children;
use crate::image::Image;
use crate::rows::CountedImage;
use crate::state::WalkState;
use crate::walk::validate_proto;
use roles::calls::write_roles;
use roles::refusals::{FEW_ROWS, MAX_ROWS, MAX_UPVALUES, Refusal};
use roles::table::ROW_BYTES;

// The length of a record in bytes.
pub const DIAGNOSTIC_BYTES: usize = 16;

// The diagnostic limit: this many, incoming ones included, end the walk at a test.
const DIAGNOSTIC_LIMIT: u64 = 10000;

// No image has more diagnostics: 9,999 before its last test, and a word that has 256.
const MAX_DIAGNOSTICS: usize = DIAGNOSTIC_LIMIT as usize + MAX_UPVALUES as usize;

// What the check says of an image.
#[derive(Clone, Copy, PartialEq, Eq, Debug)]
pub enum Verdict {
    ValidForParser,
    Incomplete,
    Invalid,
}

// What the call answers where it does not refuse: the verdict and the number of diagnostics.
#[derive(Clone, Copy, PartialEq, Eq, Debug)]
pub struct Validation {
    pub verdict: Verdict,
    pub count: u32,
}

// Judges the image: writes the roles of all words to the front of a buffer and the diagnostics, four i32 each, to the front of a second, and
// answers the verdict and the number of diagnostics. `warnings` and `errors` are those that the image came with. A refused call writes nothing,
// but that 8, where the diagnostics do not fit, comes with the roles written.
pub fn validate_chunk_lua51(
    table: &[u8],
    words: &[u8],
    warnings: u32,
    errors: u32,
    roles: &mut [u8],
    diagnostics: &mut [u8],
) -> Result<Validation, Refusal>
    ensures result_value { answer_of result ≡ check_answer (image_of table.now words.now warnings errors) (length roles.old) (length diagnostics.old) }
    ensures roles_after { roles.new ≡ roles_after table.now words.now roles.old }
    ensures diagnostics_after { diagnostics.new ≡ diagnostics_after (image_of table.now words.now warnings errors) (length roles.old) diagnostics.old }
    ensures guarantee { (c : Checked) → answer_of result ≡ accepted c → Guarantee (image_of table.now words.now warnings errors) c }
{
    write_roles(table, words, roles)?;
    let image = Image {
        table,
        words,
        roles,
        warnings,
        errors,
    };
    if MAX_DIAGNOSTICS <= diagnostics.len() / DIAGNOSTIC_BYTES {
        return Ok(validate_once(&image, diagnostics));
    }
    validate_counted(&image, diagnostics)
}

// Walks the image once, into a buffer that has room for its diagnostics.
fn validate_once(image: &Image, diagnostics: &mut [u8]) -> Validation
    requires { diagnostic_bytes * length (found (image_in image.now)) ≤ length diagnostics.old }
    ensures result_value { checked_of result ≡ checked (image_in image.now) }
    ensures diagnostics_after { diagnostics.new ≡ overwrite diagnostics.old 0 (i32_record (flat_map diagnostic_fields (found (image_in image.now)))) }
{
    let walk = validate_rows(image, diagnostics);
    conclude(image, walk)
}

// Counts the diagnostics first, in a walk that has no room for them, and walks again only where there are any and all of them fit.
fn validate_counted(image: &Image, diagnostics: &mut [u8]) -> Result<Validation, Refusal>
    ensures result_value { answer_of result ≡ answer (too_short (length (found (image_in image.now))) diagnostic_bytes (length diagnostics.old)) (checked (image_in image.now)) }
    ensures diagnostics_after { diagnostics.new ≡ filled (too_short (length (found (image_in image.now))) diagnostic_bytes (length diagnostics.old)) diagnostics.old (i32_record (flat_map diagnostic_fields (found (image_in image.now)))) }
{
    let walk = validate_rows(image, &mut []);
    if diagnostics.len() / DIAGNOSTIC_BYTES < walk.count as usize {
        return Err(Refusal::BufferTooShort(walk.count));
    }
    if walk.count == 0 {
        return Ok(conclude(image, walk));
    }
    Ok(validate_once(image, diagnostics))
}

// The walk over all rows: each diagnostic is written where its record fits.
fn validate_rows(image: &Image, out: &mut [u8]) -> WalkState
    ensures { Walked (image_in image.now) out.old (result, out.new) }
{
    if image.table.len() / ROW_BYTES <= FEW_ROWS {
        validate_within::<FEW_ROWS>(image, out)
    } else {
        validate_within::<MAX_ROWS>(image, out)
    }
}

// The walk over all rows of a table of at most N rows.
fn validate_within<const N: usize>(image: &Image, out: &mut [u8]) -> WalkState
    requires rows { CoversRows image.now.table.now N }
    requires small { N ≤ max_rows }
    ensures { Walked (image_in image.now) out.old (result, out.new) }
{
    let mut counts = [0u32; N];
    count_children(image.table, &mut counts);
    let counted = CountedImage {
        table: image.table,
        words: image.words,
        roles: image.roles,
        counts: &counts,
    };
    let start = WalkState {
        row: 0,
        first: 0,
        count: 0,
        stop: stop_count(image),
        error: false,
        limit: false,
    };
    validate_proto(start, &counted, out)
}

// The number of new diagnostics that end the walk at a test.
fn stop_count(image: &Image) -> u16
    ensures { result ≡ diagnostic_limit - (image.now.warnings + image.now.errors) }
{
    DIAGNOSTIC_LIMIT.saturating_sub(image.incoming()) as u16
}

// The verdict of a walk, and the number of its diagnostics.
#[tactic(auto, unfolding(crate::specs::Terms::checked_of, crate::specs::Terms::concluded))]
fn conclude(image: &Image, walk: WalkState) -> Validation
    ensures { checked_of result ≡ concluded image.now.warnings image.now.errors walk }
{
    Validation {
        verdict: verdict_of(has_errors(image, walk), limit_reached(image, walk)),
        count: walk.count,
    }
}

// Whether an error came in or was found.
fn has_errors(image: &Image, walk: WalkState) -> bool
    ensures { result ≡ nat_lt 0 image.now.errors || walk.error }
{
    0 < image.errors || walk.error
}

// Whether a test ended the walk, or there are more diagnostics than the limit.
fn limit_reached(image: &Image, walk: WalkState) -> bool
    ensures { result ≡ walk.limit || nat_lt diagnostic_limit (image.now.warnings + image.now.errors + walk.count) }
{
    walk.limit || DIAGNOSTIC_LIMIT < image.incoming() + walk.count as u64
}

// The verdict, by whether there are errors and whether the limit was reached.
#[tactic(auto, unfolding(crate::specs::Terms::verdict_of_case, validator_spec::specs::Walk::verdict_of))]
fn verdict_of(errors: bool, limit: bool) -> Verdict
    ensures { verdict_of_case result ≡ verdict_of errors limit }
{
    if errors {
        Verdict::Invalid
    } else if limit {
        Verdict::Incomplete
    } else {
        Verdict::ValidForParser
    }
}
