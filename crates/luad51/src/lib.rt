// The C interface, as include/luad51.h declares it. A call's answer goes out as one number. Each slice and each buffer is a parameter of its own, as
// C lends them.
#![tactic(auto)]

ghost use Rattle.std.specs.Prelude.{◌≡◌, ◌+◌, ◌<◌, ◌^◌, false, true, length};
ghost use Rattle.luad51_spec.specs.Results.{Guaranteed, ReadAs, Reads, ReadsCheck, check_result, checked_bit, count_result, packed, refused_result, verdict_number};
ghost use Rattle.roles_spec.specs.Calls.{bindings_after, bindings_answer, roles_after, roles_answer};
ghost use Rattle.roles.specs.Terms.{answer_of, refused_of};
ghost use Rattle.validator.specs.Terms.{answer_of as validation_of, image_of, verdict_of_case};
ghost use Rattle.validator_spec.specs.Check.{check_answer, diagnostics_after};

use roles::calls::{write_bindings, write_roles};
use roles::refusals::Refusal;
use validator::calls::{Validation, Verdict, validate_chunk_lua51};

// The bit of a result that only an accepted check sets.
const CHECKED: u64 = 0x8000_0000_0000;

// The roles call.
#[unsafe(no_mangle)]
pub extern "C" fn luad51_roles(table: &[u8], words: &[u8], roles: &mut [u8]) -> u64
    ensures value { result ≡ count_result (roles_answer table.now words.now (length roles.old)) }
    ensures reads { Reads result (roles_answer table.now words.now (length roles.old)) }
    ensures roles_after { roles.new ≡ roles_after table.now words.now roles.old }
{
    count_result(write_roles(table, words, roles))
}

// The bindings call.
#[unsafe(no_mangle)]
pub extern "C" fn luad51_bindings(
    table: &[u8],
    words: &[u8],
    roles: &mut [u8],
    bindings: &mut [u8],
) -> u64
    ensures value { result ≡ count_result (bindings_answer table.now words.now (length roles.old) (length bindings.old)) }
    ensures reads { Reads result (bindings_answer table.now words.now (length roles.old) (length bindings.old)) }
    ensures roles_after { roles.new ≡ roles_after table.now words.now roles.old }
    ensures bindings_after { bindings.new ≡ bindings_after table.now words.now (length roles.old) bindings.old }
{
    count_result(write_bindings(table, words, roles, bindings))
}

// The check call.
#[unsafe(no_mangle)]
pub extern "C" fn luad51_check(
    table: &[u8],
    words: &[u8],
    warnings: u32,
    errors: u32,
    roles: &mut [u8],
    diagnostics: &mut [u8],
) -> u64
    ensures value { result ≡ check_result (check_answer (image_of table.now words.now warnings errors) (length roles.old) (length diagnostics.old)) }
    ensures reads_check { ReadsCheck result (check_answer (image_of table.now words.now warnings errors) (length roles.old) (length diagnostics.old)) }
    ensures roles_after { roles.new ≡ roles_after table.now words.now roles.old }
    ensures diagnostics_after { diagnostics.new ≡ diagnostics_after (image_of table.now words.now warnings errors) (length roles.old) diagnostics.old }
    ensures guaranteed { Guaranteed result (image_of table.now words.now warnings errors) }
{
    check_result(validate_chunk_lua51(table, words, warnings, errors, roles, diagnostics))
}

// The result of a check: its refusal, or the number of diagnostics and the verdict.
#[tactic(auto, unfolding(luad51_spec::specs::Results::check_result, luad51_spec::specs::Results::ReadsCheck, validator::specs::Terms::answer_of, validator::specs::Terms::checked_of))]
fn check_result(answer: Result<Validation, Refusal>) -> u64
    ensures value { result ≡ check_result (validation_of answer) }
    ensures reads_check { ReadsCheck result (validation_of answer) }
{
    match answer {
        Ok(validation) => pack_checked(validation.count, verdict_number(validation.verdict)),
        Err(refusal) => refused_result(refusal),
    }
}

// The header's number of a verdict: the C interface fixes it.
#[tactic(auto, unfolding(luad51_spec::specs::Results::verdict_number, validator::specs::Terms::verdict_of_case))]
fn verdict_number(verdict: Verdict) -> u8
    ensures value { result ≡ verdict_number (verdict_of_case verdict) }
    ensures small { result < 2 ^ 7 }
{
    match verdict {
        Verdict::ValidForParser => 0,
        Verdict::Incomplete => 1,
        Verdict::Invalid => 2,
    }
}

// The result of another call: its refusal, or the number of records. (Not one function with `check_result`: the common answer would have a verdict.)
#[tactic(auto, unfolding(luad51_spec::specs::Results::count_result, luad51_spec::specs::Results::Reads, roles::specs::Terms::answer_of))]
fn count_result(answer: Result<u32, Refusal>) -> u64
    ensures value { result ≡ count_result (answer_of answer) }
    ensures reads { Reads result (answer_of answer) }
{
    match answer {
        Ok(count) => pack(count, 0),
        Err(refusal) => refused_result(refusal),
    }
}

// The result of a refused call. It has no verdict.
#[tactic(auto, unfolding(luad51_spec::specs::Results::refused_result, roles::specs::Terms::refused_of))]
fn refused_result(refusal: Refusal) -> u64
    ensures value { result ≡ refused_result (refused_of refusal) }
    ensures read_as { ReadAs result (refused_of refusal).number (refused_of refusal).figure 0 false }
{
    pack(refusal.figure(), refusal.number())
}

// A figure and a refusal in one number, from which the header's accessors read each.
fn pack(figure: u32, refusal: u8) -> u64
    ensures value { result ≡ packed figure refusal 0 }
    ensures read_as { ReadAs result refusal figure 0 false }
{
    (figure as u64) + 0x1_0000_0000 * (refusal as u64)
}

// The result of an accepted check: figure and verdict, and the bit that nothing else sets.
fn pack_checked(figure: u32, verdict: u8) -> u64
    requires { verdict < 2 ^ 7 }
    ensures value { result ≡ packed figure 0 verdict + checked_bit }
    ensures read_as { ReadAs result 0 figure verdict true }
{
    (figure as u64) + 0x100_0000_0000 * (verdict as u64) + CHECKED
}
