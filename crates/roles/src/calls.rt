// The roles call and the bindings call. Each slice and each buffer is a parameter of its own, as in the C calls.
ghost use Rattle.std.specs.Prelude.{◌≡◌, ◌+◌, ◌*◌, ◌/◌, ◌≤◌, length, drop};
ghost use Rattle.std.proofs.Math.Option.{none};
ghost use Rattle.base.specs.Bytes.{overwrite, u32s};
ghost use Rattle.roles_spec.specs.Calls.{bindings_after, bindings_answer, roles_after, roles_answer};
ghost use Rattle.roles_spec.specs.Bindings.{writes};
ghost use Rattle.roles_spec.specs.Refusals.{max_rows, max_word_bytes, roles_refusal};
ghost use Rattle.roles_spec.specs.Roles.{records_of, role_bytes, roles as proto_roles};
ghost use Rattle.roles_spec.specs.Table.{proto_in, row_at, row_bytes};
ghost use Rattle.roles.specs.BindingSteps.{BindsFrom, RoomForAllOrNone, bound_in, bound_rows};
ghost use Rattle.roles.specs.Terms.{RoomForChildren, answer_of};
ghost use Rattle.std.specs.declared.result.Result.TheVariants.{Err};
ghost use Rattle.roles.specs.Bounds.{AcceptedFor};
ghost use Rattle.roles.specs.declared.refusals.Refusal.TheVariants.{BufferTooShort};

use crate::bindings::{BINDING_BYTES, unbind};
use crate::buffers::Filling;
use crate::refusals::{Refusal, check_roles, field_total};
use crate::table::Column;

// Writes the roles of all words to the front of a buffer, two i32 a word, and answers their number. A refused call writes nothing.
pub fn write_roles(table: &[u8], words: &[u8], roles: &mut [u8]) -> Result<u32, Refusal>
    ensures result_value { answer_of result ≡ roles_answer table.now words.now (length roles.old) }
    ensures roles_after { roles.new ≡ roles_after table.now words.now roles.old }
{
    check_roles(table, words, roles.len())?;
    fill_roles(table, words, roles);
    Ok((words.len() / 4) as u32)
}

// Writes the roles of all words as `write_roles` does, and the bindings of all upvalues to the front of a second buffer, three i32 an upvalue.
// Answers the number of bindings. A refused call writes nothing, but that 8, where the bindings do not fit, comes with the roles written.
pub fn write_bindings(
    table: &[u8],
    words: &[u8],
    roles: &mut [u8],
    bindings: &mut [u8],
) -> Result<u32, Refusal>
    ensures result_value { answer_of result ≡ bindings_answer table.now words.now (length roles.old) (length bindings.old) }
    ensures roles_after { roles.new ≡ roles_after table.now words.now roles.old }
    ensures bindings_after { bindings.new ≡ bindings_after table.now words.now (length roles.old) bindings.old }
{
    check_roles(table, words, roles.len())?;
    let count = field_total(table, Column::Upvalues) as u32;
    if bindings.len() / BINDING_BYTES < count as usize {
        return refuse_short(table, words, roles, count);
    }
    unbind(bindings, count as usize);
    let mut filling = Filling {
        roles,
        bindings,
        table,
        words,
    };
    filling.fill();
    Ok(count)
}

// Refusal 8, with the number of records needed. The roles are written all the same.
fn refuse_short(table: &[u8], words: &[u8], out: &mut [u8], records: u32) -> Result<u32, Refusal>
    requires { AcceptedFor table.now words.now out.old }
    ensures value { result ≡ Err (BufferTooShort records) }
    ensures out_after { out.new ≡ roles_after table.now words.now out.old }
{
    fill_roles(table, words, out);
    Err(Refusal::BufferTooShort(records))
}

// The roles alone, with no buffer for bindings.
fn fill_roles(table: &[u8], words: &[u8], roles: &mut [u8])
    requires { AcceptedFor table.now words.now roles.old }
    ensures { roles.new ≡ roles_after table.now words.now roles.old }
{
    let mut filling = Filling {
        roles,
        bindings: &mut [],
        table,
        words,
    };
    filling.fill();
}
