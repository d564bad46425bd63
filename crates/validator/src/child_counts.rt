// The number of children of each row, counted for all rows at once.
ghost use Rattle.std.specs.Prelude.{◌+◌, ◌/◌, ◌<◌, ◌≤◌, length};
ghost use Rattle.roles_spec.specs.Table.{row_bytes};
ghost use Rattle.roles.specs.Bounds.{CoversRows, HasRow};
ghost use Rattle.validator.specs.Terms.{ChildCounts, Counted, Ordered};

use roles::refusals::MAX_DEPTH;
use roles::table::{Column, ROW_BYTES, Row};

// One more than the depths that a row can have.
const DEPTHS: usize = MAX_DEPTH as usize + 2;

// Counts the children of each row, from the last row to the first. For each depth, up to one more than the greatest, `pending` has the number of
// passed rows that have this depth and stand before any that is less deep.
pub fn count_children(table: &[u8], counts: &mut [u32])
    requires { Ordered table.now × CoversRows table.now (length counts.old) }
    ensures { ChildCounts table.now counts.new }
{
    let mut pending = [0u32; DEPTHS];
    for number in (0..table.len() / ROW_BYTES).rev() {
        count_row(table, number, counts, &mut pending);
    }
}

// Counts a row, after all rows behind it: its children are the pending rows that are one deeper, and it becomes a pending row of its own depth.
fn count_row(table: &[u8], number: usize, counts: &mut [u32], pending: &mut [u32])
    requires { Ordered table.now × HasRow table.now number × Counted table.now (number + 1) counts.old pending.old }
    ensures { Counted table.now number counts.new pending.new }
{
    let depth = Row { table, number }.field(Column::Depth) as usize;
    counts[number] = pending[depth + 1];
    pending[depth + 1] = 0;
    pending[depth] += 1;
}
