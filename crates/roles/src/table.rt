// The prototype table: rows of u32 fields, in preorder.
ghost use Rattle.std.specs.Prelude.{◌≡◌, ◌+◌, ◌*◌, ◌<◌, ◌≤◌, length, drop};
ghost use Rattle.roles_spec.specs.Table.{child_at, field_at, row_count, rows};
ghost use Rattle.roles.specs.Bounds.{HasRow};
ghost use Rattle.roles.specs.Terms.{child_from, column_index};

use base::bytes::read_u32;

// The number of a row's fields.
pub const ROW_FIELDS: usize = 5;

// The length of a row in bytes: each field is a u32.
pub const ROW_BYTES: usize = 4 * ROW_FIELDS;

// The fields of a row, in their order.
#[derive(Clone, Copy, PartialEq, Eq, Debug)]
pub enum Column {
    Depth = 0,
    Words = 1,
    Constants = 2,
    Upvalues = 3,
    Stack = 4,
}

// A child: the index of its first binding record, and its row.
#[derive(Clone, Copy)]
pub struct Child {
    pub first: u32,
    pub row: usize,
}

// A table with the number of a row.
#[derive(Clone, Copy)]
pub struct Row<'a> {
    pub table: &'a [u8],
    pub number: usize,
}

impl<'a> Row<'a> {
    // A field of the row, or 0 where the table has no such row. (In a loop over the rows the compiler drops this test, and that for room in the row.)
    #[tactic(auto, using(base::proofs::PartLaws::u32_from_part))]
    pub fn field(&self, column: Column) -> u32
        ensures there { HasRow self.now.table.now self.now.number → result ≡ field_at self.now.table.now self.now.number (column_index column) }
        ensures missing { row_count self.now.table.now ≤ self.now.number → result ≡ 0 }
    {
        if self.table.len() / ROW_BYTES <= self.number {
            return 0;
        }
        let at = ROW_BYTES * self.number;
        read_u32(&self.table[at..at + ROW_BYTES], 4 * (column as usize))
    }
}

// Child k of a row of this depth, among the rows from `at` on. The search goes from child to child, and each call has fewer rows left. `first` is the
// index of row `at`'s first binding record, wherever the caller counts from; the child's is counted on from it (modulo 2^32, which an accepted table
// does not reach). (The table is passed whole: the row in the answer is counted from the table's first.)
pub fn find_child(table: &[u8], at: usize, depth: u32, k: u32, first: u32) -> Option<Child>
    ensures { result ≡ child_from table.now at first (child_at depth (drop at (rows table.now)) k) }
{
    let rows = table.len() / ROW_BYTES;
    if rows <= at || rows - at <= k as usize {
        return None;
    }
    let child = next_child(table, at, depth, first)?;
    if k == 0 {
        return Some(child);
    }
    let row = Row {
        table,
        number: child.row,
    };
    let next = child.first.wrapping_add(row.field(Column::Upvalues));
    find_child(table, child.row + 1, depth, k - 1, next)
}

// Child 0 of a row of this depth, among the rows from `at` on: the first row that is one deeper. Rows that are deeper still are passed.
#[tactic(auto, using(crate::proofs::SearchLaws::find_none, crate::proofs::SearchLaws::find_end, crate::proofs::SearchLaws::find_found, crate::proofs::SearchLaws::find_deeper))]
fn next_child(table: &[u8], at: usize, depth: u32, first: u32) -> Option<Child>
    ensures { result ≡ child_from table.now at first (child_at depth (drop at (rows table.now)) 0) }
{
    let mut records = first;
    for number in at..table.len() / ROW_BYTES {
        let row = Row { table, number };
        let d = row.field(Column::Depth);
        if d <= depth {
            return None;
        }
        if d - depth == 1 {
            return Some(Child {
                first: records,
                row: number,
            });
        }
        records = records.wrapping_add(row.field(Column::Upvalues));
    }
    None
}
