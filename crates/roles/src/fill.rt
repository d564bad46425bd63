// The filling of the buffers, once no refusal applies.
ghost use Rattle.std.specs.Prelude.{◌/◌, ◌≤◌, length};
ghost use Rattle.roles_spec.specs.Refusals.{max_rows};
ghost use Rattle.roles_spec.specs.Table.{row_bytes};
ghost use Rattle.roles.specs.Bounds.{CoversRows};
ghost use Rattle.roles.specs.Fills.{Fills};
ghost use Rattle.roles.specs.Terms.{RoomForChildren};

use crate::buffers::Filling;
use crate::discovery::discover_roles_lua51;
use crate::refusals::{FEW_ROWS, MAX_ROWS};
use crate::role::ROLE_BYTES;
use crate::search::{Children, Entry};
use crate::table::{Column, ROW_BYTES, Row};

impl<'a> Filling<'a> {
    // Writes the roles and the bindings, with an index of children for the search: a short one where the rows are few.
    #[tactic(auto, using(crate::proofs::RolesCallLaws::few_rows))]
    pub(crate) fn fill(&mut self)
        ensures { Fills self.old self.new }
    {
        if self.table.len() / ROW_BYTES <= FEW_ROWS {
            self.fill_within::<FEW_ROWS>();
        } else {
            self.fill_within::<MAX_ROWS>();
        }
    }

    // Writes the roles and the bindings, with an index of N children.
    fn fill_within<const N: usize>(&mut self)
        requires room_for_children { CoversRows self.old.table.now N × (N ≤ max_rows) }
        ensures { Fills self.old self.new }
    {
        let mut index = [Entry { row: 0, first: 0 }; N];
        self.fill_indexed(&mut index);
    }

    // Writes the roles and the bindings, prototype by prototype, with an index that has room. The words of a row, and their roles, stand from `first`
    // to `next`. The binding records of the rows after it begin at index `base`.
    #[tactic(auto, using(crate::proofs::RoleFillLaws::words_there))]
    fn fill_indexed(&mut self, index: &mut [Entry])
        requires room_for_children { RoomForChildren self.old.table.now index.old }
        ensures { Fills self.old self.new }
    {
        let table = self.table;
        let words = self.words;
        let mut first = 0;
        let mut base = 0;
        for number in 0..table.len() / ROW_BYTES {
            let row = Row { table, number };
            let next = first + row.field(Column::Words) as usize;
            base += row.field(Column::Upvalues) as usize;
            let mut children = Children::new(row, index);
            discover_roles_lua51(
                &mut children,
                &words[4 * first..4 * next],
                &mut self.roles[ROLE_BYTES * first..ROLE_BYTES * next],
                self.bindings,
                base,
            );
            first = next;
        }
    }
}
