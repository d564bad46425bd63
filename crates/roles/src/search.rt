// The search for the children of a prototype. Those that were found stand in an index, and the search goes on after the last of them, so that
// all searches of a prototype together pass the rows below it once, in whatever order its children are named.
ghost use Rattle.std.specs.Prelude.{◌≡◌, suc, ◌-◌, ◌/◌, ◌<◌, ◌≤◌, length};
ghost use Rattle.roles_spec.specs.Refusals.{max_rows};
ghost use Rattle.roles_spec.specs.Table.{child_of_row, row_bytes};
ghost use Rattle.roles.specs.Bounds.{FewRows, HasRow};
ghost use Rattle.roles.specs.Terms.{RoomForChildren, Tracks, child_from};

use crate::table::{Child, Column, ROW_BYTES, Row, find_child};

// A child in the index: its row and the index of its first binding record. An entry has 8 bytes and a `Child` 16: the index stands on the stack, and
// has up to 16,384 entries.
#[derive(Clone, Copy)]
pub(crate) struct Entry {
    pub row: u32,
    pub first: u32,
}

// The children of the prototype in a row, as far as they were searched for. The first `known` of them stand in the index. The others are the
// children from row `row` on, and `first` binding records stand between the prototype's own and those of that row. From number `end` on there are no
// children. (A slice with `known` beside it, and no Vec: there is no heap.)
// (Each function has a clause that it leaves `parent` as it was: a ghost field speaks of one value, not of two.)
#[derive(Drop)]
pub(crate) struct Children<'a> {
    pub parent: Row<'a>,
    index: &'a mut [Entry],
    known: u32,
    row: usize,
    first: u32,
    end: u32,
    ghost there: { HasRow parent.table.now parent.number },
    ghost few_rows: { FewRows parent.table.now },
    ghost tracks: { Tracks parent.table.now parent.number index.now known row first end },
}

impl<'a> Children<'a> {
    // Before the first search: whatever the index has, no child is known.
    pub(crate) fn new(parent: Row<'a>, index: &'a mut [Entry]) -> Children<'a>
        requires there { HasRow parent.table.now parent.number }
        requires few_rows { FewRows parent.table.now }
        requires room_for_children { RoomForChildren parent.table.now index.old }
        ensures { result.parent ≡ parent.entry }
    {
        Children {
            parent,
            index,
            known: 0,
            row: parent.number + 1,
            first: 0,
            end: (parent.table.len() / ROW_BYTES) as u32,
        }
    }

    // Child k of the prototype. A child that is known, or known to be missing, is found without a search.
    pub(crate) fn find(&mut self, k: u32) -> Option<Child>
        ensures child { result ≡ child_from self.old.parent.table.now (suc self.old.parent.number) 0 (child_of_row self.old.parent.table.now self.old.parent.number k) }
        ensures same_parent { self.new.parent ≡ self.old.parent }
    {
        // A `while`: each search tells how many children are known, or that there are no more.
        while self.known <= k {
            if self.end <= k {
                return None;
            }
            self.find_next();
        }
        let entry = self.index[k as usize];
        Some(Child {
            first: entry.first,
            row: entry.row as usize,
        })
    }

    // Puts the next child into the index, where there is one.
    fn find_next(&mut self)
        requires more { self.old.known < self.old.end }
        ensures same_parent { self.new.parent ≡ self.old.parent }
        ensures fewer_left { self.new.end - self.new.known < self.old.end - self.old.known }
    {
        let parent = self.parent;
        let table = parent.table;
        match find_child(table, self.row, parent.field(Column::Depth), 0, self.first) {
            None => self.end = self.known,
            Some(Child { first, row: number }) => {
                self.index[self.known as usize] = Entry {
                    row: number as u32,
                    first,
                };
                self.known += 1;
                self.row = number + 1;
                // The field is read last: read before the index is written, it is loaded at every row that the search passes.
                self.first = first.wrapping_add(Row { table, number }.field(Column::Upvalues));
            }
        }
    }
}
