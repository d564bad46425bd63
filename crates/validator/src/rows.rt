// What the functions that judge a row's prototype get: its limits; with these its words and their roles; with those the table.
ghost use Rattle.std.specs.Prelude.{◌≡◌, ◌+◌, ◌*◌, ◌/◌, ◌<◌, ◌≤◌, length};
ghost use Rattle.base.specs.Bytes.{u32s};
ghost use Rattle.roles_spec.specs.Refusals.{max_word_bytes};
ghost use Rattle.roles_spec.specs.Table.{proto_in, row_count};
ghost use Rattle.roles.specs.Bounds.{FewWords, HasRow};
ghost use Rattle.validator.specs.Steps.{Filled};
ghost use Rattle.validator.specs.Terms.{ChildCounts, Describes, row_limits};

use roles::table::{Column, ROW_BYTES, Row};

// What the diagnostics of a prototype depend on beside its words and their roles.
#[derive(Clone, Copy)]
pub struct RowLimits {
    pub row: u32,
    pub depth: u32,
    pub words: u32,
    pub constants: u32,
    pub upvalues: u32,
    pub stack: u32,
    pub children: u32,
}

// What the functions that look at a prototype's words get: its row's fields, its words and their roles.
// (Their contracts speak of every prototype that a body describes. A prototype is a term of the definitions, made of the whole table, which they are
// not lent; a ghost field is a fact and could not be such a term. The three functions that get a pc require that it is one of the words: a struct of
// both would be made anew for each word.)
#[derive(Clone, Copy)]
pub struct Body<'a> {
    pub limits: RowLimits,
    pub code: &'a [u8],
    pub roles: &'a [u8],
    ghost code_short: { FewWords code.now },
    ghost roles_short: { length roles.now ≤ 2 * max_word_bytes },
}

// The table of an accepted image, with its words, their roles and the number of children of each row. (A list beside the rows: there is no heap for more.)
#[derive(Clone, Copy)]
pub struct CountedImage<'a> {
    pub table: &'a [u8],
    pub words: &'a [u8],
    pub roles: &'a [u8],
    pub counts: &'a [u32],
    ghost filled: { Filled table.now words.now roles.now },
    ghost counted: { ChildCounts table.now counts.now },
}

// What the functions that judge a row's prototype get: the table that the row stands in, and the prototype with its words and their roles.
#[derive(Clone, Copy)]
pub struct RowBody<'a> {
    pub table: &'a [u8],
    pub body: Body<'a>,
    ghost limits: { body.limits ≡ row_limits table.now body.limits.row },
    ghost describes: { Describes (proto_in table.now body.limits.row (u32s body.code.now)) body.limits body.code.now body.roles.now },
}

impl<'a> CountedImage<'a> {
    // How many rows it has.
    pub fn rows(&self) -> usize
        ensures { result ≡ row_count self.now.table.now }
    {
        self.table.len() / ROW_BYTES
    }

    // The limits of the prototype in a row.
    pub fn row_limits(&self, number: usize) -> RowLimits
        requires { HasRow self.now.table.now number }
        ensures { result ≡ row_limits self.now.table.now number }
    {
        let table = self.table;
        let row = Row { table, number };
        RowLimits {
            row: number as u32,
            depth: row.field(Column::Depth),
            words: row.field(Column::Words),
            constants: row.field(Column::Constants),
            upvalues: row.field(Column::Upvalues),
            stack: row.field(Column::Stack),
            children: self.counts[number],
        }
    }
}
