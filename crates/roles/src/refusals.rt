// Refusals 1 to 7, the least number first. Nothing is written before they are excluded. The calls themselves give refusal 8.
ghost use Rattle.std.specs.Prelude.{◌≡◌, ◌+◌, ◌*◌, ◌/◌, ◌^◌, ◌<◌, ◌≤◌, ◌||◌, length, nat_lt};
ghost use Rattle.roles_spec.specs.Refusals.{bad_depth, bad_field, depth_fits, fields_fit, image_refusal, max_rows, max_word_bytes, roles_refusal};
ghost use Rattle.roles_spec.specs.Table.{row_at, row_bytes, rows};
ghost use Rattle.roles.specs.Bounds.{FewRows, HasRow};
ghost use Rattle.roles.specs.Terms.{column_index, field_total, given_refusal, refused_of};

use crate::role::ROLE_BYTES;
use crate::table::{Column, ROW_BYTES, Row};

pub const MAX_ROWS: usize = 16384;

// A table of at most this many rows gets short arrays.
pub const FEW_ROWS: usize = 256;

pub const MAX_WORD_BYTES: usize = 4194304;

pub const MAX_DEPTH: u32 = 199;

pub const MAX_CONSTANTS: u32 = 2147483647;

pub const MAX_UPVALUES: u32 = 255;

pub const MAX_STACK: u32 = 255;

// Why a call is refused. BadDepth and FieldOverLimit have the first such row, BufferTooShort the number of records needed.
#[derive(Clone, Copy, PartialEq, Eq, Debug)]
pub enum Refusal {
    NoProtos,
    PartialRow,
    TooLarge,
    BadDepth(u32),
    FieldOverLimit(u32),
    WordCountMismatch,
    RoleBufferTooShort,
    BufferTooShort(u32),
}

impl Refusal {
    // The refusal's number, 1 to 8.
    #[tactic(auto, unfolding(crate::specs::Terms::refused_of))]
    pub fn number(self) -> u8
        ensures { result ≡ (refused_of self).number }
    {
        match self {
            Refusal::NoProtos => 1,
            Refusal::PartialRow => 2,
            Refusal::TooLarge => 3,
            Refusal::BadDepth(_) => 4,
            Refusal::FieldOverLimit(_) => 5,
            Refusal::WordCountMismatch => 6,
            Refusal::RoleBufferTooShort => 7,
            Refusal::BufferTooShort(_) => 8,
        }
    }

    // The refusal's figure: the row, the number of records needed, or 0.
    #[tactic(auto, unfolding(crate::specs::Terms::refused_of))]
    pub fn figure(self) -> u32
        ensures { result ≡ (refused_of self).figure }
    {
        match self {
            Refusal::BadDepth(figure)
            | Refusal::FieldOverLimit(figure)
            | Refusal::BufferTooShort(figure) => figure,
            _ => 0,
        }
    }
}

// Refusals 1 to 7, for a role buffer of `room` bytes.
#[tactic(auto, unfolding(roles_spec::specs::Refusals::roles_refusal, roles_spec::specs::Refusals::or_else, crate::specs::Terms::given_refusal))]
pub fn check_roles(table: &[u8], words: &[u8], room: usize) -> Result<(), Refusal>
    ensures { given_refusal result ≡ roles_refusal table.now words.now room }
{
    check_image(table, words)?;
    if room / ROLE_BYTES < words.len() / 4 {
        return Err(Refusal::RoleBufferTooShort);
    }
    Ok(())
}

// Refusals 1 to 6.
#[tactic(auto, using(crate::proofs::ImageCheckLaws::image_counts), unfolding(roles_spec::specs::Refusals::image_refusal, roles_spec::specs::Refusals::or_else, roles_spec::specs::Refusals::refuse_if, roles_spec::specs::Refusals::refuse, crate::specs::Terms::given_refusal, crate::specs::Terms::refused_of))]
pub fn check_image(table: &[u8], words: &[u8]) -> Result<(), Refusal>
    ensures { given_refusal result ≡ image_refusal table.now words.now }
{
    if table.len() == 0 {
        return Err(Refusal::NoProtos);
    }
    if table.len() % ROW_BYTES != 0 {
        return Err(Refusal::PartialRow);
    }
    if is_too_large(table.len() / ROW_BYTES, words.len()) {
        return Err(Refusal::TooLarge);
    }
    check_depths(table)?;
    check_fields(table)?;
    if words.len() as u64 != 4 * field_total(table, Column::Words) {
        return Err(Refusal::WordCountMismatch);
    }
    Ok(())
}

// Refusal 3: too many rows, or too many bytes of words.
fn is_too_large(rows: usize, bytes: usize) -> bool
    ensures { result ≡ nat_lt max_rows rows || nat_lt max_word_bytes bytes }
{
    MAX_ROWS < rows || MAX_WORD_BYTES < bytes
}

// Refusal 4: every depth is in its bounds. (`FewRows` is a clause of three functions here: a type of tables with this fact would serve only these.
// `Row` and `find_child` serve tables of any length, and the search has the fact as a ghost field.)
#[tactic(auto, using(roles_spec::proofs::RowCheckLaws::depths_end, roles_spec::proofs::RowCheckLaws::depth_refused, roles_spec::proofs::RowCheckLaws::depth_low, roles_spec::proofs::RowCheckLaws::depth_next), unfolding(roles_spec::specs::Refusals::refuse, crate::specs::Terms::refused_of, crate::specs::Terms::given_refusal))]
fn check_depths(table: &[u8]) -> Result<(), Refusal>
    requires { FewRows table.now }
    ensures { given_refusal result ≡ bad_depth 0 0 (rows table.now) }
{
    let mut least = 0;
    let mut most = 0;
    for number in 0..table.len() / ROW_BYTES {
        let row = Row { table, number };
        if !depth_fits(&row, least, most) {
            return Err(Refusal::BadDepth(number as u32));
        }
        least = 1;
        most = row.field(Column::Depth) + 1;
    }
    Ok(())
}

// A row's depth is from `least` to `most`, and within the limit.
#[tactic(auto, unfolding(roles_spec::specs::Refusals::depth_fits, roles_spec::specs::Table::row_at))]
fn depth_fits(row: &Row, least: u32, most: u32) -> bool
    requires { HasRow row.now.table.now row.now.number }
    ensures { result ≡ depth_fits least most (row_at row.now.table.now row.now.number) }
{
    let depth = row.field(Column::Depth);
    least <= depth && depth <= most && depth <= MAX_DEPTH
}

// Refusal 5: constants, upvalues and stack of every row are within their limits.
#[tactic(auto, using(roles_spec::proofs::RowCheckLaws::fields_end, roles_spec::proofs::RowCheckLaws::field_refused, roles_spec::proofs::RowCheckLaws::field_next), unfolding(roles_spec::specs::Refusals::refuse, crate::specs::Terms::refused_of, crate::specs::Terms::given_refusal))]
fn check_fields(table: &[u8]) -> Result<(), Refusal>
    requires { FewRows table.now }
    ensures { given_refusal result ≡ bad_field (rows table.now) }
{
    for number in 0..table.len() / ROW_BYTES {
        if !fields_fit(&Row { table, number }) {
            return Err(Refusal::FieldOverLimit(number as u32));
        }
    }
    Ok(())
}

// A row's constants, upvalues and stack are within their limits.
#[tactic(auto, unfolding(roles_spec::specs::Refusals::fields_fit, roles_spec::specs::Table::row_at))]
fn fields_fit(row: &Row) -> bool
    requires { HasRow row.now.table.now row.now.number }
    ensures { result ≡ fields_fit (row_at row.now.table.now row.now.number) }
{
    row.field(Column::Constants) <= MAX_CONSTANTS
        && row.field(Column::Upvalues) <= MAX_UPVALUES
        && row.field(Column::Stack) <= MAX_STACK
}

// The sum of a field over the rows. Each is less than 2^32, so that it fits.
#[tactic(auto, using(crate::proofs::CountLaws::total_ends, crate::proofs::CountLaws::total_next))]
pub(crate) fn field_total(table: &[u8], column: Column) -> u64
    requires { FewRows table.now }
    ensures value { result ≡ field_total table.now (column_index column) }
    ensures upper_bound { result ≤ 2 ^ 46 }
{
    let mut total: u64 = 0;
    for number in 0..table.len() / ROW_BYTES {
        total += Row { table, number }.field(column) as u64;
    }
    total
}
