// The walk: a prototype's own diagnostics and then its children's, after luad's `validate_proto`.
ghost use Rattle.std.specs.Prelude.{◌≡◌, ◌+◌, ◌*◌, ◌/◌, ◌<◌, ◌≤◌, [], ◌∷◌, Option, map, length};
ghost use mathlib.Core.List.{foldl};
ghost use Rattle.base.specs.Bytes.{u32s};
ghost use Rattle.base.specs.Lists.{up_from};
ghost use Rattle.roles_spec.specs.Refusals.{max_word_bytes};
ghost use Rattle.roles_spec.specs.Roles.{role_bytes};
ghost use Rattle.roles_spec.specs.Table.{Proto, proto_in, row_at, row_count};
ghost use Rattle.roles.specs.Bounds.{FewWords, HasRow, ReachWord};
ghost use Rattle.validator_spec.specs.Diagnostics.{diagnostics_at, proto_steps, stack_diagnostics, tested_step};
ghost use Rattle.validator.specs.Rows.{proto_of_row};
ghost use Rattle.validator.specs.Terms.{Describes, HasLimits, fault_diagnostics, row_limits};
ghost use Rattle.validator.specs.Steps.{Begins, take_step, emit_all, goes_on, own_steps, step_row, walk_to};

use crate::clean::next_suspect;
use crate::codes::Code;
use crate::fault::{Lua51RoleFault, find_fault};
use crate::rows::{Body, CountedImage, RowBody, RowLimits};
use crate::state::{Location, WalkState};
use crate::word::validate_word;
use base::bytes::MINUS_ONE;
use roles::role::ROLE_BYTES;
use roles::table::{Column, Row};

// The largest stack without a diagnostic.
const USUAL_STACK: u32 = 250;

// Walks the next row and all rows below it. (That the row is there, and where its words begin, are clauses and not ghost fields: they tie the table
// to a walk state, which is a value that functions take and hand back.)
#[cycle(walk)]
pub fn validate_proto(walk: WalkState, counted: &CountedImage, out: &mut [u8]) -> WalkState
    requires there { HasRow counted.now.table.now walk.row }
    requires begins { Begins counted.now.table.now walk }
    ensures { (result, out.new) ≡ walk_to counted.now.table.now counted.now.words.now (row_at counted.now.table.now walk.row).depth (step_row counted.now.table.now counted.now.words.now (walk, out.old)) }
{
    let limits = counted.row_limits(walk.row);
    let own = validate_row(walk, counted, out, limits);
    if own.limit {
        return own;
    }
    let next = walk.first + limits.words as usize;
    validate_children(own.moved(next), counted, out, limits.depth)
}

// Walks the rows from the next one on that are deeper than this depth: the children of a prototype, each with the rows below it. (A `while`: each
// child moves the walk past all rows below it.)
#[cycle(walk)]
fn validate_children(
    mut walk: WalkState,
    counted: &CountedImage,
    out: &mut [u8],
    depth: u32,
) -> WalkState
    requires within { walk.row ≤ row_count counted.now.table.now }
    requires begins { Begins counted.now.table.now walk }
    ensures { (result, out.new) ≡ walk_to counted.now.table.now counted.now.words.now depth (walk, out.old) }
{
    while goes_on(walk, counted, depth) {
        walk = walk.tested();
        if walk.limit {
            return walk;
        }
        walk = validate_proto(walk, counted, out);
        if walk.limit {
            return walk;
        }
    }
    walk
}

// Whether the walk goes on with a row deeper than this depth.
#[tactic(auto, unfolding(crate::specs::Steps::goes_on, roles_spec::specs::Table::row_at))]
fn goes_on(walk: WalkState, counted: &CountedImage, depth: u32) -> bool
    ensures { result ≡ goes_on counted.now.table.now depth walk }
{
    let table = counted.table;
    let number = walk.row;
    !walk.limit && number < counted.rows() && depth < Row { table, number }.field(Column::Depth)
}

// Judges the prototype in the next row, with its part of the words and of the roles.
fn validate_row(
    walk: WalkState,
    counted: &CountedImage,
    out: &mut [u8],
    limits: RowLimits,
) -> WalkState
    requires there { HasRow counted.now.table.now walk.row }
    requires begins { Begins counted.now.table.now walk }
    requires limits { limits ≡ row_limits counted.now.table.now walk.row }
    requires room { ReachWord (walk.first + limits.words) counted.now.words.now counted.now.roles.now × FewWords counted.now.words.now }
    ensures { (result, out.new) ≡ own_steps counted.now.table.now counted.now.words.now (walk, out.old) }
{
    let first = walk.first;
    let next = first + limits.words as usize;
    let row = RowBody {
        table: counted.table,
        body: Body {
            limits,
            code: &counted.words[4 * first..4 * next],
            roles: &counted.roles[ROLE_BYTES * first..ROLE_BYTES * next],
        },
    };
    validate_own(walk, out, &row)
}

// The prototype's own diagnostics.
fn validate_own(walk: WalkState, out: &mut [u8], row: &RowBody) -> WalkState
    ensures { (result, out.new) ≡ foldl (take_step row.now.body.limits.row) (walk, out.old) (proto_steps (proto_of_row row.now)) }
{
    let walk = walk.tested();
    if walk.limit {
        return walk;
    }
    let walk = validate_fault(walk, out, row.body.limits.row, find_fault(row));
    if walk.limit {
        return walk;
    }
    let walk = validate_stack(walk, out, &row.body.limits);
    validate_words(walk, out, &row.body)
}

// The diagnostic of a truncated owner, if there is one.
fn validate_fault(
    walk: WalkState,
    out: &mut [u8],
    row: u32,
    fault: Option<Lua51RoleFault>,
) -> WalkState
    ensures { (result, out.new) ≡ foldl (take_step row) (walk, out.old) (map (λ d. tested_step (d ∷ [])) (fault_diagnostics fault)) }
{
    let Some(fault) = fault else {
        return walk;
    };
    match fault {
        Lua51RoleFault::TruncatedClosure {
            owner_pc: pc,
            declared,
        } => { walk.report(out, Location { row, pc }, Code::Closure001, declared) }
        Lua51RoleFault::TruncatedSetlist { owner_pc: pc } => {
            walk.report(out, Location { row, pc }, Code::Setlist001, 0)
        }
    }
}

// The warning of a large stack, without a test.
fn validate_stack(walk: WalkState, out: &mut [u8], limits: &RowLimits) -> WalkState
    ensures { (p : Proto) → HasLimits p limits.now → (result, out.new) ≡ emit_all limits.now.row (stack_diagnostics p) (walk, out.old) }
{
    let at = Location {
        row: limits.row,
        pc: MINUS_ONE,
    };
    let large = (USUAL_STACK < limits.stack).then_some(limits.stack);
    walk.emit_if(out, at, Code::Stack001, large)
}

// Judges the words, each after a test. Words without diagnostics are passed over after one test: the tests before them would all give the same.
// (A `while`: `next_suspect` finds the next pc.)
fn validate_words(mut walk: WalkState, out: &mut [u8], body: &Body) -> WalkState
    ensures { (p : Proto) → Describes p body.now.limits body.now.code.now body.now.roles.now → (result, out.new) ≡ foldl (take_step body.now.limits.row) (walk, out.old) (map (λ pc. tested_step (diagnostics_at p pc)) (up_from 0 (length body.now.code.now / 4))) }
{
    let n = body.code.len() / 4;
    let mut pc = 0;
    while pc < n {
        walk = walk.tested();
        if walk.limit {
            return walk;
        }
        pc = next_suspect(body, pc);
        if n <= pc {
            return walk;
        }
        walk = validate_word(walk, out, body, pc);
        pc += 1;
    }
    walk
}
