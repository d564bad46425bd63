// The listing reader: an image from the bytes of a listing, or refusal 9 or 10 at the first line that gives it.
ghost use Rattle.std.specs.Prelude.{◌≡◌, ℕ, ◌+◌, ◌≤◌, List, ◌∷◌, IfOk, MatchResult};
ghost use Rattle.listing.specs.Terms.{head_then, listing_of, read_body, read_code, refused_of, rows_then, words_then};
ghost use Rattle.listing.specs.declared.reader.Unread.TheVariants.{MalformedLine};
ghost use Rattle.listing_spec.specs.Listing.{max_listing_rows, max_listing_words, read_listing};
ghost use Rattle.listing_spec.specs.Text.{lines};

use crate::lines::Lines;
use crate::numbers::{parse_decimals, parse_word};
use base::bytes::{write_record, write_u32};
use roles::table::{ROW_BYTES, ROW_FIELDS};

// The names lines: before the incoming numbers, before the rows, before the words.
const INCOMING_NAMES: &[u8] = b"warnings errors\n";

const ROW_NAMES: &[u8] = b"depth words constants upvalues stack\n";

const WORD_NAMES: &[u8] = b"word\n";

// The most rows and words that are read.
pub const MAX_LISTING_ROWS: usize = 64;

pub const MAX_LISTING_WORDS: usize = 2048;

// Room for the most rows and words.
pub const TABLE_ROOM: usize = ROW_BYTES * MAX_LISTING_ROWS;

pub const WORD_ROOM: usize = 4 * MAX_LISTING_WORDS;

// Refusals 9 and 10, each with the number of its line. (`number` and `figure` are as in `Refusal` of roles. The two types have no trait: each has one
// caller, and their figures have different types.)
#[derive(Clone, Copy, PartialEq, Eq, Debug)]
pub enum Unread {
    MalformedLine(usize),
    ListingTooLong(usize),
}

impl Unread {
    // The refusal's number, 9 or 10.
    #[tactic(auto, unfolding(crate::specs::Terms::refused_of))]
    pub fn number(self) -> u8
        ensures { result ≡ (refused_of self).number }
    {
        match self {
            Unread::MalformedLine(_) => 9,
            Unread::ListingTooLong(_) => 10,
        }
    }

    // The refusal's figure: the line.
    #[tactic(auto, unfolding(crate::specs::Terms::refused_of))]
    pub fn figure(self) -> usize
        ensures { result ≡ (refused_of self).figure }
    {
        match self {
            Unread::MalformedLine(line) | Unread::ListingTooLong(line) => line,
        }
    }
}

// A listing that was read: a table, words, and the incoming numbers.
#[derive(Clone, Copy)]
pub struct Listing<'a> {
    pub table: &'a [u8],
    pub words: &'a [u8],
    pub warnings: u32,
    pub errors: u32,
}

// What the first three lines say: the incoming numbers.
#[derive(Clone, Copy)]
struct Head {
    warnings: u32,
    errors: u32,
}

// Reads a listing into a table and words.
#[tactic(auto, unfolding(crate::specs::Terms::head_then, crate::specs::Terms::listing_of, crate::specs::Terms::rows_then, crate::specs::Terms::words_then))]
pub fn read_listing<'a>(
    text: &[u8],
    table: &'a mut [u8; TABLE_ROOM],
    words: &'a mut [u8; WORD_ROOM],
) -> Result<Listing<'a>, Unread>
    ensures { read_listing text.now ≡ listing_of result }
{
    let mut left = Lines { rest: text };
    let head = read_head(&mut left)?;
    let rows = read_rows(&mut left, table)?;
    let count = read_words(&mut left, 5 + rows, words)?;
    Ok(Listing {
        table: &table[..ROW_BYTES * rows],
        words: &words[..4 * count],
        warnings: head.warnings,
        errors: head.errors,
    })
}

// Reads the first three lines.
fn read_head(text: &mut Lines) -> Result<Head, Unread>
    ensures { read_listing text.old.rest.now ≡ head_then (lines text.new.rest.now) result }
{
    skip_line(text, 1, INCOMING_NAMES)?;
    let line = text.next().ok_or(Unread::MalformedLine(2))?;
    let [warnings, errors] = parse_decimals::<2>(line).ok_or(Unread::MalformedLine(2))?;
    skip_line(text, 3, ROW_NAMES)?;
    Ok(Head { warnings, errors })
}

// Skips line number `at`, which must be this one.
fn skip_line(text: &mut Lines, at: usize, line: &[u8]) -> Result<(), Unread>
    ensures { MatchResult result (λ _. lines text.old.rest.now ≡ line.now ∷ lines text.new.rest.now) (λ u. (u ≡ MalformedLine at) × ((ls : List (List ℕ)) → lines text.old.rest.now ≡ line.now ∷ ls → ⊥)) }
{
    match text.next() {
        Some(next) if next == line => Ok(()),
        _ => Err(Unread::MalformedLine(at)),
    }
}

// Reads the rows, up to the line "word". (Rows are counted by hand: their number is needed after the last line too, where `enumerate` gives none.)
fn read_rows(text: &mut Lines, table: &mut [u8; TABLE_ROOM]) -> Result<usize, Unread>
    ensures reading { (warnings errors : ℕ) → read_body (lines text.old.rest.now) warnings errors ≡ rows_then (lines text.new.rest.now) warnings errors table.new result }
    ensures within_limits { IfOk result (λ rows. rows ≤ max_listing_rows) }
{
    let mut rows = 0;
    while let Some(line) = text.next() {
        if line == WORD_NAMES {
            return Ok(rows);
        }
        let fields = parse_decimals::<ROW_FIELDS>(line).ok_or(Unread::MalformedLine(4 + rows))?;
        if rows == MAX_LISTING_ROWS {
            return Err(Unread::ListingTooLong(4 + rows));
        }
        write_record(table, ROW_BYTES * rows, &fields);
        rows += 1;
    }
    Err(Unread::MalformedLine(4 + rows))
}

// Reads the words, from line number `first` to the end. (Rows end at a line, words with the text: one function for both would take all that differs.
// Words are counted by hand, as rows are: their number is the answer, after the last line.)
fn read_words(text: &mut Lines, first: usize, words: &mut [u8; WORD_ROOM]) -> Result<usize, Unread>
    requires { first ≤ 5 + max_listing_rows }
    ensures reading { (table : List ℕ) (warnings errors : ℕ) → read_code first (lines text.old.rest.now) table warnings errors ≡ words_then table warnings errors words.new result }
    ensures within_limits { IfOk result (λ count. count ≤ max_listing_words) }
{
    let mut count = 0;
    while let Some(line) = text.next() {
        let word = parse_word(line).ok_or(Unread::MalformedLine(first + count))?;
        if count == MAX_LISTING_WORDS {
            return Err(Unread::ListingTooLong(first + count));
        }
        write_u32(words, 4 * count, word);
        count += 1;
    }
    Ok(count)
}
