// Records of the names, formulas and rows tables, and the parts of a pool. Record i of a table starts at i times the width of
// its records; a count or an index may be any number. A read outside gives absent fields, and a write that does not fit
// changes nothing.
ghost use Rattle.std.specs.Prelude.{◌≡◌, ◌*◌, ◌%◌, [], ◌∷◌, take};
ghost use Rattle.format.specs.Tables.{row_width, row_at};
ghost use Rattle.format.specs.Tables.{part as part_of};
ghost use Rattle.format.specs.Tables.{name_width, node_width};
ghost use Rattle.tables.specs.Records.{written, record_numbers, row_numbers, node_at, record_from, row_from};

use counts::limits::{NAME_WIDTH, NODE_WIDTH, ROW_WIDTH};

// The number of an absent field.
pub const ABSENT: u16 = 65535;

// The words of formulas. From AND to IMP they have two operands.
pub const BOT: u16 = 0;

pub const ATOM: u16 = 1;

pub const NOT: u16 = 2;

pub const AND: u16 = 3;

pub const OR: u16 = 4;

pub const IMP: u16 = 5;

// The record of a formula: its word and its operands.
#[derive(Clone, Copy, PartialEq, Eq)]
pub struct NodeRecord {
    pub word: u16,
    pub first: u16,
    pub second: u16,
}

// The record of a row: the code of its rule, its principal formula, its first two premises, and where its sides lie.
#[derive(Clone, Copy)]
pub struct RowRecord {
    pub rule: u16,
    pub principal: u16,
    pub first: u16,
    pub second: u16,
    pub left_start: u16,
    pub left_length: u16,
    pub right_start: u16,
    pub right_length: u16,
}

// A number as a table holds it, in 16 bits; what is stored was bounded before. No cast may drop digits, so the rest is taken first.
pub fn narrow(x: u32) -> u16
    ensures { result ≡ x % 65536 }
{
    (x % 65536) as u16
}

// The same for places and lengths: one function for both would take a cast at each of its calls.
pub fn narrow_place(x: usize) -> u16
    ensures { result ≡ x % 65536 }
{
    (x % 65536) as u16
}

// The part of a table at a place, empty where it does not lie inside.
pub(crate) fn part(table: &[u16], start: u16, len: u16) -> &[u16]
    ensures { result.now ≡ part_of table.now start len }
{
    let from = usize::from(start);
    table.get(from..from + usize::from(len)).unwrap_or(&[])
}

// The first numbers of a table, as far as it has so many.
pub fn front(table: &[u16], count: usize) -> &[u16]
    ensures { result.now ≡ take count table.now }
{
    &table[..count.min(table.len())]
}

// Record i of the formulas table, read field by field as that of a row below: by one function that reads so many numbers into an
// array, which proves as well, the formulas of a pair are judged four times as slowly.
pub fn node(formulas: &[u16], i: usize) -> NodeRecord
    ensures { result ≡ record_from (node_at formulas.now i) }
{
    if i >= formulas.len() / NODE_WIDTH {
        return NodeRecord {
            word: ABSENT,
            first: ABSENT,
            second: ABSENT,
        };
    }
    let at = NODE_WIDTH * i;
    NodeRecord {
        word: formulas[at],
        first: formulas[at + 1],
        second: formulas[at + 2],
    }
}

// Record i of the rows table.
pub fn row(rows: &[u16], i: usize) -> RowRecord
    ensures { result ≡ row_from (row_at rows.now i) }
{
    if i >= rows.len() / ROW_WIDTH {
        return RowRecord {
            rule: ABSENT,
            principal: ABSENT,
            first: ABSENT,
            second: ABSENT,
            left_start: ABSENT,
            left_length: ABSENT,
            right_start: ABSENT,
            right_length: ABSENT,
        };
    }
    let at = ROW_WIDTH * i;
    RowRecord {
        rule: rows[at],
        principal: rows[at + 1],
        first: rows[at + 2],
        second: rows[at + 3],
        left_start: rows[at + 4],
        left_length: rows[at + 5],
        right_start: rows[at + 6],
        right_length: rows[at + 7],
    }
}

// Writes the record of a name: where it starts in the text, and its length.
pub fn put_name(names: &mut [u16], count: usize, start: u16, len: u16)
    ensures { names.new ≡ written names.old (name_width * count) (start ∷ len ∷ []) }
{
    put_record(names, count, [start, len]);
}

// Writes the record of a formula.
pub fn put_node(formulas: &mut [u16], count: usize, node: NodeRecord)
    ensures { formulas.new ≡ written formulas.old (node_width * count) (record_numbers node) }
{
    put_record(formulas, count, [node.word, node.first, node.second]);
}

// Writes the record of a row.
pub fn put_row(rows: &mut [u16], count: usize, row: RowRecord)
    ensures { rows.new ≡ written rows.old (row_width * count) (row_numbers row) }
{
    put_record(
        rows,
        count,
        [
            row.rule,
            row.principal,
            row.first,
            row.second,
            row.left_start,
            row.left_length,
            row.right_start,
            row.right_length,
        ],
    );
}

// Writes record `count` of a table of records of so many numbers. No table is as long as the place at which the product saturates.
fn put_record<const N: usize>(table: &mut [u16], count: usize, numbers: [u16; N])
    ensures { table.new ≡ written table.old (N * count) numbers.entry }
{
    put_side(table, count.saturating_mul(N), &numbers);
}

// Writes a side into a pool.
pub fn put_side(pool: &mut [u16], at: usize, side: &[u16])
    ensures { pool.new ≡ written pool.old at side.now }
{
    if at > pool.len() {
        return;
    }
    if side.len() > pool.len() - at {
        return;
    }
    pool[at..at + side.len()].copy_from_slice(side);
}
