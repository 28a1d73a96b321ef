// The parts of a text that separators bound, and the fields of a line.
#![tactic(auto)]

ghost use Rattle.std.specs.Prelude.{◌≡◌, true, ◌+◌, ◌≤◌, length};
ghost use Rattle.format.specs.Text.{tab, is};
ghost use Rattle.parts.specs.Parts.{next_at, Fielded, FieldPart};

// The index of the first such byte at or after `from`, or the length of `bytes` where there is none.
fn find_near(bytes: &[u8], from: usize, byte: u8) -> usize
    ensures { result ≡ next_at byte bytes.now from }
{
    for at in from..bytes.len() {
        if bytes[at] == byte {
            return at;
        }
    }
    bytes.len()
}

// None of the 16 bytes from `at` on is `byte`. Every one is looked at, so that all can be compared at once; `contains` stops at the first.
fn block_lacks(bytes: &[u8], at: usize, byte: u8) -> bool
    requires { at + 16 ≤ length bytes.now }
    ensures { result ≡ true → next_at byte bytes.now at ≡ next_at byte bytes.now (at + 16) }
{
    let mut lacks = true;
    for i in at..at + 16 {
        if bytes[i] == byte {
            lacks = false;
        }
    }
    lacks
}

// The index past the blocks of 16 bytes, from `from` on, that lack the byte. It is the place itself, which `step_by` would hide.
fn skip_blocks(bytes: &[u8], from: usize, byte: u8) -> usize
    ensures { next_at byte bytes.now from ≡ next_at byte bytes.now result }
{
    let mut at = from;
    while at < bytes.len() {
        if bytes.len() - at < 16 {
            return at;
        }
        if !block_lacks(bytes, at, byte) {
            return at;
        }
        at += 16;
    }
    at
}

// The same as `find_near`, and faster where the byte is far.
pub fn find(bytes: &[u8], from: usize, byte: u8) -> usize
    ensures { result ≡ next_at byte bytes.now from }
{
    find_near(bytes, skip_blocks(bytes, from, byte), byte)
}

// Where the field that starts at `at` ends. The fields of a short line are short.
fn field_end(line: &[u8], at: usize) -> usize
    ensures { result ≡ next_at tab line.now at }
{
    if line.len() < 128 {
        return find_near(line, at, b'\t');
    }
    find(line, at, b'\t')
}

// The most fields of a line that is well written: those of an N line.
pub const MOST_FIELDS: usize = 7;

// How many fields a line has, and where each of the first ones ends. Field 0 starts at 0, and each other one past the end of
// the field before it. An end that is not used is 0.
#[derive(Clone, Copy)]
pub struct Fields {
    pub count: usize,
    pub ends: [usize; MOST_FIELDS],
}

// The fields of a line, counted to its end. `split` would look at one byte after the other.
pub fn read_fields(line: &[u8]) -> Fields
    ensures { Fielded line.now result }
{
    let mut ends = [0usize; MOST_FIELDS];
    let mut count: usize = 0;
    let mut at: usize = 0;
    loop {
        let end = field_end(line, at);
        if count < MOST_FIELDS {
            ends[count] = end;
        }
        count += 1;
        if end == line.len() {
            return Fields { count, ends };
        }
        at = end + 1;
    }
}

// Field i of a line, by its fields as they were read; empty where there is no such field, or where its ends do not lie in order
// inside this line.
pub fn field(line: &[u8], fields: Fields, i: usize) -> &[u8]
    ensures { FieldPart line.now fields i result.now }
{
    if i >= MOST_FIELDS {
        return &line[..0];
    }
    let end = fields.ends[i];
    if end > line.len() {
        return &line[..0];
    }
    if i == 0 {
        return &line[..end];
    }
    let before = fields.ends[i - 1];
    if before >= end {
        return &line[..0];
    }
    let start = before + 1;
    &line[start..end]
}

// The field is `-`.
pub fn is_dash(field: &[u8]) -> bool
    ensures { result ≡ is "-" field.now }
{
    field == b"-".as_slice()
}
