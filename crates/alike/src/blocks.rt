// Truths in 256 pairs at once, one digit of a block for each pair, and a table of such truths. What is done to a block is done word by
// word, in straight lines: the compiler then takes two words at a time.
ghost use Rattle.std.specs.Prelude.{◌+◌, ◌*◌, ◌≤◌, ◌≡◌, length};
ghost use Rattle.std.proofs.lemmas.List.Edits.{sets};
ghost use Rattle.alike.specs.Blocks.{words_of, all_of, both_of, joined_of, raised_of, joined_truth, here_in, also_in, truth_in, Roomy, TruthPut};

use known::index::note;

// Digit n of a block is digit n % 64 of word n / 64.
#[derive(Clone, Copy, PartialEq, Eq)]
pub(crate) struct Block {
    pub w0: u64,
    pub w1: u64,
    pub w2: u64,
    pub w3: u64,
}

// The truth of a formula in 256 pairs (h,t) and in as many pairs (g,t), with one t and two parts of it; and in (t,t). Two at a time, since
// a formula waits for its part that was judged just before it.
#[derive(Clone, Copy)]
pub(crate) struct Truth {
    pub here: Block,
    pub also: Block,
    pub there: Block,
}

// What turns a conjunction into another connective: ones where its first part, its second part and the whole are denied, else zeros; and
// ones where a pair (h,t) is looked at alone, as for a conjunction and a disjunction, and not (t,t) too.
#[derive(Clone, Copy)]
pub(crate) struct Signs {
    pub first: u64,
    pub second: u64,
    pub whole: u64,
    pub alone: u64,
}

// The words of a truth.
pub(crate) const TRUTH_WORDS: usize = 12;

// One word four times.
pub(crate) fn all_of_one(word: u64) -> Block
    ensures { result ≡ all_of word }
{
    Block {
        w0: word,
        w1: word,
        w2: word,
        w3: word,
    }
}

fn both(x: Block, y: Block) -> Block
    ensures { result ≡ both_of x y }
{
    Block {
        w0: x.w0 & y.w0,
        w1: x.w1 & y.w1,
        w2: x.w2 & y.w2,
        w3: x.w3 & y.w3,
    }
}

// Two blocks joined as the parts of a conjunction, with the parts and the whole turned by the signs.
fn joined(x: Block, y: Block, signs: Signs) -> Block
    ensures { result ≡ joined_of signs x y }
{
    Block {
        w0: ((x.w0 ^ signs.first) & (y.w0 ^ signs.second)) ^ signs.whole,
        w1: ((x.w1 ^ signs.first) & (y.w1 ^ signs.second)) ^ signs.whole,
        w2: ((x.w2 ^ signs.first) & (y.w2 ^ signs.second)) ^ signs.whole,
        w3: ((x.w3 ^ signs.first) & (y.w3 ^ signs.second)) ^ signs.whole,
    }
}

// A block with the ones of a word in each of its words.
fn raised(x: Block, word: u64) -> Block
    ensures { result ≡ raised_of word x }
{
    Block {
        w0: word | x.w0,
        w1: word | x.w1,
        w2: word | x.w2,
        w3: word | x.w3,
    }
}

// Two truths so joined.
pub(crate) fn joined_truth(x: Truth, y: Truth, signs: Signs) -> Truth
    ensures { result ≡ joined_truth signs x y }
{
    let there = joined(x.there, y.there, signs);
    let bound = raised(there, signs.alone);
    Truth {
        here: both(bound, joined(x.here, y.here, signs)),
        also: both(bound, joined(x.also, y.also, signs)),
        there,
    }
}

// The truth at a slot of a table.
pub(crate) fn truth_in(table: &[u64], slot: usize) -> Truth
    requires { Roomy table.now slot }
    ensures { result ≡ truth_in table.now slot }
{
    let at = TRUTH_WORDS * slot;
    Truth {
        here: Block {
            w0: table[at],
            w1: table[at + 1],
            w2: table[at + 2],
            w3: table[at + 3],
        },
        also: Block {
            w0: table[at + 4],
            w1: table[at + 5],
            w2: table[at + 6],
            w3: table[at + 7],
        },
        there: Block {
            w0: table[at + 8],
            w1: table[at + 9],
            w2: table[at + 10],
            w3: table[at + 11],
        },
    }
}

// Its first block, and its second, at any slot.
pub(crate) fn here_in(table: &[u64], slot: u16) -> Block
    ensures { result ≡ here_in table.now slot }
{
    let at = TRUTH_WORDS * (usize::from(slot));
    Block {
        w0: note(table, at),
        w1: note(table, at + 1),
        w2: note(table, at + 2),
        w3: note(table, at + 3),
    }
}

pub(crate) fn also_in(table: &[u64], slot: u16) -> Block
    ensures { result ≡ also_in table.now slot }
{
    let at = TRUTH_WORDS * (usize::from(slot));
    Block {
        w0: note(table, at + 4),
        w1: note(table, at + 5),
        w2: note(table, at + 6),
        w3: note(table, at + 7),
    }
}

// Writes a block at a place.
fn put_block(table: &mut [u64], at: usize, block: Block)
    requires { at + 4 ≤ length table.old }
    ensures { table.new ≡ sets table.old at (words_of block) }
{
    table[at] = block.w0;
    table[at + 1] = block.w1;
    table[at + 2] = block.w2;
    table[at + 3] = block.w3;
}

// Writes a truth at a slot.
pub(crate) fn put_truth(table: &mut [u64], slot: usize, truth: Truth)
    requires { Roomy table.old slot }
    ensures { TruthPut table.old slot truth table.new }
{
    let at = TRUTH_WORDS * slot;
    put_block(table, at, truth.here);
    put_block(table, at + 4, truth.also);
    put_block(table, at + 8, truth.there);
}
