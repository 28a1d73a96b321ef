// The truth of formulas in 256 pairs at once. Atoms have places 0 to 7, and a pair says of each place whether its atoms are in the greater
// set (there) and in the smaller one (here). Places 0 to 4 go through all that they can be: digit s of a pair's number in base three is 0
// if place s is in neither set, 1 if it is in the greater alone, and 2 if it is in both. The places from 5 on are the same in all 256
// pairs, as two sets of places, h inside t; two such h, the second named g, are judged at a time. The truths of listed formulas are in a
// table, each at the slot of its formula: its place on the list.
ghost use Rattle.std.specs.Prelude.{ℕ, ◌<◌, ◌≡◌};
ghost use Rattle.atomset.specs.AtomSet.{has};
ghost use Rattle.alike.specs.Blocks.{pairs_at_once, digit, Roomy};
ghost use Rattle.alike.specs.Truths.{PlaceTruth, Signed, JudgedNext, JudgedAll};

use crate::blocks::{
    Block, Signs, TRUTH_WORDS, Truth, all_of_one, joined_truth, put_truth, truth_in,
};
use crate::steps::Steps;
use atomset::contains;
use known::index::note;
use tables::records::{AND, ATOM, IMP, NOT, NodeRecord, OR, node};

// The sets of 256 pairs (h,t) and as many pairs (g,t).
#[derive(Clone, Copy)]
pub(crate) struct Sets {
    pub h: u64,
    pub g: u64,
    pub t: u64,
}

// A word of nothing but ones if so, and else of zeros.
fn ones_if(yes: bool) -> u64
    ensures { (i : ℕ) → i < 64 → has result i ≡ yes }
{
    if yes {
        return 0xFFFFFFFFFFFFFFFF;
    }
    0
}

// A block of such words, by whether the set has the place.
fn spread(set: u64, place: u64) -> Block
    ensures { (n : ℕ) → n < pairs_at_once → digit result n ≡ has set place }
{
    all_of_one(ones_if(contains(set, place as usize)))
}

// The truth with one block for both smaller sets.
fn at_all(here: Block, there: Block) -> Truth
    ensures { (result.here ≡ here) × (result.also ≡ here) × (result.there ≡ there) }
{
    Truth {
        here,
        also: here,
        there,
    }
}

// The truth of the atoms at a place.
fn truth_of_place(place: u64, sets: Sets) -> Truth
    ensures { PlaceTruth place sets.h sets.g sets.t result }
{
    if place == 0 {
        return at_all(
            Block {
                w0: 0x4924924924924924,
                w1: 0x2492492492492492,
                w2: 0x9249249249249249,
                w3: 0x4924924924924924,
            },
            Block {
                w0: 0x6DB6DB6DB6DB6DB6,
                w1: 0xB6DB6DB6DB6DB6DB,
                w2: 0xDB6DB6DB6DB6DB6D,
                w3: 0x6DB6DB6DB6DB6DB6,
            },
        );
    }
    if place == 1 {
        return at_all(
            Block {
                w0: 0x70381C0E070381C0,
                w1: 0x381C0E070381C0E0,
                w2: 0x1C0E070381C0E070,
                w3: 0x0E070381C0E07038,
            },
            Block {
                w0: 0x7E3F1F8FC7E3F1F8,
                w1: 0x3F1F8FC7E3F1F8FC,
                w2: 0x1F8FC7E3F1F8FC7E,
                w3: 0x8FC7E3F1F8FC7E3F,
            },
        );
    }
    if place == 2 {
        return at_all(
            Block {
                w0: 0x003FE00007FC0000,
                w1: 0xC0000FF80001FF00,
                w2: 0x1FF00003FE00007F,
                w3: 0x0007FC0000FF8000,
            },
            Block {
                w0: 0x803FFFF007FFFE00,
                w1: 0xFFE00FFFFC01FFFF,
                w2: 0x1FFFF803FFFF007F,
                w3: 0xF007FFFE00FFFFC0,
            },
        );
    }
    if place == 3 {
        return at_all(
            Block {
                w0: 0xFFC0000000000000,
                w1: 0x000000000001FFFF,
                w2: 0x00000003FFFFFF80,
                w3: 0x0007FFFFFF000000,
            },
            Block {
                w0: 0xFFFFFFFFF8000000,
                w1: 0xFFFFF0000001FFFF,
                w2: 0xE0000003FFFFFFFF,
                w3: 0x0007FFFFFFFFFFFF,
            },
        );
    }
    if place == 4 {
        return at_all(
            Block {
                w0: 0x0000000000000000,
                w1: 0x0000000000000000,
                w2: 0xFFFFFFFC00000000,
                w3: 0x0007FFFFFFFFFFFF,
            },
            Block {
                w0: 0x0000000000000000,
                w1: 0xFFFFFFFFFFFE0000,
                w2: 0xFFFFFFFFFFFFFFFF,
                w3: 0x0007FFFFFFFFFFFF,
            },
        );
    }
    Truth {
        here: spread(sets.h, place),
        also: spread(sets.g, place),
        there: spread(sets.t, place),
    }
}

// A slot as far as a table has rooms, else 0.
fn within(slot: u16, rooms: usize) -> usize
    requires { 0 < rooms }
    ensures { (result < rooms) × (slot < rooms → result ≡ slot) }
{
    let at = usize::from(slot);
    if at >= rooms {
        return 0;
    }
    at
}

// The signs of a connective.
fn signs_of(connective: u16) -> Signs
    ensures { Signed connective result }
{
    Signs {
        first: ones_if(connective == OR),
        second: ones_if(OR <= connective),
        whole: ones_if(connective != AND),
        alone: ones_if(connective == AND) | ones_if(connective == OR),
    }
}

// Puts the truth of a step at slot k, by those at the slots of its parts. All connectives take one way: jumps by the connective are
// guessed wrong so often that they take as long as all else.
fn judge(step: NodeRecord, places: &[u64], sets: Sets, k: usize, table: &mut [u64])
    requires { Roomy table.old k }
    ensures { JudgedNext step places.now sets.h sets.g sets.t k table.old table.new }
{
    if step.word == ATOM {
        put_truth(
            table,
            k,
            truth_of_place(note(places, usize::from(step.first)), sets),
        );
        return;
    }
    if step.word < NOT || IMP < step.word {
        put_truth(table, k, at_all(all_of_one(0), all_of_one(0)));
        return;
    }
    let rooms = table.len() / TRUTH_WORDS;
    let x = truth_in(table, within(step.first, rooms));
    let y = truth_in(table, within(step.second, rooms));
    put_truth(table, k, joined_truth(x, y, signs_of(step.word)));
}

// Puts the truths of the first steps at their slots, the last one first.
pub(crate) fn judge_listed(steps: Steps<'_>, sets: Sets, table: &mut [u64])
    ensures { JudgedAll steps.entry.records.now steps.entry.count steps.entry.places.now sets.h sets.g sets.t table.old table.new }
{
    if steps.count > table.len() / TRUTH_WORDS {
        return;
    }
    for k in (0..steps.count).rev() {
        judge(node(steps.records, k), steps.places, sets, k, table);
    }
}
