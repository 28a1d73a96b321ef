// The rule table of the calculus as numbers: how each of the 38 rules is judged, what number 10 asks of its rows, and what it
// adds to L and R.
#![tactic(auto)]

ghost use Rattle.std.specs.Prelude.{◌≡◌, get_or};
ghost use Rattle.rules.specs.RuleTable.{packed_rules, rule_number};
ghost use Rattle.rules.specs.Steps.{Judged};

// The places of a rule's numbers: how it is judged, its kind, whether it has a principal formula, the count of its premises
// and their kinds.
pub const STEP: usize = 0;

pub const KIND: usize = 1;

pub const PRINCIPAL: usize = 2;

pub const PREMISES: usize = 3;

pub const FIRST_KIND: usize = 4;

pub const SECOND_KIND: usize = 5;

// Two parts for each side, from the left of the conclusion to the right of the second premise.
pub const PARTS: usize = 6;

// The count of a rule's numbers, and the place of the last.
const NUMBERS: usize = 18;

const LAST: usize = NUMBERS - 1;

// How a rule is judged: as one of the table, by the form of its principal formula, or as one that is written out.
#[derive(Clone, Copy)]
pub enum Step {
    Schema,
    Default,
    Cut,
    Unstable,
    Initial,
    Swap,
}

// The numbers of a rule in their order, as octal digits, of which the first number has two:
// - how it is judged: by the form of its principal formula (0 #, 1 any, 2 ~, 3 &, 4 |, 5 ->, 6 ~~, 7 ~&, 10 ~|, 11 ~->), or as
//   one that is written out (12 def, 13 rcut, 14 unst, 15 xini, 16 swap);
// - its kind (0 ELK, 1 refutation), a principal formula or none (1, 0), the count of its premises, and their kinds (2 where
//   there is none);
// - what is added to each side (1 the principal formula, 2 A, 3 B, 4 ~A, 5 ~B, 0 nothing).
// This is a `match` since a `const` table would be built anew at each call.
fn packed(rule: u16) -> u64
    ensures { result ≡ get_or packed_rules rule 0 }
{
    match rule {
        0 => 0o12_01022_00_00_00_00_00_00, // def
        1 => 0o01_01022_10_10_00_00_00_00, // same
        2 => 0o03_01102_10_00_23_00_00_00, // andl
        3 => 0o03_01200_00_10_00_20_00_30, // andr
        4 => 0o01_01102_00_10_00_00_00_00, // wr
        5 => 0o00_01102_00_00_00_10_00_00, // bot
        6 => 0o04_01102_00_10_00_23_00_00, // orr
        7 => 0o04_01200_10_00_20_00_30_20, // orl
        8 => 0o02_01102_10_00_00_20_00_00, // notl
        9 => 0o05_01102_00_10_20_30_00_00, // impr
        10 => 0o05_01200_10_00_30_40_00_20, // impl
        11 => 0o02_01102_00_10_20_00_00_00, // notr
        12 => 0o13_01200_00_00_00_00_00_00, // rcut
        13 => 0o14_00201_00_00_00_00_00_00, // unst
        14 => 0o15_10022_00_00_00_00_00_00, // xini
        15 => 0o06_11112_10_00_00_40_00_00, // xnnl
        16 => 0o06_11112_00_10_40_00_00_00, // xnnr
        17 => 0o03_11112_10_00_23_00_00_00, // xandl
        18 => 0o03_11112_00_10_00_20_00_00, // xandr1
        19 => 0o03_11112_00_10_00_30_00_00, // xandr2
        20 => 0o04_11112_00_10_00_23_00_00, // xorr
        21 => 0o04_11112_10_00_20_00_00_00, // xorl1
        22 => 0o04_11112_10_00_30_00_00_00, // xorl2
        23 => 0o05_11112_10_00_00_25_00_00, // ximpl1
        24 => 0o05_11112_10_00_30_00_00_00, // ximpl2
        25 => 0o05_11112_10_00_40_00_00_00, // ximpl3
        26 => 0o05_11112_00_10_20_30_00_00, // ximpr1
        27 => 0o05_11112_00_10_50_40_00_00, // ximpr2
        28 => 0o11_11112_10_00_50_40_00_00, // xnimpl
        29 => 0o11_11112_00_10_40_00_00_00, // xnimpr1
        30 => 0o11_11112_00_10_00_50_00_00, // xnimpr2
        31 => 0o07_11112_10_00_40_00_00_00, // xnandl1
        32 => 0o07_11112_10_00_50_00_00_00, // xnandl2
        33 => 0o07_11112_00_10_00_45_00_00, // xnandr
        34 => 0o10_11112_10_00_45_00_00_00, // xnorl
        35 => 0o10_11112_00_10_00_40_00_00, // xnorr1
        36 => 0o10_11112_00_10_00_50_00_00, // xnorr2
        37 => 0o16_01102_00_00_00_00_00_00, // swap
        _ => 0,
    }
}

// One of a rule's numbers; 0 where there is no such rule, 255 at a place that no rule has.
pub fn rule_number(rule: u16, at: usize) -> u8
    ensures { result ≡ rule_number rule at }
{
    if at >= NUMBERS {
        return 255;
    }
    let numbers = packed(rule);
    let from = numbers >> (3 * (LAST - at));
    if at == STEP {
        return (from % 256) as u8;
    }
    (from % 8) as u8
}

// How a rule is judged.
pub fn step_of(rule: u16) -> Step
    ensures { Judged (rule_number rule 0) result }
{
    match rule_number(rule, STEP) {
        10 => Step::Default,
        11 => Step::Cut,
        12 => Step::Unstable,
        13 => Step::Initial,
        14 => Step::Swap,
        _ => Step::Schema,
    }
}
