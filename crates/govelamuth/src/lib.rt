// The calls on whole texts, each under its C name and with the tables one by one, as in C. `include/govelamuth.h` has
// their promises; `govelamuth_c` exports them.
#![tactic(auto)]

ghost use Rattle.std.specs.Prelude.{length};
ghost use Rattle.run.specs.Lent.{five, lengths};
ghost use Rattle.judge.specs.Contract.{Judges, Checks};
ghost use Rattle.tell.specs.Contract.{Tells};

use answers::Answer;
use counts::limits::{LEAST_FORMULAS, LEAST_NAMES, LEAST_ROWS, MOST_ENTRIES};
use judge::judge;
use run::lent::Tables;
use tell::tell;

// The answer to a text, with tables of its own.
pub fn elk_check(text: &[u8]) -> Answer
    ensures { Checks text.now result }
{
    let mut names = [0u16; LEAST_NAMES];
    let mut formulas = [0u16; LEAST_FORMULAS];
    let mut rows = [0u16; LEAST_ROWS];
    let mut left = [0u16; MOST_ENTRIES];
    let mut right = [0u16; MOST_ENTRIES];
    judge(
        text,
        &mut Tables {
            names: &mut names,
            formulas: &mut formulas,
            rows: &mut rows,
            left: &mut left,
            right: &mut right,
        },
    )
    .answer
}

// The same, with the accepted file in the lent tables.
pub fn elk_judge(
    text: &[u8],
    names: &mut [u16],
    formulas: &mut [u16],
    rows: &mut [u16],
    left: &mut [u16],
    right: &mut [u16],
) -> Answer
    ensures { Judges text.now
        (lengths (five names.old formulas.old rows.old left.old right.old))
        (five names.new formulas.new rows.new left.new right.new) result }
{
    let mut lent = Tables {
        names,
        formulas,
        rows,
        left,
        right,
    };
    judge(text, &mut lent).answer
}

// The same, with the rows of the accepted file in words in the lent text.
pub fn elk_words(
    text: &[u8],
    names: &mut [u16],
    formulas: &mut [u16],
    rows: &mut [u16],
    left: &mut [u16],
    right: &mut [u16],
    words: &mut [u8],
) -> Answer
    ensures { Tells text.now
        (lengths (five names.old formulas.old rows.old left.old right.old))
        (length words.old)
        (five names.new formulas.new rows.new left.new right.new) words.new result }
{
    let mut lent = Tables {
        names,
        formulas,
        rows,
        left,
        right,
    };
    tell(text, &mut lent, words)
}
