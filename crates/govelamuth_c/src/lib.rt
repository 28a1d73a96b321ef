// The calls for C on whole texts, each under its C name: a slice is a pointer and a length. `include/govelamuth.h` has their promises.
#![tactic(auto)]

ghost use Rattle.std.specs.Prelude.{length};
ghost use Rattle.run.specs.Lent.{five, lengths};
ghost use Rattle.judge.specs.Contract.{Judges, Checks};
ghost use Rattle.tell.specs.Contract.{Tells};

use answers::Answer;

// The answer to a text, with tables of its own.
#[unsafe(no_mangle)]
pub extern "C" fn elk_check(text: &[u8]) -> Answer
    ensures { Checks text.now result }
{
    govelamuth::elk_check(text)
}

// The same, with the accepted file in the lent tables.
#[unsafe(no_mangle)]
pub extern "C" fn elk_judge(
    text: &[u8],
    names: &mut [u16],
    formulas: &mut [u16],
    rows: &mut [u16],
    left: &mut [u16],
    right: &mut [u16],
) -> Answer
    ensures { Judges text.now
        (lengths (five names.old formulas.old rows.old left.old right.old))
        (five names.new formulas.new rows.new left.new right.new) result }
{
    govelamuth::elk_judge(text, names, formulas, rows, left, right)
}

// The same, with the rows of the accepted file in words in the lent text.
#[unsafe(no_mangle)]
pub extern "C" fn elk_words(
    text: &[u8],
    names: &mut [u16],
    formulas: &mut [u16],
    rows: &mut [u16],
    left: &mut [u16],
    right: &mut [u16],
    words: &mut [u8],
) -> Answer
    ensures { Tells text.now
        (lengths (five names.old formulas.old rows.old left.old right.old))
        (length words.old)
        (five names.new formulas.new rows.new left.new right.new) words.new result }
{
    govelamuth::elk_words(text, names, formulas, rows, left, right, words)
}
