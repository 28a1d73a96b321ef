// Judges standard input: reads it to its end and prints refusal number, tab, line and line feed. Started with the
// word `words` it prints the rows of an accepted file in words instead. Started with `try` and a number it opens a
// beginning of so many bytes, and tries the row that follows it: the answer of opening, and where that is 0 a second
// line with the row's. If reading or writing fails it ends with that error, which is said on standard error, and a
// failed read leaves standard output empty: trouble never looks like a verdict. A failed write may leave some
// sentences.
#![tactic(auto)]

ghost use Rattle.std.specs.Prelude.{◌≤◌, length, IfOk};

use adding::OpenFile;
use answers::Answer;
use counts::limits::{LEAST_FORMULAS, LEAST_NAMES, LEAST_ROWS, MOST_ENTRIES};
use govelamuth::elk_check;
use opening::open;
use parts::find;
use run::lent::Tables;
use std::env::Env;
use std::io;
use std::io::{Read, Write};
use tell::tell;
use text::numbers::read_number;

// Reads until the buffer is full or the input ends, and tells how many bytes that brought. There is no heap, and the
// library reads an input to its end into a `Vec` alone.
fn fill<R: Read>(input: &mut R, buffer: &mut [u8]) -> io::Result<usize>
    ensures { IfOk result (λ n. n ≤ length buffer.new) }
{
    let mut at = 0;
    while at < buffer.len() {
        let more = input.read(&mut buffer[at..])?;
        if more == 0 {
            break;
        }
        at += more;
    }
    Ok(at)
}

// Reads the rest of the input. A loop has to end, and nothing says that an input does: so it counts its turns, up to a
// number that no run reaches. `io::copy` would try an interrupted read again, which counts as a failed one here.
fn drain<R: Read>(input: &mut R, buffer: &mut [u8]) -> io::Result<()> {
    for _turn in 0..u64::MAX {
        if input.read(buffer)? == 0 {
            return Ok(());
        }
    }
    Err(io::Error::from(io::ErrorKind::Other))
}

// Reads the whole input and tells how many bytes of it the buffer holds. One that fills the buffer is read on to its
// end; the buffer keeps what came first.
fn read_all<R: Read>(input: &mut R, buffer: &mut [u8]) -> io::Result<usize>
    ensures { IfOk result (λ n. n ≤ length buffer.new) }
{
    let held = fill(input, buffer)?;
    if held < buffer.len() {
        return Ok(held);
    }
    let mut rest = [0u8; 4096];
    drain(input, &mut rest)?;
    Ok(held)
}

fn print(rt: &impl Print, answer: Answer) -> io::Result<()> {
    let Answer { number, line } = answer;
    println!(rt; "{number}\t{line}")
}

// An argument, copied to the start of the buffer, and its length; 0 where it is missing, or longer than the buffer.
fn argument(env: &impl Env, i: usize, buffer: &mut [u8]) -> usize
    ensures { result ≤ length buffer.new }
{
    env.arg(i, buffer).unwrap_or(0)
}

// What the program is to do with its input: judge it, tell its rows in words, or open so many bytes of it and try the
// row after them.
#[derive(Clone, Copy)]
enum Command {
    Judge,
    Tell,
    Try(usize),
}

// The number that the second word is. One of over five digits counts as the most of five, since both are longer than
// any text; so does a word that is no number, or is missing.
fn beginning_length(env: &impl Env) -> usize {
    let mut word = [0u8; 5];
    let length = argument(env, 2, &mut word);
    read_number(&word[..length]).map_or(99999, |n| n as usize)
}

// The command by the first word, which has room for one byte more than the longest that counts.
fn read_command(env: &impl Env) -> Command {
    let mut word = [0u8; 6];
    let length = argument(env, 1, &mut word);
    match &word[..length] {
        b"words" => Command::Tell,
        b"try" => Command::Try(beginning_length(env)),
        _ => Command::Judge,
    }
}

// Prints a lent text up to the zeros after what it holds. By `find`, which looks at sixteen bytes at once: `position`
// looks at one after the other, which takes up to a tenth of a run with many words.
fn print_held(rt: &impl Print, held: &[u8]) -> io::Result<()> {
    let end = find(held, 0, 0);
    io::writer(rt).write_all(&held[..end])
}

// The most bytes of sentences that are printed: 1 MiB.
const MOST_PRINTED: usize = 1048576;

fn print_words(rt: &impl Print, text: &[u8]) -> io::Result<()> {
    let mut names = [0u16; LEAST_NAMES];
    let mut formulas = [0u16; LEAST_FORMULAS];
    let mut rows = [0u16; LEAST_ROWS];
    let mut left = [0u16; MOST_ENTRIES];
    let mut right = [0u16; MOST_ENTRIES];
    let mut words = [0u8; MOST_PRINTED];
    let mut lent = Tables {
        names: &mut names,
        formulas: &mut formulas,
        rows: &mut rows,
        left: &mut left,
        right: &mut right,
    };
    let answer = tell(text, &mut lent, &mut words);
    if answer.number != 0 {
        return print(rt, answer);
    }
    print_held(rt, &words)
}

// The answer to a beginning and, where that is 0, the answer to the row.
fn print_both(rt: &impl Print, beginning: &[u8], row: &[u8]) -> io::Result<()> {
    let mut names = [0u16; LEAST_NAMES];
    let mut formulas = [0u16; LEAST_FORMULAS];
    let mut rows = [0u16; LEAST_ROWS];
    let mut left = [0u16; MOST_ENTRIES];
    let mut right = [0u16; MOST_ENTRIES];
    let mut lent = Tables {
        names: &mut names,
        formulas: &mut formulas,
        rows: &mut rows,
        left: &mut left,
        right: &mut right,
    };
    let opened = open(beginning, &mut lent);
    print(rt, opened.answer)?;
    if opened.answer.number != 0 {
        return Ok(());
    }
    let file = OpenFile {
        counts: opened.counts,
    };
    print(rt, file.preview(row, &formulas, &rows, &left, &right))
}

// A text of a beginning, of so many bytes, and a row.
fn print_trial(rt: &impl Print, text: &[u8], length: usize) -> io::Result<()> {
    let (beginning, row) = text.split_at(length.min(text.len()));
    print_both(rt, beginning, row)
}

fn answer<R: Print + Env>(rt: &R, text: &[u8]) -> io::Result<()> {
    match read_command(rt) {
        Command::Judge => print(rt, elk_check(text)),
        Command::Tell => print_words(rt, text),
        Command::Try(length) => print_trial(rt, text, length),
    }
}

// The buffer has room for two texts, each with one byte more than a text may have, so that one which is cut off is
// judged too long.
fn main(rt: HostRuntime) -> io::Result<()> {
    let mut buffer = [0u8; 131074];
    let n = read_all(&mut rt.stdin(), &mut buffer)?;
    answer(&rt, &buffer[..n])
}
