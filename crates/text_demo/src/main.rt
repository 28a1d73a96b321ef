// Runs the readers of `text` on a few fields and prints what each finds, a line for each. It ends with an error where standard
// output cannot be written.
#![tactic(auto)]

ghost use Rattle.std.specs.Prelude.{◌≡◌, [], get_or};
ghost use Rattle.format.specs.Text.{fields_of};

use keywords::{Kind, Word};
use std::io;
use std::io::Write;
use text::lists::Listed;

fn put(rt: &impl Print, bytes: &[u8]) -> io::Result<()> {
    io::writer(rt).write_all(bytes)
}

fn put_decimal(rt: &impl Print, n: u64) -> io::Result<()> {
    print!(rt; "{n}")
}

// What is read, and of which field.
fn put_head(rt: &impl Print, reader: &[u8], field: &[u8]) -> io::Result<()> {
    put(rt, reader)?;
    put(rt, b" [")?;
    put(rt, field)?;
    put(rt, b"] ")
}

fn put_bool(rt: &impl Print, yes: bool) -> io::Result<()> {
    if yes { put(rt, b"yes") } else { put(rt, b"no") }
}

fn show_number(rt: &impl Print, field: &[u8]) -> io::Result<()> {
    put_head(rt, b"number", field)?;
    let number = text::numbers::read_number(field);
    match number {
        Some(n) => put_decimal(rt, u64::from(n))?,
        None => put(rt, b"bad")?,
    }
    put(rt, b"\n")
}

fn show_principal(rt: &impl Print, field: &[u8]) -> io::Result<()> {
    put_head(rt, b"principal", field)?;
    let principal = text::numbers::read_principal(field);
    match principal {
        Some(None) => put(rt, b"absent")?,
        Some(Some(n)) => put_decimal(rt, u64::from(n))?,
        None => put(rt, b"bad")?,
    }
    put(rt, b"\n")
}

// What is known of a list, and what a table of two entries holds of it.
fn put_listed(rt: &impl Print, listed: Option<Listed>, out: [u16; 2]) -> io::Result<()> {
    if let Some(listed) = listed {
        put_decimal(rt, listed.count as u64)?;
        put(rt, b" entries, all below ")?;
        put_decimal(rt, listed.above as u64)?;
        put(rt, b", rising ")?;
        put_bool(rt, listed.rising)?;
        put(rt, b", stored ")?;
        put_decimal(rt, u64::from(out[0]))?;
        put(rt, b" ")?;
        put_decimal(rt, u64::from(out[1]))?;
    } else {
        put(rt, b"bad")?;
    }
    put(rt, b"\n")
}

// The table has room for two entries, and a list is read to its end.
fn show_list(rt: &impl Print, field: &[u8]) -> io::Result<()> {
    put_head(rt, b"list", field)?;
    let mut out = [0u16; 2];
    let listed = text::lists::read_list(field, &mut out);
    put_listed(rt, listed, out)
}

fn show_side(rt: &impl Print, field: &[u8]) -> io::Result<()> {
    put_head(rt, b"side", field)?;
    let mut out = [0u16; 2];
    let listed = text::lists::read_side(field, &mut out);
    put_listed(rt, listed, out)
}

fn show_name(rt: &impl Print, field: &[u8]) -> io::Result<()> {
    put_head(rt, b"name", field)?;
    put_bool(rt, text::names::is_name(field))?;
    put(rt, b"\n")
}

// What is printed for no word of an F line, and for no rule.
const NO_WORD: u64 = 6;

const NO_RULE: u64 = 65535;

fn code_of(word: Word) -> u64 {
    u64::from(u16::from(word))
}

fn show_words(rt: &impl Print, field: &[u8]) -> io::Result<()> {
    put_head(rt, b"word", field)?;
    put(rt, b"formula ")?;
    put_decimal(rt, keywords::formula_word(field).map_or(NO_WORD, code_of))?;
    put(rt, b", rule ")?;
    put_decimal(rt, keywords::rule_word(field).map_or(NO_RULE, u64::from))?;
    put(rt, b"\n")
}

fn show_kind(rt: &impl Print, field: &[u8]) -> io::Result<()> {
    put_head(rt, b"kind", field)?;
    let kind = keywords::line_kind(field);
    match kind {
        Some(Kind::Atom) => put(rt, b"atom")?,
        Some(Kind::Formula) => put(rt, b"formula")?,
        Some(Kind::Row) => put(rt, b"row")?,
        Some(Kind::Model) => put(rt, b"model")?,
        Some(Kind::Claim) => put(rt, b"claim")?,
        None => put(rt, b"unknown")?,
    }
    put(rt, b"\n")
}

// The third field of a line; empty where it has none.
fn third(line: &[u8]) -> &[u8]
    ensures { result.now ≡ get_or (fields_of line.now) 2 [] }
{
    let fields = parts::read_fields(line);
    parts::field(line, fields, 2)
}

fn show_line(rt: &impl Print, line: &[u8]) -> io::Result<()> {
    put_head(rt, b"line", line)?;
    let fields = parts::read_fields(line);
    put_decimal(rt, fields.count as u64)?;
    put(rt, b" fields, the third [")?;
    put(rt, third(line))?;
    put(rt, b"]\n")
}

fn main(rt: HostRuntime) -> io::Result<()> {
    show_number(&rt, b"0")?;
    show_number(&rt, b"99999")?;
    show_number(&rt, b"100000")?;
    show_number(&rt, b"007")?;
    show_number(&rt, b"")?;
    show_principal(&rt, b"-")?;
    show_principal(&rt, b"12")?;
    show_principal(&rt, b"12,")?;
    show_list(&rt, b"-")?;
    show_list(&rt, b"3,70000,70001")?;
    show_list(&rt, b"3,3")?;
    show_list(&rt, b"3,,4")?;
    show_list(&rt, b"3-7")?;
    show_side(&rt, b"3-7")?;
    show_side(&rt, b"3,5-70000,70001")?;
    show_side(&rt, b"0-99999,0-99999")?;
    show_side(&rt, b"7-7")?;
    show_name(&rt, b"a_0")?;
    show_name(&rt, b"_a")?;
    show_words(&rt, b"bot")?;
    show_words(&rt, b"xnandl2")?;
    show_words(&rt, b"xnandl3")?;
    show_kind(&rt, b"N")?;
    show_kind(&rt, b"NN")?;
    show_line(&rt, b"A\t0\tp")?;
    show_line(&rt, b"C\t2\t")?;
    show_line(&rt, b"\t\t\t\t\t\t\t\t")
}
