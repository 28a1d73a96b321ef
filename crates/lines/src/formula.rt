// F lines.
ghost use Rattle.std.specs.Prelude.{◌≡◌};
ghost use Rattle.format.specs.Line.{node_of};
ghost use Rattle.refusals.specs.Refusals.{outcome};
ghost use Rattle.state.specs.Lined.{OfKind};
ghost use Rattle.lines.specs.FormulaLines.{one_operand, two_operands, written_as, record_by, narrowed, ahead_in, FormulaNumbered, FormulaLined};

use crate::line::Line;
use counts::Counts;
use counts::limits::MOST_FORMULAS;
use keywords::{Word, formula_word};
use known::{NoEntry, enter_formula};
use parts::is_dash;
use refusals::Refusal;
use state::{FORMULAS, State, out_of_order};
use tables::records::{ABSENT, NodeRecord, narrow};
use text::numbers::read_number;

// A formula as it is written.
#[derive(Clone, Copy)]
pub enum Written {
    Bot,
    Atom(u32),
    Not(u32),
    And(u32, u32),
    Or(u32, u32),
    Imp(u32, u32),
}

// The one operand that two fields write.
fn read_one(first_field: &[u8], second_field: &[u8]) -> Option<u32>
    ensures { result ≡ one_operand first_field.now second_field.now }
{
    if is_dash(second_field) {
        read_number(first_field)
    } else {
        None
    }
}

// The two operands that two fields write.
fn read_two(first_field: &[u8], second_field: &[u8]) -> Option<(u32, u32)>
    ensures { result ≡ two_operands first_field.now second_field.now }
{
    Some((read_number(first_field)?, read_number(second_field)?))
}

// The formula of three fields.
fn read_node(word_field: &[u8], first_field: &[u8], second_field: &[u8]) -> Option<Written>
    ensures { result ≡ written_as (node_of word_field.now first_field.now second_field.now) }
{
    match formula_word(word_field)? {
        Word::Bot => {
            if is_dash(first_field) && is_dash(second_field) {
                Some(Written::Bot)
            } else {
                None
            }
        }
        Word::Atom => Some(Written::Atom(read_one(first_field, second_field)?)),
        Word::Not => Some(Written::Not(read_one(first_field, second_field)?)),
        Word::And => {
            let (i, j) = read_two(first_field, second_field)?;
            Some(Written::And(i, j))
        }
        Word::Or => {
            let (i, j) = read_two(first_field, second_field)?;
            Some(Written::Or(i, j))
        }
        Word::Imp => {
            let (i, j) = read_two(first_field, second_field)?;
            Some(Written::Imp(i, j))
        }
    }
}

// Whether an operand is not earlier.
fn refers_ahead(node: Written, counts: Counts) -> bool
    ensures { result ≡ ahead_in node counts }
{
    match node {
        Written::Bot => false,
        Written::Atom(p) => counts.atoms <= p as usize,
        Written::Not(i) => counts.formulas <= i as usize,
        Written::And(i, j) | Written::Or(i, j) | Written::Imp(i, j) => {
            counts.formulas <= i as usize || counts.formulas <= j as usize
        }
    }
}

fn record(word: Word, first: u16, second: u16) -> NodeRecord
    ensures { result ≡ record_by word first second }
{
    NodeRecord {
        word: u16::from(word),
        first,
        second,
    }
}

// The record of a formula whose operands are earlier.
fn record_of(node: Written) -> NodeRecord
    ensures { result ≡ narrowed node }
{
    match node {
        Written::Bot => record(Word::Bot, ABSENT, ABSENT),
        Written::Atom(p) => record(Word::Atom, narrow(p), ABSENT),
        Written::Not(i) => record(Word::Not, narrow(i), ABSENT),
        Written::And(i, j) => record(Word::And, narrow(i), narrow(j)),
        Written::Or(i, j) => record(Word::Or, narrow(i), narrow(j)),
        Written::Imp(i, j) => record(Word::Imp, narrow(i), narrow(j)),
    }
}

// The first of the numbers 4, 5 and 7 that applies to a formula.
fn formula_number(state: State, n: u32, node: Written) -> Result<(), Refusal>
    ensures { FormulaNumbered state n node (outcome result) }
{
    let counts = state.counts;
    if out_of_order(state.stage, FORMULAS, counts.formulas, n) {
        return Err(Refusal::OutOfOrder);
    }
    if MOST_FORMULAS <= counts.formulas {
        return Err(Refusal::Full);
    }
    if refers_ahead(node, counts) {
        return Err(Refusal::NoSuchItem);
    }
    Ok(())
}

// An F line.
pub(crate) fn formula_line(
    line: Line<'_>,
    formulas: &mut [u16],
    notes: &mut [u64],
    state: State,
) -> Result<State, Refusal>
    requires { OfKind "F" line.bytes.now }
    ensures { FormulaLined line.entry.bytes.now state result formulas.old notes.old formulas.new notes.new }
{
    if line.fields.count != 5 {
        return Err(Refusal::BadLine);
    }
    let Some(n) = read_number(line.field(1)) else {
        return Err(Refusal::BadLine);
    };
    let node = read_node(line.field(2), line.field(3), line.field(4));
    let Some(node) = node else {
        return Err(Refusal::BadLine);
    };
    formula_number(state, n, node)?;
    let counts = state.counts;
    match enter_formula(formulas, notes, counts.formulas, record_of(node)) {
        Ok(_) => Ok(state.passed(counts.with_formula(), FORMULAS)),
        Err(NoEntry::Held(_)) => Err(Refusal::FormulaAgain),
        Err(NoEntry::Full) => Err(Refusal::Full),
    }
}
