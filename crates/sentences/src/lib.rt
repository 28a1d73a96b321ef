// The sentence of each row of a file, written into a lent text one after the other. The tables may have any length
// and hold anything, and so may the lent text.
#![tactic(auto)]

ghost use Rattle.std.specs.Prelude.{◌≡◌, Some};
ghost use Rattle.phrases.specs.Kinds.{kind_of};
ghost use Rattle.phrases.specs.Rows.{kind_by};
ghost use Rattle.writer.specs.Putting.{Puts};
ghost use Rattle.writer.specs.Writing.{Writes};
ghost use Rattle.sentences.specs.Sentences.{elk_rule, heading_words};
ghost use Rattle.sentences.specs.Books.{grounds_in, sequent_in, sentence_in, sentences_in};

use meanings::put_meaning;
use phrases::Sheet;
use phrases::grounds::put_premises;
use phrases::sides::{Kind, Side};
use rules::{KIND, rule_number};
use tables::fetch;
use tables::records::{RowRecord, row};
use writer::Writer;

// The tables that rows are told from: those of their formulas, the rows, and the formulas of their sides.
#[derive(Clone, Copy)]
pub struct Book<'a> {
    pub sheet: Sheet<'a>,
    pub rows: &'a [u16],
    pub left: &'a [u16],
    pub right: &'a [u16],
}

#[tactic(auto, using(std::proofs::lemmas::Bool::Decides::nat_tests), unfolding(crate::specs::Sentences::elk_rule))]
fn kind_of(rule: u16) -> Kind
    ensures { kind_of result ≡ kind_by (elk_rule rule) }
{
    if rule_number(rule, KIND) == 0 {
        Kind::Elk
    } else {
        Kind::Refutation
    }
}

// The number of a row, and the meaning of its rule.
#[tactic(auto, using(writer::proofs::Writing::puts_then), unfolding(crate::specs::Sentences::heading_words))]
fn put_heading(number: u16, rule: u16, out: &mut Writer)
    ensures { Puts (heading_words number rule) out.old out.new }
{
    out.put(b"Row ");
    out.put_number(number);
    out.put(b": ");
    put_meaning(rule, out);
    out.put(b"; ");
}

impl<'a> Book<'a> {
    // What the row rests on: its principal formula, and its premises.
    #[tactic(auto, using(writer::proofs::Writing::puts_then), unfolding(crate::specs::Sentences::ground_words))]
    fn put_grounds(self, held: RowRecord, out: &mut Writer)
        ensures { Puts (grounds_in self.entry held) out.old out.new }
    {
        self.sheet.put_principal(held.principal, out);
        out.put(b"; ");
        put_premises(held.first, held.second, out);
        out.put(b"; ");
    }

    // What the row says: its two sides.
    #[tactic(auto, using(writer::proofs::Writing::puts_then), unfolding(crate::specs::Sentences::sequent_words))]
    fn put_sequent(self, kind: Kind, at: usize, out: &mut Writer)
        ensures { Puts (sequent_in self.entry (kind_of kind) at) out.old out.new }
    {
        let antecedent = fetch(self.rows, self.left, self.right, true, at);
        self.sheet.put_side(kind, Side::Left, antecedent, out);
        out.put(b"; ");
        let succedent = fetch(self.rows, self.left, self.right, false, at);
        self.sheet.put_side(kind, Side::Right, succedent, out);
        out.put(b".\n");
    }

    // The sentence of a row, written at the start of what is left of a lent text: how many bytes it takes, if there
    // is room.
    pub(crate) fn put_sentence(self, number: u16, rest: &mut [u8]) -> Option<usize>
        ensures { Writes (sentence_in self.entry number) rest.old (Some 0) rest.new result }
    {
        let at = usize::from(number);
        let held = row(self.rows, at);
        let mut out = Writer::new(rest);
        put_heading(number, held.rule, &mut out);
        self.put_grounds(held, &mut out);
        self.put_sequent(kind_of(held.rule), at, &mut out);
        out.end()
    }

    // The sentences of the first `count` rows, each in the rest of the lent text after the one before.
    pub fn put_sentences(self, count: u16, out: &mut [u8]) -> Option<usize>
        ensures { Writes (sentences_in self.entry 0 count) out.old (Some 0) out.new result }
    {
        let mut at = 0;
        for number in 0..count {
            at += self.put_sentence(number, &mut out[at..])?;
        }
        Some(at)
    }
}
