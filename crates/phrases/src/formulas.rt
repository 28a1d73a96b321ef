// The words of a formula: in full brackets, with the names of its atoms in quotes. Formulas share their parts, so the
// words of one may be longer than any text: nothing is written once there is no room, and the time is bounded by the
// room.
ghost use Rattle.std.specs.Prelude.{◌≡◌};
ghost use Rattle.words.specs.Words.{formula_words};
ghost use Rattle.words.specs.Told.{atom as atomNamed};
ghost use Rattle.writer.specs.Putting.{Puts};
ghost use Rattle.phrases.specs.Formulas.{word_before, bracket_of, connective_of};
ghost use Rattle.phrases.specs.Sheets.{name_in, formula_in};

use crate::Sheet;
use tables::records::{AND, ATOM, BOT, IMP, NOT, NodeRecord, OR, node};
use writer::Writer;

// The word of a record whose parts are formulas before i; falsum, where it has another part or there is no such word.
#[tactic(auto, using(std::proofs::lemmas::Bool::Decides::nat_tests), unfolding(crate::specs::Formulas::word_before))]
fn word_before(n: NodeRecord, i: usize) -> u16
    ensures { result ≡ word_before n i }
{
    let first_before = usize::from(n.first) < i;
    let second_before = usize::from(n.second) < i;
    match n.word {
        ATOM => ATOM,
        NOT if first_before => NOT,
        AND | OR | IMP if first_before && second_before => n.word,
        _ => BOT,
    }
}

// The bracket before a formula of two parts, with the word before the first part. Each arm puts its own words, so that their length is
// known where they are put.
#[tactic(auto, using(std::proofs::lemmas::Bool::Decides::nat_tests), unfolding(crate::specs::Formulas::bracket_of))]
fn put_bracket(word: u16, out: &mut Writer)
    ensures { Puts (bracket_of word) out.old out.new }
{
    match word {
        IMP => out.put(b"(if "),
        _ => out.put(b"("),
    }
}

// The word between its parts, in the same way.
#[tactic(auto, using(std::proofs::lemmas::Bool::Decides::nat_tests), unfolding(crate::specs::Formulas::connective_of))]
fn put_connective(word: u16, out: &mut Writer)
    ensures { Puts (connective_of word) out.old out.new }
{
    match word {
        AND => out.put(b" and "),
        OR => out.put(b" or "),
        _ => out.put(b" then "),
    }
}

impl<'a> Sheet<'a> {
    #[tactic(auto, using(writer::proofs::Writing::puts_then), unfolding(words::specs::Words::formula_words))]
    fn put_atom(self, atom: usize, out: &mut Writer)
        ensures { Puts (formula_words (atomNamed (name_in self.entry atom))) out.old out.new }
    {
        out.put(b"\"");
        out.put_name(self.text, self.names, atom);
        out.put(b"\"");
    }

    pub(crate) fn put_formula(self, i: usize, out: &mut Writer)
        ensures { Puts (formula_words (formula_in self.entry i)) out.old out.new }
    {
        if out.end().is_none() {
            return;
        }
        let n = node(self.formulas, i);
        let first = usize::from(n.first);
        match word_before(n, i) {
            BOT => out.put(b"contradiction"),
            ATOM => self.put_atom(first, out),
            NOT => {
                out.put(b"not ");
                self.put_formula(first, out);
            }
            word => {
                put_bracket(word, out);
                self.put_formula(first, out);
                put_connective(word, out);
                self.put_formula(usize::from(n.second), out);
                out.put(b")");
            }
        }
    }
}
