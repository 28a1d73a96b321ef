// What each of the 38 rules says, in English, by the rule's code.
#![tactic(auto)]

ghost use Rattle.std.specs.Prelude.{◌≡◌};
ghost use Rattle.words.specs.Meanings.{meaning_at};
ghost use Rattle.writer.specs.Putting.{Puts};

use writer::Writer;

// The phrase of a rule, empty where there is no such rule.
fn meaning(rule: u16) -> &'static [u8]
    ensures { result.now ≡ meaning_at rule }
{
    match rule {
        // def
        0 => b"only atoms are given, so the negation of an atom that is not given holds by default",
        // same
        1 => b"a given formula is itself one of the alternatives",
        // andl
        2 => b"two given parts are given together as their conjunction",
        // andr
        3 => b"each of two parts is shown as an alternative, so their conjunction is one",
        // wr
        4 => b"one more alternative is added to those already shown",
        // bot
        5 => b"contradiction is dropped from the alternatives, as it never holds",
        // orr
        6 => b"two alternatives are put together as their disjunction",
        // orl
        7 =>
            b"each part of a given disjunction is taken in turn, the second with the first as one more alternative",
        // notl
        8 => b"an alternative is dropped, as its negation is given",
        // impr
        9 =>
            b"an implication takes the place of its second part among the alternatives, and its first part is no longer given",
        // impl
        10 =>
            b"an implication is given, as the first row has its second part given and shows its first part negated, the second its first part",
        // notr
        11 => b"a formula is no longer given, and its negation is one more alternative",
        // rcut
        12 =>
            b"a formula that the first row has as an alternative and the second row as given is cut out, and the rest is joined",
        // unst
        13 =>
            b"the one set of atoms that is left as a model is not stable, as the second row shows, so any alternatives may stand",
        // xini
        14 =>
            b"the counter-case can be read off, as there are only atoms, contradiction and negations of these",
        // xnnl
        15 => b"a double negation holds in the counter-case, as the single negation does not",
        // xnnr
        16 => b"a double negation does not hold in the counter-case, as the single negation does",
        // xandl
        17 => b"a conjunction holds in the counter-case, as both its parts do",
        // xandr1
        18 => b"a conjunction does not hold in the counter-case, as its first part does not",
        // xandr2
        19 => b"a conjunction does not hold in the counter-case, as its second part does not",
        // xorr
        20 => b"a disjunction does not hold in the counter-case, as neither of its parts does",
        // xorl1
        21 => b"a disjunction holds in the counter-case, as its first part does",
        // xorl2
        22 => b"a disjunction holds in the counter-case, as its second part does",
        // ximpl1
        23 =>
            b"an implication holds in the counter-case, as neither its first part nor the negation of its second part does",
        // ximpl2
        24 => b"an implication holds in the counter-case, as its second part does",
        // ximpl3
        25 => b"an implication holds in the counter-case, as the negation of its first part does",
        // ximpr1
        26 =>
            b"an implication does not hold in the counter-case, as its first part does and its second part does not",
        // ximpr2
        27 =>
            b"an implication does not hold in the counter-case, as the negation of its second part does and that of its first part does not",
        // xnimpl
        28 =>
            b"a negated implication holds in the counter-case, as the negation of its second part does and that of its first part does not",
        // xnimpr1
        29 =>
            b"a negated implication does not hold in the counter-case, as the negation of its first part does",
        // xnimpr2
        30 =>
            b"a negated implication does not hold in the counter-case, as the negation of its second part does not",
        // xnandl1
        31 =>
            b"a negated conjunction holds in the counter-case, as the negation of its first part does",
        // xnandl2
        32 =>
            b"a negated conjunction holds in the counter-case, as the negation of its second part does",
        // xnandr
        33 =>
            b"a negated conjunction does not hold in the counter-case, as the negation of neither part does",
        // xnorl
        34 =>
            b"a negated disjunction holds in the counter-case, as the negations of both its parts do",
        // xnorr1
        35 =>
            b"a negated disjunction does not hold in the counter-case, as the negation of its first part does not",
        // xnorr2
        36 =>
            b"a negated disjunction does not hold in the counter-case, as the negation of its second part does not",
        // swap
        37 =>
            b"a formula takes the place of a given one that holds in the same cases of here-and-there",
        _ => b"",
    }
}

pub fn put_meaning(rule: u16, out: &mut Writer)
    ensures { Puts (meaning_at rule) out.old out.new }
{
    out.put(meaning(rule));
}
