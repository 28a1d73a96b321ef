// The words of a text: the kinds of line, the words of formulas, and the rules.
#![tactic(auto)]

ghost use Rattle.std.specs.Prelude.{◌≡◌, get_or};
ghost use Rattle.format.specs.Text.{same_list};
ghost use Rattle.format.specs.Line.{rule_of};
ghost use Rattle.keywords.specs.Words.{KindRead, word_code, WordRead, RuleRead, IsKey};
ghost use Rattle.keywords.specs.RuleWords.{CodesPlaced, Candidate, WordsStand, word_at};

use tables::names::same_bytes;

#[derive(Clone, Copy, PartialEq, Eq)]
pub enum Kind {
    Atom,
    Formula,
    Row,
    Model,
    Claim,
}

// The kind of line that its first field names; None for an unknown one.
pub fn line_kind(field: &[u8]) -> Option<Kind>
    ensures { KindRead field.now result }
{
    match field {
        [b'A'] => Some(Kind::Atom),
        [b'F'] => Some(Kind::Formula),
        [b'N'] => Some(Kind::Row),
        [b'M'] => Some(Kind::Model),
        [b'C'] => Some(Kind::Claim),
        _ => None,
    }
}

// A word as one number, its key; 0 for one that is longer than every word of a text. The 1 above the bytes keeps apart words that
// differ in zero bytes at the end.
fn pack(field: &[u8]) -> u64
    ensures { IsKey field.now result }
{
    if 7 < field.len() {
        return 0;
    }
    let mut key = 1u64;
    for b in field.iter().rev() {
        key = key * 256 + u64::from(*b);
    }
    key
}

// The keys of the words of an F line.
const BOT: u64 = 0x1746f62;

const ATOM: u64 = 0x16d6f7461;

const NOT: u64 = 0x1746f6e;

const AND: u64 = 0x1646e61;

const OR: u64 = 0x1726f;

const IMP: u64 = 0x1706d69;

// The words of F lines, in the order of their codes in the formulas table.
#[derive(Clone, Copy, PartialEq, Eq)]
pub enum Word {
    Bot,
    Atom,
    Not,
    And,
    Or,
    Imp,
}

impl From<Word> for u16 {
    ghost from_gives = { λ word code. code ≡ word_code word };

    fn from(word: Word) -> u16 {
        match word {
            Word::Bot => 0,
            Word::Atom => 1,
            Word::Not => 2,
            Word::And => 3,
            Word::Or => 4,
            Word::Imp => 5,
        }
    }
}

// The word of an F line; None for any other.
pub fn formula_word(field: &[u8]) -> Option<Word>
    ensures { WordRead field.now result }
{
    match pack(field) {
        BOT => Some(Word::Bot),
        ATOM => Some(Word::Atom),
        NOT => Some(Word::Not),
        AND => Some(Word::And),
        OR => Some(Word::Or),
        IMP => Some(Word::Imp),
        _ => None,
    }
}

// The code of the only rule whose word a field can be, if it is one, where the table has each rule's code at the place of its word. No word
// has fewer than 2 bytes or more than 7; for another length any code will do.
fn candidate(codes: &[u8], field: &[u8]) -> u8
    requires { CodesPlaced codes.now }
    ensures { Candidate field.now result }
{
    let len = field.len();
    if len < 2 {
        return 0;
    }
    if 7 < len {
        return 0;
    }
    let place = 17 * len
        + 2 * usize::from(field[1])
        + 3 * usize::from(field[len - 2]) / 2
        + usize::from(field[len - 1]);
    codes[place % 64]
}

// Where the word of a code starts; past the last one, the end.
fn start_of(starts: &[u8], code: usize, end: usize) -> usize
    ensures { result ≡ get_or starts.now code end }
{
    if let Some(start) = starts.get(code) {
        return usize::from(*start);
    }
    end
}

// Whether a field is the word of this code, where the words of all rules stand end to end.
fn is_word(words: &[u8], starts: &[u8], code: u8, field: &[u8]) -> bool
    requires { WordsStand words.now starts.now }
    ensures { result ≡ same_list field.now (word_at code) }
{
    let at = usize::from(code);
    let from = start_of(starts, at, words.len());
    let to = start_of(starts, at + 1, words.len());
    same_bytes(field, &words[from..to])
}

// The code of the rule whose word this is; None for any other. The words are held once, end to end in the order of their codes, with
// where each starts. In `codes` each rule's code stands at the place of its word; at the other places any code will do, and zeros would take
// more memory.
pub fn rule_word(field: &[u8]) -> Option<u16>
    ensures { RuleRead (rule_of field.now) result }
{
    let codes = b"\
        \x0d\x01\x0b\x03\x12\x13\x15\x16\x22\x09\x21\x17\x18\x19\x01\x0f\
        \x10\x11\x12\x13\x1a\x1b\x1c\x17\x18\x11\x1a\x1b\x1c\x1d\x23\x24\
        \x20\x21\x02\x23\x0e\x00\x1f\x20\x03\x14\x04\x05\x07\x0c\x07\x1d\
        \x1e\x0f\x0a\x25\x06\x10\x11\x10\x09\x14\x00\x16\x08\x18\x19\x14\
        ";
    let code = candidate(codes, field);
    let words = b"\
        defsameandlandrwrbotorrorlnotlimprimplnotrrcutunst\
        xinixnnlxnnrxandlxandr1xandr2xorrxorl1xorl2ximpl1ximpl2ximpl3ximpr1ximpr2\
        xnimplxnimpr1xnimpr2xnandl1xnandl2xnandrxnorlxnorr1xnorr2\
        swap\
        ";
    let starts = b"\
        \x00\x03\x07\x0b\x0f\x11\x14\x17\x1a\x1e\x22\x26\x2a\x2e\
        \x32\x36\x3a\x3e\x43\x49\x4f\x53\x58\x5d\x63\x69\x6f\x75\
        \x7b\x81\x88\x8f\x96\x9d\xa3\xa8\xae\xb4\
        ";
    if is_word(words, starts, code, field) {
        return Some(u16::from(code));
    }
    None
}
