// Words, numbers, names and single bytes written one after the other into a lent text of any length. A writer has
// what was written before and how far that reaches, so that a caller goes on without a test at each word: where there
// was no room once, there is none after.
#![tactic(auto)]

pub mod names;

ghost use Rattle.std.specs.Prelude.{◌≡◌, [], ◌∷◌, length, Some};
ghost use Rattle.format.specs.Tables.{padded};
ghost use Rattle.format.specs.Written.{decimal};
ghost use Rattle.writer.specs.Writing.{front};
ghost use Rattle.writer.specs.Putting.{Puts};

// A lent text that is written up to this byte; or there was no room.
#[derive(Drop)]
pub struct Writer<'a> {
    pub out: &'a mut [u8],
    pub end: Option<usize>,
}

impl<'a> Writer<'a> {
    pub fn new(out: &'a mut [u8]) -> Writer<'a>
        ensures same_text { result.out.ghost_name ≡ out.entry.ghost_name }
        ensures text { result.out.now ≡ out.old }
        ensures end { result.end ≡ Some 0 }
    {
        Writer { out, end: Some(0) }
    }

    // How far the text is written, where there was room.
    pub fn end(&self) -> Option<usize>
        ensures { result ≡ self.now.end }
    {
        let reached = self.end;
        reached
    }

    pub fn put(&mut self, words: &[u8])
        ensures { Puts words.now self.old self.new }
    {
        let Some(at) = self.end else {
            return;
        };
        let out = &mut *self.out;
        if at > out.len() || words.len() > out.len() - at {
            self.end = None;
            return;
        }
        // Not `copy_from_slice`: words are short, and an archive for C would need `memmove` from outside.
        for i in 0..words.len() {
            out[at + i] = words[i];
        }
        self.end = Some(at + words.len());
    }

    pub fn put_byte(&mut self, byte: u8)
        ensures { Puts (byte ∷ []) self.old self.new }
    {
        self.put(&[byte]);
    }

    // A number of 16 bits in decimal: the digits before the last one, and the last one.
    pub fn put_number(&mut self, n: u16)
        ensures { Puts (decimal n) self.old self.new }
    {
        if n >= 10 {
            self.put_number(n / 10);
        }
        self.put_byte(b'0' + (n % 10) as u8);
    }
}

// Zeros after what was written, and through the whole text where there was no room.
pub fn pad(out: &mut [u8], end: Option<usize>)
    ensures { out.new ≡ padded (length out.old) (front out.old end) }
{
    let start = end.unwrap_or(0).min(out.len());
    out[start..].fill(0);
}
