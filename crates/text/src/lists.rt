// Lists of numbers, with runs or without.
ghost use Rattle.std.specs.Prelude.{◌≡◌, true, false, List, [], ◌++◌, ℕ, ◌+◌, ◌-◌, ◌≤◌, ◌%◌, min, set};
ghost use Rattle.format.specs.Text.{is};
ghost use Rattle.text.specs.Lists.{most_counted, spanned, laid_at, listed_of, ListedInto, HeldList};

use crate::items::read_item;
use parts::is_dash;

// A count stops here. No slice is as long.
const MOST_COUNTED: usize = 9223372036854775808;

// What is known of a list that is well written: how many entries it has, written out, the least number above them all (0 if there is
// none), and whether they rise strictly.
#[derive(Clone, Copy)]
pub struct Listed {
    pub count: usize,
    pub above: usize,
    pub rising: bool,
}

// A count with the numbers from `first` to `last`.
fn counted(count: usize, first: u32, last: u32) -> usize
    requires { (count ≤ most_counted) × (first ≤ last) }
    ensures { result ≡ min (count + (last - first + 1)) most_counted }
{
    let sum = count + (last - first) as usize + 1;
    sum.min(MOST_COUNTED)
}

// What is known of a list after the numbers from `first` to `last`.
fn entered(listed: Listed, first: u32, last: u32) -> Listed
    requires { (listed.count ≤ most_counted) × (first ≤ last) }
    ensures { (xs : List ℕ) → listed ≡ listed_of xs → result ≡ listed_of (xs ++ spanned first last) }
{
    Listed {
        count: counted(listed.count, first, last),
        above: listed.above.max(last as usize + 1),
        rising: listed.rising && listed.above <= first as usize,
    }
}

// A number is stored as far as the table is long, and of it what 16 bits hold.
fn store(out: &mut [u16], at: usize, n: u32)
    ensures { out.new ≡ set out.old at (n % 65536) }
{
    if at < out.len() {
        out[at] = (n % 65536) as u16;
    }
}

// The numbers from `first` to `last`, from a place on, in the same way. The end is known before the loop, so that several numbers can be
// stored at once: over the places and the numbers side by side, one at a time is, and a long run takes three times as long.
fn store_run(out: &mut [u16], at: usize, first: u32, last: u32)
    requires { first ≤ last }
    ensures { out.new ≡ laid_at out.old at (spanned first last) }
{
    let count = (last - first) as usize + 1;
    let end = at.saturating_add(count).min(out.len());
    for place in at..end {
        out[place] = ((first as usize + (place - at)) % 65536) as u16;
    }
}

// One more item, with its numbers stored. Most items are one number, which needs no loop.
fn enter(listed: Listed, first: u32, last: u32, out: &mut [u16]) -> Listed
    requires { (listed.count ≤ most_counted) × (first ≤ last) }
    ensures { (xs was : List ℕ) → HeldList xs was out.old listed → HeldList (xs ++ spanned first last) was out.new result }
{
    if first == last {
        store(out, listed.count, first);
        return entered(listed, first, first);
    }
    store_run(out, listed.count, first, last);
    entered(listed, first, last)
}

// A list without entries.
fn no_entries() -> Listed
    ensures { result ≡ listed_of [] }
{
    Listed {
        count: 0,
        above: 0,
        rising: true,
    }
}

// The items that a field writes, read to its end. The entries that they mean are stored into `out`, as far as that is long; of a
// badly written list those before the first bad item.
fn read_items(field: &[u8], runs: bool, out: &mut [u16]) -> Option<Listed>
    requires { is "-" field.now ≡ false }
    ensures { ListedInto runs field.now out.old out.new result }
{
    let mut listed = no_entries();
    let mut at: usize = 0;
    loop {
        let item = read_item(field, at, runs)?;
        listed = enter(listed, item.first, item.last, out);
        if item.end == field.len() {
            return Some(listed);
        }
        at = item.end + 1;
    }
}

// A list of numbers alone; None where it is badly written.
pub fn read_list(field: &[u8], out: &mut [u16]) -> Option<Listed>
    ensures { ListedInto false field.now out.old out.new result }
{
    if is_dash(field) {
        return Some(no_entries());
    }
    read_items(field, false, out)
}

// A side, or the atoms of a model: a list that may hold runs.
pub fn read_side(field: &[u8], out: &mut [u16]) -> Option<Listed>
    ensures { ListedInto true field.now out.old out.new result }
{
    if is_dash(field) {
        return Some(no_entries());
    }
    read_items(field, true, out)
}
