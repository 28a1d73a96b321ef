// Places for atoms. The pairs of places 0 to 7 are all pairs of some atoms, if each of these has a place of its own. Atoms that no
// candidate has together may share one.
ghost use Rattle.std.specs.Prelude.{ℕ, ◌-◌, ◌^◌, ◌≤◌, ◌≡◌, length, IfSome};
ghost use Rattle.format.specs.Tables.{most_atoms};
ghost use Rattle.atomset.specs.AtomSet.{Member};
ghost use Rattle.alike.specs.Truths.{place_of};
ghost use Rattle.alike.specs.Survivors.{most_places, Remain};
ghost use Rattle.alike.specs.Places.{Seated};
ghost use Rattle.candidates.specs.Places.{SeatedAll, PlacesKept, SeatedToo};

use atomset::{contains, count, difference, insert, members_of};
use known::index::{note, put_note};

// An atom has a place if it is below this.
pub(crate) const NO_PLACE: u64 = 8;

// Gives the atoms of a set the places 0, 1, 2 and so on.
pub(crate) fn seat(set: u64, places: &mut [u64])
    requires { length places.old ≡ most_atoms }
    ensures { SeatedAll set places.old places.new }
{
    for (place, atom) in members_of(set).enumerate() {
        put_note(places, atom, place as u64);
    }
}

// The atoms of a set that have no place.
fn unseated(set: u64, places: &[u64]) -> u64
    ensures { Remain (λ p. most_places ≤ place_of places.now p) set result }
{
    let mut lacking = 0;
    for atom in members_of(set) {
        if note(places, atom) >= NO_PLACE {
            lacking = insert(lacking, atom);
        }
    }
    lacking
}

// The places of the atoms of a set, if each has one of its own below `width`. Which places they are is a matter of speed alone.
fn seats_of(set: u64, width: usize, places: &[u64]) -> Option<u64>
    requires { width ≤ most_places }
    ensures { IfSome result (λ used. Seated places.now width set) }
{
    let mut used = 0;
    for atom in members_of(set) {
        let place = note(places, atom) as usize;
        if place >= width {
            return None;
        }
        if contains(used, place) {
            return None;
        }
        used = insert(used, place);
    }
    Some(used)
}

// Gives the free places to atoms that have none, in rising order.
fn seat_others(others: u64, free: u64, places: &mut [u64])
    requires { (p : ℕ) → Member p others → most_places ≤ place_of places.old p }
    ensures { PlacesKept places.old places.new }
{
    for (atom, seat) in members_of(others).zip(members_of(free)) {
        put_note(places, atom, seat as u64);
    }
}

// The places below `width`.
fn below(width: usize) -> u64
    requires { width ≤ most_places }
    ensures { result ≡ 2 ^ width - 1 }
{
    (1u64 << width) - 1
}

// Whether each atom of a set has a place of its own below `width`, once those without one were given places that none of the set has.
// None is given where it would not help: a place is for good, and atoms that share one keep candidates apart.
pub(crate) fn seat_too(set: u64, width: usize, places: &mut [u64]) -> bool
    requires { width ≤ most_places }
    ensures { SeatedToo set width places.old places.new result }
{
    let others = unseated(set, places);
    let Some(used) = seats_of(difference(set, others), width, places) else {
        return false;
    };
    let free = difference(below(width), used);
    if count(free) < count(others) {
        return false;
    }
    seat_others(others, free, places);
    seats_of(set, width, places).is_some()
}
