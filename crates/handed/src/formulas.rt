// The handed-in formulas, each read over those before it and noted as a new one would be.
ghost use Rattle.std.specs.Prelude.{◌≡◌, ℕ, length};
ghost use Rattle.format.specs.File.{Body};
ghost use Rattle.bodies.specs.Walk.{node_from};
ghost use Rattle.handed.specs.Handed.{refers_back, NodeEntered, NodesRead};

use counts::Counts;
use known::note_formula;
use tables::records::{ABSENT, AND, ATOM, BOT, IMP, NOT, NodeRecord, node};

// Whether a record is that of a formula over the first `atoms` atoms and the first `held` formulas.
fn is_formula(key: NodeRecord, atoms: usize, held: usize) -> bool
    ensures { (b : Body) → atoms ≡ b.atoms → held ≡ length b.nodes → result ≡ refers_back b (node_from key.word key.first key.second) }
{
    let first = usize::from(key.first);
    let second = usize::from(key.second);
    match key.word {
        BOT => key.first == ABSENT && key.second == ABSENT,
        ATOM => key.second == ABSENT && first < atoms,
        NOT => first < held && key.second == ABSENT,
        AND..=IMP => first < held && second < held,
        _ => false,
    }
}

// Whether record i is that of a formula that may follow the i before it, which is then noted.
fn enter_next(formulas: &[u16], notes: &mut [u64], atoms: usize, i: usize) -> bool
    ensures { NodeEntered formulas.now notes.old atoms i notes.new result }
{
    let key = node(formulas, i);
    is_formula(key, atoms, i) && note_formula(formulas, notes, i, key).is_ok()
}

// Whether the table begins with as many formulas as are counted.
pub(crate) fn read_formulas(formulas: &[u16], notes: &mut [u64], counts: Counts) -> bool
    ensures { NodesRead formulas.now notes.old counts notes.new result }
{
    for i in 0..counts.formulas {
        if !enter_next(formulas, notes, counts.atoms, i) {
            return false;
        }
    }
    true
}
