// The number and the kinds of a row's premises, and its principal formula, against what its rule asks (number 10).
ghost use Rattle.std.specs.Prelude.{◌≡◌, List, ℕ};
ghost use Rattle.elk.specs.Rules.{entry};
ghost use Rattle.format.specs.File.{Row, Body};
ghost use Rattle.format.specs.Tables.{row_at};
ghost use Rattle.format.specs.Tests.{wrong_premises};
ghost use Rattle.tables.specs.Records.{row_from};
ghost use Rattle.rules.specs.RuleTable.{rule_number};
ghost use Rattle.rows.specs.Judging.{Judging};

use drafts::Draft;
use rules::{FIRST_KIND, KIND, PREMISES, PRINCIPAL, SECOND_KIND, rule_number};
use tables::records::row;

// The number of a row's kind: 0 for ELK, 1 for refutation. An enum would be no plainer: it is compared with numbers of the rule table,
// where 2 stands for no premise.
fn kind_of(rows: &[u16], i: u16) -> u8
    ensures { result ≡ rule_number (row_from (row_at rows.now i)).rule 1 }
{
    let record = row(rows, usize::from(i));
    rule_number(record.rule, KIND)
}

// Whether number 10 applies.
pub(crate) fn wrong_premises(rows: &[u16], draft: Draft) -> bool
    ensures { (b : Body) (q : Row) (formulas notes left_pool right_pool left right : List ℕ)
        → Judging b q formulas notes rows.now left_pool right_pool draft left right → result ≡ wrong_premises b q }
{
    let rule = draft.rule;
    let named = u8::from(draft.principal.is_some());
    if named != rule_number(rule, PRINCIPAL) {
        return true;
    }
    let premises = usize::from(rule_number(rule, PREMISES));
    if draft.premises.count != premises {
        return true;
    }
    if premises == 0 {
        return false;
    }
    if kind_of(rows, draft.first) != rule_number(rule, FIRST_KIND) {
        return true;
    }
    if premises == 1 {
        return false;
    }
    kind_of(rows, draft.second) != rule_number(rule, SECOND_KIND)
}
