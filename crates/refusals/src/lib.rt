// What a text, a line or a call is turned down for.
#![tactic(auto)]

ghost use Rattle.std.specs.Prelude.{◌≡◌};
ghost use Rattle.refusals.specs.Refusals.{number_of};

#[derive(Clone, Copy, PartialEq, Eq)]
pub enum Refusal {
    // A lent table is too short.
    ShortTable = 1,
    // The text is over 65,536 bytes.
    TooLong = 2,
    // No LF, unknown kind or word, wrong fields, number or list badly written.
    BadLine = 3,
    // Kind out of order, a line after C, not the next number, or no open file.
    OutOfOrder = 4,
    // A stored atom, formula, row or pool passes its most.
    Full = 5,
    // Wrong form, or used before.
    BadName = 6,
    // A referred atom, formula or row is not earlier in the text.
    NoSuchItem = 7,
    // An equal formula exists.
    FormulaAgain = 8,
    // Not strictly rising, or over 64.
    BadSide = 9,
    // Wrong number or kind of premises, or principal present or absent against the rule.
    WrongPremises = 10,
    // No sets make the row an instance of its rule.
    WrongStep = 11,
    // The last row is not an ELK row with exactly these sides, or there is no row.
    ClaimDiffers = 12,
    // The text ends with no C line.
    NoClaim = 13,
    // The lent text is too short for what is to be written.
    NoRoom = 14,
    // No M line though the claim wants a model, or an M line though it wants none.
    ModelMissingOrUnwanted = 15,
    // The model has over 16 atoms.
    ModelTooLarge = 16,
    // The model is not an equilibrium model of the claim's left side.
    NotInEquilibrium = 17,
    // No formula fits the swap, and one that leaves the sides right has over 8 atoms together with the principal.
    TooManyAtoms = 18,
}

impl Refusal {
    // The one number that stands for a refusal in every answer.
    pub fn number(self) -> u32
        ensures { result ≡ number_of self }
    {
        self as u32
    }
}
