// The sheet host: each expression is a row that looks at entries of a sheet and at earlier rows.

#![tactic(auto)]

ghost use Rattle.std.specs.Prelude.{◌≡◌, true, false, [], ◌∷◌, pos, is_some, Some, None, IsOk, MatchResult};
ghost use Rattle.values.specs.declared.sheet_value.SheetValue.TheVariants.{Number};
ghost use Rattle.hosts.specs.RowWord.{answer_of, literal_0, literal_1};
ghost use Rattle.sheet.specs.SheetRows.{sheet_row_at, sheet_refused};
ghost use Rattle.values.specs.SheetValues.{sheet_meaning, MeaningsOfValues};
ghost use Rattle.sheet.specs.SheetModel.{sheet_expression, sheet_model, EachFromItsRow};
ghost use Rattle.sheet.specs.SheetAnswers.{false_operand_lem, Follows};
ghost use Rattle.sheet.specs.SheetLaws.{sheet_lawful};

use crate::lists::Lists;
use crate::literals::Literals;
use host::Host;
use hosts::row_word::{LITERALS, NO_NAMES};
use refusals::host::HostFault;
use slices::contains;
use values::sheet_value::SheetValue;

mod lists;
pub mod literals;
pub mod sheet_row;

#[derive(Drop)]
pub struct Sheet<'a> {
    rows: &'a [u32],
    entries: &'a [SheetValue],
    names: &'a [u32],
    ghost accepted: { is_some (sheet_refused rows.now entries.now) ≡ false },
}

// Where a chain of 'is false' rows ends, and whether it turns the truth of its end round.
#[derive(Clone, Copy)]
struct Chain {
    end: u32,
    negated: bool,
}

impl<'a> Sheet<'a> {
    // The host of the two literals alone, which grants nothing. Its entries are lent, as every sheet's are.
    pub fn least(literals: &'a Literals) -> Sheet<'a>
        ensures rows { result.rows.now ≡ literal_0 ∷ (literal_1 ∷ []) }
        ensures entries { result.entries.now ≡ Number (pos 0) ∷ (Number (pos 1) ∷ []) }
        ensures names { result.names.now ≡ [] }
    {
        Sheet {
            rows: &LITERALS,
            entries: &literals.entries,
            names: &NO_NAMES,
        }
    }

    // The host of these rows, entries and granted names.
    pub fn new(
        rows: &'a [u32],
        entries: &'a [SheetValue],
        names: &'a [u32],
    ) -> Result<Sheet<'a>, HostFault>
        ensures made { MatchResult result
            (λ h. (sheet_refused rows.now entries.now ≡ None) × (h.rows.now ≡ rows.now) × (h.entries.now ≡ entries.now) × (h.names.now ≡ names.now))
            (λ f. sheet_refused rows.now entries.now ≡ Some f) }
        ensures meaning { IsOk result → EachFromItsRow rows.now entries.now }
        ensures values { MeaningsOfValues }
    {
        Lists { rows, entries }.check()?;
        Ok(Sheet {
            rows,
            entries,
            names,
        })
    }

    // Makes the host of these rows, entries and granted names in place of this one, which a refusal leaves as it was. Each
    // host has its own, since they are made of different lists.
    pub fn make(
        &mut self,
        rows: &'a [u32],
        entries: &'a [SheetValue],
        names: &'a [u32],
    ) -> Result<(), HostFault>
        ensures answer { result ≡ answer_of (sheet_refused rows.now entries.now) }
        ensures made { is_some (sheet_refused rows.now entries.now) ≡ false → (self.new.rows.now ≡ rows.now) × (self.new.entries.now ≡ entries.now) × (self.new.names.now ≡ names.now) }
        ensures left { is_some (sheet_refused rows.now entries.now) ≡ true → self.new ≡ self.old }
        ensures meaning { is_some (sheet_refused rows.now entries.now) ≡ false → EachFromItsRow rows.now entries.now }
        ensures values { MeaningsOfValues }
    {
        *self = Sheet::new(rows, entries, names)?;
        Ok(())
    }

    // The rows and the entries, which are fields apart, since public clauses name each.
    fn lists(&self) -> Lists<'a>
        ensures rows { result.rows.now ≡ self.now.rows.now }
        ensures entries { result.entries.now ≡ self.now.entries.now }
    {
        Lists {
            rows: self.rows,
            entries: self.entries,
        }
    }

    // Follows 'is false' rows from an expression to the first row that is none: each operand is an earlier row.
    #[tactic(auto, using(crate::proofs::SheetLemmas::earlier_operand))]
    fn chain(&self, e: u32) -> Chain
        ensures follows { Follows (sheet_expression self.now.rows.now self.now.entries.now e) (sheet_expression self.now.rows.now self.now.entries.now result.end) result.negated }
        ensures ends { None ≡ false_operand_lem (sheet_row_at self.now.rows.now result.end) }
    {
        let mut end = e;
        let mut negated = false;
        while let Some(operand) = self.lists().false_operand(end) {
            end = operand;
            negated = !negated;
        }
        Chain { end, negated }
    }
}

impl Host for Sheet<'_> {
    type Value = SheetValue;

    ghost model = { λ h. sheet_model h.rows.now h.entries.now h.names.now };

    ghost meaning = { sheet_meaning };

    ghost lawful = { λ h. sheet_lawful h.rows.now h.entries.now h.names.now h.accepted };

    fn count(&self) -> u32 {
        self.rows.len() as u32
    }

    // That of the row at the end of the chain.
    #[tactic(auto, using(crate::proofs::SheetLemmas::truth_of_sheet, crate::proofs::SheetLemmas::differs))]
    fn truth(&self, e: u32) -> Option<bool> {
        let chain = self.chain(e);
        let value = self.lists().end_value(chain.end)?;
        Some(value.is_truthy() != chain.negated)
    }

    // Of an 'is false' row, its truth.
    #[tactic(auto, using(crate::proofs::SheetLemmas::value_of_false_row, crate::proofs::SheetLemmas::value_of_end))]
    fn value(&self, e: u32) -> Option<SheetValue> {
        match self.lists().false_operand(e) {
            Some(_) => self.truth(e).map(SheetValue::from),
            None => self.lists().end_value(e),
        }
    }

    #[tactic(auto, using(crate::proofs::SheetLemmas::effects_of_sheet))]
    fn effects(&self, e: u32) -> bool {
        self.lists().end_effects(self.chain(e).end)
    }

    #[tactic(auto, using(crate::proofs::SheetLemmas::literal_of_sheet))]
    fn literal(&self, e: u32) -> bool {
        self.lists().is_literal(e)
    }

    fn same(&self, a: &SheetValue, b: &SheetValue) -> bool {
        a.strictly_equals(b)
    }

    fn granted(&self, name: u32) -> bool {
        contains(self.names, name)
    }
}
