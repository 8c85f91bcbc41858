// The rows and the entries that a sheet is made of, and what is looked up in them.
ghost use Rattle.std.specs.Prelude.{◌≡◌, false, is_some};
ghost use Rattle.std.specs.List.{slice_get};
ghost use Rattle.hosts.specs.RowWord.{answer_of};
ghost use Rattle.values.specs.SheetValues.{MeaningsOfValues};
ghost use Rattle.sheet.specs.SheetRows.{sheet_row_of, sheet_row_at, operand_allowed, kind_allowed, literal_of_whole, sheet_row_allowed, sheet_refused};
ghost use Rattle.sheet.specs.SheetModel.{EachFromItsRow};
ghost use Rattle.sheet.specs.SheetAnswers.{false_operand_lem, entry_of, end_value_lem, is_command_lem, end_effects_lem, is_literal_row_lem};

use crate::sheet_row::SheetRow;
use hosts::row_word::{self, check_count, check_rows};
use refusals::host::HostFault;
use values::sheet_value::SheetValue;

#[derive(Clone, Copy)]
pub(crate) struct Lists<'a> {
    pub(crate) rows: &'a [u32],
    pub(crate) entries: &'a [SheetValue],
}

impl Lists<'_> {
    // The row of an expression, where there is one.
    fn row(&self, e: u32) -> Option<SheetRow>
        ensures { result ≡ sheet_row_at self.now.rows.now e }
    {
        row_word::row_of_expression(self.rows, e)
    }

    // The entry at an index, where there is one.
    fn entry(&self, n: u32) -> Option<SheetValue>
        ensures { result ≡ slice_get self.now.entries.now n }
    {
        self.entries.get(n as usize).copied()
    }

    // The operand of an 'is false' row.
    pub(crate) fn false_operand(&self, e: u32) -> Option<u32>
        ensures { result ≡ false_operand_lem (sheet_row_at self.now.rows.now e) }
    {
        match self.row(e)? {
            SheetRow::IsFalse(n) => Some(n),
            _ => None,
        }
    }

    // The entry of a row that is one.
    fn entry_of_row(&self, e: u32) -> Option<SheetValue>
        ensures { result ≡ entry_of self.now.entries.now (sheet_row_at self.now.rows.now e) }
    {
        match self.row(e)? {
            SheetRow::Literal(n) | SheetRow::Named(n) => self.entry(n),
            _ => None,
        }
    }

    // The known value of a row that is no 'is false' row.
    pub(crate) fn end_value(&self, e: u32) -> Option<SheetValue>
        ensures { result ≡ end_value_lem self.now.rows.now self.now.entries.now (sheet_row_at self.now.rows.now e) }
    {
        match self.row(e)? {
            SheetRow::Literal(n) | SheetRow::Named(n) => self.entry(n),
            SheetRow::AreEqual(r, s) => {
                let (x, y) = self.entry_of_row(r).zip(self.entry_of_row(s))?;
                Some(SheetValue::from(x.strictly_equals(&y)))
            }
            _ => None,
        }
    }

    fn is_command(&self, e: u32) -> bool
        ensures { result ≡ is_command_lem (sheet_row_at self.now.rows.now e) }
    {
        matches!(self.row(e), Some(SheetRow::Command))
    }

    // Whether a row that is no 'is false' row has effects.
    pub(crate) fn end_effects(&self, e: u32) -> bool
        ensures { result ≡ end_effects_lem self.now.rows.now (sheet_row_at self.now.rows.now e) }
    {
        match self.row(e) {
            Some(SheetRow::Literal(_) | SheetRow::Named(_)) => false,
            Some(SheetRow::AreEqual(r, s)) => self.is_command(r) || self.is_command(s),
            Some(SheetRow::IsFalse(_) | SheetRow::Command) | None => true,
        }
    }

    pub(crate) fn is_literal(&self, e: u32) -> bool
        ensures { result ≡ is_literal_row_lem (sheet_row_at self.now.rows.now e) }
    {
        matches!(self.row(e), Some(SheetRow::Literal(_)))
    }

    // Whether an operand of the 'are equal' row at index i is an earlier row of kind 1, 2 or 5.
    fn is_operand(&self, i: usize, operand: u32) -> bool
        ensures { result ≡ operand_allowed self.now.rows.now i operand }
    {
        (operand as usize) < i
            && matches!(
                self.row(operand),
                Some(SheetRow::Literal(_) | SheetRow::Named(_) | SheetRow::Command)
            )
    }

    // Whether a row other than 0 and 1 may stand at index i.
    fn is_row(&self, i: usize, word: u32) -> bool
        ensures { result ≡ kind_allowed self.now.rows.now self.now.entries.now i (sheet_row_of word) }
    {
        match SheetRow::try_from(word) {
            Ok(SheetRow::Literal(n) | SheetRow::Named(n)) => (n as usize) < self.entries.len(),
            Ok(SheetRow::IsFalse(n)) => (n as usize) < i,
            Ok(SheetRow::AreEqual(r, s)) => self.is_operand(i, r) && self.is_operand(i, s),
            Ok(SheetRow::Command) => true,
            Err(_) => false,
        }
    }

    // Whether a row is a literal whose entry is this whole number.
    fn is_literal_of(&self, word: u32, whole: i32) -> bool
        ensures { result ≡ literal_of_whole self.now.entries.now whole (sheet_row_of word) }
    {
        match SheetRow::try_from(word) {
            Ok(SheetRow::Literal(n)) => {
                matches!(self.entry(n), Some(SheetValue::Number(number)) if number == whole)
            }
            _ => false,
        }
    }

    fn is_allowed(&self, i: usize, word: u32) -> bool
        ensures { result ≡ sheet_row_allowed self.now.rows.now self.now.entries.now i word }
    {
        match i {
            0 => self.is_literal_of(word, 0),
            1 => self.is_literal_of(word, 1),
            _ => self.is_row(i, word),
        }
    }

    // Refuses rows and entries that make no sheet. Where they make one, each expression is what its row says.
    #[tactic(auto, using(crate::proofs::SheetLemmas::from_row, crate::specs::SheetLaws::meanings_of_values))]
    pub(crate) fn check(&self) -> Result<(), HostFault>
        ensures answer { result ≡ answer_of (sheet_refused self.now.rows.now self.now.entries.now) }
        ensures meaning { is_some (sheet_refused self.now.rows.now self.now.entries.now) ≡ false → EachFromItsRow self.now.rows.now self.now.entries.now }
        ensures values { MeaningsOfValues }
    {
        check_count(self.rows)?;
        check_rows(self.rows, |i, word| self.is_allowed(i, word))
    }
}
