// The row host: each expression is a row of a lent list, and a value is a number.

#![tactic(auto)]

ghost use Rattle.std.specs.Prelude.{◌≡◌, true, false, [], ◌∷◌, is_some, Some, None, MatchResult};
ghost use Rattle.hosts.specs.RowWord.{answer_of, literal_0, literal_1};
ghost use Rattle.rows.specs.Rows.{row_at, rows_refused, row_allowed, rows_model, number_value, known_number_lem};
ghost use Rattle.rows.specs.RowsLaws.{rows_lawful};

use crate::row::Row;
use host::Host;
use hosts::row_word::{
    LITERAL_0, LITERAL_1, LITERALS, NO_NAMES, check_count, check_rows, row_of_expression,
};
use refusals::host::HostFault;
use slices::contains;

pub mod row;

#[derive(Drop)]
pub struct Rows<'a> {
    rows: &'a [u32],
    names: &'a [u32],
    ghost accepted: { is_some (rows_refused rows.now) ≡ false },
}

// The number that an expression gives wherever it gives one, where that is known.
fn known_number(rows: &[u32], e: u32) -> Option<u32>
    ensures { result ≡ known_number_lem (row_at rows.now e) }
{
    match row_of_expression(rows, e)? {
        Row::Literal(n) | Row::NamedConstant(n) | Row::Command(n) => Some(n),
        Row::NextAnswer | Row::SentCount => None,
    }
}

fn is_allowed(i: usize, word: u32) -> bool
    ensures { result ≡ row_allowed i word }
{
    match i {
        0 => word == LITERAL_0,
        1 => word == LITERAL_1,
        _ => Row::try_from(word).is_ok(),
    }
}

impl<'a> Rows<'a> {
    // The host of the two literals alone, which grants nothing.
    pub fn least() -> Rows<'a>
        ensures rows { result.rows.now ≡ literal_0 ∷ (literal_1 ∷ []) }
        ensures names { result.names.now ≡ [] }
    {
        Rows {
            rows: &LITERALS,
            names: &NO_NAMES,
        }
    }

    // The host of these rows and granted names.
    pub fn new(rows: &'a [u32], names: &'a [u32]) -> Result<Rows<'a>, HostFault>
        ensures { MatchResult result
            (λ h. (rows_refused rows.now ≡ None) × (h.rows.now ≡ rows.now) × (h.names.now ≡ names.now))
            (λ f. rows_refused rows.now ≡ Some f) }
    {
        check_count(rows)?;
        check_rows(rows, is_allowed)?;
        Ok(Rows { rows, names })
    }

    // Makes the host of these rows and granted names in place of this one, which a refusal leaves as it was. Each host
    // has its own, since they are made of different lists.
    pub fn make(&mut self, rows: &'a [u32], names: &'a [u32]) -> Result<(), HostFault>
        ensures answer { result ≡ answer_of (rows_refused rows.now) }
        ensures made { is_some (rows_refused rows.now) ≡ false → (self.new.rows.now ≡ rows.now) × (self.new.names.now ≡ names.now) }
        ensures left { is_some (rows_refused rows.now) ≡ true → self.new ≡ self.old }
    {
        *self = Rows::new(rows, names)?;
        Ok(())
    }
}

impl Host for Rows<'_> {
    type Value = u32;

    ghost model = { λ h. rows_model h.rows.now h.names.now };

    ghost meaning = { number_value };

    ghost lawful = { λ h. rows_lawful h.rows.now h.names.now h.accepted };

    fn count(&self) -> u32 {
        self.rows.len() as u32
    }

    fn truth(&self, e: u32) -> Option<bool> {
        Some(known_number(self.rows, e)? != 0)
    }

    fn value(&self, e: u32) -> Option<u32> {
        known_number(self.rows, e)
    }

    fn effects(&self, e: u32) -> bool {
        matches!(
            row_of_expression(self.rows, e),
            Some(Row::Command(_) | Row::NextAnswer) | None
        )
    }

    fn literal(&self, e: u32) -> bool {
        matches!(row_of_expression(self.rows, e), Some(Row::Literal(_)))
    }

    fn same(&self, a: &u32, b: &u32) -> bool {
        *a == *b
    }

    fn granted(&self, name: u32) -> bool {
        contains(self.names, name)
    }
}
