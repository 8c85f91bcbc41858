// The rows of a job, by their readable names.
use crate::job::{HostKind, Job, number_of, read_number};
use crate::problem::Problem;
use hosts::row_word::{NoRow, join, row_of_expression};
use indexmap::IndexSet;
use rows::row::Row;
use sheet::sheet_row::SheetRow;

// What a word names: its number in the list, or the number that it is.
fn read_operand(names: &IndexSet<String>, word: &str) -> Result<u32, Problem> {
    match number_of(names, word) {
        Some(number) => Ok(number),
        None => read_number(word).map_err(|_| Problem::UnknownName),
    }
}

fn read_plain_row(words: &[&str]) -> Result<Row, Problem> {
    match words {
        ["literal", number] => Ok(Row::Literal(read_number(number)?)),
        ["constant", number] => Ok(Row::NamedConstant(read_number(number)?)),
        ["command", number] => Ok(Row::Command(read_number(number)?)),
        ["ask"] => Ok(Row::NextAnswer),
        ["sent"] => Ok(Row::SentCount),
        _ => Err(Problem::UnknownRow),
    }
}

impl Job {
    fn read_sheet_row(&self, words: &[&str]) -> Result<SheetRow, Problem> {
        let entry = |word| read_operand(&self.entry_names, word);
        let row = |word| read_operand(&self.row_names, word);
        match words {
            ["literal", word] => Ok(SheetRow::Literal(entry(word)?)),
            ["constant", word] => Ok(SheetRow::Named(entry(word)?)),
            ["not", word] => Ok(SheetRow::IsFalse(row(word)?)),
            ["equal", first, second] => Ok(SheetRow::AreEqual(row(first)?, row(second)?)),
            ["ask"] => Ok(SheetRow::Command),
            _ => Err(Problem::UnknownRow),
        }
    }

    // The word of a row, from the words after its name.
    pub(crate) fn read_row(&self, host: HostKind, words: &[&str]) -> Result<u32, Problem> {
        let written = match (words, host) {
            (["word", kind, number], _) => join(read_number(kind)?, read_number(number)?),
            (_, HostKind::Rows) => u32::try_from(read_plain_row(words)?),
            (_, HostKind::Sheet) => u32::try_from(self.read_sheet_row(words)?),
        };
        written.map_err(|_| Problem::BadNumber)
    }

    // The row at a number, where there is one.
    pub(crate) fn row<R: TryFrom<u32, Error = NoRow>>(&self, number: u32) -> Option<R> {
        row_of_expression(self.rows.as_slice(), number)
    }
}
