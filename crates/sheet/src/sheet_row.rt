// A row of a sheet, taken apart.
ghost use Rattle.hosts.specs.Rows.{ReadsWord, WritesRow};
ghost use Rattle.sheet.specs.SheetRows.{sheet_row_of};
ghost use Rattle.sheet.specs.SheetWords.{sheet_word_of, sheet_number_in};

use hosts::row_word::{NoRow, NoWord, join, split};
use words::word::NUMBER_LIMIT;

#[derive(Clone, Copy, Debug, PartialEq, Eq)]
pub enum SheetRow {
    // The entry at this index, as a literal.
    Literal(u32),
    // The entry at this index, by name.
    Named(u32),
    // Whether this earlier row is false.
    IsFalse(u32),
    // Whether these earlier rows are strictly equal.
    AreEqual(u32, u32),
    // A command that gives the next answer left.
    Command,
}

// The kinds of the words of rows: a word holds a number, and these name it.
const LITERAL: u32 = 1;

const NAMED: u32 = 2;

const IS_FALSE: u32 = 3;

const ARE_EQUAL: u32 = 4;

const COMMAND: u32 = 5;

// The number of an 'are equal' row is this many times the first operand, and the second.
const OPERAND_LIMIT: u32 = 8192;

const FIRST_OPERAND_LIMIT: u32 = NUMBER_LIMIT / OPERAND_LIMIT;

// Any number may stand in the word of a command.
impl TryFrom<u32> for SheetRow {
    type Error = NoRow;

    ghost try_from_gives = { ReadsWord sheet_row_of sheet_word_of sheet_number_in };

    fn try_from(word: u32) -> Result<SheetRow, NoRow> {
        let (kind, number) = split(word);
        match kind {
            LITERAL => Ok(SheetRow::Literal(number)),
            NAMED => Ok(SheetRow::Named(number)),
            IS_FALSE => Ok(SheetRow::IsFalse(number)),
            ARE_EQUAL => Ok(SheetRow::AreEqual(number / OPERAND_LIMIT, number % OPERAND_LIMIT)),
            COMMAND => Ok(SheetRow::Command),
            _ => Err(NoRow(word)),
        }
    }
}

impl TryFrom<SheetRow> for u32 {
    type Error = NoWord;

    ghost try_from_gives = { WritesRow sheet_row_of sheet_word_of };

    fn try_from(row: SheetRow) -> Result<u32, NoWord> {
        match row {
            SheetRow::Literal(n) => join(LITERAL, n),
            SheetRow::Named(n) => join(NAMED, n),
            SheetRow::IsFalse(n) => join(IS_FALSE, n),
            SheetRow::AreEqual(r, s) if r < FIRST_OPERAND_LIMIT && s < OPERAND_LIMIT => {
                join(ARE_EQUAL, r * OPERAND_LIMIT + s)
            }
            SheetRow::AreEqual(_, _) => Err(NoWord),
            SheetRow::Command => join(COMMAND, 0),
        }
    }
}
