// A row of the row host, taken apart.
ghost use Rattle.hosts.specs.Rows.{ReadsWord, WritesRow};
ghost use Rattle.rows.specs.Rows.{row_of};
ghost use Rattle.rows.specs.RowWords.{word_of, number_in};

use hosts::row_word::{NoRow, NoWord, join, split};

#[derive(Clone, Copy, Debug, PartialEq, Eq)]
pub enum Row {
    Literal(u32),
    NamedConstant(u32),
    // A command that gives this number.
    Command(u32),
    // A command that gives the next answer left.
    NextAnswer,
    // How many things were sent so far.
    SentCount,
}

// The kinds of the words of rows: a word holds a number, and these name it.
const LITERAL: u32 = 1;

const NAMED_CONSTANT: u32 = 2;

const COMMAND: u32 = 3;

const NEXT_ANSWER: u32 = 4;

const SENT_COUNT: u32 = 5;

// Any number may stand in the word of a row that has none.
impl TryFrom<u32> for Row {
    type Error = NoRow;

    ghost try_from_gives = { ReadsWord row_of word_of number_in };

    fn try_from(word: u32) -> Result<Row, NoRow> {
        let (kind, number) = split(word);
        match kind {
            LITERAL => Ok(Row::Literal(number)),
            NAMED_CONSTANT => Ok(Row::NamedConstant(number)),
            COMMAND => Ok(Row::Command(number)),
            NEXT_ANSWER => Ok(Row::NextAnswer),
            SENT_COUNT => Ok(Row::SentCount),
            _ => Err(NoRow(word)),
        }
    }
}

impl TryFrom<Row> for u32 {
    type Error = NoWord;

    ghost try_from_gives = { WritesRow row_of word_of };

    fn try_from(row: Row) -> Result<u32, NoWord> {
        match row {
            Row::Literal(number) => join(LITERAL, number),
            Row::NamedConstant(number) => join(NAMED_CONSTANT, number),
            Row::Command(number) => join(COMMAND, number),
            Row::NextAnswer => join(NEXT_ANSWER, 0),
            Row::SentCount => join(SENT_COUNT, 0),
        }
    }
}
