// Words of rows, for both hosts.
ghost use Rattle.std.specs.Prelude.{◌≡◌, ℕ, ◌^◌, ◌<◌, Bool, Some, Ok, codes};
ghost use Rattle.hosts.specs.RowWord.{answer_of, count_fault_lem, first_bad, joined, kind_of, number_of};
ghost use Rattle.hosts.specs.Rows.{ReadsRow, Tells};

use refusals::host::HostFault;
use std::error::Error;
use std::fmt;
use words::word::NUMBER_LIMIT;

// The words of kind 1 with the numbers 0 and 1, which are rows 0 and 1 of the least hosts.
pub const LITERAL_0: u32 = NUMBER_LIMIT;

pub const LITERAL_1: u32 = NUMBER_LIMIT + 1;

// The rows and the granted names of the least host of each kind.
pub static LITERALS: [u32; 2] = [LITERAL_0, LITERAL_1];

pub static NO_NAMES: [u32; 0] = [];

// A row word has its kind in the top 5 bits, and a number in the low 27.
const KIND_COUNT: u32 = 32;

const LEAST_ROWS: usize = 2;

const MOST_ROWS: usize = 4096;

// This word stands for no row.
#[derive(Clone, Copy, PartialEq, Eq, Debug)]
pub struct NoRow(pub u32);

// A kind or a number has no room in a word.
#[derive(Clone, Copy, PartialEq, Eq, Debug)]
pub struct NoWord;

impl fmt::Display for NoRow {
    ghost output = { λ _. Some (codes "the word stands for no row of this host") };

    fn fmt<W: fmt::Write>(&self, f: &mut fmt::Formatter<W>) -> fmt::Result {
        f.write_str("the word stands for no row of this host")
    }
}

impl Error for NoRow {}

impl fmt::Display for NoWord {
    ghost output = { λ _. Some (codes "a number has no room in a word") };

    fn fmt<W: fmt::Write>(&self, f: &mut fmt::Formatter<W>) -> fmt::Result {
        f.write_str("a number has no room in a word")
    }
}

impl Error for NoWord {}

// The word of a kind and a number.
pub fn join(kind: u32, number: u32) -> Result<u32, NoWord>
    ensures value { result ≡ joined kind number }
    ensures reads { (word : ℕ) → result ≡ Ok word → (kind_of word ≡ kind) × (number_of word ≡ number) }
{
    if kind < KIND_COUNT && number < NUMBER_LIMIT {
        Ok(kind * NUMBER_LIMIT + number)
    } else {
        Err(NoWord)
    }
}

// The kind and the number of a word.
pub fn split(word: u32) -> (u32, u32)
    ensures kind { result.0 ≡ kind_of word }
    ensures number { result.1 ≡ number_of word }
{
    (word / NUMBER_LIMIT, word % NUMBER_LIMIT)
}

// Refuses a number of rows that is not 2 to 4,096.
pub fn check_count(rows: &[u32]) -> Result<(), HostFault>
    ensures { result ≡ answer_of (count_fault_lem rows.now) }
{
    let count = rows.len();
    if (LEAST_ROWS..=MOST_ROWS).contains(&count) {
        Ok(())
    } else {
        Err(HostFault::RowCount(count))
    }
}

// Refuses the first row that may not stand, by a test of its index and its word.
pub fn check_rows<F: Fn(usize, u32) -> bool>(rows: &[u32], may_stand: F) -> Result<(), HostFault>
    requires { F.IsAlwaysCallable may_stand }
    ensures { (allowed : ℕ → ℕ → Bool) → Tells rows.now (F.post may_stand) allowed → result ≡ answer_of (first_bad allowed 0 rows.now) }
{
    for (i, word) in rows.iter().enumerate() {
        if !may_stand(i, *word) {
            return Err(HostFault::Row(i));
        }
    }
    Ok(())
}

// The row of an expression, where there is one.
pub fn row_of_expression<R: TryFrom<u32, Error = NoRow>>(rows: &[u32], e: u32) -> Option<R>
    ensures { ReadsRow R.try_from_gives rows.now e result }
{
    R::try_from(*rows.get(e as usize)?).ok()
}
