// Script words: the top 5 bits are a kind, the low 27 a number.
ghost use Rattle.std.specs.Prelude.{◌≡◌, ◌==◌, ℕ, true, Some, Ok, Decides, codes};
ghost use Rattle.words.specs.Words.{kind_of, code, from_to, is_listed, read_word, write_word, written};
ghost use Rattle.std.specs.Cmp.Rules.{comparing};
ghost use Rattle.std.proofs.Common.{rules};
ghost use Rattle.std.specs.Ordering.{on};

use std::error::Error;
use std::fmt;

// What a word is. Unlisted stands for the kinds 0 and 28 to 31, which no script has: a case, no Option, since reading a
// word cannot fail.
#[derive(Clone, Copy, Debug)]
pub enum Kind {
    Unlisted,
    Empty,
    Block,
    Expr,
    Var,
    Let,
    If,
    For,
    While,
    Do,
    Switch,
    Label,
    Break,
    BreakTo,
    Continue,
    ContinueTo,
    Return,
    Throw,
    Try,
    Body,
    Catch,
    CatchName,
    Case,
    Default,
    Expression,
    Sequence,
    Name,
    NameInit,
}

// A script word taken apart.
#[derive(Clone, Copy, PartialEq, Eq, Debug)]
pub struct Word {
    pub kind: Kind,
    pub number: u32,
}

// A word that no 32 bits stand for: its kind is not listed, or its number has no room.
#[derive(Clone, Copy, PartialEq, Eq, Debug)]
pub struct Unwritable {
    pub word: Word,
}

impl fmt::Display for Unwritable {
    ghost output = { λ _. Some (codes "no word has this kind and this number") };

    fn fmt<W: fmt::Write>(&self, f: &mut fmt::Formatter<W>) -> fmt::Result {
        f.write_str("no word has this kind and this number")
    }
}

impl Error for Unwritable {}

// A word's number is below this, 2 to the 27th.
pub const NUMBER_LIMIT: u32 = 0x800_0000;

// The most words that a script may have.
pub const MAX_WORDS: usize = 16_000;

// The kinds, each at its number.
const KINDS: [Kind; 28] = [
    Kind::Unlisted,
    Kind::Empty,
    Kind::Block,
    Kind::Expr,
    Kind::Var,
    Kind::Let,
    Kind::If,
    Kind::For,
    Kind::While,
    Kind::Do,
    Kind::Switch,
    Kind::Label,
    Kind::Break,
    Kind::BreakTo,
    Kind::Continue,
    Kind::ContinueTo,
    Kind::Return,
    Kind::Throw,
    Kind::Try,
    Kind::Body,
    Kind::Catch,
    Kind::CatchName,
    Kind::Case,
    Kind::Default,
    Kind::Expression,
    Kind::Sequence,
    Kind::Name,
    Kind::NameInit,
];

// The kind's number, 0 for Unlisted.
impl From<Kind> for u32 {
    ghost from_gives = { λ k n. n ≡ code k };

    fn from(kind: Kind) -> u32 {
        kind as u32
    }
}

// The kind of a number.
impl From<u32> for Kind {
    ghost from_gives = { λ n k. k ≡ kind_of n };

    #[tactic(auto, using(crate::proofs::Coding::kind_found))]
    fn from(code: u32) -> Kind {
        KINDS.get(code as usize).copied().unwrap_or(Kind::Unlisted)
    }
}

// Written out, so that `==` has these clauses and an edit of it can be refused by them; a derived one decides the same.
impl PartialEq for Kind {
    ghost eq = { on code ◌==◌ };

    ghost laws = { Prim.search (comparing, rules) };

    fn eq(&self, other: &Kind) -> bool
        ensures value { result ≡ on code ◌==◌ self.now other.now }
        ensures decides { Decides result (self.now ≡ other.now) }
    {
        u32::from(*self) == u32::from(*other)
    }
}

impl Eq for Kind {
    ghost laws = { Prim.search (comparing, rules) };
}

impl Kind {
    // Whether two kinds are one: `==` decides it.
    pub fn is(self, other: Kind) -> bool
        ensures { Decides result (self ≡ other) }
    {
        self == other
    }

    // Whether the kind's number lies between those of two others. Of a derived order the check did not prove it.
    pub fn is_between(self, low: Kind, high: Kind) -> bool
        ensures { result ≡ from_to low high self }
    {
        u32::from(low) <= u32::from(self) && u32::from(self) <= u32::from(high)
    }
}

// Takes a word apart.
impl From<u32> for Word {
    ghost from_gives = { λ w r. r ≡ read_word w };

    #[tactic(auto, using(crate::proofs::Coding::written_back))]
    fn from(word: u32) -> Word
        ensures value { result ≡ read_word word }
        ensures written { is_listed result.kind ≡ true → write_word result ≡ Some word }
    {
        Word {
            kind: Kind::from(word / NUMBER_LIMIT),
            number: word % NUMBER_LIMIT,
        }
    }
}

// Puts a word together.
impl TryFrom<Word> for u32 {
    type Error = Unwritable;

    ghost try_from_gives = { λ w r. r ≡ written w };

    fn try_from(word: Word) -> Result<u32, Unwritable>
        ensures value { result ≡ written word }
        ensures reads { (w : ℕ) → result ≡ Ok w → read_word w ≡ word }
    {
        let code = u32::from(word.kind);
        if code > 0 && word.number < NUMBER_LIMIT {
            Ok(code * NUMBER_LIMIT + word.number)
        } else {
            Err(Unwritable { word })
        }
    }
}
