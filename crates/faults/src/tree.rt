// What the checker finds wrong: a fault of the reader inside a fault of the tree.
ghost use Rattle.std.specs.Prelude.{◌≡◌, Some};
ghost use Rattle.faults.specs.declared.tree.TreeFault.TheVariants.{Reader};
ghost use Rattle.faults.specs.declared.call.CallFault.TheVariants.{Tree};
ghost use Rattle.faults.specs.Refusals.{place_of};
ghost use Rattle.faults.specs.Texts.{tree_fault_text, reader_fault_text};

use std::error::Error;
use std::fmt;

// What the reader of words finds wrong, and at which word.
#[derive(Clone, Copy, PartialEq, Eq, Debug)]
pub enum ReaderFault {
    // A word is due and none is left.
    WordDue(usize),
    // Words are left over, the first of them here.
    WordsLeft(usize),
}

// What is wrong with the tree, and at which word.
#[derive(Clone, Copy, PartialEq, Eq, Debug)]
pub enum TreeFault {
    Reader(ReaderFault),
    // The word's kind may not stand here, or not with this number.
    Format(usize),
    // More than 100 statements are around the statement or case.
    Depth(usize),
    // The host has no such expression.
    Expression(usize),
    // A jump has no target around it, or a label stands inside itself.
    Jump(usize),
}

impl From<ReaderFault> for TreeFault {
    ghost from_gives = { λ f r. r ≡ Reader f };

    fn from(fault: ReaderFault) -> TreeFault {
        TreeFault::Reader(fault)
    }
}

impl ReaderFault {
    // The word at which it was found.
    fn word(self) -> usize
        ensures { result ≡ place_of (Tree (Reader self)) }
    {
        match self {
            ReaderFault::WordDue(word) | ReaderFault::WordsLeft(word) => word,
        }
    }
}

impl TreeFault {
    // The word at which it was found.
    pub(crate) fn word(self) -> usize
        ensures { result ≡ place_of (Tree self) }
    {
        match self {
            TreeFault::Reader(reader) => reader.word(),
            TreeFault::Format(word)
            | TreeFault::Depth(word)
            | TreeFault::Expression(word)
            | TreeFault::Jump(word) => word,
        }
    }
}

impl fmt::Display for ReaderFault {
    ghost output = { λ f. Some (reader_fault_text f) };

    fn fmt<W: fmt::Write>(&self, f: &mut fmt::Formatter<W>) -> fmt::Result {
        f.write_str(match self {
            ReaderFault::WordDue(_) => "a word is due here, and none is left",
            ReaderFault::WordsLeft(_) => "the script has ended, and words are left over",
        })
    }
}

impl Error for ReaderFault {}

impl fmt::Display for TreeFault {
    ghost output = { λ f. Some (tree_fault_text f) };

    fn fmt<W: fmt::Write>(&self, f: &mut fmt::Formatter<W>) -> fmt::Result {
        match self {
            TreeFault::Reader(reader) => write!(f, "{reader}"),
            TreeFault::Format(_) => {
                f.write_str("a word of this kind and number may not stand here")
            }
            TreeFault::Depth(_) => f.write_str("more than 100 statements are around this one"),
            TreeFault::Expression(_) => f.write_str("the host has no such expression"),
            TreeFault::Jump(_) => {
                f.write_str("the jump has no target around it, or the label stands inside itself")
            }
        }
    }
}

impl Error for TreeFault {}
