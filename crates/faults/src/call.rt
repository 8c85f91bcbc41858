// Why a call refuses: a fault of the tree, with that of the reader inside it, or one of the call itself.
ghost use Rattle.std.specs.Prelude.{◌≡◌, Some};
ghost use Rattle.faults.specs.declared.call.CallFault.TheVariants.{Tree};
ghost use Rattle.faults.specs.Refusals.{refusal_of, number_of, layer_of, place_of};
ghost use Rattle.faults.specs.Texts.{call_fault_text};

use crate::tree::{ReaderFault, TreeFault};
use refusals::refusal::{Layer, Refusal};
use std::error::Error;
use std::fmt;

#[derive(Clone, Copy, PartialEq, Eq, Debug)]
pub enum CallFault {
    // The used length is 0, or above the space.
    Used(usize),
    // The used length is above 16,000.
    TooLong(usize),
    // There are only so many working words, fewer than four for each word used.
    WorkingWords(usize),
    // There are so many labels to drop, more than 16.
    Labels(usize),
    // The words are no script.
    Tree(TreeFault),
    // The script has no statement at this place.
    NoSuchPlace(usize),
    // The statement at this place would get a stub for an alternate that it has not.
    NoAlternate(usize),
}

impl From<TreeFault> for CallFault {
    ghost from_gives = { λ f r. r ≡ Tree f };

    fn from(fault: TreeFault) -> CallFault {
        CallFault::Tree(fault)
    }
}

// The numbers of the refusals: the caller is told a number, and these name it.
const USED: u32 = 1;

const TOO_LONG: u32 = 2;

const WORKING_WORDS: u32 = 3;

const LABELS: u32 = 4;

const WORD_DUE: u32 = 5;

const FORMAT: u32 = 6;

const DEPTH: u32 = 7;

const EXPRESSION: u32 = 8;

const JUMP: u32 = 9;

const WORDS_LEFT: u32 = 10;

const NO_SUCH_PLACE: u32 = 11;

const NO_ALTERNATE: u32 = 12;

// The number, layer and place that the caller is told.
impl From<CallFault> for Refusal {
    ghost from_gives = { λ f r. r ≡ refusal_of f };

    fn from(fault: CallFault) -> Refusal {
        Refusal {
            number: fault.number(),
            layer: fault.layer(),
            place: fault.place(),
        }
    }
}

impl CallFault {
    fn number(self) -> u32
        ensures { result ≡ number_of self }
    {
        match self {
            CallFault::Used(_) => USED,
            CallFault::TooLong(_) => TOO_LONG,
            CallFault::WorkingWords(_) => WORKING_WORDS,
            CallFault::Labels(_) => LABELS,
            CallFault::Tree(TreeFault::Reader(ReaderFault::WordDue(_))) => WORD_DUE,
            CallFault::Tree(TreeFault::Format(_)) => FORMAT,
            CallFault::Tree(TreeFault::Depth(_)) => DEPTH,
            CallFault::Tree(TreeFault::Expression(_)) => EXPRESSION,
            CallFault::Tree(TreeFault::Jump(_)) => JUMP,
            CallFault::Tree(TreeFault::Reader(ReaderFault::WordsLeft(_))) => WORDS_LEFT,
            CallFault::NoSuchPlace(_) => NO_SUCH_PLACE,
            CallFault::NoAlternate(_) => NO_ALTERNATE,
        }
    }

    fn layer(self) -> Layer
        ensures { result ≡ layer_of self }
    {
        match self {
            CallFault::Used(_)
            | CallFault::TooLong(_)
            | CallFault::WorkingWords(_)
            | CallFault::Labels(_) => Layer::Space,
            CallFault::Tree(TreeFault::Reader(_)) => Layer::Reader,
            CallFault::Tree(TreeFault::Expression(_)) => Layer::Host,
            CallFault::Tree(_) => Layer::Tree,
            CallFault::NoSuchPlace(_) | CallFault::NoAlternate(_) => Layer::Fold,
        }
    }

    fn place(self) -> usize
        ensures { result ≡ place_of self }
    {
        match self {
            CallFault::Used(count)
            | CallFault::TooLong(count)
            | CallFault::WorkingWords(count)
            | CallFault::Labels(count) => count,
            CallFault::Tree(tree) => tree.word(),
            CallFault::NoSuchPlace(place) | CallFault::NoAlternate(place) => place,
        }
    }
}

impl fmt::Display for CallFault {
    ghost output = { λ f. Some (call_fault_text f) };

    fn fmt<W: fmt::Write>(&self, f: &mut fmt::Formatter<W>) -> fmt::Result {
        match self {
            CallFault::Used(_) => f.write_str("the used length is 0 or above the space"),
            CallFault::TooLong(_) => f.write_str("a script has at most 16,000 words"),
            CallFault::WorkingWords(_) => {
                f.write_str("there must be four working words for each word used")
            }
            CallFault::Labels(_) => f.write_str("at most 16 labels can be dropped"),
            CallFault::Tree(tree) => write!(f, "{tree}"),
            CallFault::NoSuchPlace(_) => f.write_str("the script has no statement at this place"),
            CallFault::NoAlternate(_) => {
                f.write_str("a stub is due for an alternate that is not there")
            }
        }
    }
}

impl Error for CallFault {}
