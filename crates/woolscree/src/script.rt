// The script of a job: words by their kinds' names and their numbers.
use crate::job::{Job, number_of, read_number};
use crate::problem::{LineFault, Problem};
use std::str::FromStr;
use words::word::{Kind, Word};

// A word without its number: of a kind, or any 32 bits.
#[derive(Clone, Copy)]
enum Pending {
    OfKind(Kind),
    AnyBits,
}

impl FromStr for Pending {
    type Err = Problem;

    fn from_str(word: &str) -> Result<Pending, Problem> {
        let kind = match word {
            "word" => return Ok(Pending::AnyBits),
            "Empty" => Kind::Empty,
            "Block" => Kind::Block,
            "Expr" => Kind::Expr,
            "Var" => Kind::Var,
            "Let" => Kind::Let,
            "If" => Kind::If,
            "For" => Kind::For,
            "While" => Kind::While,
            "Do" => Kind::Do,
            "Switch" => Kind::Switch,
            "Label" => Kind::Label,
            "Break" => Kind::Break,
            "BreakTo" => Kind::BreakTo,
            "Continue" => Kind::Continue,
            "ContinueTo" => Kind::ContinueTo,
            "Return" => Kind::Return,
            "Throw" => Kind::Throw,
            "Try" => Kind::Try,
            "Body" => Kind::Body,
            "Catch" => Kind::Catch,
            "CatchName" => Kind::CatchName,
            "Case" => Kind::Case,
            "Default" => Kind::Default,
            "Expression" => Kind::Expression,
            "Sequence" => Kind::Sequence,
            "Name" => Kind::Name,
            "NameInit" => Kind::NameInit,
            _ => return Err(Problem::UnknownWord),
        };
        Ok(Pending::OfKind(kind))
    }
}

fn written(kind: Kind, number: u32) -> Result<u32, Problem> {
    u32::try_from(Word { kind, number }).map_err(|_| Problem::BadNumber)
}

impl Job {
    // The number of a word: an expression may be told by its row's name, a name by its own.
    fn word_number(&self, kind: Kind, word: &str) -> Result<u32, Problem> {
        match kind {
            Kind::Expression => {
                number_of(&self.row_names, word).map_or_else(|| read_number(word), Ok)
            }
            Kind::Name | Kind::NameInit => self.variable(word),
            _ => read_number(word),
        }
    }

    // The word that is finished by a number.
    fn numbered(&self, pending: Pending, word: &str) -> Result<u32, Problem> {
        match pending {
            Pending::OfKind(kind) => written(kind, self.word_number(kind, word)?),
            Pending::AnyBits => word.parse().map_err(|_| Problem::BadNumber),
        }
    }

    // A word whose number was left out has number 0.
    fn finish(&mut self, pending: Option<Pending>) -> Result<(), LineFault> {
        if let Some(Pending::OfKind(kind)) = pending {
            self.script.push(written(kind, 0)?)?;
        }
        Ok(())
    }

    // The words of one line of a script.
    pub(crate) fn add_words(&mut self, words: &[&str]) -> Result<(), LineFault> {
        let mut pending: Option<Pending> = None;
        for word in words {
            match word.parse() {
                Ok(next) => self.finish(pending.replace(next))?,
                Err(unknown) => {
                    let finished = self.numbered(pending.take().ok_or(unknown)?, word)?;
                    self.script.push(finished)?;
                }
            }
        }
        self.finish(pending)
    }
}
