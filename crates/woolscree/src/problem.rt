// What can be wrong with the text of a job.
use std::alloc::AllocError;
use thiserror::Error;

// What is wrong with one line.
#[derive(Clone, Copy, Debug, Error)]
pub(crate) enum Problem {
    #[error("the job names no host")]
    NoHost,
    #[error("the job names its host twice")]
    SecondHost,
    #[error("a line begins with host, entry, row, name, grant, space, used, working, drop or script, and has what belongs to it")]
    UnknownLine,
    #[error("this host has no such row")]
    UnknownRow,
    #[error("a name begins with a letter and has letters, digits and underscores")]
    BadName,
    #[error("the name is taken")]
    NameTaken,
    #[error("nothing has this name")]
    UnknownName,
    #[error("no whole number that fits here")]
    BadNumber,
    #[error("no value: write true, false, NaN, -0, a whole number of 32 bits, or a text of 1 to 16 bytes in quotes")]
    BadValue,
    #[error("the text has no closing quote")]
    OpenText,
    #[error("only a comment may stand after a text")]
    AfterText,
    #[error("a word of a script is a kind's name, and a number if that is not 0")]
    UnknownWord,
    #[error("the script has no line `end`")]
    OpenScript,
}

// Why a line could not be read.
#[derive(Debug, Drop, Error)]
pub(crate) enum LineFault {
    #[error(transparent)]
    Syntax(#[from] Problem),
    #[error("out of memory")]
    Memory(#[from(alloc)] AllocError),
}

// A line that could not be read, by its number from 1.
#[derive(Debug, Drop, Error)]
#[error("line {line}: {fault}")]
pub(crate) struct JobFault {
    pub(crate) line: usize,
    pub(crate) fault: LineFault,
}
