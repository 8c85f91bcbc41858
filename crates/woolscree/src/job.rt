// A job: which host to make, of which rows, entries and granted names.
use crate::line::Line;
use crate::problem::{JobFault, LineFault, Problem};
use crate::value::{read_text, read_value};
use indexmap::IndexSet;
use std::alloc::Global;
use std::str::FromStr;
use values::sheet_value::SheetValue;
use words::word::NUMBER_LIMIT;

#[derive(Clone, Copy, PartialEq, Eq)]
pub(crate) enum HostKind {
    Rows,
    Sheet,
}

impl FromStr for HostKind {
    type Err = Problem;

    fn from_str(word: &str) -> Result<HostKind, Problem> {
        match word {
            "rows" => Ok(HostKind::Rows),
            "sheet" => Ok(HostKind::Sheet),
            _ => Err(Problem::UnknownLine),
        }
    }
}

// What a line begins with.
#[derive(Clone, Copy)]
enum Keyword {
    Host,
    Entry,
    Row,
    Name,
    Grant,
    Space,
    Used,
    Working,
    Drop,
    Script,
}

impl FromStr for Keyword {
    type Err = Problem;

    fn from_str(word: &str) -> Result<Keyword, Problem> {
        match word {
            "host" => Ok(Keyword::Host),
            "entry" => Ok(Keyword::Entry),
            "row" => Ok(Keyword::Row),
            "name" => Ok(Keyword::Name),
            "grant" => Ok(Keyword::Grant),
            "space" => Ok(Keyword::Space),
            "used" => Ok(Keyword::Used),
            "working" => Ok(Keyword::Working),
            "drop" => Ok(Keyword::Drop),
            "script" => Ok(Keyword::Script),
            _ => Err(Problem::UnknownLine),
        }
    }
}

// How far the reading of a job has come.
#[derive(Clone, Copy, PartialEq, Eq)]
pub(crate) enum Part {
    BeforeScript,
    InScript,
    AfterScript,
}

// A name of a script, by its number.
#[derive(Drop)]
pub(crate) struct Name {
    pub(crate) text: String,
    pub(crate) number: u32,
}

// What the call is lent, where it is not just what the script needs.
#[derive(Clone, Copy)]
pub(crate) struct Lent {
    pub(crate) space: Option<usize>,
    pub(crate) used: Option<usize>,
    pub(crate) working: Option<usize>,
}

#[derive(Drop)]
pub(crate) struct Job {
    pub(crate) heap: Global,
    pub(crate) host: Option<HostKind>,
    // The names of entries and rows, each at its number. What they name is in lists of its own, which hosts are lent.
    pub(crate) entry_names: IndexSet<String>,
    pub(crate) row_names: IndexSet<String>,
    pub(crate) entries: Vec<SheetValue>,
    pub(crate) rows: Vec<u32>,
    pub(crate) names: Vec<Name>,
    pub(crate) granted: Vec<u32>,
    // The words of the script, if the job has one.
    pub(crate) script: Vec<u32>,
    pub(crate) part: Part,
    pub(crate) lent: Lent,
    pub(crate) dropped: Vec<u32>,
}

fn is_letter(byte: u8) -> bool {
    byte.is_ascii_alphabetic() || byte == b'_'
}

// Names begin with a letter or an underscore and go on with letters, digits and underscores.
fn is_name(word: &str) -> bool {
    match word.as_bytes() {
        [first, rest @ ..] => {
            is_letter(*first)
                && rest
                    .iter()
                    .all(|byte| is_letter(*byte) || byte.is_ascii_digit())
        }
        [] => false,
    }
}

// Adds a name that is not taken.
fn add_name(heap: Global, names: &mut IndexSet<String>, word: &str) -> Result<(), LineFault> {
    if !is_name(word) {
        return Err(LineFault::Syntax(Problem::BadName));
    }
    if names.insert(String::from_str(heap, word)?)? {
        Ok(())
    } else {
        Err(LineFault::Syntax(Problem::NameTaken))
    }
}

// The number of an entry or a row, by its name.
pub(crate) fn number_of(names: &IndexSet<String>, word: &str) -> Option<u32> {
    names
        .get_index_of(word)
        .and_then(|number| u32::try_from(number).ok())
}

// Reads each line of a text, or says which is wrong.
fn each_line<F: FnMut(&str) -> Result<(), LineFault>>(
    text: &str,
    mut read: F,
) -> Result<(), JobFault>
    requires { F.IsAlwaysCallable read }
{
    for (line, words) in (1..).zip(text.lines()) {
        read(words).map_err(|fault| JobFault { line, fault })?;
    }
    Ok(())
}

impl Job {
    fn new(heap: Global) -> Job {
        Job {
            heap,
            host: None,
            entry_names: IndexSet::new(heap),
            row_names: IndexSet::new(heap),
            entries: Vec::new(heap),
            rows: Vec::new(heap),
            names: Vec::new(heap),
            granted: Vec::new(heap),
            script: Vec::new(heap),
            part: Part::BeforeScript,
            lent: Lent {
                space: None,
                used: None,
                working: None,
            },
            dropped: Vec::new(heap),
        }
    }

    // The names of entries and rows, so that a row may name any other.
    fn gather(&mut self, text: &str) -> Result<(), LineFault> {
        let line = Line::read(self.heap, text)?;
        let [first, name, ..] = line.words.as_slice() else {
            return Ok(());
        };
        match first.parse() {
            Ok(Keyword::Entry) => add_name(self.heap, &mut self.entry_names, name),
            Ok(Keyword::Row) => add_name(self.heap, &mut self.row_names, name),
            _ => Ok(()),
        }
    }

    fn set_host(&mut self, name: &str) -> Result<(), Problem> {
        let host = name.parse()?;
        if self.host.is_some() {
            return Err(Problem::SecondHost);
        }
        self.host = Some(host);
        Ok(())
    }

    fn add_row(&mut self, words: &[&str]) -> Result<(), LineFault> {
        let host = self.host.ok_or(Problem::NoHost)?;
        let row = self.read_row(host, words)?;
        self.rows.push(row)?;
        Ok(())
    }

    fn name_variable(&mut self, name: &str, number: &str) -> Result<(), LineFault> {
        if !is_name(name) {
            return Err(LineFault::Syntax(Problem::BadName));
        }
        let number = read_number(number)?;
        let text = String::from_str(self.heap, name)?;
        self.names.push(Name { text, number })?;
        Ok(())
    }

    // What a name's number is called, if a `name` line says.
    pub(crate) fn name_of(&self, number: u32) -> Option<&str> {
        self.names
            .iter()
            .find(|name| name.number == number)
            .map(|name| name.text.as_str())
    }

    // The number of a name that a `name` line gave, or that is written as a number.
    pub(crate) fn variable(&self, word: &str) -> Result<u32, Problem> {
        match self.names.iter().find(|name| name.text.as_str() == word) {
            Some(name) => Ok(name.number),
            None if is_name(word) => Err(Problem::UnknownName),
            None => read_number(word),
        }
    }

    fn grant(&mut self, words: &[&str]) -> Result<(), LineFault> {
        for word in words {
            let name = self.variable(word)?;
            self.granted.push(name)?;
        }
        Ok(())
    }

    fn drop_labels(&mut self, words: &[&str]) -> Result<(), LineFault> {
        for word in words {
            self.dropped.push(read_number(word)?)?;
        }
        Ok(())
    }

    fn begin_script(&mut self) -> Result<(), Problem> {
        if self.part != Part::BeforeScript {
            return Err(Problem::UnknownLine);
        }
        self.part = Part::InScript;
        Ok(())
    }

    // What comes after a line's keyword.
    fn read_rest(&mut self, keyword: Keyword, rest: &[&str]) -> Result<(), LineFault> {
        match (keyword, rest) {
            (Keyword::Host, [name]) => self.set_host(name)?,
            (Keyword::Entry, [_, value]) => self.entries.push(read_value(value)?)?,
            (Keyword::Row, [_, words @ ..]) => self.add_row(words)?,
            (Keyword::Name, [name, number]) => self.name_variable(name, number)?,
            (Keyword::Grant, names) => self.grant(names)?,
            (Keyword::Space, [length]) => self.lent.space = Some(read_length(length)?),
            (Keyword::Used, [length]) => self.lent.used = Some(read_length(length)?),
            (Keyword::Working, [length]) => self.lent.working = Some(read_length(length)?),
            (Keyword::Drop, labels) => self.drop_labels(labels)?,
            (Keyword::Script, []) => self.begin_script()?,
            _ => return Err(LineFault::Syntax(Problem::UnknownLine)),
        }
        Ok(())
    }

    // A line of words, of which the first says what it is.
    fn read_words(&mut self, words: &[&str]) -> Result<(), LineFault> {
        match words {
            [] => Ok(()),
            [first, rest @ ..] => self.read_rest(first.parse()?, rest),
        }
    }

    // An entry whose value is a text in quotes.
    fn add_text(&mut self, words: &[&str], text: &str) -> Result<(), LineFault> {
        match words {
            ["entry", _] => Ok(self.entries.push(read_text(text)?)?),
            _ => Err(LineFault::Syntax(Problem::UnknownLine)),
        }
    }

    fn read_script(&mut self, words: &[&str]) -> Result<(), LineFault> {
        match words {
            ["end"] => {
                self.part = Part::AfterScript;
                Ok(())
            }
            _ => self.add_words(words),
        }
    }

    fn read_line(&mut self, text: &str) -> Result<(), LineFault> {
        let line = Line::read(self.heap, text)?;
        let quoted = line.text;
        let words = line.words.as_slice();
        if self.part == Part::InScript {
            return self.read_script(words);
        }
        match quoted {
            Some(text) => self.add_text(words, text),
            None => self.read_words(words),
        }
    }

    // Reads a job, or says which line is wrong. No `FromStr`, since it takes the allocator.
    pub(crate) fn read(heap: Global, text: &str) -> Result<Job, JobFault> {
        let mut job = Job::new(heap);
        each_line(text, |line| job.gather(line))?;
        each_line(text, |line| job.read_line(line))?;
        if job.part == Part::InScript {
            return Err(JobFault {
                line: text.lines().count(),
                fault: LineFault::Syntax(Problem::OpenScript),
            });
        }
        Ok(job)
    }
}

// A whole number of 27 bits, as words hold one.
pub(crate) fn read_number(word: &str) -> Result<u32, Problem> {
    word.parse()
        .ok()
        .filter(|number| *number < NUMBER_LIMIT)
        .ok_or(Problem::BadNumber)
}

// How many words or labels there are.
fn read_length(word: &str) -> Result<usize, Problem> {
    word.parse().map_err(|_| Problem::BadNumber)
}
