// What is told of a loaded script: its text, its statements, its hoisted names and its record.
use crate::job::Job;
use crate::pretty::script_text;
use crate::told::Variable;
use calls::record::Record;
use scan::{find_statement, statements};
use std::io;
use words::word::{Kind, Word};

// The script of a job, as load left it.
#[derive(Clone, Copy)]
pub(crate) struct Script<'a> {
    pub(crate) job: &'a Job,
    pub(crate) words: &'a [u32],
}

impl Script<'_> {
    fn print_places(self, rt: &impl Print) -> io::Result<()> {
        let count = statements(self.words);
        println!(rt; "statements: {count}")?;
        let found = (0..count).filter_map(|place| find_statement(self.words, place));
        for (place, at) in found.enumerate() {
            if let Some(word) = self.words.get(at) {
                let kind = Word::from(*word).kind;
                println!(rt; "  place {place}: {kind:?} at word {at}")?;
            }
        }
        Ok(())
    }

    // The names of all Vars, in written order.
    fn print_hoisted(self, rt: &impl Print) -> io::Result<()> {
        print!(rt; "hoisted names:")?;
        // How many names are left of the last Var: expressions may stand between them.
        let mut left: u32 = 0;
        for word in self.words {
            let word = Word::from(*word);
            match word.kind {
                Kind::Var => left = word.number,
                Kind::Name | Kind::NameInit if left > 0 => {
                    left -= 1;
                    print!(rt; " {}", Variable(self.job, word.number))?;
                }
                _ => {}
            }
        }
        println!(rt; "")
    }

    // Prints the script, and its record.
    pub(crate) fn print(self, rt: &impl Print, record: Record) -> io::Result<()> {
        let text = script_text(self.job, self.words)?;
        println!(rt; "script:{text}")?;
        self.print_places(rt)?;
        self.print_hoisted(rt)?;
        let Record {
            used,
            weight,
            changes,
            ..
        } = record;
        println!(rt; "record: {used} words used, weight {weight}, {changes} changes")
    }
}
