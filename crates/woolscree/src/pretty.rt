// A script as indented JavaScript-like text.
ghost use Rattle.std.specs.Prelude.{◌<◌, ◌≤◌, length, OnOk, OnSome};

use crate::job::Job;
use crate::told::{Expression, Variable};
use grammar::{
    FOR_DECLARATION, FOR_EXPRESSION, FOR_TEST, FOR_UPDATE, IF_ALTERNATE, RETURN_VALUE, TRY_CATCH,
    TRY_FINALIZER,
};
use std::alloc::AllocError;
use words::word::{Kind, Word};

// Writes a script from its words, front to back.
#[derive(Drop)]
struct Printer<'a> {
    job: &'a Job,
    // The words that are still to be written.
    words: &'a [u32],
    out: Page,
}

// Text in lines, each indented.
#[derive(Drop)]
struct Page {
    text: String,
    indent: usize,
}

// Whether a number is a sum with this part in it. `grammar::has` tells how many of a part there are, and asks that the
// part is not 0.
fn has(number: u32, part: u32) -> bool {
    number & part != 0
}

impl Page {
    fn push(&mut self, text: &str) -> Result<(), AllocError> {
        self.text.push_str(text)
    }

    fn line(&mut self) -> Result<(), AllocError> {
        self.text.push_str("\n")?;
        for _ in 0..self.indent {
            self.text.push_str("  ")?;
        }
        Ok(())
    }

    fn name(&mut self, job: &Job, number: u32) -> Result<(), AllocError> {
        write!(self.text, "{}", Variable(job, number))
    }

    // A text with a label in it.
    fn label(&mut self, before: &str, number: u32, after: &str) -> Result<(), AllocError> {
        write!(self.text, "{before}L{number}{after}")
    }
}

impl<'a> Printer<'a> {
    fn next(&mut self) -> Option<Word>
        ensures shorter { OnSome result (length self.new.words.now < length self.old.words.now) }
        ensures left { length self.new.words.now ≤ length self.old.words.now }
    {
        let (first, rest) = self.words.split_first()?;
        self.words = rest;
        Some(Word::from(*first))
    }

    // The number of the next word; the words of an accepted script do not end before.
    fn next_number(&mut self) -> u32
        ensures left { length self.new.words.now ≤ length self.old.words.now }
    {
        self.next().map_or(0, |word| word.number)
    }

    fn expression(&mut self) -> Result<(), AllocError>
        ensures left { OnOk result (length self.new.words.now ≤ length self.old.words.now) }
    {
        let Some(word) = self.next() else {
            return Ok(());
        };
        if word.kind != Kind::Sequence {
            return write!(self.out.text, "{}", Expression(self.job, word.number));
        }
        for part in 0..word.number {
            if part > 0 {
                self.out.push(", ")?;
            }
            let e = self.next_number();
            write!(self.out.text, "{}", Expression(self.job, e))?;
        }
        Ok(())
    }

    // An expression between two texts.
    fn between(&mut self, before: &str, after: &str) -> Result<(), AllocError>
        ensures left { OnOk result (length self.new.words.now ≤ length self.old.words.now) }
    {
        self.out.push(before)?;
        self.expression()?;
        self.out.push(after)
    }

    fn declaration(&mut self, word: Word) -> Result<(), AllocError>
        ensures left { OnOk result (length self.new.words.now ≤ length self.old.words.now) }
    {
        self.out.push(if word.kind == Kind::Let {
            "let "
        } else {
            "var "
        })?;
        for declarator in 0..word.number {
            if declarator > 0 {
                self.out.push(", ")?;
            }
            let Some(name) = self.next() else {
                return Ok(());
            };
            self.out.name(self.job, name.number)?;
            if name.kind == Kind::NameInit {
                self.between(" = ", "")?;
            }
        }
        Ok(())
    }

    // A For but for its body.
    fn for_head(&mut self, number: u32) -> Result<(), AllocError>
        ensures left { OnOk result (length self.new.words.now ≤ length self.old.words.now) }
    {
        self.out.push("for (")?;
        if has(number, FOR_EXPRESSION) {
            self.expression()?;
        } else if has(number, FOR_DECLARATION)
            && let Some(word) = self.next()
        {
            self.declaration(word)?;
        }
        for part in [FOR_TEST, FOR_UPDATE] {
            self.out.push(";")?;
            if has(number, part) {
                self.between(" ", "")?;
            }
        }
        self.out.push(") ")
    }

    // So many statements, each on a line of its own, one step further in.
    #[cycle(statement)]
    fn list(&mut self, count: u32) -> Result<(), AllocError>
        ensures left { OnOk result (length self.new.words.now ≤ length self.old.words.now) }
    {
        self.out.indent = self.out.indent.saturating_add(1);
        for _ in 0..count {
            self.out.line()?;
            self.statement()?;
        }
        self.out.indent = self.out.indent.saturating_sub(1);
        Ok(())
    }

    // So many statements between braces.
    #[cycle(statement)]
    fn braces(&mut self, count: u32) -> Result<(), AllocError>
        ensures left { OnOk result (length self.new.words.now ≤ length self.old.words.now) }
    {
        if count == 0 {
            return self.out.push("{}");
        }
        self.out.push("{")?;
        self.list(count)?;
        self.out.line()?;
        self.out.push("}")
    }

    #[cycle(statement)]
    fn switch(&mut self, cases: u32) -> Result<(), AllocError>
        ensures left { OnOk result (length self.new.words.now ≤ length self.old.words.now) }
    {
        self.between("switch (", ") {")?;
        for _ in 0..cases {
            self.out.line()?;
            let Some(case) = self.next() else {
                return Ok(());
            };
            if case.kind == Kind::Default {
                self.out.push("default:")?;
            } else {
                self.between("case ", ":")?;
            }
            self.list(case.number)?;
        }
        self.out.line()?;
        self.out.push("}")
    }

    // A Body or a Catch, between braces.
    #[cycle(statement)]
    fn body(&mut self) -> Result<(), AllocError>
        ensures left { OnOk result (length self.new.words.now ≤ length self.old.words.now) }
    {
        let Some(body) = self.next() else {
            return Ok(());
        };
        if body.kind == Kind::CatchName {
            let name = self.next_number();
            self.out.push("(")?;
            self.out.name(self.job, name)?;
            self.out.push(") ")?;
        }
        self.braces(body.number)
    }

    #[cycle(statement)]
    fn try_parts(&mut self, number: u32) -> Result<(), AllocError>
        ensures left { OnOk result (length self.new.words.now ≤ length self.old.words.now) }
    {
        self.out.push("try ")?;
        self.body()?;
        if has(number, TRY_CATCH) {
            self.out.push(" catch ")?;
            self.body()?;
        }
        if has(number, TRY_FINALIZER) {
            self.out.push(" finally ")?;
            self.body()?;
        }
        Ok(())
    }

    #[cycle(statement)]
    fn statement(&mut self) -> Result<(), AllocError>
        ensures left { OnOk result (length self.new.words.now ≤ length self.old.words.now) }
    {
        let Some(word) = self.next() else {
            return Ok(());
        };
        let number = word.number;
        match word.kind {
            Kind::Block => self.braces(number),
            Kind::Switch => self.switch(number),
            Kind::Try => self.try_parts(number),
            Kind::If => self.if_parts(number),
            Kind::For => {
                self.for_head(number)?;
                self.statement()
            }
            Kind::While => {
                self.between("while (", ") ")?;
                self.statement()
            }
            Kind::Do => {
                self.out.push("do ")?;
                self.statement()?;
                self.between(" while (", ");")
            }
            Kind::Label => {
                self.out.label("", number, ": ")?;
                self.statement()
            }
            _ => self.simple(word),
        }
    }

    #[cycle(statement)]
    fn if_parts(&mut self, number: u32) -> Result<(), AllocError>
        ensures left { OnOk result (length self.new.words.now ≤ length self.old.words.now) }
    {
        self.between("if (", ") ")?;
        self.statement()?;
        if has(number, IF_ALTERNATE) {
            self.out.push(" else ")?;
            self.statement()?;
        }
        Ok(())
    }

    // A statement with no statement in it.
    fn simple(&mut self, word: Word) -> Result<(), AllocError>
        ensures left { OnOk result (length self.new.words.now ≤ length self.old.words.now) }
    {
        match word.kind {
            Kind::Empty => self.out.push(";"),
            Kind::Expr => self.between("", ";"),
            Kind::Var | Kind::Let => {
                self.declaration(word)?;
                self.out.push(";")
            }
            Kind::Break => self.out.push("break;"),
            Kind::BreakTo => self.out.label("break ", word.number, ";"),
            Kind::Continue => self.out.push("continue;"),
            Kind::ContinueTo => self.out.label("continue ", word.number, ";"),
            Kind::Return if has(word.number, RETURN_VALUE) => self.between("return ", ";"),
            Kind::Return => self.out.push("return;"),
            Kind::Throw => self.between("throw ", ";"),
            _ => self.out.push("?"),
        }
    }
}

// The text of an accepted script, a statement to a line.
pub(crate) fn script_text(job: &Job, words: &[u32]) -> Result<String, AllocError> {
    let mut printer = Printer {
        job,
        words,
        out: Page {
            text: String::new(job.heap),
            indent: 0,
        },
    };
    let statements = printer.next_number();
    printer.list(statements)?;
    Ok(printer.out.text)
}
