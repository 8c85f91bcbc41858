// What a job's rows and names are called, as a reader of the script would write them.
use crate::job::{HostKind, Job};
use rows::row::Row;
use sheet::sheet_row::SheetRow;
use std::fmt;

// A name of the script: what a `name` line calls it, or its number.
#[derive(Clone, Copy)]
pub(crate) struct Variable<'a>(pub(crate) &'a Job, pub(crate) u32);

// An expression: a literal's value, a constant's name, a command's call.
#[derive(Clone, Copy)]
pub(crate) struct Expression<'a>(pub(crate) &'a Job, pub(crate) u32);

// The name of a row, or its number.
#[derive(Clone, Copy)]
struct RowName<'a>(&'a Job, u32);

// What a row of a sheet looks at. If that looks at other rows itself, it is told by its name alone.
#[derive(Clone, Copy)]
struct Operand<'a>(&'a Job, u32);

// The value of an entry.
#[derive(Clone, Copy)]
struct Entry<'a>(&'a Job, u32);

impl fmt::Display for Variable<'_> {
    fn fmt<W: fmt::Write>(&self, f: &mut fmt::Formatter<W>) -> fmt::Result {
        let Variable(job, number) = *self;
        match job.name_of(number) {
            Some(name) => f.write_str(name),
            None => write!(f, "name{number}"),
        }
    }
}

impl fmt::Display for RowName<'_> {
    fn fmt<W: fmt::Write>(&self, f: &mut fmt::Formatter<W>) -> fmt::Result {
        let RowName(job, row) = *self;
        match job.row_names.get_index(row as usize) {
            Some(name) => f.write_str(name.as_str()),
            None => write!(f, "#{row}"),
        }
    }
}

impl fmt::Display for Entry<'_> {
    fn fmt<W: fmt::Write>(&self, f: &mut fmt::Formatter<W>) -> fmt::Result {
        let Entry(job, entry) = *self;
        match job.entries.get(entry as usize) {
            Some(value) => write!(f, "{value}"),
            None => write!(f, "entry {entry}"),
        }
    }
}

impl fmt::Display for Operand<'_> {
    fn fmt<W: fmt::Write>(&self, f: &mut fmt::Formatter<W>) -> fmt::Result {
        let Operand(job, row) = *self;
        let name = RowName(job, row);
        match job.row::<SheetRow>(row) {
            Some(SheetRow::Literal(entry)) => write!(f, "{}", Entry(job, entry)),
            Some(SheetRow::Command) => write!(f, "{name}()"),
            _ => write!(f, "{name}"),
        }
    }
}

impl fmt::Display for Expression<'_> {
    fn fmt<W: fmt::Write>(&self, f: &mut fmt::Formatter<W>) -> fmt::Result {
        let Expression(job, e) = *self;
        let name = RowName(job, e);
        match job.host {
            Some(HostKind::Sheet) => match job.row::<SheetRow>(e) {
                Some(SheetRow::IsFalse(row)) => write!(f, "!{}", Operand(job, row)),
                Some(SheetRow::AreEqual(first, second)) => {
                    write!(f, "{} === {}", Operand(job, first), Operand(job, second))
                }
                _ => write!(f, "{}", Operand(job, e)),
            },
            _ => match job.row::<Row>(e) {
                Some(Row::Literal(number)) => write!(f, "{number}"),
                Some(Row::Command(_) | Row::NextAnswer) => write!(f, "{name}()"),
                _ => write!(f, "{name}"),
            },
        }
    }
}
