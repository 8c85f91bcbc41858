// What the program prints.
use crate::job::{HostKind, Job, Part};
use crate::summary::Script;
use crate::told::Expression;
use calls::load::{WORKING_SHARE, load};
use faults::call::CallFault;
use host::Host;
use refusals::host::HostFault;
use refusals::refusal::Refusal;
use rows::Rows;
use sheet::Sheet;
use std::alloc::{AllocError, Global};
use std::fmt::Display;
use std::{io, iter};
use thiserror::Error;

// Why a job is not accepted, or cannot be printed.
#[derive(Debug, Drop, Error)]
enum Fault {
    #[error(transparent)]
    Host(#[from] HostFault),
    #[error(transparent)]
    Call(#[from] CallFault),
    #[error(transparent)]
    Io(#[from] io::Error),
    #[error(transparent)]
    Memory(#[from(alloc)] AllocError),
}

fn yes_or_no(truth: bool) -> &'static str {
    if truth { "yes" } else { "no" }
}

// So many words, the script's first and zeros after them.
fn lent_space(heap: Global, script: &[u32], length: usize) -> Result<Vec<u32>, AllocError> {
    script
        .iter()
        .copied()
        .chain(iter::repeat(0))
        .take(length)
        .collect(heap)
}

// A job with its host, and where they are printed.
#[derive(Clone, Copy)]
struct Report<'a, R, H> {
    rt: &'a R,
    job: &'a Job,
    host: &'a H,
}

impl<R: Print, H: Host> Report<'_, R, H>
where
    H::Value: Display,
{
    fn print_row(&self, e: u32) -> io::Result<()> {
        let heap = self.job.heap;
        let text = Expression(self.job, e).to_string(heap)?;
        let value = match self.host.value(e) {
            Some(value) => value.to_string(heap)?,
            None => String::from_str(heap, "unknown")?,
        };
        let truth = self.host.truth(e).map_or("unknown", yes_or_no);
        let effects = if self.host.effects(e) { "some" } else { "none" };
        let literal = yes_or_no(self.host.literal(e));
        println!(self.rt; "{e:>10}  {text:<24} {value:<18} {truth:<8} {effects:<8} {literal}")
    }

    fn print_granted(&self) -> io::Result<()> {
        print!(self.rt; "granted names:")?;
        let granted = self.job.granted.iter().copied();
        for number in granted.filter(|number| self.host.granted(*number)) {
            match self.job.name_of(number) {
                Some(name) => print!(self.rt; " {name} ({number})")?,
                None => print!(self.rt; " {number}")?,
            }
        }
        println!(self.rt; "")
    }

    // The host's table: a line for each expression, and the granted names.
    fn print_table(&self, kind: &str) -> io::Result<()> {
        let count = self.host.count();
        println!(self.rt; "{kind} host, {count} expressions")?;
        println!(self.rt;
            "expression  text                     value              truth    effects  literal"
        )?;
        for e in 0..count {
            self.print_row(e)?;
        }
        self.print_granted()
    }

    // Loads the job's script and prints what it is.
    fn print_load(&self) -> Result<(), Fault> {
        let job = self.job;
        let script = job.script.as_slice();
        let used = job.lent.used.unwrap_or(script.len());
        let length = job.lent.space.unwrap_or(script.len());
        let working = job
            .lent
            .working
            .unwrap_or(used.saturating_mul(WORKING_SHARE));
        let mut space = lent_space(job.heap, script, length)?;
        let mut working = vec![in job.heap; 0u32; working]?;
        let record = load(
            self.host,
            space.as_mut_slice(),
            used,
            working.as_mut_slice(),
            job.dropped.as_slice(),
        )?;
        let words = space.as_slice().get(..used).unwrap_or(&[]);
        Ok(Script { job, words }.print(self.rt, record)?)
    }

    // Prints the host's table, and the script if the job has one.
    fn print(&self, kind: &str) -> Result<(), Fault> {
        self.print_table(kind)?;
        if self.job.part == Part::BeforeScript {
            return Ok(());
        }
        self.print_load()
    }
}

// The two hosts are made of different lists; what is printed of them is one function.
fn print_rows(rt: &impl Print, job: &Job) -> Result<(), Fault> {
    let host = &Rows::new(job.rows.as_slice(), job.granted.as_slice())?;
    Report { rt, job, host }.print("row")
}

fn print_sheet(rt: &impl Print, job: &Job) -> Result<(), Fault> {
    let host = &Sheet::new(
        job.rows.as_slice(),
        job.entries.as_slice(),
        job.granted.as_slice(),
    )?;
    Report { rt, job, host }.print("sheet")
}

// Prints which rule was broken, and why.
fn print_refusal<F: Copy + Display + Into<Refusal>>(rt: &impl Print, fault: F) -> io::Result<()> {
    let Refusal {
        number,
        layer,
        place,
    } = fault.into();
    println!(rt; "refused: number {number}, layer {layer}, place {place}: {fault}")
}

// Makes the job's host, prints its table and loads the script, or prints the refusal; whether all was accepted.
pub(crate) fn print_job(rt: &impl Print, job: &Job, kind: HostKind) -> io::Result<bool> {
    let printed = match kind {
        HostKind::Rows => print_rows(rt, job),
        HostKind::Sheet => print_sheet(rt, job),
    };
    match printed {
        Ok(()) => return Ok(true),
        Err(Fault::Host(fault)) => print_refusal(rt, fault)?,
        Err(Fault::Call(fault)) => print_refusal(rt, fault)?,
        Err(Fault::Io(error)) => return Err(error),
        Err(Fault::Memory(error)) => return Err(io::Error::from(error)),
    }
    Ok(false)
}
