// Woolscree: reads jobs, makes their hosts, loads their scripts and prints what it finds.

#![tactic(auto)]

mod job;
mod line;
mod pretty;
mod problem;
mod report;
mod row;
mod script;
mod summary;
mod told;
mod value;

use anyhow::ensure;
use job::Job;
use problem::Problem;
use report::print_job;
use std::io::Read;
use std::{env, fs};

// With this argument a refused job counts as reported: the program still ends with status 0.
const REPORT: &str = "--report";

// Reads one job and prints what it comes to; whether all of it was accepted.
fn run_job(rt: &HostRuntime, text: &str) -> anyhow::Result<bool> {
    match Job::read(rt.alloc(), text) {
        Ok(job) => match job.host {
            Some(kind) => Ok(print_job(rt, &job, kind)?),
            None => {
                println!(rt; "syntax error: {}", Problem::NoHost)?;
                Ok(false)
            }
        },
        Err(fault) => {
            println!(rt; "syntax error: {fault}")?;
            Ok(false)
        }
    }
}

fn run_file(rt: &HostRuntime, path: &str) -> anyhow::Result<bool> {
    let text = fs::read_to_string(rt, path)?;
    println!(rt; "== {path}")?;
    run_job(rt, text.as_str())
}

fn run_stdin(rt: &HostRuntime) -> anyhow::Result<bool> {
    let mut text = String::new(rt.alloc());
    rt.stdin().read_to_string(&mut text)?;
    run_job(rt, text.as_str())
}

// Runs the jobs named by the arguments, or the one on standard input.
fn run(rt: &HostRuntime) -> anyhow::Result<()> {
    let arguments: Vec<String> = env::args(rt)?.skip(1).collect(rt.alloc())?;
    let (flags, paths): (Vec<&str>, Vec<&str>) = arguments
        .iter()
        .map(|argument| argument.as_str())
        .partition(rt.alloc(), |argument| *argument == REPORT)?;
    let mut accepted = true;
    for path in &paths {
        accepted &= run_file(rt, path)?;
    }
    if paths.is_empty() {
        accepted = run_stdin(rt)?;
    }
    ensure!(accepted || !flags.is_empty(), "a job was refused");
    Ok(())
}

fn main(rt: HostRuntime) -> anyhow::Result<()> {
    run(&rt)
}
