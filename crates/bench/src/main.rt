// Measures load on scripts of four shapes and three lengths. Without arguments it only loads them, and prints
// what does not change from run to run; with `--time` it prints how long a load takes.

#![tactic(auto)]

mod shape;

use calls::load::{WORKING_SHARE, load};
use rows::Rows;
use shape::Shape;
use std::env;
use std::time::Instant;

const TIME: &str = "--time";

const SHAPES: [Shape; 4] = [Shape::Flat, Shape::Deep, Shape::Labels, Shape::Jumps];

const LENGTHS: [usize; 3] = [1_000, 4_000, 16_000];

// How many loads are timed together.
const ROUNDS: u64 = 200;

const NANOSECONDS: u64 = 1_000_000_000;

// Times for a word are counted in so many parts of a nanosecond.
const PARTS: u64 = 1000;

const PERCENT: u64 = 100;

// A script, and the working words that its load is lent.
#[derive(Drop)]
struct Trial {
    script: Vec<u32>,
    working: Vec<u32>,
}

impl Trial {
    // Loads the script so many times; whether it was accepted each time.
    fn load_often(&mut self, rounds: u64) -> bool {
        let host = Rows::least();
        let used = self.script.len();
        let script = self.script.as_mut_slice();
        let working = self.working.as_mut_slice();
        (0..rounds).all(|_| load(&host, script, used, working, &[]).is_ok())
    }

    // How many nanoseconds one load takes, on the average.
    fn measure(&mut self, rt: &HostRuntime) -> anyhow::Result<u64> {
        let begin = Instant::now(rt)?;
        let _ = self.load_often(ROUNDS);
        let taken = begin.elapsed(rt)?;
        let nanoseconds = taken.as_nanos() / u128::from(ROUNDS);
        Ok(u64::try_from(nanoseconds).unwrap_or(u64::MAX))
    }
}

fn print_shape(rt: &HostRuntime, shape: Shape, timed: bool) -> anyhow::Result<()> {
    let mut shortest: Option<u64> = None;
    for length in LENGTHS {
        let script = shape.script(rt.alloc(), length)?;
        let words = script.len();
        let working = vec![in rt.alloc(); 0u32; words.saturating_mul(WORKING_SHARE)]?;
        let mut trial = Trial { script, working };
        let accepted = trial.load_often(1);
        println!(rt; "{shape}: {words} words, accepted: {accepted}")?;
        if timed {
            let taken = trial.measure(rt)?;
            let each = (taken.saturating_mul(PARTS) / (words as u64).max(1)).max(1);
            let first = *shortest.get_or_insert(each);
            let rate = NANOSECONDS * PARTS / each;
            let ratio = each.saturating_mul(PERCENT) / first.max(1);
            println!(rt;
                "  {taken} ns a load, {rate} words a second, {ratio} % of the time per word of the shortest"
            )?;
        }
    }
    Ok(())
}

fn run(rt: &HostRuntime) -> anyhow::Result<()> {
    let timed = env::args(rt)?
        .skip(1)
        .any(|argument| argument.as_str() == TIME);
    for shape in SHAPES {
        print_shape(rt, shape, timed)?;
    }
    Ok(())
}

fn main(rt: HostRuntime) -> anyhow::Result<()> {
    run(&rt)
}
