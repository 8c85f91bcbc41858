// Tests of the two hosts, at their limits and row by row.

#![tactic(auto)]

ghost use Rattle.std.specs.Prelude.{◌≡◌, pos};
ghost use Rattle.sheet.specs.SheetModel.{largest_answer_lem};
ghost use Rattle.hosts_tests.specs.Examples.{Examples};

#[cfg(test)]
use host::Host;
#[cfg(test)]
use refusals::host::HostFault;
#[cfg(test)]
use std::process::Abort;

#[cfg(test)]
mod row_host;
#[cfg(test)]
mod sheet_values;
#[cfg(test)]
mod sheets;

// The largest answer that a command of a sheet gives as a whole number.
pub fn largest_answer() -> i32
    ensures answer { result ≡ pos largest_answer_lem }
    ensures examples { Examples }
{
    i32::MAX
}

// How many bits a row word's number has, written out, so that the tests do not follow the code.
#[cfg(test)]
const NUMBER_BITS: u32 = 27;

// A row word.
#[cfg(test)]
fn word(kind: u32, number: u32) -> u32 {
    kind << NUMBER_BITS | number
}

// How many rows are tried, the answer, and how many expressions the host has then.
#[cfg(test)]
const COUNTS: [(usize, Result<(), HostFault>, u32); 5] = [
    (1, Err(HostFault::RowCount(1)), 2),
    (0, Err(HostFault::RowCount(0)), 2),
    (4097, Err(HostFault::RowCount(4097)), 2),
    (2, Ok(()), 2),
    (4096, Ok(()), 4096),
];

// That a host grants these names, and not another.
#[cfg(test)]
fn expect_granted(rt: &impl Abort, host: &impl Host, granted: &[u32], other: u32) {
    for name in granted {
        assert!(rt; host.granted(*name));
    }
    assert!(rt; !host.granted(other));
}
