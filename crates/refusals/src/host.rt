// Why rows make no host.
ghost use Rattle.std.specs.Prelude.{◌≡◌, Some};
ghost use Rattle.refusals.specs.HostRefusal.{host_refusal_of};
ghost use Rattle.refusals.specs.Texts.{host_fault_text};

use crate::refusal::{Layer, Refusal};
use std::error::Error;
use std::fmt;

#[derive(Clone, Copy, PartialEq, Eq, Debug)]
pub enum HostFault {
    // There are this many rows, which is not 2 to 4,096.
    RowCount(usize),
    // The row at this index is not as it must be.
    Row(usize),
}

// The number of every refusal to make a host: the caller is told a number, and this names it.
const HOST_REFUSAL: u32 = 13;

// The refusal that the caller is given: the place is the number of rows, or the index of the row.
impl From<HostFault> for Refusal {
    ghost from_gives = { λ f r. r ≡ host_refusal_of f };

    fn from(fault: HostFault) -> Refusal {
        let place = match fault {
            HostFault::RowCount(count) => count,
            HostFault::Row(index) => index,
        };
        Refusal {
            number: HOST_REFUSAL,
            layer: Layer::Host,
            place,
        }
    }
}

impl fmt::Display for HostFault {
    ghost output = { λ f. Some (host_fault_text f) };

    fn fmt<W: fmt::Write>(&self, f: &mut fmt::Formatter<W>) -> fmt::Result {
        f.write_str(match self {
            HostFault::RowCount(_) => "a host has 2 to 4,096 rows",
            HostFault::Row(0) => "row 0 must be the literal 0",
            HostFault::Row(1) => "row 1 must be the literal 1",
            HostFault::Row(_) =>
                "the row is of no kind that this host has, or what it looks at is not there, not earlier or of the wrong kind",
        })
    }
}

impl Error for HostFault {}
