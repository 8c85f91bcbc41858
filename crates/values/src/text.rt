// A text of 1 to 16 bytes, in two numbers and a length.
ghost use Rattle.std.specs.Prelude.{◌^◌, ◌<◌, ◌≤◌, Some};
ghost use Rattle.values.specs.Bytes.{byte_count, half_count, join_halves, longest_text};

use std::{fmt, str};

pub mod bytes;

// The first byte is the lowest of `low`, the ninth the lowest of `high`; bytes past the length are 0. Two numbers and a
// length, no array, as docs/HOSTS.md has it.
#[derive(Clone, Copy, PartialEq, Eq, Debug)]
pub struct Text {
    low: u64,
    high: u64,
    len: usize,
    ghost least: { 1 ≤ len },
    ghost most: { len ≤ longest_text },
    ghost half: { low < half_count },
    ghost within: { join_halves low high < byte_count ^ len },
}

impl fmt::Display for Text {
    ghost use Rattle.values.specs.Shown.{text_shown};

    ghost output = { λ t. Some (text_shown t) };

    #[tactic(auto, using(crate::proofs::ShownLemmas::shown_text, crate::proofs::ShownLemmas::shown_mark))]
    fn fmt<W: fmt::Write>(&self, f: &mut fmt::Formatter<W>) -> fmt::Result {
        let bytes = self.bytes();
        match str::from_utf8(&bytes[..self.len]) {
            Ok(inner) => write!(f, "\"{inner}\""),
            Err(_) => f.write_str("\"?\""),
        }
    }
}
