// Making a text of bytes, and reading its bytes.
ghost use Rattle.std.specs.Prelude.{◌≡◌, ◌^◌, ◌<◌, ◌≤◌, length, take, if◌then◌else◌, Some, None};
ghost use Rattle.std.specs.List.{slice_get};
ghost use Rattle.std.specs.Option.{option_map};
ghost use Rattle.values.specs.Bytes.{bytes_of, text_length, byte_count, half_length};
ghost use Rattle.values.specs.SheetValues.{text_bytes};

use crate::text::Text;

const BYTE_BITS: usize = 8;

const BYTE_COUNT: u64 = 1 << BYTE_BITS;

const HALF_LENGTH: usize = 8;

const HALF_BITS: usize = BYTE_BITS * HALF_LENGTH;

const LONGEST_TEXT: usize = 16;

// The number whose lowest bytes these are.
#[tactic(auto, using(crate::proofs::TextLemmas::length_bytes))]
fn number_of(bytes: &[u8]) -> u64
    requires { length bytes.now ≤ half_length }
    ensures bytes { bytes_of (length bytes.now) result ≡ bytes.now }
    ensures within { result < byte_count ^ length bytes.now }
{
    let mut number = 0;
    for byte in bytes.iter().rev() {
        number = number * BYTE_COUNT + u64::from(*byte);
    }
    number
}

impl Text {
    // The text of these bytes, of which there are 1 to 16.
    #[tactic(auto, using(crate::proofs::TextLemmas::allowed_length, crate::proofs::TextLemmas::halves_bytes, crate::proofs::TextLemmas::halves_within))]
    pub fn new(bytes: &[u8]) -> Option<Text>
        ensures { option_map text_bytes result ≡ (if text_length (length bytes.now) then Some bytes.now else None) }
    {
        let len = bytes.len();
        if !(1..=LONGEST_TEXT).contains(&len) {
            return None;
        }
        if len <= HALF_LENGTH {
            return Some(Text {
                low: number_of(bytes),
                high: 0,
                len,
            });
        }
        let (first, rest) = bytes.split_at(HALF_LENGTH);
        Some(Text {
            low: number_of(first),
            high: number_of(rest),
            len,
        })
    }

    // How many bytes the text has.
    #[tactic(auto, using(crate::proofs::TextLemmas::length_text))]
    pub fn len(&self) -> usize
        ensures { result ≡ length (text_bytes self.now) }
    {
        self.len
    }

    // The bytes, and zeros after them.
    pub(crate) fn bytes(&self) -> [u8; LONGEST_TEXT]
        ensures { take self.now.len result ≡ text_bytes self.now }
    {
        let number = u128::from(self.low) + (u128::from(self.high) << HALF_BITS);
        number.to_le_bytes()
    }

    // The byte at this place, where there is one.
    pub fn byte(&self, i: usize) -> Option<u8>
        ensures { result ≡ slice_get (text_bytes self.now) i }
    {
        let bytes = self.bytes();
        bytes[..self.len].get(i).copied()
    }
}
