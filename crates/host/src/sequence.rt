// The questions about an expression as a script holds it: one word of kind Expression, or the word of a
// Sequence and its parts. Proved once for every host. A host and words, and no struct of the two: callers have them
// apart, and would make one for each question.
ghost use Rattle.std.specs.Prelude.{◌≡◌};
ghost use Rattle.std.specs.Option.{option_map};
ghost use Rattle.host.specs.Sequence.{numbers, part_numbers, last_number, sole_number, truth_of, value_of, effects_of, literal_of, SequenceLaws};

use crate::Host;
use words::word::{Kind, Word};

// The words of the parts.
fn parts(words: &[u32]) -> &[u32]
    ensures { numbers result.now ≡ part_numbers words.now }
{
    match words.split_first() {
        Some((first, rest)) if Word::from(*first).kind == Kind::Sequence => rest,
        _ => words,
    }
}

// The number of the last part.
fn last_part(words: &[u32]) -> Option<u32>
    ensures { result ≡ last_number (part_numbers words.now) }
{
    match parts(words) {
        [.., word] => Some(Word::from(*word).number),
        [] => None,
    }
}

// The number of the only part, if there is one and no more.
fn sole_part(words: &[u32]) -> Option<u32>
    ensures { result ≡ sole_number (part_numbers words.now) }
{
    match parts(words) {
        [word] => Some(Word::from(*word).number),
        _ => None,
    }
}

// Whether any of the parts has effects.
fn any_effects<H: Host>(h: &H, parts: &[u32]) -> bool
    ensures { result ≡ effects_of (H.Host.model h.now) (numbers parts.now) }
{
    parts.iter().any(|word| h.effects(Word::from(*word).number))
}

// The truth of an expression, where it is known: its last part's.
pub fn truth_of<H: Host>(h: &H, words: &[u32]) -> Option<bool>
    ensures answer { result ≡ truth_of (H.Host.model h.now) (part_numbers words.now) }
    ensures laws { SequenceLaws (H.Host.model h.now) words.now }
{
    h.truth(last_part(words)?)
}

// The value of an expression, where it is known: its last part's.
pub fn value_of<H: Host>(h: &H, words: &[u32]) -> Option<H::Value>
    ensures answer { option_map H.Host.meaning result ≡ value_of (H.Host.model h.now) (part_numbers words.now) }
    ensures laws { SequenceLaws (H.Host.model h.now) words.now }
{
    h.value(last_part(words)?)
}

// Whether an expression has effects: whether any part has.
pub fn effects_of<H: Host>(h: &H, words: &[u32]) -> bool
    ensures answer { result ≡ effects_of (H.Host.model h.now) (part_numbers words.now) }
    ensures laws { SequenceLaws (H.Host.model h.now) words.now }
{
    any_effects(h, parts(words))
}

// Whether an expression is a literal: a single part that is one.
pub fn literal_of<H: Host>(h: &H, words: &[u32]) -> bool
    ensures answer { result ≡ literal_of (H.Host.model h.now) (part_numbers words.now) }
    ensures laws { SequenceLaws (H.Host.model h.now) words.now }
{
    sole_part(words).is_some_and(|e| h.literal(e))
}
