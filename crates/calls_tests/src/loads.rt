// Loads a script of a test's own, and compares what comes of it.
use calls::load::load;
use refusals::refusal::Refusal;
use rows::Rows;
use std::alloc::{AllocError, Global};
use std::process::Abort;
use std::test::Fail;
use words::word::{Kind, NUMBER_LIMIT};

// What load makes of a script: what it weighs, or why it is refused.
pub(crate) type Expected = Result<u32, Refusal>;

// A refusal by its number, layer and place. A macro, since constants are made of it.
macro_rules! refused {
    ($number:literal, $layer:ident, $place:literal) => {
        Err(Refusal {
            number: $number,
            layer: Layer::$layer,
            place: $place,
        })
    };
}

pub(crate) use refused;

// The lengths that load is given and lent.
#[derive(Clone, Copy, Debug)]
pub(crate) struct Lengths {
    pub(crate) used: usize,
    pub(crate) working: usize,
    pub(crate) labels: usize,
}

pub(crate) const EMPTY: (Kind, u32) = (Kind::Empty, 0);

// How many working words are lent for each word used, written out, so that the tests do not follow the code.
const WORKING_SHARE: usize = 4;

// A word that no test's script has, to see which words were written.
const MARK: u32 = 77;

// By the numbers, since an unlisted kind has no word that can be written.
fn word(kind: Kind, number: u32) -> u32 {
    u32::from(kind)
        .wrapping_mul(NUMBER_LIMIT)
        .wrapping_add(number)
}

// The words of these kinds and numbers.
pub(crate) fn written(heap: Global, words: &[(Kind, u32)]) -> Result<Vec<u32>, AllocError> {
    words
        .iter()
        .map(|(kind, number)| word(*kind, *number))
        .collect(heap)
}

// That a load of a copy of the script comes to what is expected, and leaves space and working words as it says.
pub(crate) fn expect(
    rt: &(impl Abort + AllocGlobal),
    script: &[u32],
    lengths: Lengths,
    expected: Expected,
) -> Result<(), Fail> {
    let mut space = script.to_vec(rt.alloc())?;
    let mut working = vec![in rt.alloc(); MARK; lengths.working]?;
    let dropped = vec![in rt.alloc(); 0u32; lengths.labels]?;
    let answer = load(
        &Rows::least(),
        space.as_mut_slice(),
        lengths.used,
        working.as_mut_slice(),
        dropped.as_slice(),
    );
    let left = if answer.is_ok() { 0 } else { MARK };
    assert!(rt; working.iter().all(|word| *word == left));
    assert!(rt; space.as_slice() == script);
    if let Ok(record) = answer {
        assert_eq!(rt; record.used as usize, lengths.used);
        assert_eq!(rt; record.changes, 0);
    }
    let came = answer.map(|record| record.weight).map_err(Refusal::from);
    assert_eq!(rt; came, expected, "{lengths:?}");
    Ok(())
}

// The same, with as much lent as the script needs.
pub(crate) fn expect_all(
    rt: &(impl Abort + AllocGlobal),
    script: &[u32],
    expected: Expected,
) -> Result<(), Fail> {
    let used = script.len();
    let lengths = Lengths {
        used,
        working: used.saturating_mul(WORKING_SHARE),
        labels: 0,
    };
    expect(rt, script, lengths, expected)
}
