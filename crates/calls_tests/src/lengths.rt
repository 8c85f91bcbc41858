// Refusals 1 to 5 and 10: what is lent, and how many words there are.
use crate::loads::*;
use refusals::refusal::{Layer, Refusal};
use std::process::Abort;
use std::test::Fail;
use words::word::Kind;

// How many words are used, how many working words and labels there are, and what load makes of it.
type Case = (usize, usize, usize, Expected);

fn expect_each(
    rt: &(impl Abort + AllocGlobal),
    words: &[(Kind, u32)],
    cases: &[Case],
) -> Result<(), Fail> {
    let script = written(rt.alloc(), words)?;
    for (used, working, labels, expected) in cases {
        let lengths = Lengths {
            used: *used,
            working: *working,
            labels: *labels,
        };
        expect(rt, script.as_slice(), lengths, *expected)?;
    }
    Ok(())
}

// Five words, of which the last three are a statement.
static FIVE: [(Kind, u32); 5] = [(Kind::Body, 2), EMPTY, (Kind::Block, 2), EMPTY, EMPTY];

static USED_OF_TWO: [Case; 4] = [
    (0, 8, 0, refused!(1, Space, 0)),
    (3, 12, 0, refused!(1, Space, 3)),
    // the lower number is told
    (3, 0, 17, refused!(1, Space, 3)),
    (2, 8, 0, Ok(2)),
];

static USED_OF_FIVE: [Case; 4] = [
    (0, 20, 0, refused!(1, Space, 0)),
    (6, 24, 0, refused!(1, Space, 6)),
    // the lower number is told
    (6, 0, 17, refused!(1, Space, 6)),
    (5, 20, 0, Ok(6)),
];

#[test]
fn used_length(rt: HostRuntime) -> Result<(), Fail> {
    expect_each(&rt, &[(Kind::Body, 1), EMPTY], &USED_OF_TWO)?;
    expect_each(&rt, &FIVE, &USED_OF_FIVE)
}

static LONGEST: [Case; 3] = [
    (16_000, 64_000, 0, Ok(16_000)),
    (16_000, 64_004, 0, Ok(16_000)),
    (16_001, 64_004, 0, refused!(2, Space, 16_001)),
];

// A Body of 15,999 statements, with 16,000 words and with one more.
#[test]
fn longest_script(rt: HostRuntime) -> Result<(), Fail> {
    let mut words = vec![in rt.alloc(); EMPTY; 16_001]?;
    if let Some(body) = words.as_mut_slice().first_mut() {
        *body = (Kind::Body, 15_999);
    }
    expect_each(&rt, words.as_slice(), &LONGEST)
}

static WORKING: [Case; 5] = [
    (5, 20, 0, Ok(5)),
    (5, 19, 0, refused!(3, Space, 19)),
    (5, 19, 17, refused!(3, Space, 19)),
    (5, 20, 16, Ok(5)),
    (5, 20, 17, refused!(4, Space, 17)),
];

static WORKING_OF_FIVE: [Case; 5] = [
    (5, 19, 0, refused!(3, Space, 19)),
    (5, 19, 17, refused!(3, Space, 19)),
    (5, 21, 16, Ok(6)),
    (5, 20, 17, refused!(4, Space, 17)),
    (4, 15, 0, refused!(3, Space, 15)),
];

#[test]
fn working_words_and_labels(rt: HostRuntime) -> Result<(), Fail> {
    expect_each(
        &rt,
        &[(Kind::Body, 4), EMPTY, EMPTY, EMPTY, EMPTY],
        &WORKING,
    )?;
    expect_each(&rt, &FIVE, &WORKING_OF_FIVE)
}

static DUE_AND_LEFT: [Case; 3] = [
    (2, 8, 0, refused!(5, Reader, 2)),
    (3, 12, 0, Ok(3)),
    (4, 16, 0, refused!(10, Reader, 3)),
];

static DUE_OF_FIVE: [Case; 4] = [
    (1, 4, 0, refused!(5, Reader, 1)),
    (2, 8, 0, refused!(5, Reader, 2)),
    (3, 12, 0, refused!(5, Reader, 3)),
    (4, 16, 0, refused!(5, Reader, 4)),
];

#[test]
fn words_due_and_left(rt: HostRuntime) -> Result<(), Fail> {
    expect_each(&rt, &[(Kind::Body, 2), EMPTY, EMPTY, EMPTY], &DUE_AND_LEFT)?;
    expect_each(&rt, &FIVE, &DUE_OF_FIVE)?;
    // more parts than words, words left over
    expect_each(
        &rt,
        &[(Kind::Body, 134_217_727)],
        &[(1, 4, 0, refused!(5, Reader, 1))],
    )?;
    expect_each(
        &rt,
        &[(Kind::Body, 0), (Kind::Unlisted, 0)],
        &[(2, 8, 0, refused!(10, Reader, 1))],
    )
}
