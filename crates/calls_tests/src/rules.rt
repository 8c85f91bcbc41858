// Refusals 6 to 9: the rules of a word.
use crate::loads::*;
use refusals::refusal::{Layer, Refusal};
use std::iter;
use std::process::Abort;
use std::test::Fail;
use words::word::Kind;

const BODY: (Kind, u32) = (Kind::Body, 1);

const TEST: (Kind, u32) = (Kind::Expression, 1);

const NAME: (Kind, u32) = (Kind::Name, 0);

const UNLISTED: (Kind, u32) = (Kind::Unlisted, 0);

// The words of a script, and what load makes of it.
type Case = (&'static [(Kind, u32)], Expected);

// So many Blocks inside one another, the words in the innermost, and what load makes of them.
type Nested = (usize, &'static [(Kind, u32)], Expected);

fn expect_each(rt: &(impl Abort + AllocGlobal), cases: &[Case]) -> Result<(), Fail> {
    for (words, expected) in cases {
        let script = written(rt.alloc(), words)?;
        expect_all(rt, script.as_slice(), *expected)?;
    }
    Ok(())
}

fn expect_nested(rt: &(impl Abort + AllocGlobal), cases: &[Nested]) -> Result<(), Fail> {
    for (blocks, last, expected) in cases {
        let mut words = vec![in rt.alloc(); BODY]?;
        words.extend(iter::repeat_n((Kind::Block, 1), *blocks))?;
        words.extend_from_slice(last)?;
        let script = written(rt.alloc(), words.as_slice())?;
        expect_all(rt, script.as_slice(), *expected)?;
    }
    Ok(())
}

static DEPTHS: [Nested; 4] = [
    (100, &[(Kind::Block, 0)], Ok(203)),
    (101, &[(Kind::Block, 0)], refused!(7, Tree, 102)),
    (100, &[(Kind::Switch, 0), TEST], Ok(205)),
    (
        100,
        &[(Kind::Switch, 1), TEST, (Kind::Default, 0)],
        refused!(7, Tree, 103),
    ),
];

#[test]
fn depth(rt: HostRuntime) -> Result<(), Fail> {
    expect_nested(&rt, &DEPTHS)
}

// Too deep, and of no kind or without a target: the lower number is told.
static TWO_RULES: [Nested; 2] = [
    (101, &[(Kind::Body, 0)], refused!(6, Tree, 102)),
    (101, &[(Kind::Break, 0)], refused!(7, Tree, 102)),
];

// A bad word after a bad word; a script without a Body.
static FIRST_WORDS: [Case; 2] = [
    (
        &[(Kind::Body, 2), (Kind::Break, 0), UNLISTED],
        refused!(9, Tree, 1),
    ),
    (&[EMPTY], refused!(6, Tree, 0)),
];

#[test]
fn first_rule_first(rt: HostRuntime) -> Result<(), Fail> {
    expect_nested(&rt, &TWO_RULES)?;
    expect_each(&rt, &FIRST_WORDS)
}

static FORMAT: [Case; 6] = [
    // an empty script
    (&[(Kind::Body, 0)], Ok(1)),
    // a Let that stands alone
    (
        &[BODY, (Kind::If, 0), TEST, (Kind::Let, 1), NAME],
        refused!(6, Tree, 3),
    ),
    // numbers: a For with both beginnings, a Var with none, a short Sequence, a Try with nothing more
    (
        &[BODY, (Kind::For, 3), TEST, (Kind::Var, 1), NAME, EMPTY],
        refused!(6, Tree, 1),
    ),
    (&[BODY, (Kind::Var, 0)], refused!(6, Tree, 1)),
    (
        &[BODY, (Kind::Expr, 0), (Kind::Sequence, 1), TEST],
        refused!(6, Tree, 2),
    ),
    (
        &[BODY, (Kind::Try, 0), (Kind::Body, 0)],
        refused!(6, Tree, 1),
    ),
];

#[test]
fn format(rt: HostRuntime) -> Result<(), Fail> {
    expect_each(&rt, &FORMAT)
}

static DEFAULTS: [Case; 3] = [
    // one Default, two of them
    (
        &[
            BODY,
            (Kind::Switch, 2),
            TEST,
            (Kind::Default, 0),
            (Kind::Case, 0),
            TEST,
        ],
        Ok(12),
    ),
    (
        &[
            BODY,
            (Kind::Switch, 2),
            TEST,
            (Kind::Default, 0),
            (Kind::Default, 0),
        ],
        refused!(6, Tree, 4),
    ),
    // a Let in a case
    (
        &[
            BODY,
            (Kind::Switch, 1),
            TEST,
            (Kind::Default, 1),
            (Kind::Let, 1),
            NAME,
        ],
        Ok(11),
    ),
];

#[test]
fn defaults(rt: HostRuntime) -> Result<(), Fail> {
    expect_each(&rt, &DEFAULTS)
}

// The host has two expressions.
static EXPRESSIONS: [Case; 4] = [
    (&[BODY, (Kind::Expr, 0), (Kind::Expression, 1)], Ok(4)),
    (
        &[BODY, (Kind::Expr, 0), (Kind::Expression, 2)],
        refused!(8, Host, 2),
    ),
    (
        &[
            BODY,
            (Kind::Expr, 0),
            (Kind::Sequence, 2),
            (Kind::Expression, 0),
            (Kind::Expression, 134_217_727),
        ],
        refused!(8, Host, 4),
    ),
    (
        &[
            BODY,
            (Kind::Expr, 0),
            (Kind::Sequence, 2),
            (Kind::Expression, 1),
            (Kind::Expression, 134_217_727),
        ],
        refused!(8, Host, 4),
    ),
];

#[test]
fn expressions(rt: HostRuntime) -> Result<(), Fail> {
    expect_each(&rt, &EXPRESSIONS)
}

static JUMPS: [Case; 5] = [
    (
        &[
            BODY,
            (Kind::Switch, 1),
            TEST,
            (Kind::Default, 1),
            (Kind::Continue, 0),
        ],
        refused!(9, Tree, 4),
    ),
    // to a label on the loop, past another label; to one with a Block between
    (
        &[
            BODY,
            (Kind::Label, 1),
            (Kind::Label, 2),
            (Kind::While, 0),
            TEST,
            (Kind::ContinueTo, 1),
        ],
        Ok(10),
    ),
    (
        &[
            BODY,
            (Kind::Label, 1),
            (Kind::Block, 1),
            (Kind::While, 0),
            TEST,
            (Kind::ContinueTo, 1),
        ],
        refused!(9, Tree, 5),
    ),
    (
        &[
            BODY,
            (Kind::Label, 1),
            (Kind::Block, 1),
            (Kind::While, 0),
            TEST,
            (Kind::BreakTo, 1),
        ],
        Ok(10),
    ),
    // a label that is no longer open
    (
        &[(Kind::Body, 2), (Kind::Label, 1), EMPTY, (Kind::BreakTo, 1)],
        refused!(9, Tree, 3),
    ),
];

#[test]
fn jumps(rt: HostRuntime) -> Result<(), Fail> {
    expect_each(&rt, &JUMPS)
}

// A label inside itself; one after itself.
static LABELS: [Case; 2] = [
    (
        &[
            BODY,
            (Kind::Label, 1),
            (Kind::Try, 1),
            (Kind::Body, 0),
            (Kind::Catch, 1),
            (Kind::Label, 1),
            EMPTY,
        ],
        refused!(9, Tree, 5),
    ),
    (
        &[
            (Kind::Body, 2),
            (Kind::Label, 1),
            EMPTY,
            (Kind::Label, 1),
            EMPTY,
        ],
        Ok(7),
    ),
];

#[test]
fn labels(rt: HostRuntime) -> Result<(), Fail> {
    expect_each(&rt, &LABELS)
}
