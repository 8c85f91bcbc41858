// The sheet host. Its tests have the names of the row host's where they are about the same, with other rows and
// answers.
use crate::{COUNTS, expect_granted, word};
use host::Host;
use refusals::host::HostFault;
use sheet::Sheet;
use sheet::literals::Literals;
use std::test::Fail;
use values::sheet_value::SheetValue;

const ENTRIES: [SheetValue; 4] = [
    SheetValue::Number(0),
    SheetValue::Number(1),
    SheetValue::MinusZero,
    SheetValue::NotANumber,
];

// The least sheet, and in its place the sheet of these rows, entries and granted names: what `make` said, and what it
// left.
fn make<'a>(
    literals: &'a Literals,
    rows: &'a [u32],
    entries: &'a [SheetValue],
    names: &'a [u32],
) -> (Result<(), HostFault>, Sheet<'a>) {
    let mut host = Sheet::least(literals);
    let made = host.make(rows, entries, names);
    (made, host)
}

// What making a sheet of these rows answers.
fn answer<'a>(
    literals: &'a Literals,
    rows: &'a [u32],
    entries: &'a [SheetValue],
) -> Result<(), HostFault> {
    let (made, _host) = make(literals, rows, entries, &[]);
    made
}

#[test]
fn row_counts(rt: HostRuntime) {
    let literals = Literals::new();
    let mut rows = [word(5, 9); 4097];
    rows[0] = word(1, 0);
    rows[1] = word(1, 1);
    for (length, answer, count) in COUNTS {
        let tried = rows.get(..length).unwrap_or(&[]);
        let (made, host) = make(&literals, tried, &ENTRIES, &[]);
        assert_eq!(rt; made, answer);
        assert_eq!(rt; host.count(), count);
        let new = Sheet::new(tried, &ENTRIES, &[]).map(|host| host.count());
        assert_eq!(rt; new, answer.map(|()| count));
        let last = count.saturating_sub(1);
        assert_eq!(rt; host.effects(last), count > 2);
        assert_eq!(rt; host.value(last).is_none(), count > 2);
    }
}

// Makes a sheet that grants 8, and then tries other rows in its place.
fn make_after<'a>(
    literals: &'a Literals,
    first: &'a [u32],
    rows: &'a [u32],
    entries: &'a [SheetValue],
    names: &'a [u32],
) -> (Result<(), HostFault>, Sheet<'a>) {
    let (_, mut host) = make(literals, first, entries, names);
    let made = host.make(rows, entries, &[]);
    (made, host)
}

// Row 2 refused in each way, after a host that grants 8, which is still there.
#[test]
fn bad_rows(rt: HostRuntime) {
    let literals = Literals::new();
    let good = [word(1, 0), word(1, 1), word(2, 3)];
    let bad = [
        word(0, 0),
        word(6, 0),
        word(1, 4),
        word(2, 4),
        word(3, 2),
        word(3, 3),
        word(4, 8192 * 2),
        word(4, 2),
        word(4, 8192 * 3 + 1),
    ];
    for word in bad {
        let rows = [good[0], good[1], word];
        let (made, host) = make_after(&literals, &good, &rows, &ENTRIES, &[8]);
        assert_eq!(rt; made, Err(HostFault::Row(2)));
        assert_eq!(rt; host.count(), 3);
        assert_eq!(rt; host.truth(2), Some(false));
        assert!(rt; host.granted(8));
    }
}

// Kinds 0 and 6 to 31 are refused at their row.
#[test]
fn bad_kinds(rt: HostRuntime) {
    let literals = Literals::new();
    for kind in 0..32 {
        let rows = [word(1, 0), word(1, 1), word(kind, 0)];
        let expected = if (1..=5).contains(&kind) {
            Ok(())
        } else {
            Err(HostFault::Row(2))
        };
        assert_eq!(rt; answer(&literals, &rows, &ENTRIES), expected);
    }
}

// Only rows of kind 1, 2 and 5 may be compared.
#[test]
fn operands(rt: HostRuntime) {
    let literals = Literals::new();
    for other in 0..5 {
        let expected = if other < 3 {
            Ok(())
        } else {
            Err(HostFault::Row(5))
        };
        for last in [word(4, 8192 + other), word(4, 8192 * other + 1)] {
            let rows = [
                word(1, 0),
                word(1, 1),
                word(5, 77),
                word(3, 1),
                word(4, 8192 * 2 + 1),
                last,
            ];
            assert_eq!(rt; answer(&literals, &rows, &ENTRIES), expected);
        }
    }
}

// Row 0 is the whole number 0 by literal, which minus zero is not, and row 1 the whole number 1.
#[test]
fn first_rows(rt: HostRuntime) {
    let literals = Literals::new();
    for bad in [
        word(1, 1),
        word(1, 2),
        word(1, 3),
        word(1, 4),
        word(2, 0),
        word(5, 0),
    ] {
        let rows = [bad, word(1, 1)];
        assert_eq!(rt; answer(&literals, &rows, &ENTRIES), Err(HostFault::Row(0)));
    }
    for bad in [word(1, 0), word(1, 2), word(2, 1), word(3, 0), word(0, 1)] {
        let rows = [word(1, 0), bad];
        assert_eq!(rt; answer(&literals, &rows, &ENTRIES), Err(HostFault::Row(1)));
    }
}

// Of each expression of the sheet below: its truth, whether a value is known, effects, literal.
const ANSWERS: [(Option<bool>, bool, bool, bool); 10] = [
    (Some(false), true, false, true),
    (Some(true), true, false, true),
    (Some(false), true, false, false),
    (None, false, true, false),
    (Some(true), true, false, false),
    (None, false, true, false),
    (Some(true), true, false, false),
    (None, false, true, false),
    (Some(false), true, false, false),
    (None, false, true, false),
];

// Literals, a name, a command, whether a name or a command is false, and comparisons.
#[test]
fn questions(rt: HostRuntime) {
    let literals = Literals::new();
    let rows = [
        word(1, 0),
        word(1, 1),
        word(2, 2),
        word(5, 0),
        word(3, 2),
        word(3, 3),
        word(4, 8192 * 2),
        word(4, 8192 * 3 + 2),
        word(3, 6),
    ];
    let (made, host) = make(&literals, &rows, &ENTRIES, &[]);
    assert_eq!(rt; made, Ok(()));
    for (e, expected) in (0..).zip(ANSWERS) {
        let answers = (
            host.truth(e),
            host.value(e).is_some(),
            host.effects(e),
            host.literal(e),
        );
        assert_eq!(rt; answers, expected);
    }
    for (e, value) in [
        (2, SheetValue::Number(0)),
        (6, SheetValue::Yes),
        (8, SheetValue::No),
    ] {
        assert!(rt; has_value(&host, e, value));
    }
}

// Whether an expression has a known value that is strictly equal to this one.
fn has_value(host: &Sheet<'_>, e: u32, value: SheetValue) -> bool {
    host.value(e).is_some_and(|known| host.same(&known, &value))
}

// 4,094 'is false' rows, each about the one before it.
#[test]
fn deep_chain(rt: HostRuntime) -> Result<(), Fail> {
    let literals = Literals::new();
    let mut rows = [0; 4096];
    rows[0] = word(1, 0);
    rows[1] = word(1, 1);
    for (row, operand) in rows.iter_mut().skip(2).zip(1..) {
        *row = word(3, operand);
    }
    let (made, host) = make(&literals, &rows, &ENTRIES, &[]);
    assert_eq!(rt; made, Ok(()));
    assert_eq!(rt; host.truth(4094), Some(false));
    assert_eq!(rt; host.truth(4095), Some(true));
    assert!(rt; !host.effects(4095));
    assert!(rt; has_value(&host, 4095, SheetValue::Yes));
    Ok(())
}

#[test]
fn granted_names(rt: HostRuntime) {
    let literals = Literals::new();
    let mut names = [3; 5000];
    names[4999] = 9;
    let rows = [word(1, 0), word(1, 1)];
    let (_, none) = make(&literals, &rows, &ENTRIES, &[]);
    expect_granted(&rt, &none, &[], 3);
    let (made, host) = make(&literals, &rows, &ENTRIES, &names);
    assert_eq!(rt; made, Ok(()));
    expect_granted(&rt, &host, &[9], 8);
}
