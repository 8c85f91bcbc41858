// The row host.
use crate::{COUNTS, expect_granted, word};
use host::Host;
use refusals::host::HostFault;
use refusals::refusal::{Layer, Refusal};
use rows::Rows;

// A row of each kind after the literals 0 and 1.
const SAMPLE: [u32; 7] = [
    134217728, 134217729, 134217732, 268435461, 402653190, 536870919, 671088648,
];

// The least row host, and in its place the host of these rows and granted names: what `make` said, and what it left.
fn make<'a>(rows: &'a [u32], names: &'a [u32]) -> (Result<(), HostFault>, Rows<'a>) {
    let mut host = Rows::least();
    let made = host.make(rows, names);
    (made, host)
}

// Each number of rows, in place of the least host and of the host before.
#[test]
fn row_counts(rt: HostRuntime) {
    let mut rows = [word(3, 0); 4097];
    rows[0] = word(1, 0);
    rows[1] = word(1, 1);
    let mut kept = Rows::least();
    for (length, answer, count) in COUNTS {
        let tried = rows.get(..length).unwrap_or(&[]);
        let (made, fresh) = make(tried, &[]);
        assert_eq!(rt; made, answer);
        assert_eq!(rt; kept.make(tried, &[]), answer);
        let new = Rows::new(tried, &[]).map(|host| host.count());
        assert_eq!(rt; new, answer.map(|()| count));
        for host in [&fresh, &kept] {
            assert_eq!(rt; host.count(), count);
            assert!(rt; host.value(count.saturating_sub(1)).is_some());
            assert_eq!(rt; host.value(count), None);
        }
    }
    assert_eq!(rt; kept.value(4095), Some(0));
}

// Kinds 0 and 6 to 31 are refused at their row, and the host found before is still there.
#[test]
fn bad_kinds(rt: HostRuntime) {
    for kind in 0..32 {
        let mut bad = SAMPLE;
        bad[4] = word(kind, 3);
        let (made, mut host) = make(&SAMPLE, &[8]);
        assert_eq!(rt; made, Ok(()));
        let made = host.make(&bad, &[]);
        if (1..=5).contains(&kind) {
            assert_eq!(rt; made, Ok(()));
            assert!(rt; !host.granted(8));
        } else {
            assert_eq!(rt; made, Err(HostFault::Row(4)));
            assert_eq!(rt; host.value(4), Some(6));
            assert!(rt; host.granted(8));
        }
    }
}

// Rows 0 and 1 other than the literals 0 and 1, and the index of the bad one.
const BAD_FIRST: [(u32, u32, u32, u32, usize); 8] = [
    (1, 1, 1, 1, 0),
    (2, 0, 1, 1, 0),
    (0, 0, 1, 1, 0),
    (3, 0, 1, 1, 0),
    (1, 0, 1, 0, 1),
    (1, 0, 1, 2, 1),
    (1, 0, 2, 1, 1),
    (1, 0, 6, 1, 1),
];

#[test]
fn first_rows(rt: HostRuntime) {
    for (kind_0, number_0, kind_1, number_1, bad) in BAD_FIRST {
        let rows = [word(kind_0, number_0), word(kind_1, number_1), 0];
        let (made, host) = make(&rows, &[]);
        assert_eq!(rt; made, Err(HostFault::Row(bad)));
        assert_eq!(rt; host.count(), 2);
    }
}

#[test]
fn refusals(rt: HostRuntime) {
    for (fault, place) in [(HostFault::Row(1), 1), (HostFault::RowCount(4097), 4097)] {
        let refusal = Refusal {
            number: 13,
            layer: Layer::Host,
            place,
        };
        assert_eq!(rt; Refusal::from(fault), refusal);
    }
}

#[test]
fn questions(rt: HostRuntime) {
    let (made, host) = make(&SAMPLE, &[]);
    assert_eq!(rt; made, Ok(()));
    // value, truth, effects, literal
    let table = [
        (Some(0), Some(false), false, true),
        (Some(1), Some(true), false, true),
        (Some(4), Some(true), false, true),
        (Some(5), Some(true), false, false),
        (Some(6), Some(true), true, false),
        (None, None, true, false),
        (None, None, false, false),
        (None, None, true, false),
    ];
    for (e, expected) in (0..).zip(table) {
        let answers = (
            host.value(e),
            host.truth(e),
            host.effects(e),
            host.literal(e),
        );
        assert_eq!(rt; answers, expected);
    }
    assert!(rt; host.same(&4, &4) && !host.same(&4, &5));
}

#[test]
fn granted_names(rt: HostRuntime) {
    let mut names = [7; 5000];
    names[4999] = u32::MAX;
    let (_, host) = make(&SAMPLE, &names);
    expect_granted(&rt, &host, &[7, u32::MAX], 8);
    let (_, none) = make(&SAMPLE, &[]);
    expect_granted(&rt, &none, &[], 7);
}
