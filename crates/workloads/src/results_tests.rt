//! A digest differs where the results do: for swapped values, another place, another reason.

use crate::digest::Digest;
use bit_events::Event;
use bit_fields::{Fault, Reason};
use bit_norm::{Difference, OpenBlock, Place, SameFault, Standing, ValueDifference, What, Which};
use bit_text::{AssembleFault, TextReason};
use std::alloc::{AllocError, Global};
use std::process::Abort;

/// Checks that no two of these are the same.
fn all_differ(rt: &impl Abort, digests: &[u64]) {
    for (place, digest) in digests.iter().enumerate() {
        for (other, digest_there) in digests.iter().enumerate() {
            assert!(rt;
                place == other || digest != digest_there,
                "{place} and {other}"
            );
        }
    }
}

/// A difference whose numbers are 5, but for one that is 6; from the place 12 on, for a part of another kind.
fn difference(alloc: Global, place: u64) -> Result<Difference, AllocError> {
    let number = |at: u64| if at == place { 6 } else { 5 };
    let open = vec![in alloc;
        OpenBlock {
            id: if place == 0 { 6 } else { 5 },
            items: number(1)
        },
    ]?;
    let record = What::Record {
        code: number(2),
        count: number(3),
    };
    let what = match place {
        12 => What::End,
        13 => What::Block(5),
        14 => What::Magic([5; 4]),
        _ => record,
    };
    Ok(Difference {
        place: if place == 15 {
            Place::Magic
        } else {
            Place::Item {
                open,
                items: number(4),
            }
        },
        first: Standing {
            bit: number(5),
            what,
        },
        second: Standing {
            bit: number(6),
            what: What::Record {
                code: number(7),
                count: number(8),
            },
        },
        value: if place == 16 {
            None
        } else {
            Some(ValueDifference {
                index: number(9),
                first: number(10),
                second: number(11),
            })
        },
    })
}

fn compared(answer: Result<Option<Difference>, SameFault>) -> u64 {
    let mut digest = Digest::new();
    digest.compared(&answer);
    digest.state()
}

#[test]
fn each_part_of_a_difference_counts(rt: HostRuntime) {
    let mut digests = Vec::new(rt.alloc());
    digests.push(compared(Ok(None))).expect(&rt, "memory");
    for place in 0..18 {
        let found = difference(rt.alloc(), place).expect(&rt, "memory");
        digests
            .push(compared(Ok(Some(found))))
            .expect(&rt, "memory");
    }
    all_differ(&rt, &digests);
}

static REFUSALS: [Fault; 5] = [
    Fault::Refused {
        reason: Reason::TooLong,
        bit: 8,
    },
    Fault::Refused {
        reason: Reason::TooDeep,
        bit: 8,
    },
    Fault::Refused {
        reason: Reason::TooDeep,
        bit: 9,
    },
    Fault::Memory,
    Fault::Read,
];

fn assembled(answer: Result<u64, AssembleFault>) -> u64 {
    let mut digest = Digest::new();
    digest.assembled(answer);
    digest.state()
}

#[test]
fn each_part_of_a_fault_counts(rt: HostRuntime) {
    let mut digests = Vec::new(rt.alloc());
    for fault in &REFUSALS {
        for which in [Which::First, Which::Second] {
            let digest = compared(Err(SameFault {
                which,
                fault: *fault,
            }));
            digests.push(digest).expect(&rt, "memory");
        }
        let digest = assembled(Err(AssembleFault::Fault(*fault)));
        digests.push(digest).expect(&rt, "memory");
    }
    for reason in [TextReason::BadLine, TextReason::NoMagic] {
        for line in 8..10 {
            let digest = assembled(Err(AssembleFault::Refused { reason, line }));
            digests.push(digest).expect(&rt, "memory");
        }
    }
    all_differ(&rt, &digests);
}

fn told(event: Event<'_>) -> u64 {
    let mut digest = Digest::new();
    digest.event(event);
    digest.state()
}

/// The digest of a record of ten values, with two of them exchanged.
fn exchanged(a: usize, b: usize) -> u64 {
    let mut values = [0, 1, 2, 3, 4, 5, 6, 7, 8, 9];
    values.swap(a % 10, b % 10);
    told(Event::Record {
        abbrev: 3,
        code: 1,
        values: &values,
        first: 2,
        after: 9,
    })
}

#[test]
fn each_value_of_a_record_counts(rt: HostRuntime) {
    let mut digests = Vec::new(rt.alloc());
    digests.push(exchanged(0, 0)).expect(&rt, "memory");
    for a in 0..10 {
        for b in 0..a {
            digests.push(exchanged(a, b)).expect(&rt, "memory");
        }
    }
    all_differ(&rt, &digests);
}
