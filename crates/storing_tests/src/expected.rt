//! Values that are compared with those of another record while they are read.

use bit_fields::{ExpectedValues, NotTaken, PackedValues, ValueKeeper, ValueTaker};
use std::alloc::{AllocError, Global};

/// How many values there are, and how many zeros are taken at once after them.
const RECORDS: [(u64, u64); 10] = [
    (0, 0),
    (1, 0),
    (63, 0),
    (64, 0),
    (65, 0),
    (130, 0),
    (700, 0),
    (0, 9),
    (3, 200),
    (140, 70),
];

/// How many bytes come at once.
const PIECES: [usize; 4] = [1, 7, 64, 1000];

/// A wide number, and bytes after it.
fn value_at(place: u64) -> u64 {
    if place == 0 {
        1 << 40
    } else {
        place.wrapping_mul(37) % 256
    }
}

/// The first values, zeros that are taken at once, and two more values if there are zeros.
fn record_of(alloc: Global, record: (u64, u64)) -> Result<PackedValues, NotTaken> {
    let (count, zeros) = record;
    let mut values = PackedValues::empty(alloc);
    for place in 0..count {
        values.take(value_at(place))?;
    }
    if zeros > 0 {
        let _ = values.pass_zeros(zeros);
        values.take(5)?;
        values.take(255)?;
    }
    Ok(values)
}

/// Whether values are taken one by one, from `first` up to another place, each after a different value was declined.
fn takes(expected: &mut ExpectedValues<'_>, others: &PackedValues, first: u64, end: u64) -> bool {
    for place in first..end {
        let count = expected.count();
        let Some(value) = others.get(place) else {
            return false;
        };
        if expected.take(value ^ 1).is_ok() || expected.count() != count {
            return false;
        }
        if expected.take(value).is_err() {
            return false;
        }
    }
    true
}

/// Whether the values of a record are all taken one by one, and no value after them.
fn takes_all(alloc: Global, record: (u64, u64)) -> Result<bool, NotTaken> {
    let others = record_of(alloc, record)?;
    let count = others.len();
    let mut expected = ExpectedValues::new(&others);
    let fewer = expected.front_of(&others) == Some(0);
    let all = takes(&mut expected, &others, 0, count) && expected.front_of(&others) == Some(count);
    let more = expected.take(0).is_ok() || expected.take_bytes(&[0]).is_ok();
    Ok(fewer && all && !more && expected.count() == count.saturating_mul(2))
}

#[test]
fn values_one_by_one(rt: HostRuntime) {
    for record in RECORDS {
        assert!(rt; takes_all(rt.alloc(), record) == Ok(true), "{record:?}");
    }
}

/// The values after the first one as bytes, with another one at a place.
fn bytes_of(alloc: Global, others: &PackedValues, other: u64) -> Result<Vec<u8>, AllocError> {
    let mut bytes = Vec::new(alloc);
    for place in 1..others.len() {
        let value = others.get(place).unwrap_or(0) % 256;
        let wrong = if place == other { 1 } else { 0 };
        bytes.push(value as u8 ^ wrong)?;
    }
    Ok(bytes)
}

/// How many values are counted if bytes come in pieces after the first value, and whether one piece was declined.
fn pieces_taken(expected: &mut ExpectedValues<'_>, bytes: &[u8], size: usize) -> (u64, bool) {
    for piece in bytes.chunks(size.max(1)) {
        if expected.take_bytes(piece).is_err() {
            return (expected.count(), true);
        }
    }
    (expected.count(), false)
}

/// Whether the values after the first one are taken as bytes in pieces, and declined from a different one on, after which the right
/// ones are taken.
fn takes_bytes(
    alloc: Global,
    record: (u64, u64),
    size: usize,
    other: u64,
) -> Result<bool, NotTaken> {
    let others = record_of(alloc, record)?;
    let count = others.len();
    let Some(first) = others.get(0) else {
        return Ok(true);
    };
    let mut expected = ExpectedValues::new(&others);
    expected.take(first)?;
    let wrong = bytes_of(alloc, &others, other)?;
    let (had, refused) = pieces_taken(&mut expected, &wrong, size);
    if refused != (0 < other && other < count) || refused && had > count.saturating_add(other) {
        return Ok(false);
    }
    expected.truncate(count.saturating_add(1));
    let right = bytes_of(alloc, &others, 0)?;
    let all = pieces_taken(&mut expected, &right, size);
    Ok(all == (count.saturating_mul(2), false) && expected.front_of(&others) == Some(count))
}

#[test]
fn values_as_bytes(rt: HostRuntime) {
    for record in RECORDS {
        for size in PIECES {
            for other in [0, 1, 62, 63, 64, 65, 128, 300, 699] {
                let taken = takes_bytes(rt.alloc(), record, size, other);
                assert!(rt; taken == Ok(true), "{record:?} {size} {other}");
            }
        }
    }
}

/// How many values are counted after some were taken and then all but the first dropped, whether those from a place on are taken
/// then, and how many of a record of 100 are counted then.
fn taken_again(
    alloc: Global,
    taken: u64,
    count: u64,
    from: u64,
) -> Result<(u64, bool, Option<u64>), NotTaken> {
    let others = record_of(alloc, (100, 0))?;
    let mut expected = ExpectedValues::new(&others);
    let before = takes(&mut expected, &others, 0, taken);
    expected.truncate(count);
    let left = expected.count();
    let again = takes(&mut expected, &others, from, 100);
    Ok((left, before && again, expected.front_of(&others)))
}

#[test]
fn values_taken_again(rt: HostRuntime) {
    let alloc = rt.alloc();
    assert!(rt; taken_again(alloc, 70, 100, 0) == Ok((100, true, Some(100))));
    assert!(rt; taken_again(alloc, 70, 165, 65) == Ok((165, true, Some(100))));
    assert!(rt; taken_again(alloc, 70, 103, 3) == Ok((103, true, Some(100))));
    assert!(rt; taken_again(alloc, 70, 300, 70) == Ok((170, true, Some(100))));
    assert!(rt; taken_again(alloc, 70, 99, 0) == Ok((99, false, None)));
    assert!(rt; taken_again(alloc, 70, 0, 0) == Ok((0, false, None)));
    assert!(rt; taken_again(alloc, 70, 103, 4) == Ok((103, false, Some(3))));
}

/// How many values of a record matched, and of another one, after all of the first were taken.
fn fronts(alloc: Global, count: u64, other: u64) -> Result<[Option<u64>; 2], NotTaken> {
    let others = record_of(alloc, (count, 0))?;
    let second = record_of(alloc, (other, 0))?;
    let mut expected = ExpectedValues::new(&others);
    let _ = takes(&mut expected, &others, 0, count);
    Ok([expected.front_of(&others), expected.front_of(&second)])
}

#[test]
fn values_of_another_length(rt: HostRuntime) {
    let alloc = rt.alloc();
    assert!(rt; fronts(alloc, 3, 4) == Ok([Some(3), None]));
    assert!(rt; fronts(alloc, 4, 3) == Ok([Some(4), None]));
    assert!(rt; fronts(alloc, 0, 1) == Ok([Some(0), None]));
    assert!(rt; fronts(alloc, 130, 130) == Ok([Some(130), Some(130)]));
}
