//! Packed values: in which parts they are held, and where they differ.

use bit_fields::{NotTaken, PackedValues, ValueCount, ValueKeeper, ValueTaker};
use std::alloc::Global;
use std::fmt::Write;
use std::process::Abort;

/// Values, a count of zeros that are taken at once after them, and values after these.
type Taken<'a> = (&'a [u64], u64, &'a [u64]);

/// Takes these values.
fn take_all(values: &mut PackedValues, from: &[u64]) -> Result<(), NotTaken> {
    for value in from {
        values.take(*value)?;
    }
    Ok(())
}

/// Packs these values.
fn values_of(alloc: Global, taken: Taken<'_>) -> Result<PackedValues, NotTaken> {
    let (front, zeros, back) = taken;
    let mut values = PackedValues::empty(alloc);
    take_all(&mut values, front)?;
    if zeros > 0 {
        let _ = values.pass_zeros(zeros);
    }
    take_all(&mut values, back)?;
    Ok(values)
}

/// The parts of values as text, before and after the last step.
fn parts_told(alloc: Global, count: u64) -> Result<String, NotTaken> {
    let mut values = values_of(alloc, (&[1, 256], 2, &[7]))?;
    let _ = values.pass_zeros(3);
    let mut text = String::new(alloc);
    write!(text, "{} {:?}", values.count(), values.parts())?;
    values.truncate(count);
    values.take(9)?;
    write!(text, ", {} {:?}", values.len(), values.parts())?;
    Ok(text)
}

/// Checks the parts of values after all but the first `count` were dropped and one was taken.
fn has_parts(rt: &impl Abort, alloc: Global, count: u64, wanted: &str) {
    let told = parts_told(alloc, count).expect(rt, "memory");
    assert!(rt; told.as_str().ends_with(wanted), "{told}, not {wanted}");
}

#[test]
fn parts_of_values(rt: HostRuntime) {
    let alloc = rt.alloc();
    let first =
        "8 ValueParts { wide: WideSlice { units: [1, 256], great: [] }, bytes: [0, 0, 7], zeros: 3, recent: [] }";
    assert!(rt;
        parts_told(alloc, 0)
            .expect(&rt, "memory")
            .as_str()
            .starts_with(first)
    );
    has_parts(
        &rt,
        alloc,
        7,
        ", 8 ValueParts { wide: WideSlice { units: [1, 256], great: [] }, bytes: [0, 0, 7], zeros: 2, recent: [9] }",
    );
    has_parts(
        &rt,
        alloc,
        3,
        ", 4 ValueParts { wide: WideSlice { units: [1, 256], great: [] }, bytes: [0], zeros: 0, recent: [9] }",
    );
    has_parts(
        &rt,
        alloc,
        1,
        ", 2 ValueParts { wide: WideSlice { units: [1], great: [] }, bytes: [], zeros: 0, recent: [9] }",
    );
    has_parts(
        &rt,
        alloc,
        0,
        ", 1 ValueParts { wide: WideSlice { units: [], great: [] }, bytes: [], zeros: 0, recent: [9] }",
    );
}

/// The lengths of the parts that hold the numbers from `last` down to `first`, and the value at place 100.
fn lengths(
    alloc: Global,
    last: u64,
    first: u64,
) -> Result<(usize, usize, usize, Option<u64>), NotTaken> {
    let mut values = PackedValues::empty(alloc);
    for value in (first..=last).rev() {
        values.take(value)?;
    }
    let parts = values.parts();
    Ok((
        parts.wide.len(),
        parts.bytes.len(),
        parts.recent.len(),
        values.get(100),
    ))
}

#[test]
fn parts_of_long_values(rt: HostRuntime) {
    let alloc = rt.alloc();
    assert!(rt; lengths(alloc, 64, 1) == Ok((0, 0, 64, None)));
    assert!(rt; lengths(alloc, 200, 1) == Ok((0, 192, 8, Some(100))));
    assert!(rt; lengths(alloc, 320, 1) == Ok((128, 128, 64, Some(220))));
}

/// Where values first differ from others, and whether they are equal.
fn apart(
    alloc: Global,
    first: Taken<'_>,
    second: Taken<'_>,
) -> Result<(Option<u64>, bool), NotTaken> {
    let first = values_of(alloc, first)?;
    let second = values_of(alloc, second)?;
    Ok((first.first_apart(&second), first.is(&second)))
}

#[test]
fn values_beside_others(rt: HostRuntime) {
    let alloc = rt.alloc();
    let many = 1 << 40;
    let found = [
        apart(alloc, (&[1, 2], 0, &[]), (&[1, 2], 0, &[])),
        apart(alloc, (&[1, 2], 0, &[]), (&[1], 0, &[])),
        apart(alloc, (&[0, 0, 0], 0, &[]), (&[], 3, &[])),
        apart(alloc, (&[300], many, &[]), (&[300, 0, 0], many - 2, &[])),
        apart(alloc, (&[7], many, &[]), (&[7, 0, 8], many, &[])),
        apart(alloc, (&[7], many, &[5]), (&[7], many, &[6])),
        apart(alloc, (&[7], many, &[]), (&[7], 4, &[])),
        apart(alloc, (&[0; 70], 0, &[8]), (&[0; 8], 1, &[0; 61])),
    ];
    let wanted = [
        (None, true),
        (None, false),
        (None, true),
        (None, true),
        (Some(2), false),
        (Some(many + 1), false),
        (None, false),
        (None, false),
    ];
    for (i, found) in found.iter().enumerate() {
        assert!(rt; *found == Ok(wanted[i]), "{i}");
    }
}

/// How many values there are after many were dropped and one was taken.
fn many_told(alloc: Global) -> Result<(u64, Option<u64>), NotTaken> {
    let mut values = PackedValues::empty(alloc);
    for value in 0..70000 {
        values.take(value)?;
    }
    values.truncate(0);
    values.take(5)?;
    Ok((values.len(), values.get(0)))
}

#[test]
fn many_values(rt: HostRuntime) {
    assert!(rt; many_told(rt.alloc()) == Ok((1, Some(5))));
}

/// How many values there are after bytes were taken after a value and a zero.
fn bytes_behind<V: ValueTaker>(values: &mut V) -> Result<u64, NotTaken> {
    values.take(300)?;
    values.take(0)?;
    values.take_bytes(&[7, 0, 255])?;
    values.take_bytes(&[])?;
    Ok(values.count())
}

/// The same for values that are counted, kept in a list, and packed after zeros that were taken at once: how many each has, whether
/// the list is right, and the first place at which the packed ones are wrong.
fn bytes_taken(alloc: Global) -> Result<([u64; 3], bool, Option<u64>), NotTaken> {
    let mut counted = ValueCount::new();
    let mut list: Vec<u64> = Vec::new(alloc);
    let mut packed = values_of(alloc, (&[], 2, &[]))?;
    let wanted = values_of(alloc, (&[0, 0, 300, 0, 7, 0, 255], 0, &[]))?;
    let counts = [
        bytes_behind(&mut counted)?,
        bytes_behind(&mut list)?,
        bytes_behind(&mut packed)?,
    ];
    let right = list.as_slice() == [300, 0, 7, 0, 255].as_slice();
    Ok((counts, right, packed.first_apart(&wanted)))
}

#[test]
fn bytes_are_values(rt: HostRuntime) {
    let taken = bytes_taken(rt.alloc()).expect(&rt, "memory");
    assert!(rt; taken == ([5, 5, 7], true, None), "{taken:?}");
}

/// The lengths of the parts of a number and 300 bytes after it, which come as a slice or one by one.
fn lengths_behind(alloc: Global, as_slice: bool) -> Result<[usize; 3], NotTaken> {
    let mut values = PackedValues::empty(alloc);
    values.take(256)?;
    if as_slice {
        values.take_bytes(&[7; 300])?;
    } else {
        take_all(&mut values, &[7; 300])?;
    }
    let parts = values.parts();
    Ok([parts.wide.len(), parts.bytes.len(), parts.recent.len()])
}

#[test]
fn bytes_are_packed_alike(rt: HostRuntime) {
    assert!(rt; lengths_behind(rt.alloc(), true) == Ok([64, 192, 45]));
    assert!(rt; lengths_behind(rt.alloc(), false) == Ok([64, 192, 45]));
}

/// Numbers that need their own eight bytes, among smaller ones: 300 of these.
fn great_numbers() -> [u64; 300] {
    let mut numbers = [7; 300];
    for place in 0..300 {
        if place % 3 == 0 {
            numbers[place] = 65533 + place as u64;
        }
    }
    numbers[299] = u64::MAX;
    numbers
}

/// The values, copied to a room of this size, if they fill it.
fn copied<const N: usize>(values: &PackedValues) -> Option<[u64; N]> {
    let mut room = [1; N];
    if values.len() != N as u64 {
        return None;
    }
    values.copy_to(&mut room);
    Some(room)
}

/// How many of these values are found at their places, and how many values there are.
fn found(values: &PackedValues, numbers: &[u64]) -> (usize, u64) {
    let right = numbers.iter().enumerate().filter(|(place, number)| values.get(*place as u64)
        == Some(**number));
    (right.count(), values.len())
}

/// The same after all were taken, after only the first 100 were kept, and after the others were taken again.
fn great_found(alloc: Global) -> Result<[(usize, u64); 3], NotTaken> {
    let numbers = great_numbers();
    let mut values = values_of(alloc, (&numbers, 0, &[]))?;
    let all = found(&values, &numbers);
    values.truncate(100);
    let kept = found(&values, &numbers);
    take_all(&mut values, &numbers[100..])?;
    Ok([all, kept, found(&values, &numbers)])
}

/// Whether 300 values are copied in order, and two other lists of values, copied.
fn copies(alloc: Global) -> Result<(bool, Option<[u64; 2]>, Option<[u64; 5]>), NotTaken> {
    let numbers = great_numbers();
    let many = values_of(alloc, (&numbers, 0, &[]))?;
    let few = values_of(alloc, (&[7, 1 << 40], 0, &[]))?;
    let zeros = values_of(alloc, (&[300], 3, &[9]))?;
    Ok((copied(&many) == Some(numbers), copied(&few), copied(&zeros)))
}

#[test]
fn copied_values(rt: HostRuntime) {
    let told = copies(rt.alloc()).expect(&rt, "memory");
    assert!(rt;
        told == (true, Some([7, 1 << 40]), Some([300, 0, 0, 0, 9])),
        "{told:?}"
    );
}

#[test]
fn great_values(rt: HostRuntime) {
    let told = great_found(rt.alloc()).expect(&rt, "memory");
    assert!(rt; told == [(300, 300), (100, 100), (300, 300)], "{told:?}");
}

/// The number of wide values, and whether they are right, one by one.
fn wide_read(alloc: Global) -> Result<(usize, bool), NotTaken> {
    let numbers = great_numbers();
    let values = values_of(alloc, (&numbers, 0, &[]))?;
    let mut wide = values.parts().wide;
    let count = wide.len();
    let mut are_right = true;
    for (place, number) in numbers.iter().enumerate() {
        let wanted = if place < count { Some(*number) } else { None };
        are_right &= wide.take_first() == wanted;
    }
    Ok((count, are_right))
}

#[test]
fn wide_values_in_order(rt: HostRuntime) {
    assert!(rt; wide_read(rt.alloc()) == Ok((256, true)));
}
