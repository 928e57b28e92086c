//! Rows and planes: worked values.

ghost use Rattle.std.specs.Prelude.{◌≡◌, ◌≤◌, IfOk};

use std::alloc::{AllocError, Global};
use std::process::Abort;
use tfs_planes::{MAX, Plane, Row, count_words, equal_words, is_size, meet_words, union_words};

#[test]
fn sizes_go_up_to_4096(rt: HostRuntime) {
    assert_eq!(rt; MAX, 4096);
    assert!(rt; is_size(0) && is_size(4096) && !is_size(4097) && !is_size(8192));
}

#[test]
fn kernels_give_the_worked_values(rt: HostRuntime) {
    let mut words = [1u64, 0];
    union_words(&mut words, &[2, 4]);
    assert!(rt; words == [3, 4]);
    let mut words = [3u64, 4];
    meet_words(&mut words, &[2, 5]);
    assert!(rt; words == [2, 4]);
    assert!(rt; count_words(&[3, 4]) == 2 + 1 && count_words(&[]) == 0);
    assert!(rt; count_words(&[u64::MAX; 17]) == 17 * 64);
}

#[test]
fn nine_words_that_differ_in_one_are_not_equal(rt: HostRuntime) {
    let words = [7u64; 9];
    assert!(rt; equal_words(&words, &[7; 9]));
    assert!(rt; !equal_words(&words, &[7, 7, 7, 7, 7, 7, 7, 7, 6]));
    assert!(rt; !equal_words(&words, &[6, 7, 7, 7, 7, 7, 7, 7, 7]));
}

/// Adds a number to a row if it is below the size.
fn set(row: &mut Row, i: usize)
    ensures { row.new.size ≡ row.old.size }
{
    if i < row.size() {
        row.set(i);
    }
}

/// Returns a row of this size with the members of a list.
fn row_of(alloc: Global, size: usize, members: &[usize]) -> Result<Row, AllocError>
    requires { size ≤ 4096 }
    ensures { IfOk result (λ row. row.size ≡ size) }
{
    let mut row = Row::new(alloc, size)?;
    for i in members {
        set(&mut row, *i);
    }
    Ok(row)
}

/// Compares the members of a row with a list, and their number.
fn expect_members(rt: &(impl Alloc<A = Global> + Abort), row: &Row, wanted: &[usize]) {
    let members = row.members(rt.alloc()).expect(rt, "memory");
    assert!(rt; members.as_slice() == wanted && row.count() == wanted.len());
}

#[test]
fn a_row_is_a_set_of_numbers(rt: HostRuntime) {
    let mut row = row_of(rt.alloc(), 65, &[64]).expect(&rt, "memory");
    assert!(rt; row.size() == 65 && row.get(64));
    expect_members(&rt, &row, &[64]);
    row.union_with(&row_of(rt.alloc(), 65, &[64, 0]).expect(&rt, "memory"));
    expect_members(&rt, &row, &[0, 64]);
    row.meet_with(&row_of(rt.alloc(), 65, &[0, 1]).expect(&rt, "memory"));
    expect_members(&rt, &row, &[0]);
    row.clear();
    expect_members(&rt, &row, &[]);
}

/// Checks the next members of the row with 0, 1, 63, 64, 130 and 199.
fn expect_next(rt: &impl Abort, row: &Row) {
    for (from, member) in [
        (0, 0),
        (1, 1),
        (2, 63),
        (64, 64),
        (65, 130),
        (131, 199),
        (199, 199),
    ] {
        assert!(rt; row.next_member(from) == Some(member));
    }
}

/// Checks that the row has no member from numbers of at least 200 on.
fn expect_no_next(rt: &impl Abort, row: &Row) {
    for from in [200, 511, 512, 4096, usize::MAX] {
        assert!(rt; row.next_member(from) == None);
    }
}

#[test]
fn the_next_member_is_the_first_from_a_number_on(rt: HostRuntime) {
    let row = row_of(rt.alloc(), 200, &[0, 1, 63, 64, 130, 199]).expect(&rt, "memory");
    expect_next(&rt, &row);
    expect_no_next(&rt, &row);
}

/// Relates two numbers if they are below the size.
fn relate(plane: &mut Plane, i: usize, j: usize)
    ensures { plane.new.size ≡ plane.old.size }
{
    if i < plane.size() && j < plane.size() {
        plane.set(i, j);
    }
}

/// Returns the plane of a list of pairs.
fn plane_of(alloc: Global, size: usize, pairs: &[(usize, usize)]) -> Result<Plane, AllocError>
    requires { size ≤ 4096 }
    ensures { IfOk result (λ plane. plane.size ≡ size) }
{
    let mut plane = Plane::new(alloc, size)?;
    for (i, j) in pairs {
        relate(&mut plane, *i, *j);
    }
    Ok(plane)
}

#[test]
fn a_closed_plane_has_the_walks(rt: HostRuntime) {
    let mut plane = plane_of(rt.alloc(), 3, &[(0, 1), (1, 2)]).expect(&rt, "memory");
    plane.close();
    assert!(rt; plane.get(0, 2) && !plane.get(2, 0));
    let mut row = Row::new(rt.alloc(), 3).expect(&rt, "memory");
    plane.row_into(0, &mut row);
    expect_members(&rt, &row, &[1, 2]);
}

#[test]
fn rows_of_a_plane_are_copied_and_united(rt: HostRuntime) {
    let mut plane = plane_of(rt.alloc(), 100, &[(3, 70), (4, 5)]).expect(&rt, "memory");
    let mut row = Row::new(rt.alloc(), 100).expect(&rt, "memory");
    plane.row_into(3, &mut row);
    expect_members(&rt, &row, &[70]);
    plane.union_row_into(4, &mut row);
    expect_members(&rt, &row, &[5, 70]);
    plane.clear();
    plane.row_into(3, &mut row);
    expect_members(&rt, &row, &[]);
}

#[test]
fn the_largest_plane_has_its_last_row(rt: HostRuntime) {
    let plane = plane_of(rt.alloc(), MAX, &[(MAX - 1, MAX - 1)]).expect(&rt, "memory");
    let mut row = Row::new(rt.alloc(), MAX).expect(&rt, "memory");
    plane.row_into(MAX - 1, &mut row);
    expect_members(&rt, &row, &[MAX - 1]);
}
