// Tests of lists: what they hold, when they decline, and what the lender finds in the table afterwards.
ghost use Rattle.std.specs.Prelude.{◌≡◌, ◌<◌, length, slice_set};

use super::*;
use std::process::Abort;
use std::test::Fail;

// What the lender of a table knows once the list is gone.
fn keep_first(table: &mut [u8], entry: u8)
    requires { 0 < length table.old }
    ensures { table.new ≡ slice_set table.old 0 entry }
{
    let mut list = List::new(table);
    let _ = list.push(entry);
}

#[test]
fn keeps_to_the_table(rt: HostRuntime) {
    let mut table = [7, 8, 9];
    keep_first(&mut table, 1);
    assert_eq!(rt; table, [1, 8, 9]);
}

#[test]
fn holds_entries(rt: HostRuntime) {
    let mut table = [70, 80, 90];
    let mut list = List::new(&mut table);
    assert_eq!(rt;
        (list.is_empty(), list.is_full(), list.capacity()),
        (true, false, 3)
    );
    assert_eq!(rt; (list.get(0), list.set(0, 1)), (None, false));
    assert_eq!(rt; (list.push(1), list.push(2)), (Ok(()), Ok(())));
    assert_eq!(rt; (list.set(1, 5), list.set(2, 6)), (true, false));
    assert_eq!(rt; (list.get(1), list.get(2), list.len()), (Some(5), None, 2));
    assert_eq!(rt; (list.push(3), list.push(4)), (Ok(()), Err(Full)));
    assert_eq!(rt; list.as_slice(), [1, 5, 3].as_slice());
    assert_eq!(rt; (list.is_empty(), list.is_full()), (false, true));
}

// A longer table counts as 4,096.
#[test]
fn has_at_most_4096(rt: HostRuntime) {
    let mut table = [0u16; 4100];
    let mut list = List::new(&mut table);
    for entry in 0..4096 {
        assert_eq!(rt; list.push(entry), Ok(()));
    }
    assert_eq!(rt; (list.push(9), list.len()), (Err(Full), 4096));
    assert_eq!(rt; (list.get(4095), list.get(4096)), (Some(4095), None));
}
