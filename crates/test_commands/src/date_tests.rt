//! A test of the first second of 1970.
use collection::moment_of;

#[test]
fn first_second_of_1970(rt: HostRuntime) {
    let at = moment_of(0).expect(&rt, "a moment");
    assert_eq!(rt; at.date, 6 * 372);
    assert_eq!(rt; at.minute, 0);
}
