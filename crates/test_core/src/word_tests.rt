//! Tests of the words of a core.
use std::process::Abort;
use std::test::Fail;
use test_support::word;
use usercore::{Core, CoreArea, CoreError};

/// Puts words at consecutive addresses from `first`, one after another; there is room for them.
pub(crate) fn place(rt: &impl Abort, core: &mut Core, first: u32, numbers: &[u64]) {
    let mut address = first;
    for &number in numbers {
        assert_eq!(rt; core.set_word(address, word(number)), Ok(()));
        address = address.wrapping_add(1);
    }
}

/// Checks that a core has these words at consecutive addresses from `first`.
pub(crate) fn expect_words(rt: &impl Abort, core: &Core, first: u32, numbers: &[u64]) {
    let mut address = first;
    for &number in numbers {
        assert_eq!(rt; core.word(address), Ok(word(number)));
        address = address.wrapping_add(1);
    }
}

#[test]
fn the_words_of_a_core(rt: HostRuntime) -> Result<(), Fail> {
    let mut core = Core::new(rt.alloc(), 0o2000)?;
    assert_eq!(rt; core.length(), 1024);
    expect_words(&rt, &core, 0o120, &[0, 0o140, 0]);
    place(&rt, &mut core, 0o121, &[0o777777001234]);
    core.reset_rings();
    expect_words(&rt, &core, 0o121, &[0o777777000140]);
    assert_eq!(rt; core.put(0o1775, &[word(5), word(6), word(7)]), Ok(()));
    expect_words(&rt, &core, 0o1774, &[0, 5, 6, 7]);
    let last = CoreArea {
        first: 0o1776,
        count: 2,
    };
    let are_last = core.words(last) == Ok([word(6), word(7)].as_slice());
    assert!(rt; are_last);
    // a command word that names these two, and a word that ends the list
    place(&rt, &mut core, 0o410, &[0o777776001775, 0]);
    assert!(rt; core.lone_area(0o410) == Some(last));
    assert_eq!(rt; core.word(0o2000), Err(CoreError::AddressCheck));
    Ok(())
}

/// Run with each allocation refused in turn: the answer is `NoMemory`, and the next core is made.
#[test]
fn each_allocation_refused(rt: HostRuntime) {
    if let Some(error) = Core::new(rt.alloc(), 0o1000).err() {
        assert_eq!(rt; error, CoreError::NoMemory);
        let failed = Core::new(rt.alloc(), 0o1000).err();
        assert_eq!(rt; failed, None);
    }
}
