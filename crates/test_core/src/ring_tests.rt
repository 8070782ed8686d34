//! Tests of rings of buffers that lie over their headers or over the word for rings, and of headers that overlap.
use crate::word_tests::{expect_words, place};
use spec_machine::IoStatus;
use std::process::Abort;
use std::test::Fail;
use test_support::word;
use usercore::{ByteSize, Core, CoreError, RingStep};

/// The answer of a call that is refused.
const REFUSED: Result<(), CoreError> = Err(CoreError::AddressCheck);

/// Checks that an IN of two words by a ring answers this.
fn expect_in(rt: &impl Abort, core: &mut Core, header: u32, wanted: Result<(), CoreError>) {
    let checked = core.ring_check(RingStep::In, header, ByteSize::Ascii);
    assert_eq!(rt; checked.err(), wanted.err());
    let words = [word(0o442131446236), word(0o064240000000)];
    let filled = core.ring_in(header, ByteSize::Ascii, IoStatus::of_mode(0), &words);
    assert_eq!(rt; filled, wanted);
}

#[test]
fn headers_over_their_own_ring(rt: HostRuntime) -> Result<(), Fail> {
    for (header, wanted) in [
        (0o136, Ok(())),
        (0o137, REFUSED),
        (0o140, REFUSED),
        (0o141, REFUSED),
        (0o142, Ok(())),
    ] {
        let mut core = Core::new(rt.alloc(), 0o2000)?;
        expect_in(&rt, &mut core, header, wanted);
        assert_eq!(rt; core.ring_out(header, ByteSize::Ascii), wanted);
    }
    let mut core = Core::new(rt.alloc(), 0o2000)?;
    expect_in(&rt, &mut core, 0o143, Ok(()));
    let buffer = [0o400201000344, 2, 0o141, 0o000700000142, 0o12];
    expect_words(&rt, &core, 0o141, &buffer);
    Ok(())
}

#[test]
fn rings_and_headers_over_the_word_for_rings(rt: HostRuntime) -> Result<(), Fail> {
    for (ring, wanted) in [(0o120, REFUSED), (0o000201000120, Ok(())), (0o117, Ok(()))] {
        let mut core = Core::new(rt.alloc(), 0o2000)?;
        place(&rt, &mut core, 0o121, &[ring]);
        assert_eq!(rt; core.ring_out(0o1000, ByteSize::Ascii), wanted);
        let stays = core.word(0o121) == Ok(word(ring));
        assert_eq!(rt; stays, wanted.is_err());
    }
    let mut core = Core::new(rt.alloc(), 0o2000)?;
    // that word names 140, which is no buffer
    expect_in(&rt, &mut core, 0o121, REFUSED);
    assert_eq!(rt; core.ring_setup(0o121, ByteSize::Ascii, 2), Ok(()));
    expect_words(&rt, &core, 0o121, &[0o400000000141, 0o000700000000, 0]);
    expect_in(&rt, &mut core, 0o121, Ok(()));
    expect_words(&rt, &core, 0o121, &[0o141, 0o000700000142, 0o12]);
    expect_words(&rt, &core, 0o141, &[0o400201000344, 2]);
    Ok(())
}

#[test]
fn headers_that_overlap(rt: HostRuntime) -> Result<(), Fail> {
    let mut core = Core::new(rt.alloc(), 0o2000)?;
    core.ring_open(0o1000, 0o1001, ByteSize::Whole);
    let headers = [0o400000000000, 0o400000000000, 0o004400000000, 0];
    expect_words(&rt, &core, 0o1000, &headers);
    for (output, input, third) in [(0o1000, 0o1002, 0o400000000003), (0o1002, 0o1000, 0)] {
        place(&rt, &mut core, 0o1000, &[1, 2, 3, 4, 5]);
        core.ring_close(output, input);
        expect_words(&rt, &core, 0o1000, &[0o400000000001, 2, third, 4, 0]);
    }
    Ok(())
}
