//! Tests of each step of a core as the file machine takes it.
ghost use Rattle.std.specs.Prelude.{◌≡◌, ◌+◌, ◌++◌, Some, None, OnOk, OnErr, IfOk, option_map, slice_range};
ghost use Rattle.spec_machine.specs.Common.{after_writes, dealt, joined, dump_list, byte_size, in_ready, out_ready};
ghost use Rattle.spec_machine.specs.Common.{Channel, cleared, areas_or_none, buffer_filled, ring_out, header_opened};
ghost use Rattle.spec_machine.specs.Common.{header_closed};
ghost use Rattle.usercore.specs.Common.{bits_of};

use crate::word_tests::{expect_words, place};
use spec_machine::IoStatus;
use std::alloc::Global;
use std::process::Abort;
use std::test::Fail;
use test_support::word;
use usercore::{ByteSize, Core, CoreArea, CoreError, RingStep, word_count};
use words36::Word;

/// Does an OPEN of both sides, as the file machine has it.
fn open_sides(core: &mut Core, output: u32, input: u32, mode: u32)
    ensures { core.new ≡ after_writes core.old (header_opened mode output ++ header_opened mode input) }
{
    core.ring_open(output, input, ByteSize::of_mode(mode));
}

/// Does an IN by a ring, as the file machine has it: what it makes of the core, and when it makes nothing.
fn in_by_ring(
    core: &mut Core,
    header: u32,
    bytes: ByteSize,
    status: IoStatus,
    words: &[Word],
) -> Result<(), CoreError>
    ensures filled { (c : Channel) → c.input_header ≡ header → byte_size c.mode ≡ bits_of bytes
        → cleared c.status ≡ status.0
        → OnOk result (core.new
        ≡ buffer_filled core.old c (in_ready core.old c.input_header (byte_size c.mode)) words.now) }
    ensures none { (c : Channel) → c.input_header ≡ header → byte_size c.mode ≡ bits_of bytes
        → OnErr result (in_ready core.old c.input_header (byte_size c.mode) ≡ None) }
    ensures kept { OnErr result (core.new ≡ core.old) }
{
    core.ring_check(RingStep::In, header, bytes)?;
    core.ring_in(header, bytes, status, words)
}

/// Does an OUT by a ring, as the file machine has it: the words that are put and the core after it, and when there are
/// none.
fn out_by_ring(core: &mut Core, header: u32, bytes: ByteSize) -> Result<CoreArea, CoreError>
    ensures done { (c : Channel) → c.output_header ≡ header → byte_size c.mode ≡ bits_of bytes
        → IfOk result (λ area. option_map (ring_out c) (out_ready core.old c.output_header (byte_size c.mode))
        ≡ Some (record { words = slice_range core.old area.first (area.first + area.count); core = core.new })) }
    ensures none { (c : Channel) → c.output_header ≡ header → byte_size c.mode ≡ bits_of bytes
        → OnErr result (out_ready core.old c.output_header (byte_size c.mode) ≡ None) }
    ensures kept { OnErr result (core.new ≡ core.old) }
{
    let area = core.ring_check(RingStep::Out, header, bytes)?;
    core.ring_out(header, bytes)?;
    Ok(area)
}

/// Does an IN by a command list, as the file machine has it.
fn in_by_list(core: &mut Core, address: u32, words: &[Word]) -> Result<(), CoreError>
    ensures filled { OnOk result (core.new
        ≡ after_writes core.old (dealt (areas_or_none (dump_list core.old address)) words.now)) }
    ensures none { OnErr result (dump_list core.old address ≡ None) }
    ensures kept { OnErr result (core.new ≡ core.old) }
{
    let areas = core.dump_list(address)?;
    core.deal(areas.as_slice(), words);
    Ok(())
}

/// Returns the words that an OUT by a command list puts, as the file machine has it.
fn out_by_list(alloc: Global, core: &Core, address: u32) -> Result<Vec<Word>, CoreError>
    ensures { IfOk result (λ words. option_map (joined core.now) (dump_list core.now address) ≡ Some words.items) }
{
    let areas = core.dump_list(address)?;
    let mut words = vec![in alloc; Word::ZERO; word_count(areas.as_slice())]?;
    core.gather(areas.as_slice(), words.as_mut_slice());
    Ok(words)
}

/// Does a CLOSE of sides, as the file machine has it.
fn close_sides(core: &mut Core, output: u32, output_closes: bool, input: u32, input_closes: bool)
    ensures { core.new ≡ after_writes core.old (header_closed core.old output output_closes
        ++ header_closed core.old input input_closes) }
{
    let output = if output_closes { output } else { 0 };
    let input = if input_closes { input } else { 0 };
    core.ring_close(output, input);
}

/// The clauses of the calls above follow from the clauses of `usercore` alone.
#[test]
fn calls_are_those_of_the_file_machine(rt: HostRuntime) -> Result<(), Fail> {
    let mut core = Core::new(rt.alloc(), 0o2000)?;
    open_sides(&mut core, 0o1000, 0o1010, 0);
    let status = IoStatus::of_mode(0);
    let read = in_by_ring(&mut core, 0o1010, ByteSize::Ascii, status, &[word(2)]);
    assert_eq!(rt; read, Ok(()));
    let put = out_by_ring(&mut core, 0o1000, ByteSize::Ascii);
    assert!(rt; put.is_ok());
    close_sides(&mut core, 0o1000, true, 0o1010, false);
    expect_words(&rt, &core, 0o1000, &[0o400000000547, 0o000700000550, 0]);
    expect_words(&rt, &core, 0o1010, &[0o141, 0o000700000142, 5]);
    place(&rt, &mut core, 0o400, &[0o777776000577, 0]);
    let read = in_by_list(&mut core, 0o400, &[word(8), word(9)]);
    let put = out_by_list(rt.alloc(), &core, 0o400);
    drop(core);
    let words = put?;
    let are_same = words.as_slice() == [word(8), word(9)].as_slice();
    drop(words);
    assert_eq!(rt; read, Ok(()));
    assert!(rt; are_same);
    Ok(())
}
