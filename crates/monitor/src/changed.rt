//! The areas of its own core that a call of a job may change, found before the call.
ghost use Rattle.std.specs.Prelude.{◌≡◌, ◌+◌, ◌++◌, ◌∷◌, ◌==◌, not, [], IfOk, OnOk, option_map};
ghost use Rattle.std.specs.List.{AllByRecursion, filter};
ghost use Rattle.spec_machine.specs.Common.{dump_list, areas_or_none, State, job_at, slot, mode_at, is_buffered};
ghost use Rattle.spec_machine.specs.Common.{Serving};
ghost use Rattle.usercore.specs.Common.{words_at};
ghost use Rattle.monitor.specs.Common.{IsInside, clipped, in_core, header_area, areas_opened, areas_set_up};
ghost use Rattle.monitor.specs.Common.{areas_filled, areas_emptied, areas_closed, on_open, areas_of, areas_for};
ghost use Rattle.monitor.specs.Common.{Serves, UnderKeys, channel_of, job_of};

use crate::channel::OpenChannel;
use crate::job::{Job, Jobs};
use crate::monitor::Monitor;
use crate::open::{lies_outside, word_at};
use blockdisk::{Disk, NoMemory};
use spec_machine::Call;
use std::alloc::{AllocError, Global};
use usercore::{Core, CoreArea, FIRST_FREE, HEADER_WORDS};

/// Returns the part of an area that lies in a core.
fn clipped(core: &Core, area: CoreArea) -> CoreArea
    ensures { result ≡ clipped core.now area }
{
    let words_left = core.length().saturating_sub(area.first);
    CoreArea {
        first: area.first,
        count: area.count.min(words_left),
    }
}

/// Adds an area to others, unless it has no words.
fn add_some(parts: &mut Vec<CoreArea>, part: CoreArea) -> Result<(), AllocError>
    ensures { OnOk result
        (parts.new.items ≡ parts.old.items ++ filter (λ area. not (area.count == 0)) (part ∷ [])) }
{
    if part.count > 0 {
        parts.push(part)?;
    }
    Ok(())
}

/// Returns the parts of areas that lie in a core, without those that have no words.
fn in_core(alloc: Global, core: &Core, areas: &[CoreArea]) -> Result<Vec<CoreArea>, AllocError>
    ensures { IfOk result (λ parts. parts.items ≡ in_core core.now areas.now) }
{
    let mut parts = Vec::with_capacity(alloc, areas.len())?;
    for area in areas {
        add_some(&mut parts, clipped(core, *area))?;
    }
    Ok(parts)
}

/// Returns the three words of a header, or no words if it isn't meant; address 0 is no header.
fn header_area(is_meant: bool, header: u32) -> CoreArea
    ensures { result ≡ header_area is_meant header }
{
    let first = header as usize;
    if is_meant && header != 0 {
        CoreArea {
            first,
            count: HEADER_WORDS,
        }
    } else {
        CoreArea { first, count: 0 }
    }
}

/// Returns whether the mode that the word at an address asks for has buffers.
fn has_buffers(core: &Core, address: u32) -> bool
    ensures { result ≡ is_buffered (mode_at core.now address) }
{
    let mode = word_at(core, address).bits() % 16;
    mode <= 1 || mode == 0o10 || mode == 0o13 || mode == 0o14
}

/// Returns the areas of an OPEN: in a mode with buffers, the headers of the rings that its three words name.
fn opened(alloc: Global, core: &Core, address: u32) -> Result<Vec<CoreArea>, AllocError>
    ensures { IfOk result (λ areas. areas.items ≡ in_core core.now (areas_opened core.now address)) }
{
    if lies_outside(core, address, 3) || !has_buffers(core, address) {
        return Ok(Vec::new(alloc));
    }
    let headers = word_at(core, address + 2);
    let output = header_area(true, headers.left().bits());
    let input = header_area(true, headers.right().bits());
    in_core(alloc, core, &[output, input])
}

/// Returns what setting up a channel's ring may change, by its header and the number of buffers.
fn set_up(
    alloc: Global,
    core: &Core,
    channel: &OpenChannel,
    header: u32,
    buffers: u32,
) -> Result<Vec<CoreArea>, AllocError>
    ensures { IfOk result (λ areas. (under : UnderKeys) → areas.items
        ≡ in_core core.now (areas_set_up core.now (channel_of under channel.now) header buffers)) }
{
    if !channel.is_buffered() || header == 0 {
        return Ok(Vec::new(alloc));
    }
    in_core(alloc, core, &core.setup_areas(header, buffers))
}

/// Returns the areas of an INBUF: what setting up the input's ring may change.
fn set_up_for_input(
    alloc: Global,
    core: &Core,
    channel: Option<OpenChannel>,
    buffers: u32,
) -> Result<Vec<CoreArea>, AllocError>
    ensures { IfOk result (λ areas. (under : UnderKeys) → areas.items ≡ in_core core.now (on_open
        (option_map (channel_of under) channel) (λ c. areas_set_up core.now c c.input_header buffers))) }
{
    let Some(open) = channel else {
        return Ok(Vec::new(alloc));
    };
    set_up(alloc, core, &open, open.input_header, buffers)
}

/// Returns the areas of an OUTBUF: what setting up the output's ring may change.
fn set_up_for_output(
    alloc: Global,
    core: &Core,
    channel: Option<OpenChannel>,
    buffers: u32,
) -> Result<Vec<CoreArea>, AllocError>
    ensures { IfOk result (λ areas. (under : UnderKeys) → areas.items ≡ in_core core.now (on_open
        (option_map (channel_of under) channel) (λ c. areas_set_up core.now c c.output_header buffers))) }
{
    let Some(open) = channel else {
        return Ok(Vec::new(alloc));
    };
    set_up(alloc, core, &open, open.output_header, buffers)
}

/// Returns an area of `count` words in a row, from the one after an address.
fn following(
    alloc: Global,
    core: &Core,
    address: u32,
    count: usize,
) -> Result<Vec<CoreArea>, AllocError>
    ensures { IfOk result (λ areas. areas.items ≡ in_core core.now (words_at (address + 1) count ∷ [])) }
{
    let first = address as usize + 1;
    in_core(alloc, core, &[CoreArea { first, count }])
}

/// Returns the areas of a LOOKUP, ENTER or RENAME: words in a row, from the second of its four.
fn told(
    alloc: Global,
    core: &Core,
    channel: Option<OpenChannel>,
    address: u32,
    count: usize,
) -> Result<Vec<CoreArea>, AllocError>
    ensures { IfOk result (λ areas. (under : UnderKeys) → areas.items ≡ in_core core.now (on_open
        (option_map (channel_of under) channel) (λ c. words_at (address + 1) count ∷ []))) }
{
    if channel.is_none() {
        return Ok(Vec::new(alloc));
    }
    following(alloc, core, address, count)
}

/// Returns the areas that the command list at an address names.
fn listed(alloc: Global, core: &Core, address: u32) -> Result<Vec<CoreArea>, AllocError>
    ensures { IfOk result (λ areas. areas.items ≡ in_core core.now (areas_or_none (dump_list core.now address))) }
{
    match core.dump_list(address) {
        Ok(areas) => in_core(alloc, core, areas.as_slice()),
        Err(_) => Ok(Vec::new(alloc)),
    }
}

/// Returns the areas of an IN: what filling a buffer may change, or what the command list names.
fn filled(
    alloc: Global,
    core: &Core,
    channel: Option<OpenChannel>,
    address: u32,
) -> Result<Vec<CoreArea>, AllocError>
    ensures { IfOk result (λ areas. (under : UnderKeys) → areas.items ≡ in_core core.now (on_open
        (option_map (channel_of under) channel) (λ c. areas_filled core.now c address))) }
{
    let Some(open) = channel else {
        return Ok(Vec::new(alloc));
    };
    if open.input.is_none() {
        return Ok(Vec::new(alloc));
    }
    if !open.is_buffered() {
        return listed(alloc, core, address);
    }
    if open.input_header == 0 {
        return Ok(Vec::new(alloc));
    }
    in_core(alloc, core, &core.in_areas(open.input_header))
}

/// Returns the areas of an OUT: what emptying a buffer may change. In dump mode it changes no word.
fn emptied(
    alloc: Global,
    core: &Core,
    channel: Option<OpenChannel>,
) -> Result<Vec<CoreArea>, AllocError>
    ensures { IfOk result (λ areas. (under : UnderKeys) → areas.items ≡ in_core core.now (on_open
        (option_map (channel_of under) channel) (λ c. areas_emptied core.now c))) }
{
    let Some(open) = channel else {
        return Ok(Vec::new(alloc));
    };
    if open.output.is_none() || !open.is_buffered() || open.output_header == 0 {
        return Ok(Vec::new(alloc));
    }
    in_core(alloc, core, &core.out_areas(open.output_header))
}

/// Returns the areas of a CLOSE or RELEAS: the headers of the sides that close.
fn closed(
    alloc: Global,
    core: &Core,
    channel: Option<OpenChannel>,
    bits: u32,
) -> Result<Vec<CoreArea>, AllocError>
    ensures { IfOk result (λ areas. (under : UnderKeys) → areas.items ≡ in_core core.now (on_open
        (option_map (channel_of under) channel) (λ c. areas_closed c bits))) }
{
    let Some(open) = channel else {
        return Ok(Vec::new(alloc));
    };
    if !open.is_buffered() || bits / 0o40 % 2 == 1 {
        return Ok(Vec::new(alloc));
    }
    let closes_output = open.output.is_some() && bits % 2 != 1;
    let closes_input = open.input.is_some() && bits / 2 % 2 != 1;
    let output = header_area(closes_output, open.output_header);
    let input = header_area(closes_input, open.input_header);
    in_core(alloc, core, &[output, input])
}

/// Returns the areas of its core that a call of a job may change: a line for each call.
fn areas_of(alloc: Global, job: &Job, call: &Call) -> Result<Vec<CoreArea>, AllocError>
    ensures { IfOk result (λ areas. (under : UnderKeys) → areas.items ≡ areas_of (job_of under job.now) call.now) }
{
    let core = &job.core;
    match *call {
        Call::Open(_, address) => opened(alloc, core, address),
        Call::Inbuf(number, buffers) => set_up_for_input(alloc, core, job.channel(number), buffers),
        Call::Outbuf(number, buffers) => {
            set_up_for_output(alloc, core, job.channel(number), buffers)
        }
        Call::Lookup(number, address) => told(alloc, core, job.channel(number), address, 3),
        Call::Enter(number, address) => told(alloc, core, job.channel(number), address, 2),
        Call::Rename(number, address) => told(alloc, core, job.channel(number), address, 1),
        Call::In(number, address) => filled(alloc, core, job.channel(number), address),
        Call::Out(number, _) => emptied(alloc, core, job.channel(number)),
        Call::Close(number, bits) => closed(alloc, core, job.channel(number), bits),
        Call::Releas(number) => closed(alloc, core, job.channel(number), 0),
        Call::Reset => following(alloc, core, FIRST_FREE - 1, 1),
        Call::MakeDir(address) => following(alloc, core, address, 1),
        Call::DeleteDir(address) => following(alloc, core, address, 1),
        Call::Quota(address) => following(alloc, core, address, 1),
        Call::Useti(..) | Call::Useto(..) | Call::Getsts(_) => Ok(Vec::new(alloc)),
    }
}

/// Returns these areas for the job of a number: none if nobody is logged in.
fn areas_for(
    alloc: Global,
    jobs: &Jobs,
    number: u32,
    call: &Call,
) -> Result<Vec<CoreArea>, AllocError>
    ensures value { IfOk result (λ areas. (under : UnderKeys) → areas.items
        ≡ areas_for (option_map (job_of under) (slot jobs.now number)) call.now) }
    ensures inside { IfOk result (λ areas. AllByRecursion IsInside areas.items) }
{
    match jobs.job(number) {
        Some(job) => {
            let _words = job.core.length(); // its contract states that there are at most 400000 (octal)
            areas_of(alloc, job, call)
        }
        None => Ok(Vec::new(alloc)),
    }
}

impl<D: Disk> Monitor<D> {
    /// Returns the areas of its own core that a call of a job may change, by the call and the job before it: no other
    /// word of any core changes. Each area has words, and all of them are in the core; areas may overlap. There are
    /// none for a job that isn't logged in, or for a call on a channel that isn't open. The disk isn't called.
    ///
    /// # Errors
    ///
    /// `NoMemory` if there is no memory for the list.
    pub fn changed_areas(
        &self,
        alloc: Global,
        job: u32,
        call: &Call,
    ) -> Result<Vec<CoreArea>, NoMemory>
        ensures served { (s : State)
            → Serves (D.state self.now.disk) self.now.map self.now.failed self.now.jobs (Serving s)
            → IfOk result (λ areas. areas.items ≡ areas_for (job_at s job) call.now) }
        // On every disk they follow from the job's record, whatever is under its keys.
        ensures value { IfOk result (λ areas. (under : UnderKeys) → areas.items
            ≡ areas_for (option_map (job_of under) (slot self.now.jobs job)) call.now) }
        ensures inside { IfOk result (λ areas. AllByRecursion IsInside areas.items) }
    {
        Ok(areas_for(alloc, &self.jobs, job, call)?)
    }
}
