//! The command COPY.
ghost use Rattle.std.specs.Prelude.{◌++◌, ◌∷◌, [], ◌+◌, ℕ, Some};
ghost use Rattle.spec_language.specs.Common.{Plan, each, examines, lookup_events, enter_events};
ghost use Rattle.spec_language.specs.Common.{list_events, file_words, copy_runs_plan, copy_blocks_plan, copy_last_plan};
ghost use Rattle.spec_language.specs.Common.{copy_body_plan, until_end, blocks_said as said_blocks, call_event};
ghost use Rattle.spec_machine.specs.declared.call.Call.TheVariants.{Close};
ghost use Rattle.spec_language.specs.declared.command.Command.TheVariants.{Copy as CopyLine};
ghost use Rattle.commands.specs.Common.{FollowsPlan, followed, CommandDone};

use crate::answer::Tally;
use crate::ask_events::{ask_all, examine};
use crate::conclude::conclude;
use crate::read_body::{blocks_said, find_end, last_count};
use crate::requests::{
    RUN_BLOCKS, RUN_WORDS, SIZE_WORD, close_event, enter_events, in_event, list_events,
    lookup_events, out_event, useti_event,
};
use crate::service::FileService;
use spec_language::Spec;
use spec_machine::Reply;
use std::alloc::{AllocError, Global};
use words36::{BLOCK_WORDS, Moment, Ppn, Word};

/// Copies by `runs` INs and OUTs, each of which moves the words that the command list names.
fn copy_runs<S: FileService>(
    alloc: Global,
    service: &mut S,
    moment: Moment,
    runs: u32,
) -> Result<(), Reply>
    ensures { (next : Plan) → FollowsPlan S.machine service.old service.new
        (copy_runs_plan moment runs next) (followed moment result (λ unit. next)) }
{
    for _ in 0..runs {
        ask_all(alloc, service, &[in_event(moment), out_event(moment)])?;
    }
    Ok(())
}

/// Copies `count` whole blocks, from the positions of the two files: by runs, and the blocks that don't fill a run one
/// by one.
fn copy_blocks<S: FileService>(
    alloc: Global,
    service: &mut S,
    moment: Moment,
    count: u32,
) -> Result<(), Reply>
    ensures { (next : Plan) → FollowsPlan S.machine service.old service.new
        (copy_blocks_plan moment count next) (followed moment result (λ unit. next)) }
{
    ask_all(alloc, service, &list_events(RUN_WORDS))?;
    copy_runs(alloc, service, moment, count / RUN_BLOCKS)?;
    ask_all(alloc, service, &list_events(BLOCK_WORDS as u32))?;
    copy_runs(alloc, service, moment, count % RUN_BLOCKS)
}

/// Copies the words of the last block, which is block n.
fn copy_last<S: FileService>(
    alloc: Global,
    service: &mut S,
    moment: Moment,
    n: u32,
    size: Word,
) -> Result<(), Reply>
    ensures { (next : Plan) → FollowsPlan S.machine service.old service.new
        (copy_last_plan moment n size next) (followed moment result (λ unit. next)) }
{
    let count = last_count(alloc, service, moment, n, size)?;
    ask_all(alloc, service, &list_events(count))?;
    ask_all(
        alloc,
        service,
        &[useti_event(moment, n), in_event(moment), out_event(moment)],
    )
}

/// Copies all words of a body of this size.
fn copy_body<S: FileService>(
    alloc: Global,
    service: &mut S,
    moment: Moment,
    size: Word,
) -> Result<(), Reply>
    ensures { (next : Plan) → FollowsPlan S.machine service.old service.new
        (copy_body_plan moment (said_blocks size) size next) (followed moment result (λ unit. next)) }
{
    let blocks = blocks_said(size);
    if blocks == 0 {
        return Ok(());
    }
    copy_blocks(alloc, service, moment, blocks - 1)?;
    copy_last(alloc, service, moment, blocks, size)
}

/// Looks a file up and enters the other, each on its channel. Returns the word that gives the file's size.
fn open_both<S: FileService>(
    alloc: Global,
    service: &mut S,
    moment: Moment,
    to: Spec,
    from: Spec,
) -> Result<Word, Reply>
    ensures { (next : ℕ → Plan) → FollowsPlan S.machine service.old service.new
        (each moment (lookup_events moment from ++ enter_events moment to ++ list_events BLOCK_WORDS)
        (examines moment (file_words + 3) next))
        (followed moment result next) }
{
    ask_all(alloc, service, &lookup_events(moment, from))?;
    ask_all(alloc, service, &enter_events(moment, to))?;
    ask_all(alloc, service, &list_events(BLOCK_WORDS as u32))?;
    examine(alloc, service, SIZE_WORD)
}

/// Copies a file, and closes the new one.
fn copy_file<S: FileService>(
    alloc: Global,
    service: &mut S,
    moment: Moment,
    to: Spec,
    from: Spec,
) -> Result<(), Reply>
    ensures { (next : Plan) → FollowsPlan S.machine service.old service.new
        (each moment (lookup_events moment from ++ enter_events moment to ++ list_events BLOCK_WORDS)
        (examines moment (file_words + 3) (λ size. copy_body_plan moment (said_blocks size) size
        (until_end moment (each moment (call_event moment (Close 2 0) ∷ []) next)))))
        (followed moment result (λ unit. next)) }
{
    let size = open_both(alloc, service, moment, to, from)?;
    copy_body(alloc, service, moment, size)?;
    find_end(alloc, service, moment)?;
    ask_all(alloc, service, &[close_event(moment)])
}

/// Answers COPY, for a job that is logged in.
pub fn copy<S: FileService>(
    alloc: Global,
    service: &mut S,
    moment: Moment,
    me: Ppn,
    tally: &mut Tally,
    to: Spec,
    from: Spec,
) -> Result<Vec<u8>, AllocError>
    ensures { CommandDone (λ bytes. bytes.items) result S.machine service.old service.new moment (Some me)
        (Some me) tally.old tally.new (Some (CopyLine to from)) }
{
    let copied = copy_file(alloc, service, moment, to, from);
    conclude(alloc, service, moment, tally, copied)
}
