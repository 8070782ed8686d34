//! The end of a file that is read: how many words its last block has, and an IN that reports the end.
ghost use Rattle.std.specs.Prelude.{◌≡◌, ◌<◌, ◌≤◌, ◌-◌, ◌^◌, ℕ, List, if◌then◌else◌, IfOk, Some, None, take, replicate};
ghost use Rattle.words36.specs.Common.{left};
ghost use Rattle.spec_language.specs.Common.{Plan, each, fetches, deposit_events, takes_over, sizes, until_end};
ghost use Rattle.spec_language.specs.Common.{says_words, block_address};
ghost use Rattle.commands.specs.Common.{FollowsPlan, followed};
ghost use Rattle.words36.specs.declared.moment.Moment as moments;
ghost use Rattle.spec_language.specs.Plans as plans;

use crate::ask_events::{ask_all, examine};
use crate::requests::{BLOCK_AREA, fill_event, in_event, useti_event};
use crate::service::FileService;
use spec_machine::Reply;
use std::alloc::Global;
use words36::{BLOCK_WORDS, Block, Moment, Word};

/// The bit of a status that reports the end of a file.
const END_OF_FILE: u32 = 1 << 13;

/// Returns how many words a body has, if the word that LOOKUP leaves gives them: for a body of more than 131072 words
/// it gives the blocks.
fn words_said(size: Word) -> Option<u32>
    ensures { result ≡ (if says_words size then Some (2 ^ 18 - left size) else None) }
{
    let left = size.left().bits();
    if left >= 1 << 17 {
        Some((1 << 18) - left)
    } else {
        None
    }
}

/// Returns how many blocks a body has, by the word that LOOKUP leaves.
pub fn blocks_said(size: Word) -> u32
    ensures value { result ≡ plans.blocks_said size }
    ensures few { result < 2 ^ 18 }
{
    match words_said(size) {
        Some(words) => words.div_ceil(BLOCK_WORDS as u32),
        None => size.left().bits(),
    }
}

/// Makes every word of the block this one.
fn fill<S: FileService>(alloc: Global, service: &mut S, word: Word) -> Result<(), Reply>
    ensures { (moment : moments.Moment) (next : Plan) → FollowsPlan S.machine service.old service.new
        (each moment (deposit_events block_address (replicate BLOCK_WORDS word)) next)
        (followed moment result (λ unit. next)) }
{
    for place in 0..BLOCK_WORDS as u32 {
        ask_all(alloc, service, &[fill_event(place, word)])?;
    }
    Ok(())
}

/// Returns the first `count` words of the block, with zeros after them.
fn fetch<S: FileService>(alloc: Global, service: &mut S, count: u32) -> Result<Block, Reply>
    requires { count ≤ BLOCK_WORDS }
    ensures { (moment : moments.Moment) (next : List ℕ → Plan) → FollowsPlan S.machine service.old service.new
        (fetches moment count block_address next) (followed moment result (λ block. next (take count block))) }
{
    let mut block = [Word::ZERO; BLOCK_WORDS];
    if let Some(words) = service.examine_all(BLOCK_AREA, count as usize) {
        block[..count as usize].copy_from_slice(words);
        return Ok(block);
    }
    for place in 0..count {
        block[place as usize] = examine(alloc, service, BLOCK_AREA + place)?;
    }
    Ok(block)
}

/// Returns block n as an IN moves it over a block whose words are all this one.
fn take_over<S: FileService>(
    alloc: Global,
    service: &mut S,
    moment: Moment,
    n: u32,
    word: Word,
) -> Result<Block, Reply>
    ensures { (next : List ℕ → Plan) → FollowsPlan S.machine service.old service.new
        (takes_over moment n word next) (followed moment result next) }
{
    fill(alloc, service, word)?;
    ask_all(alloc, service, &[useti_event(moment, n), in_event(moment)])?;
    fetch(alloc, service, BLOCK_WORDS as u32)
}

/// Returns in how many places two blocks have the same word.
fn same_words(zeros: &Block, ones: &Block) -> u32
    ensures value { result ≡ plans.same_words zeros.now ones.now }
    ensures few { result ≤ BLOCK_WORDS }
{
    let mut count = 0;
    for place in 0..BLOCK_WORDS {
        if zeros[place] == ones[place] {
            count += 1;
        }
    }
    count
}

/// Returns how many words the last block has, which is block n. If the file's size doesn't give it, the block is read
/// twice, over different words: those that were moved are the same.
pub fn last_count<S: FileService>(
    alloc: Global,
    service: &mut S,
    moment: Moment,
    n: u32,
    size: Word,
) -> Result<u32, Reply>
    ensures led { (next : ℕ → Plan) → FollowsPlan S.machine service.old service.new
        (sizes moment n size next) (followed moment result next) }
    ensures few { IfOk result (λ count. count ≤ BLOCK_WORDS) }
{
    if let Some(words) = words_said(size) {
        return Ok((words - 1) % BLOCK_WORDS as u32 + 1);
    }
    let zeros = take_over(alloc, service, moment, n, Word::ZERO)?;
    let ones = take_over(alloc, service, moment, n, Word::from_bits(1))?;
    Ok(same_words(&zeros, &ones))
}

/// Makes an IN that must find no word any more. The error is its reply if it doesn't report the end of the file.
pub fn find_end<S: FileService>(alloc: Global, service: &mut S, moment: Moment) -> Result<(), Reply>
    ensures { (next : Plan) → FollowsPlan S.machine service.old service.new
        (until_end moment next) (followed moment result (λ unit. next)) }
{
    let reply = service.event(alloc, &in_event(moment));
    match reply {
        Reply::Stopped(status) if status & END_OF_FILE != 0 => Ok(()),
        _ => Err(reply),
    }
}
