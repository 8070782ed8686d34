//! The events of an order, and its answer.
ghost use Rattle.std.specs.Prelude.{◌≡◌, ◌+◌, ◌-◌, ◌^◌, ◌≤◌, List, ℕ, [], All, length, vec_capacity};
ghost use Rattle.std.specs.List.{AllByRecursion};
ghost use Rattle.words36.specs.Common.{block_bytes, IsWord};
ghost use Rattle.wire.specs.Records.{IsOrder};
ghost use Rattle.wire.specs.declared.header.Header.{Header as Headers};
ghost use Rattle.exchange.specs.Turns.{addresses};
ghost use Rattle.exchange.specs.Exchanges.{HasPut, HasWritten, ServesOrder, IsLow, AreTold};

use crate::reply_words::push_areas;
use commands::FileService;
use spec_machine::{Event, Reply};
use std::alloc::Global;
use usercore::CoreArea;
use wire::{Answer, Order, word_at};
use words36::Word;

/// Puts a word into a job's core. Returns the reply if it isn't done.
fn put_word<S: FileService>(
    alloc: Global,
    service: &mut S,
    job: u8,
    address: u32,
    word: Word,
) -> Option<Reply>
    ensures { HasPut S.machine service.old service.new job address word result }
{
    match service.event(alloc, &Event::Deposit(job.into(), address, word)) {
        Reply::Done => None,
        reply => Some(reply),
    }
}

/// Puts the words that bytes spell into a job's core in a row, up to the first that can't be put. Returns the reply to
/// that one, or Done.
fn put_words<S: FileService>(
    alloc: Global,
    service: &mut S,
    job: u8,
    first: u32,
    body: &[u8],
) -> Reply
    requires { first + length body.now ≤ 2 ^ 32 - 1 }
    ensures { (words : List ℕ) → All IsWord words → block_bytes words ≡ body.now
        → HasWritten S.machine service.old service.new job first words result }
{
    for place in 0..body.len() / 8 {
        let word = word_at(body, place).unwrap_or(Word::ZERO);
        if let Some(reply) = put_word(alloc, service, job, first + place as u32, word) {
            return reply;
        }
    }
    Reply::Done
}

/// Serves an order, and returns the answer; the words that it reports are appended to the groups.
pub(crate) fn serve_order<S: FileService>(
    alloc: Global,
    service: &mut S,
    order: &Order,
    body: &[u8],
    areas: &[CoreArea],
    groups: &mut Vec<u64>,
) -> Answer
    requires spelled { (header : Headers) × (words : List ℕ) × IsOrder header body.now order.now words }
    requires empty { groups.old.items ≡ [] }
    requires room { length (addresses areas.now) ≤ vec_capacity groups.old }
    requires inside { AllByRecursion IsLow areas.now }
    ensures { (header : Headers) (words : List ℕ) → IsOrder header body.now order.now words
        → AreTold (S.machine service.old) order.now areas.now
        → ServesOrder S.machine service.old service.new (record { header = header; body = body.now }) order.now words
        areas.now result groups.new.items }
{
    match *order {
        Order::Login(job, owner, words) => {
            Answer::Reply(service.event(alloc, &Event::Login(job.into(), owner, words)))
        }
        Order::Deposit(job, first, _) => {
            Answer::Reply(put_words(alloc, service, job, first, body))
        }
        Order::Examine(job, _, _) => Answer::Reply(push_areas(alloc, service, job, areas, groups)),
        Order::Call(job, call, moment) => {
            let reply = service.event(alloc, &Event::Call(job.into(), call, moment));
            push_areas(alloc, service, job, areas, groups);
            Answer::Reply(reply)
        }
        Order::Room => Answer::Room(service.room()),
    }
}
