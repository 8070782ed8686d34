//! The orders of a program, and their parsing.
ghost use Rattle.std.specs.Prelude.{◌≡◌, ◌+◌, ◌*◌, ◌<◌, ◌≤◌, ◌^◌, ◌↔◌, ℕ, List, IfSome, IsSome, Some, IsTrue, length};
ghost use Rattle.std.specs.Prelude.{[]};
ghost use Rattle.words36.specs.Common.{number_at};
ghost use Rattle.wire.specs.Records.{IsOrder, record_of, HasWords, moment_number, most_words};
ghost use Rattle.wire.specs.declared.order.Order as orders;

use crate::Header;
use crate::calls::call_of;
use spec_machine::Call;
use words36::{Moment, Ppn, Word, first_bad_word};

/// An order of a program.
#[derive(Clone, Copy, Debug, PartialEq, Eq)]
pub enum Order {
    /// A job logs in: its number, its project-programmer number, and the number of words of its core.
    Login(u8, Ppn, u32),
    /// The words after the record go into a job's core: the job's number, the first address, and the number of words.
    Deposit(u8, u32, u32),
    /// Words of a job's core are read: the job's number, the first address, and the number of words.
    Examine(u8, u32, u32),
    /// A job makes a call, at a moment.
    Call(u8, Call, Moment),
    /// The number of blocks that there is room for is read.
    Room,
}

/// Returns the word at a place, counted from 0 in words of eight bytes, or `None` if the number there has more than
/// 36 bits.
pub fn word_at(bytes: &[u8], place: usize) -> Option<Word>
    requires { 8 * place + 8 ≤ length bytes.now }
    ensures value { IfSome result (λ word. word ≡ number_at bytes.now place) }
    ensures fits { IsSome result ↔ (number_at bytes.now place < 2 ^ 36) }
{
    let mut group = [0; 8];
    group.copy_from_slice(&bytes[8 * place..8 * place + 8]);
    Word::new(u64::from_be_bytes(group))
}

/// Returns the moment of a date in the left 16 bits and a minute in the right ones, if there is one.
fn moment_of(detail: u32) -> Option<Moment>
    ensures is { IfSome result (λ moment. moment_number moment ≡ detail) }
    ensures all { (moment : Moment) → moment_number moment ≡ detail → result ≡ Some moment }
{
    Moment::new(detail / 65_536, detail % 65_536).ok()
}

/// Returns whether `count` words from an address are all below address 2^18.
fn lies_in_core(address: u32, count: u32) -> bool
    ensures { IsTrue result ↔ (address + count ≤ most_words) }
{
    u64::from(address) + u64::from(count) <= 1 << 18
}

/// Parses a login, whose project-programmer number follows its record.
fn parse_login(header: &Header, body: &[u8]) -> Option<Order>
    requires { header.now.kind ≡ 1 }
    ensures is { IfSome result (λ order. (words : List ℕ) × IsOrder header.now body.now order words) }
    ensures all { (order : orders.Order) (words : List ℕ) → IsOrder header.now body.now order words
        → result ≡ Some order }
{
    if body.len() != 8 {
        return None;
    }
    let owner = Ppn::from_word(word_at(body, 0)?)?;
    let is_plain = header.code == 0
        && header.channel == 0
        && header.detail == 0
        && header.count == 1;
    is_plain.then_some(Order::Login(header.job, owner, header.number))
}

/// Parses a deposit, whose words follow its record.
fn parse_deposit(header: &Header, body: &[u8]) -> Option<Order>
    requires { header.now.kind ≡ 2 }
    ensures is { IfSome result (λ order. (words : List ℕ) × IsOrder header.now body.now order words) }
    ensures all { (order : orders.Order) (words : List ℕ) → IsOrder header.now body.now order words
        → result ≡ Some order }
{
    if header.code != 0 || header.channel != 0 || header.detail != 0 {
        return None;
    }
    if u64::from(header.count) * 8 != body.len() as u64 {
        return None;
    }
    if !lies_in_core(header.number, header.count) {
        return None;
    }
    match first_bad_word(body) {
        Some(_) => None,
        None => Some(Order::Deposit(header.job, header.number, header.count)),
    }
}

/// Parses an order to read words.
fn parse_examine(header: &Header) -> Option<Order>
    requires kind { header.now.kind ≡ 3 }
    requires count { header.now.count ≡ 0 }
    ensures is { IfSome result (λ order. (record_of order ≡ header.now) × HasWords order []) }
    ensures all { (order : orders.Order) → record_of order ≡ header.now → HasWords order [] → result ≡ Some order }
{
    if header.code != 0 || header.channel != 0 || !lies_in_core(header.number, header.detail) {
        return None;
    }
    Some(Order::Examine(header.job, header.number, header.detail))
}

/// Parses a call.
fn parse_call(header: &Header) -> Option<Order>
    requires kind { header.now.kind ≡ 4 }
    requires count { header.now.count ≡ 0 }
    ensures is { IfSome result (λ order. record_of order ≡ header.now) }
    ensures all { (order : orders.Order) → record_of order ≡ header.now → result ≡ Some order }
{
    let call = call_of(header.code, header.channel, header.number)?;
    let moment = moment_of(header.detail)?;
    Some(Order::Call(header.job, call, moment))
}

/// Parses an order that no words follow.
fn parse_plain(header: &Header) -> Option<Order>
    ensures is { IfSome result (λ order. (record_of order ≡ header.now) × HasWords order []) }
    ensures all { (order : orders.Order) → record_of order ≡ header.now → HasWords order [] → 2 < header.now.kind
        → result ≡ Some order }
{
    if header.count != 0 {
        return None;
    }
    match header.kind {
        3 => parse_examine(header),
        4 => parse_call(header),
        5
            if header.code == 0
                && header.job == 0
                && header.channel == 0
                && header.number == 0
                && header.detail == 0 => Some(Order::Room),
        _ => None,
    }
}

/// Parses an order from its record and the bytes after it. Returns `None` if they spell no order.
pub fn parse_order(header: &Header, body: &[u8]) -> Option<Order>
    ensures is { IfSome result (λ order. (words : List ℕ) × IsOrder header.now body.now order words) }
    ensures all { (order : orders.Order) (words : List ℕ) → IsOrder header.now body.now order words
        → result ≡ Some order }
{
    match header.kind {
        1 => parse_login(header, body),
        2 => parse_deposit(header, body),
        _ if body.is_empty() => parse_plain(header),
        _ => None,
    }
}
