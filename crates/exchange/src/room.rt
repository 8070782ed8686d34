//! The memory that the answer to an order needs.
ghost use Rattle.std.specs.Prelude.{◌≡◌, ◌+◌, ◌*◌, ◌^◌, ◌<◌, ◌≤◌, ℕ, List, [], length, IfOk, IfSome, vec_len};
ghost use Rattle.std.specs.Prelude.{vec_capacity};
ghost use Rattle.std.specs.List.{AllByRecursion};
ghost use Rattle.wire.specs.Records.{HasWords};
ghost use Rattle.exchange.specs.Turns.{addresses};
ghost use Rattle.exchange.specs.Exchanges.{IsLow, AreTold};

use commands::FileService;
use std::alloc::{AllocError, Global};
use usercore::CoreArea;
use wire::{HEADER_BYTES, Order};

/// Returns the areas of core that the answer to an order reports: for a call, those that it may change.
pub(crate) fn areas_told<S: FileService>(
    alloc: Global,
    service: &S,
    order: &Order,
) -> Result<Vec<CoreArea>, AllocError>
    ensures told { IfOk result (λ areas. AreTold (S.machine service.now) order.now areas.items) }
    ensures inside { (words : List ℕ) → HasWords order.now words
        → IfOk result (λ areas. AllByRecursion IsLow areas.items) }
{
    match *order {
        Order::Call(job, call, _) => service
            .changed_areas(alloc, job.into(), &call)
            .map_err(|_| AllocError),
        Order::Examine(_, first, count) => {
            let mut areas = Vec::new(alloc);
            areas.push(CoreArea {
                first: first as usize,
                count: count as usize,
            })?;
            Ok(areas)
        }
        Order::Login(..) | Order::Deposit(..) | Order::Room => Ok(Vec::new(alloc)),
    }
}

/// Returns the number of words in areas, if it is below 2^32.
fn words_in(areas: &[CoreArea]) -> Option<u32>
    ensures { IfSome result (λ words. words ≡ length (addresses areas.now)) }
{
    let mut words = 0u32;
    for area in areas {
        words = words.checked_add(u32::try_from(area.count).ok()?)?;
    }
    Some(words)
}

/// Takes the memory for an answer that reports the words of these areas: returns a list with room for them, and makes
/// room for the answer's bytes in the answers that wait.
pub(crate) fn answer_room(
    alloc: Global,
    areas: &[CoreArea],
    answers: &mut Vec<u8>,
) -> Result<Vec<u64>, AllocError>
    ensures empty { IfOk result (λ groups. groups.items ≡ []) }
    ensures groups { IfOk result (λ groups. length (addresses areas.now) ≤ vec_capacity groups) }
    ensures few { IfOk result (λ groups. length (addresses areas.now) < 2 ^ 32) }
    ensures bytes { IfOk result (λ groups.
        vec_len answers.old + (16 + 8 * length (addresses areas.now)) ≤ vec_capacity answers.new) }
    ensures kept { answers.new.items ≡ answers.old.items }
{
    let words = words_in(areas).ok_or(AllocError)? as usize;
    let groups = Vec::with_capacity(alloc, words)?;
    answers.reserve(HEADER_BYTES + 8 * words)?;
    Ok(groups)
}
