//! The places of entries in ascending key order.
ghost use Rattle.std.specs.Prelude.{◌≡◌, ◌<◌, ◌++◌, ℕ, suc, IfOk, IfErr, length, map, slice_get, take, drop};
ghost use Rattle.std.specs.Prelude.{swap_remove, slice_set, Some, None, IfSome, IfNone};
ghost use Rattle.std.specs.Vec.{vec_len, vec_capacity};
ghost use Rattle.std.specs.FinMap.Entries.{find};
ghost use Rattle.spec_image.specs.Common.{times};
ghost use Rattle.directory.specs.Common.{StandsAt, order_to, HasKeyAt, AreRising, IsGap, IsInserted, IsIndex, IsLeft};
ghost use Rattle.directory.specs.Common.{HasPlaces};

use crate::ChainEntry;
use std::cmp::Ordering;

/// Returns where the place of the entry with this key is in a list of places in ascending key order, or where it would
/// be.
pub(crate) fn search<E: ChainEntry>(
    order: &[usize],
    list: &[E],
    key: &E::Key,
) -> Result<usize, usize>
    requires { AreRising E.order (map E.view list.now) order.now }
    ensures found { IfOk result (λ at. (p : ℕ) × (slice_get order.now at ≡ Some p)
        × HasKeyAt E.order (map E.view list.now) key.now p) }
    ensures gap { IfErr result (λ at. IsGap E.order (map E.view list.now) key.now order.now at) }
{
    order.binary_search_by(
        |place|
            ensures { result ≡ order_to E.order key.entry.now (slice_get (map E.view list.entry.now) place.now) }
        {
            match list.get(*place) {
                Some(entry) => entry.cmp_key(key),
                None => Ordering::Less,
            }
        },
    )
}

/// Returns the place of the entry with this key, or `None` if there is none.
pub(crate) fn find_place<E: ChainEntry>(order: &[usize], list: &[E], key: &E::Key) -> Option<usize>
    requires { IsIndex E.order (map E.view list.now) order.now }
    ensures found { IfSome result (λ p. (v : E.Stored) × StandsAt E.order (map E.view list.now) key.now v p) }
    ensures none { IfNone result (find E.order key.now (map E.view list.now) ≡ None) }
{
    match search(order, list, key) {
        Ok(at) => Some(order[at]),
        Err(_) => None,
    }
}

/// Takes a place out of the order.
fn leave<E: ChainEntry>(order: &mut Vec<usize>, list: &[E], place: usize)
    requires rising { AreRising E.order (map E.view list.now) order.old.items }
    requires there { 0 < times place order.old.items }
    requires places { HasPlaces (vec_len order.old) (vec_capacity order.old) }
    ensures left { IsLeft place order.old.items order.new.items }
    ensures places { HasPlaces (suc (vec_len order.new)) (vec_capacity order.new) }
{
    let key = list[place].key();
    match search(order, list, &key) {
        Ok(at) => {
            order.remove(at);
        }
        Err(_) => unreachable!(), // the place is there
    }
}

/// Puts a place into the order, where this key belongs. The order has room for it.
pub(crate) fn enter<E: ChainEntry>(order: &mut Vec<usize>, list: &[E], key: &E::Key, place: usize)
    requires rising { AreRising E.order (map E.view list.now) order.old.items }
    requires absent { (p : ℕ) → 0 < times p order.old.items → HasKeyAt E.order (map E.view list.now) key.now p → ⊥ }
    requires places { HasPlaces (suc (vec_len order.old)) (vec_capacity order.old) }
    ensures entered { IsInserted E.order (map E.view list.now) key.now place order.old.items order.new.items }
    ensures places { HasPlaces (vec_len order.new) (vec_capacity order.new) }
{
    match search(order, list, key) {
        Ok(_) => unreachable!(), // no place has the key
        Err(at) => match order.insert(at, place) {
            Ok(()) => {}
            Err(_) => unreachable!(), // it has a place
        },
    }
}

/// Updates the order for a list whose entry at a place becomes one with this key, which is nowhere else.
pub(crate) fn rename_place<E: ChainEntry>(
    order: &mut Vec<usize>,
    list: &[E],
    place: usize,
    entry: &E,
)
    requires within { place < length list.now }
    requires alone { find E.order (E.view entry.now).0 (take place (map E.view list.now)
        ++ drop (suc place) (map E.view list.now)) ≡ None }
    requires index { IsIndex E.order (map E.view list.now) order.old.items }
    requires places { HasPlaces (vec_len order.old) (vec_capacity order.old) }
    ensures index { IsIndex E.order (slice_set (map E.view list.now) place (E.view entry.now)) order.new.items }
    ensures places { HasPlaces (vec_len order.new) (vec_capacity order.new) }
{
    leave(order, list, place);
    enter(order, list, &entry.key(), place);
}

/// Updates the order for a list whose last entry moves to a place whose entry is taken out.
pub(crate) fn take_place<E: ChainEntry>(order: &mut Vec<usize>, list: &[E], place: usize)
    requires within { place < length list.now }
    requires index { IsIndex E.order (map E.view list.now) order.old.items }
    requires places { HasPlaces (vec_len order.old) (vec_capacity order.old) }
    ensures index { (x : E) → IsIndex E.order (map E.view (swap_remove list.now place x)) order.new.items }
    ensures places { HasPlaces (vec_len order.new) (vec_capacity order.new) }
{
    leave(order, list, place);
    let last = list.len() - 1;
    if place == last {
        return;
    }
    leave(order, list, last);
    enter(order, list, &list[last].key(), place);
}
