//! The hint of a table: a block below which none is free, so that a search for a free one begins there.
ghost use Rattle.std.specs.Prelude.{◌≡◌, ◌≤◌, false};

/// Returns the hint after a call that released block `n`, which is now held `count` times, and set or not: no higher
/// than the block if the block is free.
pub fn lowered(hint: u32, n: u32, count: u32, is_set: bool) -> u32
    ensures lower { result ≤ hint }
    ensures free { count ≡ 0 → is_set ≡ false → result ≤ n }
{
    if is_set || count > 0 {
        hint
    } else {
        hint.min(n)
    }
}
