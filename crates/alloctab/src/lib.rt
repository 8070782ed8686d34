//! The allocation table of a disk, in memory. What the layer guarantees:
//!
//! 1. A table has a bit and a count for each block of the disk: the bit is set if the block is in use on the disk,
//!    and the count is how often the block is held in memory.
//! 2. After `load` the bits are those of the table blocks of the disk, none of which is damaged or has a bit set for
//!    a number past the end of the disk.
//! 3. `take` returns the lowest block that is neither set nor held, and holds it.
//! 4. As long as fewer blocks of the free space are set or held than are booked, `take` finds one.
//! 5. `changes` puts exactly the table blocks with a bit that was set or cleared since its last call; with those
//!    puts, the disk spells all bits.
//! 6. `wrong_block` finds a table block with a bit that isn't what the reached blocks require, if there is one.
//! 7. Only `Table::load` and `Reached::new` take memory.
#![tactic(auto)]

mod bits;
mod blocks;
mod error;
mod hint;
mod lanes;
mod load;
mod reached;
mod table;
mod words;

pub use bits::{has_bit_past, is_set};
pub use error::TableError;
pub use lanes::{count_clear, first_clear};
pub use reached::Reached;
pub use table::Table;
