//! A change set: puts for distinct blocks.
ghost use Rattle.std.specs.Prelude.{◌≡◌, ◌<◌, ◌≤◌, [], length, take, slice_get, Some, IsSome, IfSome, IfNone, OnOk};
ghost use Rattle.std.specs.Prelude.{OnErr, IfErr};
ghost use Rattle.changeset.specs.Common.{most_puts, IsPutIn, AreDistinct, replaced};
ghost use Rattle.changeset.specs.declared.error.LogError.TheVariants.{TooMany};
ghost use Rattle.spec_image.specs.Common.{targets, times};

use crate::LogError;
use arrayvec::ArrayVec;
use spec_image::Put;
use std::marker::Model;
use words36::Block;

/// How many blocks a change set may have: as many as the log of the largest disk has room for.
pub const MAX_PUTS: usize = 37;

/// Blocks that are to change together, each with its new words.
#[derive(Drop)]
pub struct ChangeSet {
    puts: ArrayVec<Put, MAX_PUTS>,
}

impl Model for ChangeSet {
    ghost use Rattle.std.specs.Prelude.{List};
    ghost use Rattle.spec_image.specs.declared.put.Put.{Put};
    ghost use Rattle.changeset.specs.Common.{AreDistinct};

    ghost Value = { List Put };

    ghost view = { λ set. set.puts.items };

    ghost invariant = { λ set. AreDistinct set.puts.items };
}

impl ChangeSet {
    /// Returns a change of no blocks.
    pub fn new() -> Self
        ensures { result ≡ [] }
    {
        ChangeSet {
            puts: ArrayVec::new(),
        }
    }

    /// Returns the puts, each for another block.
    pub fn puts(&self) -> &[Put]
        ensures puts { result.now ≡ self.now }
        ensures distinct { AreDistinct result.now }
        ensures few { length result.now ≤ most_puts }
    {
        self.puts.as_slice()
    }

    /// Gives a block its new words, in place of any that it was given before.
    ///
    /// # Errors
    ///
    /// `TooMany` if there are `MAX_PUTS` already and none is for this block; nothing changes then.
    pub fn put(&mut self, block: u32, words: &Block) -> Result<(), LogError>
        ensures ok { OnOk result (self.new ≡ replaced (record { block = block; words = words.now }) self.old) }
        ensures few { OnOk result (length self.new ≤ most_puts) }
        ensures err { OnErr result (self.new ≡ self.old) }
        ensures full { IfErr result (λ error. (error ≡ TooMany) × (length self.old ≡ most_puts)
            × (times block (targets self.old) ≡ 0)) }
    {
        put_in(
            &mut self.puts,
            Put {
                block,
                words: *words,
            },
        )
    }
}

/// Adds a put, in place of one for the same block.
fn put_in(puts: &mut ArrayVec<Put, MAX_PUTS>, put: Put) -> Result<(), LogError>
    ensures ok { OnOk result (puts.new.items ≡ replaced put puts.old.items) }
    ensures few { OnOk result (length puts.new.items ≤ most_puts) }
    ensures err { OnErr result (puts.new.items ≡ puts.old.items) }
    ensures full { IfErr result (λ error. (error ≡ TooMany) × (length puts.old.items ≡ most_puts)
        × (times put.block (targets puts.old.items) ≡ 0)) }
{
    match place_of(puts.as_slice(), put.block) {
        Some(i) => {
            puts.as_mut_slice()[i] = put;
            Ok(())
        }
        None => match puts.try_push(put) {
            Ok(()) => Ok(()),
            Err(_) => Err(LogError::TooMany),
        },
    }
}

/// Returns the place of the put for a block, if there is one.
pub fn place_of(puts: &[Put], block: u32) -> Option<usize>
    ensures there { IsSome result → IsPutIn puts.now block }
    ensures found { IfSome result (λ i. (i < length puts.now) × (slice_get (targets puts.now) i ≡ Some block)) }
    ensures first { IfSome result (λ i. times block (targets (take i puts.now)) ≡ 0) }
    ensures none { IfNone result (times block (targets puts.now) ≡ 0) }
{
    for (i, put) in puts.iter().enumerate() {
        if put.block == block {
            return Some(i);
        }
    }
    None
}
