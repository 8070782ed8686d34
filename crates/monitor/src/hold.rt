//! How an input side pins the version that it reads.
ghost use Rattle.std.specs.Prelude.{◌≡◌, ◌+◌, ◌<◌, ◌≤◌, ◌^◌, ℕ, false, None, Some, Ok, option_to_list};
ghost use Rattle.spec_image.specs.Common.{File, Files, get, times};
ghost use Rattle.volume.specs.Common.{slot, IsPinAnswer, prime_at, RestsAt};
ghost use Rattle.volume.specs.declared.live.LiveVersion.{LiveVersion};
ghost use Rattle.monitor.specs.Common.{IsHolding, readers_of, Renews, pins_of};

use crate::close_job::release_input;
use crate::input::Input;
use blockdisk::Disk;
use volume::Volume;
use words36::{FileName, Ppn};

/// Pins the version that the file of a place has now, and returns an input side that reads it, of this protection.
/// There is such a file.
fn hold<D: Disk>(
    volume: &mut Volume<D>,
    ppn: Ppn,
    file: FileName,
    protection: u16,
    next: u32,
) -> Input
    requires alive { volume.old.failed ≡ false }
    requires there { prime_at volume.old.map ppn file ≡ None → ⊥ }
    requires few { (key : ℕ) (v : LiveVersion) → slot volume.old.map.live key ≡ Some v → v.readers + 1 < 2 ^ 32 }
    ensures side { (result.ppn ≡ ppn) × (result.file ≡ file) × (result.protection ≡ protection)
        × (result.next ≡ next) }
    ensures holds { IsHolding volume.old.map volume.new.map result }
    ensures value { (D.state volume.new.disk).honest → (files : Files File) → RestsAt (D.state volume.old.disk) files
        → IsPinAnswer (D.state volume.old.disk).contents volume.new.map.live file (Ok result.pin) (get files ppn) }
    ensures untouched { (volume.new.disk ≡ volume.old.disk) × (volume.new.failed ≡ volume.old.failed) }
    ensures layout { volume.new.layout ≡ volume.old.layout }
{
    match volume.pin(ppn, &file) {
        Ok(pin) => Input {
            pin,
            ppn,
            file,
            protection,
            next,
        },
        Err(_) => unreachable!(), // the place has a file
    }
}

/// Pins the version that the file of a place has now, in place of the one that an input side had pinned, and returns
/// that side; its next block stays. There is such a file, of this protection.
pub fn renew<D: Disk>(
    volume: &mut Volume<D>,
    input: Input,
    ppn: Ppn,
    file: FileName,
    protection: u16,
) -> Input
    requires alive { volume.old.failed ≡ false }
    requires there { prime_at volume.old.map ppn file ≡ None → ⊥ }
    requires few { (key : ℕ) (v : LiveVersion) → slot volume.old.map.live key ≡ Some v → v.readers + 1 < 2 ^ 32 }
    requires held { (key : ℕ) → times key (pins_of (option_to_list (Some input)))
        ≤ readers_of (slot volume.old.map.live key) }
    ensures renews { (is : Renews volume.old.map volume.new.map input result ppn file protection)
        × ((D.state volume.new.disk).honest → (files : Files File) → RestsAt (D.state volume.old.disk) files
        → IsPinAnswer (D.state volume.old.disk).contents is.between.live file (Ok is.held.pin) (get files ppn)) }
    ensures untouched { (volume.new.disk ≡ volume.old.disk) × (volume.new.failed ≡ volume.old.failed) }
    ensures layout { volume.new.layout ≡ volume.old.layout }
{
    let held = hold(volume, ppn, file, protection, input.next);
    let renewed = Input {
        pin: held.pin,
        protection,
        ..input
    };
    release_input(volume, Some(input));
    renewed
}
