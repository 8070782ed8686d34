//! The test whether a run lies in the free space.
ghost use Rattle.std.specs.Prelude.{◌+◌, ◌<◌, ◌≤◌, ◌^◌, ◌↔◌, IsTrue};
ghost use Rattle.spec_image.specs.Common.{IsVolumeSize, space_start};

use spec_image::layout::space_start;

/// Returns whether a run of blocks, at least one, lies in the free space.
pub fn is_run_in_space(size: u32, count: u32, first: u32) -> bool
    requires volume { IsVolumeSize size }
    requires fits { first + count < 2 ^ 32 }
    ensures { IsTrue result ↔ ((space_start size ≤ first) × (first + count ≤ size)) }
{
    space_start(size) <= first && first + count <= size
}
