//! The number of blocks of an image, and of the whole blocks of any file, by its length.
ghost use Rattle.std.specs.Prelude.{◌≡◌, ◌<◌, ◌+◌, ◌*◌, IfOk, IfErr, OnErr};
ghost use Rattle.imagefile.specs.Image.{block_length, IsImageSize, HasTooManyBlocks};

use crate::Form;
use thiserror::Error;

/// Why a file isn't an image.
#[derive(Clone, Copy, Debug, PartialEq, Eq, Error)]
pub enum ImageError {
    /// Its length is not a multiple of a block's bytes, or it has 2^32 blocks or more.
    #[error("not an image's size")]
    BadSize,
    /// The device failed.
    #[error("device fault")]
    Device,
}

/// Returns the number of blocks of an image of this number of bytes.
///
/// # Errors
///
/// `BadSize` exactly if the length is not a multiple of a block's, 1024 or 576 bytes, or if the image has 2^32 blocks
/// or more.
pub fn block_count(form: Form, size: u64) -> Result<u32, ImageError>
    ensures counted { IfOk result (λ blocks. size ≡ block_length form * blocks) }
    ensures refused { OnErr result (IsImageSize form size → ⊥) }
    ensures bad { IfErr result (λ error. error ≡ ImageError.BadSize) }
{
    let block = form.block_bytes();
    if size % block != 0 {
        return Err(ImageError::BadSize);
    }
    u32::try_from(size / block).map_err(|_| ImageError::BadSize)
}

/// Returns the number of whole blocks in a file of this number of bytes, and the number of bytes after them, which is
/// less than a block's.
///
/// # Errors
///
/// `BadSize` exactly if the file has 2^32 whole blocks or more.
pub fn whole_blocks(form: Form, size: u64) -> Result<(u32, u32), ImageError>
    ensures counted { IfOk result
        (λ found. (size ≡ block_length form * found.0 + found.1) × (found.1 < block_length form)) }
    ensures refused { OnErr result (HasTooManyBlocks form size) }
    ensures bad { IfErr result (λ error. error ≡ ImageError.BadSize) }
{
    let block = form.block_bytes();
    let tail = (size % block) as u32;
    match u32::try_from(size / block) {
        Ok(blocks) => Ok((blocks, tail)),
        Err(_) => Err(ImageError::BadSize),
    }
}
