//! The blocks of an image in the bytes of its file, in either form.
ghost use Rattle.std.specs.Prelude.{◌≡◌, ◌+◌, ◌-◌, ◌*◌, ◌<◌, ◌≤◌, ◌^◌, ℕ, Some, IsErrOf, length};
ghost use Rattle.blockdisk.specs.Common.{IsRead, IsRunRead, IsVerify, IsWrite, IsRunWrite, AreFilled, HoldRun};
ghost use Rattle.blockdisk.specs.Common.{IsWithin};
ghost use Rattle.blockdisk.specs.declared.fault.Fault.TheVariants.{Device};
ghost use Rattle.imagefile.specs.File.{SameFile};
ghost use Rattle.imagefile.specs.Image.{block_content, block_length, spelled_blocks, image_state};
ghost use Rattle.imagefile.specs.declared.form.Form.TheVariants.{Wide, Packed};

use crate::{Durable, Form};
use blockdisk::Fault;
use words36::{
    BLOCK_BYTES, BLOCK_WORDS, Block, PACKED_BYTES, block_from_bytes, block_from_nine,
    block_to_bytes, block_to_nine, first_bad_word,
};

/// The number of neighbouring blocks that one call of the file writes, and without more room reads or verifies.
const GROUP_BLOCKS: u32 = 16;

/// Reads the words of block n of the image that this file is.
///
/// # Errors
///
/// As for a disk: `Damaged` if the bytes are no block's, `Device` if the file fails.
pub(crate) fn read_block<F: Durable>(form: Form, file: &mut F, n: u32) -> Result<Block, Fault>
    requires { (F.state file.old).honest → block_length form * n + block_length form ≤ (F.state file.old).size }
    ensures same { SameFile (F.state file.old) (F.state file.new) }
    ensures reads { (blocks : ℕ) → IsRead n (image_state form blocks (F.state file.old))
        (image_state form blocks (F.state file.new)) result }
    ensures refused { IsErrOf result Device → (from : F)
        × F.refused from file.new (block_length form * n) (block_length form) }
{
    match form {
        Form::Wide => read_wide(file, n),
        Form::Packed => read_packed(file, n),
    }
}

/// Reads neighbouring blocks of the image that this file is, from block `first`, into as many places. Returns the
/// first damaged block among them, if any.
///
/// # Errors
///
/// As for a disk: `Device` if the file fails.
pub(crate) fn read_blocks<F: Durable>(
    form: Form,
    file: &mut F,
    first: u32,
    blocks: &mut [Block],
) -> Result<Option<u32>, Fault>
    requires fits { first + length blocks.old < 2 ^ 32 }
    requires inside { (F.state file.old).honest
        → block_length form * (first + length blocks.old) ≤ (F.state file.old).size }
    ensures same { SameFile (F.state file.old) (F.state file.new) }
    ensures reads { (size : ℕ) → IsRunRead first (image_state form size (F.state file.old))
        (image_state form size (F.state file.new)) blocks.new result }
{
    let mut room = [0; GROUP_BLOCKS as usize * BLOCK_BYTES];
    read_groups(form, file, &mut room, first, blocks)
}

/// Reads neighbouring blocks as `read_blocks` does, but through memory for the bytes of more blocks, if there is any.
///
/// # Errors
///
/// As for a disk: `Device` if the file fails.
pub(crate) fn read_blocks_through<F: Durable>(
    form: Form,
    file: &mut F,
    room: &mut Option<Vec<u8>>,
    first: u32,
    blocks: &mut [Block],
) -> Result<Option<u32>, Fault>
    requires fits { first + length blocks.old < 2 ^ 32 }
    requires inside { (F.state file.old).honest
        → block_length form * (first + length blocks.old) ≤ (F.state file.old).size }
    ensures same { SameFile (F.state file.old) (F.state file.new) }
    ensures reads { (size : ℕ) → IsRunRead first (image_state form size (F.state file.old))
        (image_state form size (F.state file.new)) blocks.new result }
{
    if let Some(room) = room {
        if room.len() >= BLOCK_BYTES {
            return read_groups(form, file, room.as_mut_slice(), first, blocks);
        }
    }
    read_blocks(form, file, first, blocks)
}

/// Reads neighbouring blocks as `read_blocks` does, with as many in each call of the file as there is room for.
fn read_groups<F: Durable>(
    form: Form,
    file: &mut F,
    room: &mut [u8],
    first: u32,
    blocks: &mut [Block],
) -> Result<Option<u32>, Fault>
    requires room { 1024 ≤ length room.old }
    requires fits { first + length blocks.old < 2 ^ 32 }
    requires inside { (F.state file.old).honest
        → block_length form * (first + length blocks.old) ≤ (F.state file.old).size }
    ensures same { SameFile (F.state file.old) (F.state file.new) }
    ensures reads { (size : ℕ) → IsRunRead first (image_state form size (F.state file.old))
        (image_state form size (F.state file.new)) blocks.new result }
{
    let group = room.len() / BLOCK_BYTES;
    let mut done = 0;
    while done < blocks.len() {
        let stop = blocks.len().min(done + group);
        match read_group(
            form,
            file,
            room,
            first + done as u32,
            &mut blocks[done..stop],
        ) {
            Ok(None) => done = stop,
            Ok(Some(bad)) => return Ok(Some(bad)),
            Err(fault) => return Err(fault),
        }
    }
    Ok(None)
}

/// Returns the first damaged block from block `first` and before block `end`, if any, of the image that this file is.
///
/// # Errors
///
/// As for a disk: `Device` if the file fails.
pub(crate) fn verify_blocks<F: Durable>(
    form: Form,
    file: &mut F,
    first: u32,
    end: u32,
) -> Result<Option<u32>, Fault>
    requires { (F.state file.old).honest → block_length form * end ≤ (F.state file.old).size }
    ensures same { SameFile (F.state file.old) (F.state file.new) }
    ensures verifies { (blocks : ℕ) → IsVerify first end (image_state form blocks (F.state file.old))
        (image_state form blocks (F.state file.new)) result }
{
    let mut room = [0; GROUP_BLOCKS as usize * BLOCK_BYTES];
    verify_groups(form, file, &mut room, first, end)
}

/// Verifies blocks as `verify_blocks` does, but through memory for the bytes of more blocks, if there is any.
///
/// # Errors
///
/// As for a disk: `Device` if the file fails.
pub(crate) fn verify_blocks_through<F: Durable>(
    form: Form,
    file: &mut F,
    room: &mut Option<Vec<u8>>,
    first: u32,
    end: u32,
) -> Result<Option<u32>, Fault>
    requires { (F.state file.old).honest → block_length form * end ≤ (F.state file.old).size }
    ensures same { SameFile (F.state file.old) (F.state file.new) }
    ensures verifies { (blocks : ℕ) → IsVerify first end (image_state form blocks (F.state file.old))
        (image_state form blocks (F.state file.new)) result }
{
    if let Some(room) = room {
        if room.len() >= BLOCK_BYTES {
            return verify_groups(form, file, room.as_mut_slice(), first, end);
        }
    }
    verify_blocks(form, file, first, end)
}

/// Verifies blocks as `verify_blocks` does, with as many in each call of the file as there is room for.
fn verify_groups<F: Durable>(
    form: Form,
    file: &mut F,
    room: &mut [u8],
    first: u32,
    end: u32,
) -> Result<Option<u32>, Fault>
    requires room { 1024 ≤ length room.old }
    requires inside { (F.state file.old).honest → block_length form * end ≤ (F.state file.old).size }
    ensures same { SameFile (F.state file.old) (F.state file.new) }
    ensures verifies { (blocks : ℕ) → IsVerify first end (image_state form blocks (F.state file.old))
        (image_state form blocks (F.state file.new)) result }
{
    let group = room.len() / BLOCK_BYTES;
    let mut next = first;
    while next < end {
        let stop = group_end(next, end, group);
        match verify_group(form, file, room, next, stop) {
            Ok(None) => next = stop,
            Ok(Some(bad)) => return Ok(Some(bad)),
            Err(fault) => return Err(fault),
        }
    }
    Ok(None)
}

/// Writes the words of block n of the image that this file is.
///
/// # Errors
///
/// As for a disk: `Device` if the file fails.
pub(crate) fn write_block<F: Durable>(
    form: Form,
    file: &mut F,
    n: u32,
    block: &Block,
) -> Result<(), Fault>
    requires { (F.state file.old).honest → block_length form * n + block_length form ≤ (F.state file.old).size }
    ensures same { SameFile (F.state file.old) (F.state file.new) }
    ensures writes { (blocks : ℕ) → IsWrite n block.now (image_state form blocks (F.state file.old))
        (image_state form blocks (F.state file.new)) result }
{
    let at = place_of(form, n);
    match form {
        Form::Wide => file.write_at(at, &block_to_bytes(block)),
        Form::Packed => file.write_at(at, &block_to_nine(block)),
    }
}

/// Writes the words of neighbouring blocks of the image that this file is, from block `first`.
///
/// # Errors
///
/// As for a disk: `Device` if the file fails.
pub(crate) fn write_blocks<F: Durable>(
    form: Form,
    file: &mut F,
    first: u32,
    blocks: &[Block],
) -> Result<(), Fault>
    requires fits { first + length blocks.now < 2 ^ 32 }
    requires inside { (F.state file.old).honest
        → block_length form * (first + length blocks.now) ≤ (F.state file.old).size }
    ensures same { SameFile (F.state file.old) (F.state file.new) }
    ensures writes { (size : ℕ) → IsRunWrite first blocks.now (image_state form size (F.state file.old))
        (image_state form size (F.state file.new)) result }
{
    let mut done = 0;
    while done < blocks.len() {
        let stop = blocks.len().min(done + GROUP_BLOCKS as usize);
        write_group(form, file, first + done as u32, &blocks[done..stop])?;
        done = stop;
    }
    Ok(())
}

/// Returns the place of a block's first byte.
fn place_of(form: Form, n: u32) -> u64
    ensures { result ≡ block_length form * n }
{
    form.block_bytes() * n as u64
}

/// Reads the words of a block with eight bytes to a word.
fn read_wide<F: Durable>(file: &mut F, n: u32) -> Result<Block, Fault>
    requires { (F.state file.old).honest → 1024 * n + 1024 ≤ (F.state file.old).size }
    ensures same { SameFile (F.state file.old) (F.state file.new) }
    ensures reads { (blocks : ℕ) → IsRead n (image_state Wide blocks (F.state file.old))
        (image_state Wide blocks (F.state file.new)) result }
    ensures refused { IsErrOf result Device → (from : F) × F.refused from file.new (1024 * n) 1024 }
{
    let mut bytes = [0; BLOCK_BYTES];
    file.read_at(place_of(Form::Wide, n), &mut bytes)?;
    match block_from_bytes(&bytes) {
        Ok(block) => Ok(block),
        Err(_) => Err(Fault::Damaged),
    }
}

/// Reads the words of a block with nine bytes to two words.
fn read_packed<F: Durable>(file: &mut F, n: u32) -> Result<Block, Fault>
    requires { (F.state file.old).honest → 576 * n + 576 ≤ (F.state file.old).size }
    ensures same { SameFile (F.state file.old) (F.state file.new) }
    ensures reads { (blocks : ℕ) → IsRead n (image_state Packed blocks (F.state file.old))
        (image_state Packed blocks (F.state file.new)) result }
    ensures refused { IsErrOf result Device → (from : F) × F.refused from file.new (576 * n) 576 }
{
    let mut bytes = [0; PACKED_BYTES];
    file.read_at(place_of(Form::Packed, n), &mut bytes)?;
    Ok(block_from_nine(&bytes))
}

/// Reads neighbouring blocks by one call, through room for their bytes.
fn read_group<F: Durable>(
    form: Form,
    file: &mut F,
    room: &mut [u8],
    first: u32,
    blocks: &mut [Block],
) -> Result<Option<u32>, Fault>
    requires room { 1024 * length blocks.old ≤ length room.old }
    requires fits { first + length blocks.old < 2 ^ 32 }
    requires inside { (F.state file.old).honest
        → block_length form * (first + length blocks.old) ≤ (F.state file.old).size }
    ensures same { SameFile (F.state file.old) (F.state file.new) }
    ensures reads { (size : ℕ) → IsRunRead first (image_state form size (F.state file.old))
        (image_state form size (F.state file.new)) blocks.new result }
{
    let group = &mut room[..blocks.len() * form.block_bytes() as usize];
    file.read_at(place_of(form, first), group)?;
    match fill_blocks(form, group, blocks) {
        None => Ok(None),
        Some(place) => Ok(Some(first + place as u32)),
    }
}

/// Puts the words of the blocks that have these bytes, one after the other, into as many places. Returns the place of
/// the first damaged one, if any.
fn fill_blocks(form: Form, bytes: &[u8], blocks: &mut [Block]) -> Option<usize>
    requires { length bytes.now ≡ block_length form * length blocks.old }
    ensures within { IsWithin 0 (length blocks.old) result }
    ensures words { AreFilled (spelled_blocks form bytes.now) 0 blocks.new result }
{
    let size = form.block_bytes() as usize;
    for place in 0..blocks.len() {
        match block_of(form, &bytes[size * place..size * place + size]) {
            Some(block) => blocks[place] = block,
            None => return Some(place),
        }
    }
    None
}

/// Returns the words of the block that has these bytes, or `None` if it is damaged.
fn block_of(form: Form, bytes: &[u8]) -> Option<Block>
    requires { length bytes.now ≡ block_length form }
    ensures { result ≡ block_content form bytes.now }
{
    match form {
        Form::Wide => {
            let Ok(own) = <&[u8; BLOCK_BYTES]>::try_from(bytes) else {
                unreachable!() // the length is a block's
            };
            match block_from_bytes(own) {
                Ok(block) => Some(block),
                Err(_) => None,
            }
        }
        Form::Packed => {
            let Ok(own) = <&[u8; PACKED_BYTES]>::try_from(bytes) else {
                unreachable!() // the length is a block's
            };
            Some(block_from_nine(own))
        }
    }
}

/// Returns the end of the group of at most this number of blocks that begins at block `first`, no later than `end`.
fn group_end(first: u32, end: u32, most: usize) -> u32
    requires some { 0 < most }
    requires rising { first < end }
    ensures some { first < result }
    ensures few { result ≤ first + most }
    ensures within { result ≤ end }
{
    if (end - first) as usize > most {
        first + most as u32
    } else {
        end
    }
}

/// Returns the first damaged one of neighbouring blocks, if any, whose bytes it reads by one call, through room for
/// them.
fn verify_group<F: Durable>(
    form: Form,
    file: &mut F,
    room: &mut [u8],
    first: u32,
    end: u32,
) -> Result<Option<u32>, Fault>
    requires some { first < end }
    requires room { 1024 * (end - first) ≤ length room.old }
    requires inside { (F.state file.old).honest → block_length form * end ≤ (F.state file.old).size }
    ensures same { SameFile (F.state file.old) (F.state file.new) }
    ensures verifies { (blocks : ℕ) → IsVerify first end (image_state form blocks (F.state file.old))
        (image_state form blocks (F.state file.new)) result }
{
    match form {
        Form::Wide => verify_wide(file, room, first, end),
        Form::Packed => verify_packed(file, room, first, end),
    }
}

/// Verifies a group with eight bytes to a word: checks the top bits, and makes no word.
fn verify_wide<F: Durable>(
    file: &mut F,
    room: &mut [u8],
    first: u32,
    end: u32,
) -> Result<Option<u32>, Fault>
    requires some { first < end }
    requires room { 1024 * (end - first) ≤ length room.old }
    requires inside { (F.state file.old).honest → 1024 * end ≤ (F.state file.old).size }
    ensures same { SameFile (F.state file.old) (F.state file.new) }
    ensures verifies { (blocks : ℕ) → IsVerify first end (image_state Wide blocks (F.state file.old))
        (image_state Wide blocks (F.state file.new)) result }
{
    let group = &mut room[..(end - first) as usize * BLOCK_BYTES];
    file.read_at(place_of(Form::Wide, first), group)?;
    match first_bad_word(group) {
        None => Ok(None),
        Some(place) => Ok(Some(first + (place / BLOCK_WORDS) as u32)),
    }
}

/// Verifies a group with nine bytes to two words: any bytes are words, if they can be read.
fn verify_packed<F: Durable>(
    file: &mut F,
    room: &mut [u8],
    first: u32,
    end: u32,
) -> Result<Option<u32>, Fault>
    requires some { first < end }
    requires room { 1024 * (end - first) ≤ length room.old }
    requires inside { (F.state file.old).honest → 576 * end ≤ (F.state file.old).size }
    ensures same { SameFile (F.state file.old) (F.state file.new) }
    ensures verifies { (blocks : ℕ) → IsVerify first end (image_state Packed blocks (F.state file.old))
        (image_state Packed blocks (F.state file.new)) result }
{
    let group = &mut room[..(end - first) as usize * PACKED_BYTES];
    file.read_at(place_of(Form::Packed, first), group)?;
    Ok(None)
}

/// Writes neighbouring blocks by one call.
fn write_group<F: Durable>(
    form: Form,
    file: &mut F,
    first: u32,
    blocks: &[Block],
) -> Result<(), Fault>
    requires few { length blocks.now ≤ 16 }
    requires inside { (F.state file.old).honest
        → block_length form * (first + length blocks.now) ≤ (F.state file.old).size }
    ensures same { SameFile (F.state file.old) (F.state file.new) }
    ensures writes { (size : ℕ) → IsRunWrite first blocks.now (image_state form size (F.state file.old))
        (image_state form size (F.state file.new)) result }
{
    let mut bytes = [0; GROUP_BLOCKS as usize * BLOCK_BYTES];
    let group = &mut bytes[..blocks.len() * form.block_bytes() as usize];
    put_blocks(form, blocks, group);
    file.write_at(place_of(form, first), group)
}

/// Puts the bytes of blocks into as many places, one after the other.
fn put_blocks(form: Form, blocks: &[Block], bytes: &mut [u8])
    requires { length bytes.old ≡ block_length form * length blocks.now }
    ensures long { length bytes.new ≡ length bytes.old }
    ensures words { HoldRun (spelled_blocks form bytes.new) 0 blocks.now }
{
    let size = form.block_bytes() as usize;
    for place in 0..blocks.len() {
        let start = size * place;
        put_block(form, &blocks[place], &mut bytes[start..start + size]);
    }
}

/// Puts the bytes of a block into as many places.
fn put_block(form: Form, block: &Block, bytes: &mut [u8])
    requires { length bytes.old ≡ block_length form }
    ensures long { length bytes.new ≡ length bytes.old }
    ensures words { block_content form bytes.new ≡ Some block.now }
{
    match form {
        Form::Wide => bytes.copy_from_slice(&block_to_bytes(block)),
        Form::Packed => bytes.copy_from_slice(&block_to_nine(block)),
    }
}
