//! A disk over an image of either form.
ghost use Rattle.std.specs.Prelude.{◌≡◌, ◌*◌, ◌<◌, ◌≤◌, ◌↔◌, ℕ, Some, None, IfOk, IfErr, IsErrOf, IsSome, List, All};
ghost use Rattle.std.specs.Prelude.{length};
ghost use Rattle.words36.specs.Common.{IsBlock, block_bytes, nine_bytes};
ghost use Rattle.blockdisk.specs.Common.{IsRead};
ghost use Rattle.blockdisk.specs.declared.fault.Fault.TheVariants.{Device};
ghost use Rattle.imagefile.specs.Began.{BeganAs, BeganCut};
ghost use Rattle.imagefile.specs.Image.{block_length, image_state, block_content, IsImageSize};
ghost use Rattle.imagefile.specs.Image.{HasTooManyBlocks};
ghost use Rattle.imagefile.specs.Measured.{IsImageOf, IsCutImage, IsNoImage, IsNoCutImage};
ghost use Rattle.imagefile.specs.ImageLaws.{image_counts_now, image_only_now, image_reaches_back};
ghost use Rattle.imagefile.specs.AssumedImage.{assumed_in};
ghost use Rattle.imagefile.specs.Unseen.{size_of};
ghost use Rattle.imagefile.specs.declared.form.Form.TheVariants.{Wide, Packed};
ghost use Rattle.imagefile.specs.declared.size.ImageError.TheVariants.{BadSize};
ghost use Rattle.imagefile.specs.declared.size.ImageError.TheVariants as ImageError;

use crate::buffered::BufferedFile;
use crate::codec::{
    read_block, read_blocks_through, verify_blocks_through, write_block, write_blocks,
};
use crate::{AssumedImage, Durable, Form, HostFile, ImageError, block_count, whole_blocks};
use blockdisk::{Disk, Fault};
use std::alloc::Global;
use std::fs::File;
use words36::{BLOCK_BYTES, Block};

/// The number of neighbouring blocks that one call of the file reads, if there is memory for their bytes.
const RUN_BLOCKS: usize = 128;

/// A disk whose blocks are in a file, one after the other. The file may have more bytes than they do.
#[derive(Drop)]
pub struct ImageDisk<F: Durable> {
    file: BufferedFile<F>,
    form: Form,
    blocks: u32,
    // For the bytes of a run that is read.
    room: Option<Vec<u8>>,
    ghost sized: { (F.state file.file).honest → block_length form * blocks ≤ (F.state file.file).size },
}

impl<F: Durable> ImageDisk<F> {
    ghost use Rattle.imagefile.specs.ImageDisk.{file_of};
    ghost use Rattle.imagefile.specs.Common.{form_of, blocks_of};

    /// Makes the disk of an image of form 1, with one block for every 1024 bytes of the file. Writes nothing.
    ///
    /// # Errors
    ///
    /// As for `of_form`.
    pub fn new(file: F) -> Result<Self, (ImageError, F)>
        ensures form { IfOk result (λ disk. form_of disk ≡ Wide) }
        ensures image { IfOk result
            (λ disk. IsImageOf Wide (blocks_of disk) (F.state file) (F.state (file_of disk))) }
        ensures refused { IfErr result (λ refused. IsNoImage Wide refused.0 (F.state file) (F.state refused.1)) }
    {
        ImageDisk::of_form(file, Form::Wide)
    }

    /// Makes the disk of an image of this form, whose number of blocks is the file's length divided by a block's.
    /// Writes nothing.
    ///
    /// # Errors
    ///
    /// The file is handed back: `BadSize` if its length is not that of an image, `Device` if the device failed.
    pub fn of_form(file: F, form: Form) -> Result<Self, (ImageError, F)>
        ensures form { IfOk result (λ disk. form_of disk ≡ form) }
        ensures image { IfOk result
            (λ disk. IsImageOf form (blocks_of disk) (F.state file) (F.state (file_of disk))) }
        ensures refused { IfErr result (λ refused. IsNoImage form refused.0 (F.state file) (F.state refused.1)) }
    {
        let mut file = file;
        let size = match file.len() {
            Ok(size) => size,
            Err(_) => return Err((ImageError::Device, file)),
        };
        match block_count(form, size) {
            Ok(blocks) => Ok(ImageDisk {
                file: BufferedFile::new(file, form.block_bytes() * blocks as u64),
                form,
                blocks,
                room: None,
            }),
            Err(error) => Err((error, file)),
        }
    }

    /// Makes the disk of the whole blocks of a file in this form, and returns how many bytes follow them. Writes
    /// nothing.
    ///
    /// # Errors
    ///
    /// The file is handed back: `BadSize` if it has 2^32 whole blocks or more, `Device` if the device failed.
    pub fn of_start(file: F, form: Form) -> Result<(Self, u32), (ImageError, F)>
        ensures form { IfOk result (λ cut. form_of cut.0 ≡ form) }
        ensures image { IfOk result
            (λ cut. IsCutImage form (blocks_of cut.0) cut.1 (F.state file) (F.state (file_of cut.0))) }
        ensures refused { IfErr result (λ refused. IsNoCutImage form refused.0 (F.state file) (F.state refused.1)) }
    {
        let mut file = file;
        let size = match file.len() {
            Ok(size) => size,
            Err(_) => return Err((ImageError::Device, file)),
        };
        let (blocks, tail) = match whole_blocks(form, size) {
            Ok(found) => found,
            Err(error) => return Err((error, file)),
        };
        let disk = ImageDisk {
            file: BufferedFile::new(file, form.block_bytes() * blocks as u64),
            form,
            blocks,
            room: None,
        };
        Ok((disk, tail))
    }

    /// Returns the same disk, with memory to read up to 128 neighbouring blocks by one call of the file, and to read
    /// ahead: a read of few blocks takes neighbours along, which are in memory if they are needed next. Without memory
    /// the disk silently reads up to 16 blocks by one call, and none ahead.
    pub fn with_room(self, alloc: Global) -> Self
        ensures file { file_of result ≡ file_of self }
        ensures form { form_of result ≡ form_of self }
        ensures blocks { blocks_of result ≡ blocks_of self }
    {
        let mut bytes = Vec::new(alloc);
        let room = match bytes.resize(RUN_BLOCKS * BLOCK_BYTES, 0) {
            Ok(()) => Some(bytes),
            Err(_) => None,
        };
        ImageDisk {
            file: self.file.with_buffers(alloc),
            form: self.form,
            blocks: self.blocks,
            room,
        }
    }

    /// Returns the file that holds the image.
    pub fn file(&self) -> &F
        ensures { result.now ≡ file_of self.now }
    {
        &self.file.file
    }

    /// Returns the file that the disk is in.
    pub fn finish(self) -> F
        ensures { result ≡ file_of self }
    {
        self.file.file
    }
}

impl ImageDisk<HostFile> {
    ghost use Rattle.imagefile.specs.ImageDisk.{file_of};
    ghost use Rattle.imagefile.specs.Common.{form_of, failures_of, failure_of};

    /// Makes the disk of an image of this form from an open file that has not been used yet. `supposed` is what no
    /// call shows of the file. Writes nothing.
    ///
    /// # Errors
    ///
    /// As for `of_form`. The file comes back and knows why it failed.
    pub fn open_file(
        file: File,
        supposed: AssumedImage,
        form: Form,
    ) -> Result<Self, (ImageError, HostFile)>
        ensures form { IfOk result (λ disk. form_of disk ≡ form) }
        ensures began { IfOk result
            (λ disk. BeganAs form (assumed_in supposed) (⟦<ImageDisk<HostFile> as Disk>⟧.state disk)) }
        ensures counted { IfOk result (λ disk. failures_of (file_of disk) ≡ 0) }
        ensures size { IfErr result (λ refused. refused.0 ≡ BadSize → (⟦<HostFile as Durable>⟧.state refused.1).honest
            → IsImageSize form (size_of (assumed_in supposed)) → ⊥) }
        ensures served { IfErr result (λ refused. refused.0 ≡ BadSize → failures_of refused.1 ≡ 0) }
        ensures failed { IfErr result (λ refused. refused.0 ≡ ImageError.Device
            → (failures_of refused.1 ≡ 1) × IsSome (failure_of refused.1)) }
    {
        ImageDisk::of_form(HostFile::from_file(file, supposed), form)
    }

    /// Makes the disk of the whole blocks of an open file that has not been used yet, and returns how many bytes
    /// follow them. `supposed` is what no call shows of the file. Writes nothing.
    ///
    /// # Errors
    ///
    /// As for `of_start`. The file comes back and knows why it failed.
    pub fn open_start(
        file: File,
        supposed: AssumedImage,
        form: Form,
    ) -> Result<(Self, u32), (ImageError, HostFile)>
        ensures form { IfOk result (λ cut. form_of cut.0 ≡ form) }
        ensures began { IfOk result
            (λ cut. BeganCut form (assumed_in supposed) cut.1 (⟦<ImageDisk<HostFile> as Disk>⟧.state cut.0)) }
        ensures counted { IfOk result (λ cut. failures_of (file_of cut.0) ≡ 0) }
        ensures size { IfErr result (λ refused. refused.0 ≡ BadSize → (⟦<HostFile as Durable>⟧.state refused.1).honest
            → HasTooManyBlocks form (size_of (assumed_in supposed))) }
        ensures served { IfErr result (λ refused. refused.0 ≡ BadSize → failures_of refused.1 ≡ 0) }
        ensures failed { IfErr result (λ refused. refused.0 ≡ ImageError.Device
            → (failures_of refused.1 ≡ 1) × IsSome (failure_of refused.1)) }
    {
        ImageDisk::of_start(HostFile::from_file(file, supposed), form)
    }
}

/// Proves that a wide block's bytes hold words exactly if they are the bytes of those words, eight to each, the most
/// significant first. Other bytes are a damaged block's.
pub fn damage_is_by_the_format()
    ensures { (words bytes : List ℕ) → All (λ byte. byte < 256) bytes → length bytes ≡ 1024
        → (block_content Wide bytes ≡ Some words ↔ (IsBlock words × (block_bytes words ≡ bytes))) }
{}

/// Proves that any bytes of a packed block hold the words that they are the bytes of, nine to two words. None is
/// damaged.
pub fn packed_bytes_are_words()
    ensures { (words bytes : List ℕ) → All (λ byte. byte < 256) bytes → length bytes ≡ 576
        → (block_content Packed bytes ≡ Some words ↔ (IsBlock words × (nine_bytes words ≡ bytes))) }
{}

impl<F: Durable> Disk for ImageDisk<F> {
    ghost use Rattle.imagefile.specs.ImageDisk.{file_of};
    ghost use Rattle.imagefile.specs.Common.{form_of, blocks_of};

    ghost state = { λ disk. image_state disk.form disk.blocks (F.state disk.file.file) };

    ghost counts_now = { λ disk t c h le left. image_counts_now disk.form disk.blocks (F.state disk.file.file) t c
        (λ r may. F.counts_now disk.file.file t r h le may) left };

    ghost only_now = { λ disk c h left. image_only_now disk.form disk.blocks (F.state disk.file.file) c
        (λ r was. F.only_now disk.file.file r h was) left };

    ghost reaches_back = { λ disk t u c h le left. image_reaches_back disk.form disk.blocks (F.state disk.file.file) t
        u c (λ r was. F.reaches_back disk.file.file t u r h le was) left };

    fn blocks(&self) -> u32 {
        self.blocks
    }

    fn read(&mut self, n: u32) -> Result<Block, Fault>
        requires { n < blocks_of self.old }
        ensures reads { IsRead n (image_state (form_of self.old) (blocks_of self.old) (F.state (file_of self.old)))
            (image_state (form_of self.new) (blocks_of self.new) (F.state (file_of self.new))) result }
        ensures refused { IsErrOf result Device → (from : F) × F.refused from (file_of self.new)
            (block_length (form_of self.old) * n) (block_length (form_of self.old)) }
    {
        read_block(self.form, &mut self.file, n)
    }

    fn read_run(&mut self, first: u32, blocks: &mut [Block]) -> Result<Option<u32>, Fault> {
        let _size = self.blocks(); // the number of places fits a u32
        read_blocks_through(self.form, &mut self.file, &mut self.room, first, blocks)
    }

    fn verify(&mut self, first: u32, end: u32) -> Result<Option<u32>, Fault> {
        verify_blocks_through(self.form, &mut self.file, &mut self.room, first, end)
    }

    fn write(&mut self, n: u32, block: &Block) -> Result<(), Fault> {
        write_block(self.form, &mut self.file, n, block)
    }

    fn write_run(&mut self, first: u32, blocks: &[Block]) -> Result<(), Fault> {
        let _size = self.blocks(); // the number of blocks fits a u32
        write_blocks(self.form, &mut self.file, first, blocks)
    }

    fn sync(&mut self) -> Result<(), Fault> {
        self.file.sync()
    }
}
