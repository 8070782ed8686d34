//! A disk over an image of form 2.
ghost use Rattle.std.specs.Prelude.{◌≡◌, ◌*◌, IfOk, IfErr};
ghost use Rattle.imagefile.specs.Image.{image_state};
ghost use Rattle.imagefile.specs.ImageLaws.{image_counts_now, image_only_now, image_reaches_back};
ghost use Rattle.imagefile.specs.Measured.{IsImageOf, IsNoImage};
ghost use Rattle.imagefile.specs.declared.form.Form.TheVariants.{Packed};

use crate::codec::{read_block, read_blocks, verify_blocks, write_block, write_blocks};
use crate::{Durable, Form, ImageDisk, ImageError};
use blockdisk::{Disk, Fault};
use words36::Block;

/// A disk over an image of form 2: 576 bytes a block, nine to two words. No block of it is damaged by its bytes.
#[derive(Drop)]
pub struct PackedDisk<F: Durable> {
    file: F,
    blocks: u32,
    ghost sized: { (F.state file).honest → (F.state file).size ≡ 576 * blocks },
}

impl<F: Durable> PackedDisk<F> {
    ghost use Rattle.imagefile.specs.PackedDisk.{file_of, blocks_of};

    /// Makes the disk of this image, with one block for every 576 bytes of the file. Writes nothing.
    ///
    /// # Errors
    ///
    /// The file is handed back: `BadSize` if its length is not that of an image, `Device` if the device failed.
    pub fn new(file: F) -> Result<Self, (ImageError, F)>
        ensures image { IfOk result
            (λ disk. IsImageOf Packed (blocks_of disk) (F.state file) (F.state (file_of disk))) }
        ensures refused { IfErr result (λ refused. IsNoImage Packed refused.0 (F.state file) (F.state refused.1)) }
    {
        match ImageDisk::of_form(file, Form::Packed) {
            Ok(image) => {
                let blocks = image.blocks();
                Ok(PackedDisk {
                    file: image.finish(),
                    blocks,
                })
            }
            Err(refused) => Err(refused),
        }
    }

    /// Returns the file that the disk is in.
    pub fn finish(self) -> F
        ensures { result ≡ file_of self }
    {
        self.file
    }
}

impl<F: Durable> Disk for PackedDisk<F> {
    ghost state = { λ disk. image_state Packed disk.blocks (F.state disk.file) };

    ghost counts_now = { λ disk t c h le left. image_counts_now Packed disk.blocks (F.state disk.file) t c
        (λ r may. F.counts_now disk.file t r h le may) left };

    ghost only_now = { λ disk c h left. image_only_now Packed disk.blocks (F.state disk.file) c
        (λ r was. F.only_now disk.file r h was) left };

    ghost reaches_back = { λ disk t u c h le left. image_reaches_back Packed disk.blocks (F.state disk.file) t u c
        (λ r was. F.reaches_back disk.file t u r h le was) left };

    fn blocks(&self) -> u32 {
        self.blocks
    }

    fn read(&mut self, n: u32) -> Result<Block, Fault> {
        read_block(Form::Packed, &mut self.file, n)
    }

    fn read_run(&mut self, first: u32, blocks: &mut [Block]) -> Result<Option<u32>, Fault> {
        let _size = self.blocks(); // the number of places fits a u32
        read_blocks(Form::Packed, &mut self.file, first, blocks)
    }

    fn verify(&mut self, first: u32, end: u32) -> Result<Option<u32>, Fault> {
        verify_blocks(Form::Packed, &mut self.file, first, end)
    }

    fn write(&mut self, n: u32, block: &Block) -> Result<(), Fault> {
        write_block(Form::Packed, &mut self.file, n, block)
    }

    fn write_run(&mut self, first: u32, blocks: &[Block]) -> Result<(), Fault> {
        let _size = self.blocks(); // the number of blocks fits a u32
        write_blocks(Form::Packed, &mut self.file, first, blocks)
    }

    fn sync(&mut self) -> Result<(), Fault> {
        self.file.sync()
    }
}
