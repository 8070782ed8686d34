//! The gate: the block that decides whether the puts of the log are to be made.
ghost use Rattle.std.specs.Prelude.{◌≡◌, ◌<◌, ◌↔◌, IsTrue, IfOk, OnOk, IsErrOf, Some, replicate};
ghost use Rattle.blockdisk.specs.Common.{Keeps, Near, Modifies, LeavesOnly, NoneOpen, SameDisk, one_more};
ghost use Rattle.blockdisk.specs.declared.fault.Fault.TheVariants.{Device, Damaged};
ghost use Rattle.changeset.specs.Common.{IsGate};
ghost use Rattle.spec_image.specs.Common.{open_gate};

use crate::log::word_of;
use blockdisk::{Disk, Fault, write_through};
use spec_image::layout::GATE;
use words36::{BLOCK_WORDS, Word};

/// Each word of an open gate.
const OPEN_WORD: u64 = 0o252525252525;

/// Returns whether the gate has the words of an open one. A damaged gate is closed.
///
/// # Errors
///
/// `Device` if the device failed.
pub fn has_open_words<D: Disk>(disk: &mut D) -> Result<bool, Fault>
    requires { 3 < (D.state disk.old).size }
    ensures answer { (D.state disk.new).honest
        → IfOk result (λ is_open. IsTrue is_open ↔ ((D.state disk.old).contents GATE ≡ Some open_gate)) }
    ensures keeps { (D.state disk.new).honest → Keeps (D.state disk.old) (D.state disk.new) }
    ensures same { SameDisk (D.state disk.old) (D.state disk.new) }
    ensures device { IsErrOf result Damaged → ⊥ }
    ensures failed { IsErrOf result Device → (D.state disk.new).failures ≡ one_more (D.state disk.old).failures }
    ensures served { OnOk result ((D.state disk.new).failures ≡ (D.state disk.old).failures) }
{
    let open = [word_of(OPEN_WORD); BLOCK_WORDS];
    match disk.read(GATE) {
        Ok(words) => Ok(words == open),
        Err(Fault::Damaged) => Ok(false),
        Err(Fault::Device) => Err(Fault::Device),
    }
}

/// Opens the gate, with a write of its own.
///
/// # Errors
///
/// `Device` if the device failed.
pub fn open_gate<D: Disk>(disk: &mut D) -> Result<(), Fault>
    requires { 3 < (D.state disk.old).size }
    ensures gate { (D.state disk.new).honest → OnOk result ((D.state disk.new).contents GATE ≡ Some open_gate) }
    ensures settled { (D.state disk.new).honest → OnOk result (NoneOpen (D.state disk.new)) }
    ensures modified { (D.state disk.new).honest → OnOk result (Modifies IsGate (D.state disk.old) (D.state disk.new)) }
    ensures near { (D.state disk.new).honest
        → LeavesOnly (D.state disk.old) (D.state disk.new) (Near IsGate (D.state disk.old)) }
    ensures same { SameDisk (D.state disk.old) (D.state disk.new) }
    ensures device { IsErrOf result Damaged → ⊥ }
    ensures failed { IsErrOf result Device → (D.state disk.new).failures ≡ one_more (D.state disk.old).failures }
    ensures served { OnOk result ((D.state disk.new).failures ≡ (D.state disk.old).failures) }
{
    write_through(disk, GATE, &[word_of(OPEN_WORD); BLOCK_WORDS])
}

/// Closes the gate.
///
/// # Errors
///
/// `Device` if the device failed.
pub fn close_gate<D: Disk>(disk: &mut D) -> Result<(), Fault>
    requires { 3 < (D.state disk.old).size }
    ensures gate { (D.state disk.new).honest
        → OnOk result ((D.state disk.new).contents GATE ≡ Some (replicate BLOCK_WORDS 0)) }
    ensures settled { (D.state disk.new).honest → OnOk result (NoneOpen (D.state disk.new)) }
    ensures modified { (D.state disk.new).honest → OnOk result (Modifies IsGate (D.state disk.old) (D.state disk.new)) }
    ensures near { (D.state disk.new).honest
        → LeavesOnly (D.state disk.old) (D.state disk.new) (Near IsGate (D.state disk.old)) }
    ensures same { SameDisk (D.state disk.old) (D.state disk.new) }
    ensures device { IsErrOf result Damaged → ⊥ }
    ensures failed { IsErrOf result Device → (D.state disk.new).failures ≡ one_more (D.state disk.old).failures }
    ensures served { OnOk result ((D.state disk.new).failures ≡ (D.state disk.old).failures) }
{
    write_through(disk, GATE, &[Word::ZERO; BLOCK_WORDS])
}
