//! A durable file over a system's calls: it makes them until all is done.
ghost use Rattle.std.specs.Prelude.{◌≡◌, ◌⊎◌, ◌+◌, ◌<◌, ◌≤◌, [], length, take, Some, None, IfOk, OnOk, OnErr, IsErrOf};
ghost use Rattle.blockdisk.specs.Common.{one_more};
ghost use Rattle.blockdisk.specs.declared.fault.Fault.TheVariants.{Device, Damaged};
ghost use Rattle.imagefile.specs.File.{SameFile, FileKeeps, FileWrites, FileSyncs, FileFails, window};
ghost use Rattle.imagefile.specs.Host.{with_failures, the_first_of};
ghost use Rattle.imagefile.specs.AssumedImage.{assumed_in};
ghost use Rattle.imagefile.specs.Recorded.{IsHonestRecord};
ghost use Rattle.imagefile.specs.Outcomes.{HasCause, IsPastAll, Looked, LookedAndSynced, Measured};
ghost use Rattle.std.specs.declared.io.ErrorKind.TheVariants.{UnexpectedEof, WriteZero};

use crate::{AssumedImage, Durable, FileCalls, HostCalls, SeekingFile};
use blockdisk::Fault;
use std::fs::File;
use std::io::{Error, ErrorKind};

/// A file of the host, whose calls are made until all is done.
///
/// It is honest while its calls are: what a call answered is right if the calls have kept to the model so far. It
/// stores the reason of its first failure, for people.
///
/// A sync first checks that the file is as long as it was when its length was read: if somebody has cut it short
/// meanwhile, what was written past its end is in no file, and the sync fails.
#[derive(Drop)]
pub struct HostFile<C: FileCalls = SeekingFile> {
    calls: C,
    failures: u64,
    failure: Option<Error>,
    size: Option<u64>,
    // If a call has failed, the reason of the first failure is known.
    ghost told: { failure ≡ None → failures ≡ 0 },
}

impl HostFile {
    ghost use Rattle.imagefile.specs.Common.{calls_of, failures_of, failure_of, known_size_of, system_of, unseen_of};
    ghost use Rattle.imagefile.specs.Common.{file_of, history_of};

    /// Returns the file over an open file of the host, before its first call, with what is supposed of it that its
    /// calls don't show. Its record is empty, and so it is honest.
    pub fn from_file(file: File, supposed: AssumedImage) -> Self
        ensures file { file_of (system_of (calls_of result)) ≡ file }
        ensures history { history_of (system_of (calls_of result)) ≡ [] }
        ensures supposed { unseen_of (calls_of result) ≡ assumed_in supposed }
        ensures honest { IsHonestRecord (unseen_of (calls_of result)) (history_of (system_of (calls_of result))) }
        ensures none_failed { failures_of result ≡ 0 }
        ensures no_failure { failure_of result ≡ None }
        ensures no_size { known_size_of result ≡ None }
    {
        HostFile::new(SeekingFile::new(HostCalls::new(file), supposed))
    }
}

impl<C: FileCalls> HostFile<C> {
    ghost use Rattle.imagefile.specs.Common.{calls_of, failures_of, failure_of, known_size_of};

    /// Returns the file of these calls. No call has failed yet.
    pub fn new(calls: C) -> Self
        ensures calls { calls_of result ≡ calls }
        ensures none_failed { failures_of result ≡ 0 }
        ensures no_failure { failure_of result ≡ None }
        ensures no_size { known_size_of result ≡ None }
    {
        HostFile {
            calls,
            failures: 0,
            failure: None,
            size: None,
        }
    }

    /// Returns why the first call that failed did so: the system's error, `UnexpectedEof` if a read came to the end
    /// of the file or the file has another length, `WriteZero` if a write took nothing, or `InvalidInput` if a
    /// place exceeds the largest offset of a file.
    pub fn failure(&self) -> Option<Error>
        ensures { result ≡ failure_of self.now }
    {
        self.failure
    }

    /// Counts a failure, and stores the reason of the first one.
    fn device_fault(&mut self, error: Error) -> Fault
        ensures fault { result ≡ Device }
        ensures calls { calls_of self.new ≡ calls_of self.old }
        ensures failures { failures_of self.new ≡ one_more (failures_of self.old) }
        ensures failure { failure_of self.new ≡ the_first_of (failure_of self.old) error }
        ensures keeps_size { known_size_of self.new ≡ known_size_of self.old }
    {
        self.failures = self.failures.saturating_add(1);
        if self.failure.is_none() {
            self.failure = Some(error);
        }
        Fault::Device
    }

    /// Checks that the file is as long as it was, if its length has been read.
    ///
    /// # Errors
    ///
    /// `Device` if it isn't, or if the call failed.
    fn keep_size(&mut self) -> Result<(), Fault>
        ensures keeps { (C.state (calls_of self.new)).honest
            → FileKeeps (C.state (calls_of self.old)) (C.state (calls_of self.new)) }
        ensures same { SameFile (C.state (calls_of self.old)) (C.state (calls_of self.new)) }
        ensures device { IsErrOf result Damaged → ⊥ }
        ensures failed { IsErrOf result Device → failures_of self.new ≡ one_more (failures_of self.old) }
        ensures looked { OnOk result
            (Looked C.ended (known_size_of self.old) (calls_of self.old) (calls_of self.new)) }
        ensures because { OnErr result (HasCause C.ended (calls_of self.new) UnexpectedEof (known_size_of self.old)
            (failure_of self.old) (failure_of self.new)) }
        ensures quiet { OnOk result (failure_of self.new ≡ failure_of self.old) }
        ensures keeps_size { known_size_of self.new ≡ known_size_of self.old }
        ensures served { OnOk result (failures_of self.new ≡ failures_of self.old) }
    {
        let Some(wanted) = self.size else {
            return Ok(());
        };
        match self.calls.size() {
            Ok(size) if size == wanted => Ok(()),
            Ok(_) => Err(self.device_fault(ErrorKind::UnexpectedEof.into())),
            Err(error) => Err(self.device_fault(error)),
        }
    }

    /// Reads some of the bytes from place `at`, and returns how many: at least one.
    ///
    /// # Errors
    ///
    /// `Device` if the call failed or read none.
    fn get_some(&mut self, at: u64, bytes: &mut [u8]) -> Result<usize, Fault>
        requires inside { (C.state (calls_of self.old)).honest
            → at + length bytes.old ≤ (C.state (calls_of self.old)).size }
        requires some { 0 < length bytes.old }
        ensures few { IfOk result (λ count. (0 < count) × (count ≤ length bytes.old)) }
        ensures read { (C.state (calls_of self.new)).honest
            → IfOk result (λ count. take count bytes.new ≡ window (C.state (calls_of self.old)).bytes at count) }
        ensures keeps { (C.state (calls_of self.new)).honest
            → FileKeeps (C.state (calls_of self.old)) (C.state (calls_of self.new)) }
        ensures same { SameFile (C.state (calls_of self.old)) (C.state (calls_of self.new)) }
        ensures device { IsErrOf result Damaged → ⊥ }
        ensures failed { IsErrOf result Device → failures_of self.new ≡ one_more (failures_of self.old) }
        ensures because { OnErr result (HasCause C.ended (calls_of self.new) UnexpectedEof None
            (failure_of self.old) (failure_of self.new)) }
        ensures quiet { OnOk result (failure_of self.new ≡ failure_of self.old) }
        ensures keeps_size { known_size_of self.new ≡ known_size_of self.old }
        ensures served { OnOk result (failures_of self.new ≡ failures_of self.old) }
    {
        match self.calls.read_some(at, bytes) {
            Ok(count) if count > 0 => Ok(count),
            Ok(_) => Err(self.device_fault(ErrorKind::UnexpectedEof.into())),
            Err(error) => Err(self.device_fault(error)),
        }
    }

    /// Writes some of the bytes from place `at`, and returns how many: at least one, if there are any.
    ///
    /// # Errors
    ///
    /// `Device` if the call failed or wrote none of them.
    fn put_some(&mut self, at: u64, bytes: &[u8]) -> Result<usize, Fault>
        requires { (C.state (calls_of self.old)).honest → at + length bytes.now ≤ (C.state (calls_of self.old)).size }
        ensures few { IfOk result (λ count. (0 < length bytes.now → 0 < count) × (count ≤ length bytes.now)) }
        ensures put { (C.state (calls_of self.new)).honest
            → IfOk result (λ count. window (C.state (calls_of self.new)).bytes at count ≡ take count bytes.now) }
        ensures moves { (C.state (calls_of self.new)).honest
            → OnOk result ((C.state (calls_of self.old)).clock < (C.state (calls_of self.new)).clock) }
        ensures writes { (C.state (calls_of self.new)).honest
            → FileWrites at (length bytes.now) (C.state (calls_of self.old)) (C.state (calls_of self.new)) }
        ensures same { SameFile (C.state (calls_of self.old)) (C.state (calls_of self.new)) }
        ensures device { IsErrOf result Damaged → ⊥ }
        ensures failed { IsErrOf result Device → failures_of self.new ≡ one_more (failures_of self.old) }
        ensures because { OnErr result (HasCause C.ended (calls_of self.new) WriteZero None
            (failure_of self.old) (failure_of self.new)) }
        ensures quiet { OnOk result (failure_of self.new ≡ failure_of self.old) }
        ensures keeps_size { known_size_of self.new ≡ known_size_of self.old }
        ensures served { OnOk result (failures_of self.new ≡ failures_of self.old) }
    {
        match self.calls.write_some(at, bytes) {
            Ok(count) if count > 0 || bytes.is_empty() => Ok(count),
            Ok(_) => Err(self.device_fault(ErrorKind::WriteZero.into())),
            Err(error) => Err(self.device_fault(error)),
        }
    }
}

impl<C: FileCalls> Durable for HostFile<C> {
    ghost use Rattle.imagefile.specs.Common.{calls_of, failures_of, failure_of, known_size_of};

    ghost state = { λ file. with_failures (C.state file.calls) file.failures };

    ghost refused = { λ before after at count. Unit {0} };

    ghost counts_now = { λ file t r h le may. C.counts_now file.calls t r h le may };

    ghost only_now = { λ file r h left. C.only_now file.calls r h left };

    ghost reaches_back = { λ file t u r h le left. C.reaches_back file.calls t u r h le left };

    fn len(&mut self) -> Result<u64, Fault>
        ensures size { (C.state (calls_of self.new)).honest
            → IfOk result (λ size. size ≡ (C.state (calls_of self.old)).size) }
        ensures keeps { (C.state (calls_of self.new)).honest
            → FileKeeps (C.state (calls_of self.old)) (C.state (calls_of self.new)) }
        ensures same { SameFile (C.state (calls_of self.old)) (C.state (calls_of self.new)) }
        ensures device { IsErrOf result Damaged → ⊥ }
        ensures failed { IsErrOf result Device → failures_of self.new ≡ one_more (failures_of self.old) }
        ensures measured { IfOk result (λ size. C.ended (calls_of self.old) (calls_of self.new) (Measured size)
            × (known_size_of self.new ≡ Some size)) }
        ensures because { OnErr result (HasCause C.ended (calls_of self.new) UnexpectedEof None
            (failure_of self.old) (failure_of self.new)) }
        ensures quiet { OnOk result (failure_of self.new ≡ failure_of self.old) }
        ensures keeps_size { OnErr result (known_size_of self.new ≡ known_size_of self.old) }
        ensures served { OnOk result (failures_of self.new ≡ failures_of self.old) }
    {
        match self.calls.size() {
            Ok(size) => {
                self.size = Some(size);
                Ok(size)
            }
            Err(error) => Err(self.device_fault(error)),
        }
    }

    fn read_at(&mut self, at: u64, bytes: &mut [u8]) -> Result<(), Fault>
        requires { (C.state (calls_of self.old)).honest → at + length bytes.old ≤ (C.state (calls_of self.old)).size }
        ensures read { (C.state (calls_of self.new)).honest
            → OnOk result (bytes.new ≡ window (C.state (calls_of self.old)).bytes at (length bytes.old)) }
        ensures keeps { (C.state (calls_of self.new)).honest
            → FileKeeps (C.state (calls_of self.old)) (C.state (calls_of self.new)) }
        ensures same { SameFile (C.state (calls_of self.old)) (C.state (calls_of self.new)) }
        ensures device { IsErrOf result Damaged → ⊥ }
        ensures failed { IsErrOf result Device → failures_of self.new ≡ one_more (failures_of self.old) }
        ensures because { OnErr result (HasCause C.ended (calls_of self.new) UnexpectedEof None
            (failure_of self.old) (failure_of self.new)
            ⊎ IsPastAll (at + length bytes.old) (failure_of self.old) (failure_of self.new)) }
        ensures quiet { OnOk result (failure_of self.new ≡ failure_of self.old) }
        ensures keeps_size { known_size_of self.new ≡ known_size_of self.old }
        ensures served { OnOk result (failures_of self.new ≡ failures_of self.old) }
    {
        let mut done = 0;
        while done < bytes.len() {
            let Some(place) = at.checked_add(done as u64) else {
                return Err(self.device_fault(ErrorKind::InvalidInput.into()));
            };
            done += self.get_some(place, &mut bytes[done..])?;
        }
        Ok(())
    }

    fn prefetch(&mut self, at: u64, bytes: &mut [u8]) -> usize
        requires { (C.state (calls_of self.old)).honest → at + length bytes.old ≤ (C.state (calls_of self.old)).size }
        ensures few { result ≤ length bytes.old }
        ensures read { (C.state (calls_of self.new)).honest
            → take result bytes.new ≡ window (C.state (calls_of self.old)).bytes at result }
        ensures keeps { (C.state (calls_of self.new)).honest
            → FileKeeps (C.state (calls_of self.old)) (C.state (calls_of self.new)) }
        ensures same { SameFile (C.state (calls_of self.old)) (C.state (calls_of self.new)) }
        ensures quiet { failure_of self.new ≡ failure_of self.old }
        ensures keeps_size { known_size_of self.new ≡ known_size_of self.old }
        ensures served { failures_of self.new ≡ failures_of self.old }
    {
        match self.calls.read_some(at, bytes) {
            Ok(count) => count,
            Err(_) => 0,
        }
    }

    fn write_at(&mut self, at: u64, bytes: &[u8]) -> Result<(), Fault>
        requires { (C.state (calls_of self.old)).honest → at + length bytes.now ≤ (C.state (calls_of self.old)).size }
        ensures put { (C.state (calls_of self.new)).honest
            → OnOk result (window (C.state (calls_of self.new)).bytes at (length bytes.now) ≡ bytes.now) }
        ensures moves { (C.state (calls_of self.new)).honest
            → OnOk result ((C.state (calls_of self.old)).clock < (C.state (calls_of self.new)).clock) }
        ensures writes { (C.state (calls_of self.new)).honest
            → FileWrites at (length bytes.now) (C.state (calls_of self.old)) (C.state (calls_of self.new)) }
        ensures same { SameFile (C.state (calls_of self.old)) (C.state (calls_of self.new)) }
        ensures device { IsErrOf result Damaged → ⊥ }
        ensures failed { IsErrOf result Device → failures_of self.new ≡ one_more (failures_of self.old) }
        ensures because { OnErr result (HasCause C.ended (calls_of self.new) WriteZero None
            (failure_of self.old) (failure_of self.new)
            ⊎ IsPastAll (at + length bytes.now) (failure_of self.old) (failure_of self.new)) }
        ensures quiet { OnOk result (failure_of self.new ≡ failure_of self.old) }
        ensures keeps_size { known_size_of self.new ≡ known_size_of self.old }
        ensures served { OnOk result (failures_of self.new ≡ failures_of self.old) }
    {
        let mut done = self.put_some(at, bytes)?;
        while done < bytes.len() {
            let Some(place) = at.checked_add(done as u64) else {
                return Err(self.device_fault(ErrorKind::InvalidInput.into()));
            };
            done += self.put_some(place, &bytes[done..])?;
        }
        Ok(())
    }

    fn sync(&mut self) -> Result<(), Fault>
        ensures syncs { (C.state (calls_of self.new)).honest
            → OnOk result (FileSyncs (C.state (calls_of self.old)) (C.state (calls_of self.new))) }
        ensures moves { (C.state (calls_of self.new)).honest
            → OnOk result ((C.state (calls_of self.old)).clock < (C.state (calls_of self.new)).clock) }
        ensures fails { (C.state (calls_of self.new)).honest
            → OnErr result (FileFails (C.state (calls_of self.old)) (C.state (calls_of self.new))) }
        ensures same { SameFile (C.state (calls_of self.old)) (C.state (calls_of self.new)) }
        ensures device { IsErrOf result Damaged → ⊥ }
        ensures failed { IsErrOf result Device → failures_of self.new ≡ one_more (failures_of self.old) }
        ensures synced { OnOk result
            (LookedAndSynced C.ended (known_size_of self.old) (calls_of self.old) (calls_of self.new)) }
        ensures because { OnErr result (HasCause C.ended (calls_of self.new) UnexpectedEof (known_size_of self.old)
            (failure_of self.old) (failure_of self.new)) }
        ensures quiet { OnOk result (failure_of self.new ≡ failure_of self.old) }
        ensures keeps_size { known_size_of self.new ≡ known_size_of self.old }
        ensures served { OnOk result (failures_of self.new ≡ failures_of self.old) }
    {
        self.keep_size()?;
        match self.calls.sync_all() {
            Ok(()) => Ok(()),
            Err(error) => Err(self.device_fault(error)),
        }
    }
}
