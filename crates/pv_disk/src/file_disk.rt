// A disk on a file.
ghost use Rattle.std.specs.Prelude.{◌≡◌, ◌≤◌, []};
ghost use Rattle.pv_base.specs.Fault.{risen};
ghost use Rattle.pv_disk.specs.Folder.{FileState, file_disk};

use crate::{Disk, DiskError};
use pv_base::{Failed, History, MAX_LENGTH};
use std::fs::File;
use std::marker::Model;
use std::os::unix::fs::FileExt;

/// A disk on a file. What it holds isn't known. Each error of the file counts as a fault, and so does a file longer than
/// [`MAX_LENGTH`](pv_base::MAX_LENGTH), a read that ends before its bytes are there, and a write that can't be finished.
#[derive(Drop)]
pub struct FileDisk {
    /// The file, open for reading and writing.
    file: File,
    /// How many calls have failed, up to u64's greatest value.
    faults: u64,
    /// What the reads have given.
    given: History<u8>,
}

impl Model for FileDisk {
    ghost use Rattle.pv_disk.specs.Folder.{FileState};

    ghost Value = { FileState };

    ghost view = { λ s. record { faults = s.faults; given = s.given.items } };
}

impl FileDisk {
    /// A disk on this file, which is open for reading and writing. No call has failed.
    pub fn new(file: File) -> Self
        ensures { result ≡ record { faults = 0; given = [] } }
    {
        FileDisk {
            file,
            faults: 0,
            given: History::new(),
        }
    }

    /// How many calls have failed.
    pub fn faults(&self) -> u64
        ensures { result ≡ self.now.faults }
    {
        self.faults
    }

    // A call has failed.
    fn fault(&mut self) -> Failed
        ensures counted { self.new ≡ record self.old { faults = risen self.old.faults } }
        ensures rises { self.old.faults ≤ self.new.faults }
    {
        self.faults = self.faults.saturating_add(1);
        Failed
    }
}

impl Disk for FileDisk {
    ghost model = { file_disk };

    fn len(&mut self) -> Result<u64, Failed> {
        match self.file.metadata() {
            Ok(metadata) if metadata.len() <= MAX_LENGTH => Ok(metadata.len()),
            _ => Err(self.fault()),
        }
    }

    #[tactic(auto, using(crate::proofs::FileLemmas::read_done))]
    fn read_at(&mut self, place: u64, into: &mut [u8]) -> Result<(), Failed> {
        match self.file.read_exact_at(into, place) {
            Ok(()) => {
                self.given.extend(into);
                Ok(())
            }
            Err(_) => Err(self.fault()),
        }
    }

    fn reserve(&mut self, _bytes: u64, _writes: u32) -> Result<(), DiskError> {
        Ok(())
    }

    fn write_at(&mut self, place: u64, bytes: &[u8]) -> Result<(), Failed> {
        match self.file.write_all_at(bytes, place) {
            Ok(()) => Ok(()),
            Err(_) => Err(self.fault()),
        }
    }

    fn sync(&mut self) -> Result<(), Failed> {
        match self.file.sync_all() {
            Ok(()) => Ok(()),
            Err(_) => Err(self.fault()),
        }
    }
}
