// A bay on the current folder.
ghost use Rattle.std.specs.Prelude.{◌≡◌, replicate, false, string_bytes, IfOk};
ghost use Rattle.pv_disk.specs.Folder.{file_name as name_of, folder_bay};

use crate::{Bay, BayError, FileDisk, MemDisk};
use pv_base::SiteId;
use std::alloc::{AllocError, Global};
use std::fs::{File, Files, OpenOptions};
use std::io;
use std::marker::Model;

/// A site of a bay on a folder.
#[derive(Clone, Copy)]
pub(crate) struct FolderBerth {
    /// Whether its disk is out.
    is_out: bool,
    /// How many disks were handed back of which a call had failed, up to u64's greatest value.
    faults: u64,
}

/// A bay on the current folder. The disk of site s is the file `site-s.pv`, which is made empty where it isn't there. What the files hold isn't
/// known, and a disk in memory isn't kept. Two bays on one folder aren't kept apart, and the folder is synced each time a disk is asked for.
#[derive(Drop)]
pub struct FolderBay<R: Files<File = File>> {
    /// What opens the files.
    files: R,
    /// What makes the memory of their names.
    alloc: Global,
    /// Each site that there could be.
    berths: [FolderBerth; 256],
    /// How often it failed to hand out a disk, up to u64's greatest value.
    faults: u64,
}

impl<R: Files<File = File>> Model for FolderBay<R> {
    ghost use Rattle.pv_disk.specs.Folder.{FolderState};

    ghost Value = { FolderState };

    ghost view = { λ s. record { berths = s.berths; faults = s.faults } };
}

impl<R: Files<File = File>> FolderBay<R> {
    /// A bay on the current folder. It has failed at nothing.
    pub fn new(alloc: Global, files: R) -> Self
        ensures { result ≡ record { berths = replicate 256 (record { is_out = false; faults = 0 }); faults = 0 } }
    {
        FolderBay {
            files,
            alloc,
            berths: [FolderBerth {
                is_out: false,
                faults: 0,
            }; 256],
            faults: 0,
        }
    }
}

impl<R: Files<File = File>> Bay for FolderBay<R> {
    type D = FileDisk;

    ghost model = { folder_bay };

    fn disk(&mut self, site: SiteId) -> Result<FileDisk, BayError> {
        let name = file_name(self.alloc, site)?;
        match open(&self.files, &name) {
            Ok(file) => {
                self.berths[site.0 as usize].is_out = true;
                Ok(FileDisk::new(file))
            }
            Err(_) => {
                self.faults = self.faults.saturating_add(1);
                Err(BayError::Failed)
            }
        }
    }

    fn back(&mut self, site: SiteId, disk: FileDisk) {
        let berth = &mut self.berths[site.0 as usize];
        berth.is_out = false;
        if disk.faults() > 0 {
            berth.faults = berth.faults.saturating_add(1);
        }
    }

    fn keep(&mut self, _site: SiteId, _disk: MemDisk) {}
}

// The name of a site's file.
fn file_name(alloc: Global, site: SiteId) -> Result<String, AllocError>
    ensures { IfOk result (λ name. string_bytes name ≡ name_of site.0) }
{
    format!(in alloc; "site-{}.pv", site.0)
}

// Opens a file, or makes it, so that a crash leaves it in its folder.
fn open<R: Files<File = File>>(files: &R, name: &str) -> io::Result<File> {
    let file = OpenOptions::new()
        .read(true)
        .write(true)
        .create(true)
        .open(files, name)?;
    File::open(files, ".")?.sync_all()?;
    Ok(file)
}
