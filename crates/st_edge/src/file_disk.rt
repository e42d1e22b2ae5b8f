ghost use Rattle.std.specs.Prelude.{◌≡◌, ℕ, List, ◌<◌, ◌≤◌, ◌+◌, ◌^◌, None, length, IfSome, IsOk, IsErr, OnOk, OnErr};
ghost use Rattle.std.specs.Io.KnownBytes.{Keeps};
ghost use Rattle.st_edge.specs.Bytes.{read_at, written_at, Becomes};
ghost use Rattle.st_edge.specs.Faults.{Rose};

use crate::faults::counted;
use crate::placed::{fill_from, has_places, write_whole};
use crate::{Disk, Failed};
use std::fs::{self, OpenOptions};
use std::io;
use std::rt::Files;

/// A file as a disk. It is opened at the first call, and an opening that fails is a fault of that
/// call. A file that isn't there is an empty disk, and the first write of some bytes makes it. It
/// tells nothing of its bytes.
#[derive(Drop)]
pub struct FileDisk<R> {
    rt: R,
    path: String,
    file: Option<fs::File>,
    is_folder_behind: bool,
    faults: u64,
}

impl<R: Files<File = fs::File> + Drop> FileDisk<R> {
    /// The file at `path`, which is not opened yet.
    pub fn new(rt: R, path: String) -> FileDisk<R>
        ensures { ⟦<FileDisk<R> as Disk>⟧.faults result ≡ 0 }
    {
        FileDisk {
            rt,
            path,
            file: None,
            is_folder_behind: false,
            faults: 0,
        }
    }

    /// Opens the file, unless it is open already or isn't there.
    fn open(&mut self) -> io::Result<()>
        ensures { self.new.faults ≡ self.old.faults }
    {
        if self.file.is_some() {
            return Ok(());
        }
        let opened = OpenOptions::new()
            .read(true)
            .write(true)
            .open(&self.rt, self.path.as_str());
        match opened {
            Ok(file) => self.file = Some(file),
            Err(error) if error.kind() == io::ErrorKind::NotFound => {}
            Err(error) => return Err(error),
        }
        Ok(())
    }

    /// Opens the file, and makes it where it isn't there.
    fn open_or_make(&mut self) -> io::Result<()>
        ensures { self.new.faults ≡ self.old.faults }
    {
        self.open()?;
        if self.file.is_none() {
            let made = OpenOptions::new()
                .read(true)
                .write(true)
                .create_new(true)
                .open(&self.rt, self.path.as_str())?;
            self.file = Some(made);
            self.is_folder_behind = true;
        }
        Ok(())
    }

    fn measure(&mut self) -> io::Result<u64>
        ensures { self.new.faults ≡ self.old.faults }
    {
        self.open()?;
        match &self.file {
            None => Ok(0),
            Some(file) => Ok(file.metadata()?.len()),
        }
    }

    fn fill(&mut self, at: u64, into: &mut [u8]) -> io::Result<()>
        ensures same { self.new.faults ≡ self.old.faults }
        ensures refuses { 2 ^ 63 ≤ at + length into.old → IsErr result }
    {
        if !has_places(at, into.len()) {
            return Err(io::ErrorKind::InvalidInput.into());
        }
        self.open()?;
        match &self.file {
            None => {
                into.fill(0);
                Ok(())
            }
            Some(file) => fill_from(file, at, into),
        }
    }

    fn put(&mut self, at: u64, from: &[u8]) -> io::Result<()>
        ensures same { self.new.faults ≡ self.old.faults }
        ensures refuses { 2 ^ 63 ≤ at + length from.now → IsErr result }
        ensures nothing { length from.now ≡ 0 → at < 2 ^ 63 → IsOk result }
    {
        if !has_places(at, from.len()) {
            return Err(io::ErrorKind::InvalidInput.into());
        }
        if from.is_empty() {
            return Ok(());
        }
        self.open_or_make()?;
        match &self.file {
            None => Err(io::ErrorKind::NotFound.into()),
            Some(file) => write_whole(file, at, from),
        }
    }

    fn flush(&mut self) -> io::Result<()>
        ensures { self.new.faults ≡ self.old.faults }
    {
        self.open()?;
        if let Some(file) = &self.file {
            file.sync_all()?;
        }
        if self.is_folder_behind {
            let folder = fs::File::open(&self.rt, folder_of(self.path.as_str()))?;
            folder.sync_all()?;
            self.is_folder_behind = false;
        }
        Ok(())
    }
}

impl<R: Files<File = fs::File> + Drop> Disk for FileDisk<R> {
    ghost bytes = { λ _. None };

    ghost faults = { λ d. d.faults };

    fn length(&mut self) -> Result<u64, Failed> {
        let answer = self.measure();
        counted(answer, &mut self.faults)
    }

    /// Places from 2^63 on are `Failed`.
    fn read(&mut self, at: u64, into: &mut [u8]) -> Result<(), Failed>
        ensures exact { OnOk result (IfSome None (λ (b : List ℕ). into.new ≡ read_at b at (length into.old))) }
        ensures kept { Keeps None None }
        ensures never_falls { self.old.faults ≤ self.new.faults }
        ensures cause { OnErr result (Rose self.old.faults self.new.faults) }
        ensures refuses { 2 ^ 63 ≤ at + length into.old → IsErr result }
    {
        let answer = self.fill(at, into);
        counted(answer, &mut self.faults)
    }

    /// Places from 2^63 on are `Failed`. A write of nothing asks nothing of the system.
    fn write_at(&mut self, at: u64, from: &[u8]) -> Result<(), Failed>
        ensures written { OnOk result (Becomes None None (λ b. written_at b at from.now)) }
        ensures never_falls { self.old.faults ≤ self.new.faults }
        ensures cause { OnErr result (Rose self.old.faults self.new.faults) }
        ensures refuses { 2 ^ 63 ≤ at + length from.now → IsErr result }
        ensures nothing { length from.now ≡ 0 → at < 2 ^ 63 → IsOk result }
    {
        let answer = self.put(at, from);
        counted(answer, &mut self.faults)
    }

    /// After a write that made the file it brings the file's folder to the disk too.
    fn sync(&mut self) -> Result<(), Failed> {
        let answer = self.flush();
        counted(answer, &mut self.faults)
    }
}

/// The folder that the file at `path` lies in.
fn folder_of(path: &str) -> &str {
    match path.rsplit_once('/') {
        None => ".",
        Some(("", _)) => "/",
        Some((folder, _)) => folder,
    }
}
