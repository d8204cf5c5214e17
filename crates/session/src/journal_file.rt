//! A file that a journal is kept in.
ghost use Rattle.std.specs.Prelude.{◌≡◌, OnOk};

use anyhow::{bail, ensure};
use areas::AREA;
use journal_commands::MAX_UNITS;
use std::alloc::AllocError;
use std::fs;
use std::fs::{File, OpenOptions, TryLockError};
use std::io::{ErrorKind, Write};
use std::path::Path;

/// A file that a journal is kept in.
#[derive(Drop)]
pub struct JournalFile {
    /// Where it lies.
    path: String,
    /// What was read from it, or written to it last.
    held: Vec<u8>,
    /// The lock that keeps other programs away; none in a folder that may not be written.
    lock: Option<File>,
}

/// Makes durable which files the folder of this path has.
fn sync_folder(rt: &HostRuntime, path: &str) -> anyhow::Result<()> {
    let folder = match Path::new(path).parent() {
        Some(folder) if !folder.as_str().is_empty() => folder.as_str(),
        _ => ".",
    };
    fs::open(rt, folder)?.sync_all()?;
    Ok(())
}

/// Writes the file whole: a new one, made durable, takes the name of the old one.
fn write_whole(rt: &HostRuntime, path: &str, bytes: &[u8]) -> anyhow::Result<()> {
    let beside = format!(in rt.alloc(); "{path}.new")?;
    let mut file = fs::create(rt, beside.as_str())?;
    file.write_all(bytes)?;
    file.sync_all()?;
    fs::rename(rt, beside.as_str(), path)?;
    sync_folder(rt, path)
}

/// Refuses what is no file, and a file that is too long.
fn check(rt: &HostRuntime, path: &str) -> anyhow::Result<()> {
    let about = fs::metadata(rt, path)?;
    ensure!(about.is_file(), "it is no file");
    let len = about.len();
    ensure!(
        len <= MAX_UNITS * AREA as u64,
        "the file has {len} bytes, and not 1 to 1024 areas of 4096"
    );
    Ok(())
}

/// Makes a file of so many areas, which are empty: its bytes.
fn make(rt: &HostRuntime, path: &str, areas: u64) -> anyhow::Result<Vec<u8>> {
    ensure!(!fs::exists(rt, path)?, "a file is there already");
    let len = (areas as usize).checked_mul(AREA).ok_or(AllocError)?;
    let bytes = vec![in rt.alloc(); 0u8; len]?;
    write_whole(rt, path, &bytes)?;
    Ok(bytes)
}

/// Takes the lock of the journal at this path, a file beside it; none in a folder that may not be written.
fn lock(rt: &HostRuntime, path: &str) -> anyhow::Result<Option<File>> {
    let beside = format!(in rt.alloc(); "{path}.lock")?;
    let mut options = OpenOptions::new();
    options.write(true).create(true);
    let file = match options.open(rt, beside.as_str()) {
        Ok(file) => file,
        Err(error) => match error.kind() {
            ErrorKind::PermissionDenied | ErrorKind::ReadOnlyFilesystem => return Ok(None),
            _ => return Err(error.into()),
        },
    };
    match file.try_lock() {
        Ok(()) => Ok(Some(file)),
        Err(TryLockError::WouldBlock) => bail!("it is open already"),
        Err(TryLockError::Error(error)) => Err(error.into()),
    }
}

impl JournalFile {
    ghost use Rattle.session.specs.Files.{bytes_of};

    /// The lock of the journal at this path, which may be the one that is open.
    fn lock(rt: &HostRuntime, path: &str, open: Option<&Self>) -> anyhow::Result<Option<File>> {
        if let Some(open) = open {
            if open.path.as_str() == path {
                return match &open.lock {
                    Some(lock) => Ok(Some(lock.try_clone()?)),
                    None => Ok(None),
                };
            }
        }
        lock(rt, path)
    }

    /// The file at this path: a new one of so many areas where their number is given, else one that is there. Another
    /// may be open.
    pub(crate) fn open(
        rt: &HostRuntime,
        path: &str,
        areas: Option<u64>,
        open: Option<&Self>,
    ) -> anyhow::Result<Self> {
        if areas.is_none() {
            check(rt, path)?;
        }
        let lock = Self::lock(rt, path, open)?;
        let held = match areas {
            Some(areas) => make(rt, path, areas)?,
            None => {
                check(rt, path)?;
                fs::read(rt, path)?
            }
        };
        Ok(Self {
            path: path.to_string(rt.alloc())?,
            held,
            lock,
        })
    }

    /// What was read from the file, or written to it last.
    pub(crate) fn bytes(&self) -> &[u8]
        ensures { result.now ≡ bytes_of self.now }
    {
        &self.held
    }

    /// Writes these bytes, where the file does not hold them.
    pub(crate) fn keep(&mut self, rt: &HostRuntime, bytes: &[u8]) -> anyhow::Result<()>
        ensures { OnOk result (bytes_of self.new ≡ bytes.now) }
    {
        if self.held.as_slice() != bytes {
            ensure!(
                self.lock.is_some(),
                "its lock, a file beside it, may not be written"
            );
            write_whole(rt, self.path.as_str(), bytes)?;
            self.held = bytes.to_vec(rt.alloc())?;
        }
        Ok(())
    }
}
