//! Files in memory, by their names.
ghost use Rattle.std.specs.Prelude.{◌≡◌, ◌↔◌, length, IsNone, IsErrOf, OnOk, OnErr, IfSome, IfNone, position};
ghost use Rattle.std.specs.Option.{option_copied};
ghost use Rattle.std.specs.FinMap as map;
ghost use Rattle.gm_outside.specs.Changes.{append_to};
ghost use Rattle.gm_fakes.specs.FileList.{has_name};
ghost use Rattle.gm_outside.specs.Files.{HasRange, HasBytesAt};

use gm_outside::Trouble;
use std::alloc::{AllocError, Global};
use std::marker::Model;

#[derive(Drop)]
pub(crate) struct StoredFile {
    name: String,
    bytes: Vec<u8>,
}

/// Files, seen as the map from the bytes of each name to the bytes of its file.
#[derive(Drop)]
pub(crate) struct FileList {
    stored: Vec<StoredFile>,
}

impl Model for FileList {
    ghost use Rattle.gm_outside.specs.Files.{Files, files_code};

    ghost Value = { Files };

    ghost coded = { files_code };

    ghost use Rattle.gm_fakes.specs.FileList.{files_of};

    ghost view = { λ list. files_of list.stored.items };
}

impl FileList {
    pub(crate) fn new(alloc: Global) -> FileList
        ensures { result ≡ map.empty }
    {
        FileList {
            stored: Vec::new(alloc),
        }
    }

    /// The bytes of a file.
    pub(crate) fn get(&self, name: &str) -> Option<&[u8]>
        ensures { option_copied result ≡ map.get self.now name.now }
    {
        let place = place_of(&self.stored, name)?;
        Some(&self.stored[place].bytes)
    }

    /// The bytes of a file from `pos` on, where it has as many.
    pub(crate) fn range(&self, name: &str, pos: u64, count: usize) -> Option<&[u8]>
        ensures missing { IfNone result (HasRange self.now name.now pos count → ⊥) }
        ensures found { IfSome result (λ part. (length part.now ≡ count)
            × HasBytesAt self.now name.now pos part.now) }
    {
        let bytes = self.get(name)?;
        if pos > bytes.len() as u64 || count > bytes.len() - pos as usize {
            return None;
        }
        let start = pos as usize;
        Some(&bytes[start..start + count])
    }

    /// Stores a file in place of one of its name.
    pub(crate) fn put(&mut self, name: &str, bytes: &[u8]) -> Result<(), AllocError>
        ensures ok { OnOk result (self.new ≡ map.insert self.old name.now bytes.now) }
        ensures err { OnErr result (self.new ≡ self.old) }
    {
        let alloc = *self.stored.allocator();
        let bytes = Vec::from_slice(alloc, bytes)?;
        match place_of(&self.stored, name) {
            Some(place) => self.stored[place].bytes = bytes,
            None => {
                let name = String::from_str(alloc, name)?;
                self.stored.push(StoredFile { name, bytes })?;
            }
        }
        Ok(())
    }

    /// Adds bytes at the end of a file. It fails exactly where the file is missing.
    pub(crate) fn append(&mut self, name: &str, bytes: &[u8]) -> Result<(), Trouble>
        ensures ok { OnOk result (self.new ≡ append_to self.old name.now bytes.now) }
        ensures err { OnErr result (self.new ≡ self.old) }
        ensures missing { IsErrOf result Trouble.Failed ↔ IsNone (map.get self.old name.now) }
    {
        match place_of(&self.stored, name) {
            None => Err(Trouble::Failed),
            Some(place) => {
                self.stored[place].bytes.extend_from_slice(bytes)?;
                Ok(())
            }
        }
    }
}

fn place_of(stored: &[StoredFile], name: &str) -> Option<usize>
    ensures { result ≡ position (has_name name.now) stored.now }
{
    stored.iter().position(|file| name == file.name.as_str())
}
