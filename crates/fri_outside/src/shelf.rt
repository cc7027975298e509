// The files in memory, seen as the folder that they stand for.
ghost use Rattle.std.specs.Prelude.{◌≡◌, OnOk, OnErr};
ghost use Rattle.std.specs.Option.{option_copied};
ghost use Rattle.std.specs.FinMap.{empty, get, insert};
ghost use Rattle.fri_outside.specs.Memory.{appended_to_file};

use std::alloc::{AllocError, Global};
use std::collections::BTreeMap;
use std::marker::Model;

#[derive(Drop)]
pub(crate) struct Shelf {
    files: BTreeMap<String, Vec<u8>>,
}

impl Model for Shelf {
    ghost use Rattle.fri_outside.specs.Outside.{Folder};
    ghost use Rattle.fri_outside.specs.Memory.{folder_code};
    ghost use Rattle.fri_outside.specs.inside.Kept.{folder_of};

    ghost Value = { Folder };

    ghost coded = { folder_code };

    ghost view = { λ shelf. folder_of shelf.files.entries };
}

impl Shelf {
    pub(crate) fn new(alloc: Global) -> Self
        ensures { result ≡ empty }
    {
        Shelf {
            files: BTreeMap::new(alloc),
        }
    }

    pub(crate) fn get(&self, name: &str) -> Option<&[u8]>
        ensures { option_copied result ≡ get self.now name.now }
    {
        match self.files.get(name) {
            Some(bytes) => Some(bytes.as_slice()),
            None => None,
        }
    }

    /// Sets the bytes of a name.
    pub(crate) fn put(
        &mut self,
        alloc: Global,
        name: &str,
        bytes: Vec<u8>,
    ) -> Result<(), AllocError>
        ensures ok { OnOk result (self.new ≡ insert self.old name.now bytes.items) }
        ensures err { OnErr result (self.new ≡ self.old) }
    {
        let key = String::from_str(alloc, name)?;
        self.files.insert(key, bytes)?;
        Ok(())
    }

    /// Adds a piece after the bytes of a name, which has none where it is new.
    pub(crate) fn append(
        &mut self,
        alloc: Global,
        name: &str,
        piece: &[u8],
    ) -> Result<(), AllocError>
        ensures ok { OnOk result (self.new ≡ appended_to_file name.now piece.now self.old) }
        ensures err { OnErr result (self.new ≡ self.old) }
    {
        match self.files.get_mut(name) {
            Some(bytes) => {
                bytes.extend_from_slice(piece)?;
                Ok(())
            }
            None => {
                let bytes = Vec::from_slice(alloc, piece)?;
                self.put(alloc, name, bytes)
            }
        }
    }
}
