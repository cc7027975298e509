// The files of a process, each made with all its bytes.
ghost use Rattle.std.specs.Prelude.{◌≡◌, ◌++◌, IsTrue, OnErr, OnOk};
ghost use Rattle.fri_outside.specs.Outside.{after_write, with_file};
ghost use Rattle.fri_outside.specs.Several.{AreFirstMade, with_files};
ghost use Rattle.fri_text.specs.Name.{is_name};
ghost use Rattle.process_files.specs.Images.{image_files};

use crate::naming::process_file;
use fri_outside::{Files, WriteError};
use std::alloc::Global;

/// Makes the two files of a process's image: one that has its memory, and then one that has what it printed.
pub fn write_image<F: Files>(
    alloc: Global,
    name: &[u8],
    memory: &[u8],
    printed: &[u8],
    files: &mut F,
) -> Result<(), WriteError>
    requires { IsTrue (is_name name.now) }
    ensures ok { OnOk result (F.told files.new ≡ with_files (image_files name.now memory.now printed.now) (F.told files.old)) }
    ensures err { OnErr result (AreFirstMade (image_files name.now memory.now printed.now) (F.told files.old) (F.told files.new)) }
    ensures counted { F.counts files.new ≡ after_write (F.counts files.old) result }
{
    write_file(alloc, name, ".mem", memory, files)?;
    write_file(alloc, name, ".out", printed, files)
}

/// Makes the file of a process that ends so, with these bytes, in place of one of that name.
pub fn write_file<F: Files>(
    alloc: Global,
    name: &[u8],
    ending: &str,
    bytes: &[u8],
    files: &mut F,
) -> Result<(), WriteError>
    requires { IsTrue (is_name name.now) }
    ensures ok { OnOk result (F.told files.new ≡ with_file (name.now ++ ending.now) bytes.now (F.told files.old)) }
    ensures err { OnErr result (F.told files.new ≡ F.told files.old) }
    ensures counted { F.counts files.new ≡ after_write (F.counts files.old) result }
{
    let file = process_file(alloc, name, ending)?;
    files.replace(&file, bytes)
}
