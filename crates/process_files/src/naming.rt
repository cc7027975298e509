// The names of the files of a process.
ghost use Rattle.std.specs.Prelude.{◌≡◌, ◌++◌, IfOk, IsTrue, string_bytes};
ghost use Rattle.fri_text.specs.Name.{is_name};

use std::alloc::{AllocError, Global};

/// The name of the file of a process that ends so, as in `.log`.
pub fn process_file(alloc: Global, name: &[u8], ending: &str) -> Result<String, AllocError>
    requires { IsTrue (is_name name.now) }
    ensures { IfOk result (λ file. string_bytes file ≡ name.now ++ ending.now) }
{
    let mut file = String::from_utf8_lossy(alloc, name)?;
    file.push_str(ending)?;
    Ok(file)
}
