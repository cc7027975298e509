// The names that pairs give.
ghost use Rattle.std.specs.Prelude.{◌≡◌, IfOk, map};
ghost use Rattle.log_pairs.specs.Pairs.{names_of_pairs};
ghost use Rattle.log_pairs.specs.Meanings.{pair_of};

use crate::pairs::Pair;
use std::alloc::{AllocError, Global};

/// The names of the files of these pairs.
pub fn file_names<'a>(alloc: Global, pairs: &[Pair<'a>]) -> Result<Vec<&'a str>, AllocError>
    ensures { IfOk result (λ names. map (λ name. name.now) names.items ≡ names_of_pairs (map pair_of pairs.now)) }
{
    let mut names = Vec::new(alloc);
    for pair in pairs {
        names.push(pair.module_file)?;
        names.push(pair.log_file)?;
    }
    Ok(names)
}
