// What holds of what an expression reads, whatever it is. These calls do nothing.
ghost use Rattle.watch_expr.specs.Parts.{PartsMakeUp};
ghost use Rattle.watch_expr.specs.Reads.{ReadsTell, VariablesUnseen};

pub use expression_text::laws::{exact_cut, exact_reading, none_apart};

/// Where all that an expression reads is the same in two states, its value and what it reads are the same in both.
pub fn reads_tell()
    ensures { ReadsTell }
{}

/// The parts of an expression make up its value and all that it reads.
pub fn parts_make_up()
    ensures { PartsMakeUp }
{}

/// The value of an expression that names no variable is the same whatever the variables are.
pub fn variables_unseen()
    ensures { VariablesUnseen }
{}
