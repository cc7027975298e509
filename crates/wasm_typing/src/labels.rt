// The labels of the open blocks, the outermost first.
ghost use Rattle.std.specs.Prelude.{◌≡◌, reverse, slice_get};
ghost use Rattle.wasm_types.specs.Labels.{is_same_label, table_label, typed_branch, typed_branch_if, typed_branch_table};
ghost use Rattle.wasm_typing.specs.inside.Results.{FollowsTyping, FindsType};

use crate::operands::Operands;
use crate::refusal::TypingError;
use crate::steps::{jump_with, pop_result, pop_type, push_result};
use wasm_types::ValType;

/// What a branch carries, if it carries an operand.
pub(crate) type Label = Option<ValType>;

/// The label of the block that many blocks out.
pub(crate) fn label_at(labels: &[Label], depth: u32) -> Result<Label, TypingError>
    ensures { FindsType (slice_get (reverse labels.now) depth) result }
{
    let depth = depth as usize;
    if depth < labels.len() {
        Ok(labels[labels.len() - 1 - depth])
    } else {
        Err(TypingError::Invalid)
    }
}

/// The label of a table of branches, which are all of one type.
pub(crate) fn table_label(labels: &[Label], depths: &[u32], last: u32) -> Result<Label, TypingError>
    ensures { FindsType (table_label (reverse labels.now) depths.now last) result }
{
    let label = label_at(labels, last)?;
    for depth in depths {
        if !is_same(label, label_at(labels, *depth)?) {
            return Err(TypingError::Invalid);
        }
    }
    Ok(label)
}

pub(crate) fn typed_branch(
    labels: &[Label],
    depth: u32,
    operands: &mut Operands,
) -> Result<(), TypingError>
    ensures { FollowsTyping
        (typed_branch (reverse labels.now) depth operands.old.current)
        operands.old operands.new result }
{
    jump_with(operands, label_at(labels, depth)?)
}

pub(crate) fn typed_branch_if(
    labels: &[Label],
    depth: u32,
    operands: &mut Operands,
) -> Result<(), TypingError>
    ensures { FollowsTyping
        (typed_branch_if (reverse labels.now) depth operands.old.current)
        operands.old operands.new result }
{
    let label = label_at(labels, depth)?;
    pop_type(operands, ValType::I32)?;
    pop_result(operands, label)?;
    push_result(operands, label)
}

pub(crate) fn typed_branch_table(
    labels: &[Label],
    depths: &[u32],
    last: u32,
    operands: &mut Operands,
) -> Result<(), TypingError>
    ensures { FollowsTyping
        (typed_branch_table (reverse labels.now) depths.now last operands.old.current)
        operands.old operands.new result }
{
    let label = table_label(labels, depths, last)?;
    pop_type(operands, ValType::I32)?;
    jump_with(operands, label)
}

fn is_same(a: Label, b: Label) -> bool
    ensures { result ≡ is_same_label a b }
{
    match (a, b) {
        (None, None) => true,
        (Some(t), Some(u)) => t == u,
        _ => false,
    }
}
