// The functions of a module.
ghost use Rattle.std.specs.Prelude.{◌≡◌, IfOk};
ghost use Rattle.wasm_types.specs.Context.{funcs_of};
ghost use Rattle.wasm_types.specs.Modules.{module_of, func};
ghost use Rattle.wasm_types.specs.Rules.{IsTypedFunc, AreTypedFuncs};
ghost use Rattle.wasm_typing.specs.Steps.{JudgesCode};

use std::alloc::{AllocError, Global};
use wasm_types::{Func, ImportDesc, Module, result_of, type_at};
use wasm_typing::{Context, Locals, TypingError, check_body};

/// Whether each function has a type of the module, and code that is well typed.
pub(crate) fn check_functions(
    alloc: Global,
    module: &Module,
    type_indices: &[u32],
) -> Result<(), TypingError>
    requires { type_indices.now ≡ funcs_of (module_of «module».now) }
    ensures { JudgesCode (AreTypedFuncs (module_of «module».now)) result }
{
    for function in &module.funcs {
        check_function(alloc, module, type_indices, function)?;
    }
    Ok(())
}

/// The index of each function's type, the imports first.
pub(crate) fn type_indices(alloc: Global, module: &Module) -> Result<Vec<u32>, AllocError>
    ensures { IfOk result (λ v. v.items ≡ funcs_of (module_of «module».now)) }
{
    let mut type_indices = Vec::new(alloc);
    for import in &module.imports {
        if let ImportDesc::Func(type_index) = import.desc {
            type_indices.push(type_index)?;
        }
    }
    for function in &module.funcs {
        type_indices.push(function.type_index)?;
    }
    Ok(type_indices)
}

fn check_function(
    alloc: Global,
    module: &Module,
    type_indices: &[u32],
    function: &Func,
) -> Result<(), TypingError>
    requires { type_indices.now ≡ funcs_of (module_of «module».now) }
    ensures { JudgesCode (IsTypedFunc (module_of «module».now) (func function.now)) result }
{
    let Some(func_type) = type_at(module, function.type_index) else {
        return Err(TypingError::Invalid);
    };
    let locals = Locals::new(alloc, &func_type.params, &function.locals)?;
    let context = Context::new(module, type_indices, locals, result_of(func_type));
    check_body(alloc, &context, &function.body)
}
