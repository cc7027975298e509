// What the code of a function may name.
ghost use Rattle.std.specs.Prelude.{◌≡◌};
ghost use Rattle.wasm_types.specs.Context.{context_of, funcs_of};
ghost use Rattle.wasm_types.specs.Modules.{module_of};

use crate::locals::Locals;
use std::marker::Model;
use wasm_types::{FuncType, GlobalDef, Module, ValType};

/// What the code of a function may name, borrowed from its module.
#[derive(Drop)]
pub struct Context<'a> {
    pub(crate) types: &'a [FuncType],
    /// The index of each function's type, the imports first.
    pub(crate) funcs: &'a [u32],
    pub(crate) globals: &'a [GlobalDef],
    pub(crate) has_table: bool,
    pub(crate) has_memory: bool,
    pub(crate) locals: Locals<'a>,
    pub(crate) gives: Option<ValType>,
}

impl<'a> Model for Context<'a> {
    ghost use Rattle.std.specs.Prelude.{map};
    ghost use Rattle.wasm_types.specs.Context.{Context};
    ghost use Rattle.wasm_types.specs.Modules.{func_type};

    ghost Value = { Context };

    ghost use Rattle.wasm_typing.specs.inside.Views.{global_of};

    ghost view = { λ c. record {
      types = map func_type c.types.now;
      funcs = c.funcs.now;
      globals = map global_of c.globals.now;
      has_table = c.has_table;
      has_memory = c.has_memory;
      locals = c.locals;
      gives = c.gives;
    } };
}

impl<'a> Context<'a> {
    /// The code of a function with these parameters and locals, and this result.
    pub fn new(
        module: &'a Module,
        type_indices: &'a [u32],
        locals: Locals<'a>,
        gives: Option<ValType>,
    ) -> Context<'a>
        requires { type_indices.now ≡ funcs_of (module_of «module».now) }
        ensures { result ≡ context_of (module_of «module».now) locals.entry gives }
    {
        Context {
            types: &module.types,
            funcs: type_indices,
            globals: &module.globals,
            has_table: !module.tables.is_empty(),
            has_memory: !module.mems.is_empty(),
            locals,
            gives,
        }
    }
}
