// The module `ring`, made in code.
ghost use Rattle.std.specs.Prelude.{◌≡◌, [], ◌∷◌, IfOk, None, map};
ghost use Rattle.wasm_types.specs.Code.{ConstI64, End, If, Load, Loop, Op, Store, tree, trees};
ghost use Rattle.wasm_types.specs.Modules.{func, func_type, import_of, module_of};
ghost use Rattle.drill_command.specs.Drill.{drill_modules};
ghost use Rattle.drill_command.specs.Ring.{add_32, add_64, and_32, eqz, ring_hand_on, library_call, load_64, ring_module, ring_body, ring_types, ring_send_first, store_64};

use guest_module::{SharedModule, claim};
use std::alloc::{AllocError, Global};
use wasm_types::{
    Export, ExportDesc, Func, FuncType, Import, ImportDesc, Instr, Limits, Module, ValType,
};

const ME: u32 = 0;

const SEND: u32 = 1;

const RECV: u32 = 2;

const START: u32 = 3;

fn eqz() -> Instr
    ensures { tree result ≡ eqz }
{
    Instr::Op(0x45)
}

fn add_32() -> Instr
    ensures { tree result ≡ add_32 }
{
    Instr::Op(0x6a)
}

fn and_32() -> Instr
    ensures { tree result ≡ and_32 }
{
    Instr::Op(0x71)
}

fn add_64() -> Instr
    ensures { tree result ≡ add_64 }
{
    Instr::Op(0x7c)
}

fn load_64() -> Instr
    ensures { tree result ≡ load_64 }
{
    Instr::Load {
        opcode: 0x29,
        align: 3,
        offset: 0,
    }
}

fn store_64() -> Instr
    ensures { tree result ≡ store_64 }
{
    Instr::Store {
        opcode: 0x37,
        align: 3,
        offset: 0,
    }
}

#[tactic(auto, using(crate::proofs::Instructions::choice))]
fn if_not_zero(alloc: Global, body: Vec<Instr>) -> Instr
    ensures { tree result ≡ If None (trees body.items) End }
{
    Instr::If(None, body, Vec::new(alloc))
}

#[tactic(auto, using(crate::proofs::Instructions::repetition))]
fn again(body: Vec<Instr>) -> Instr
    ensures { tree result ≡ Loop None (trees body.items) }
{
    Instr::Loop(None, body)
}

fn ring_send_first(alloc: Global) -> Result<Vec<Instr>, AllocError>
    ensures { IfOk result (λ code. trees code.items ≡ ring_send_first) }
{
    Ok(vec![in alloc;
        Instr::ConstI32(1),
        Instr::ConstI32(64),
        Instr::ConstI32(8),
        Instr::CallFunc(SEND),
        Instr::DropTop,
    ]?)
}

fn ring_hand_on(alloc: Global) -> Result<Vec<Instr>, AllocError>
    ensures { IfOk result (λ code. trees code.items ≡ ring_hand_on) }
{
    Ok(vec![in alloc;
        Instr::ConstI32(64),
        Instr::ConstI32(8),
        Instr::ConstI32(32),
        Instr::CallFunc(RECV),
        Instr::DropTop,
        Instr::ConstI32(64),
        Instr::ConstI32(64),
        load_64(),
        Instr::ConstI64(1),
        add_64(),
        store_64(),
        Instr::ConstI32(1024),
        Instr::ConstI32(1024),
        load_64(),
        Instr::ConstI64(1),
        add_64(),
        store_64(),
        Instr::LocalGet(0),
        Instr::ConstI32(1),
        add_32(),
        Instr::ConstI32(3),
        and_32(),
        Instr::ConstI32(64),
        Instr::ConstI32(8),
        Instr::CallFunc(SEND),
        Instr::DropTop,
        Instr::Br(0),
    ]?)
}

fn body(alloc: Global) -> Result<Vec<Instr>, AllocError>
    ensures { IfOk result (λ code. trees code.items ≡ ring_body) }
{
    let first = if_not_zero(alloc, ring_send_first(alloc)?);
    let rounds = again(ring_hand_on(alloc)?);
    Ok(vec![in alloc;
        Instr::CallFunc(ME),
        Instr::LocalSet(0),
        Instr::LocalGet(0),
        eqz(),
        first,
        rounds,
    ]?)
}

fn types(alloc: Global) -> Result<Vec<FuncType>, AllocError>
    ensures { IfOk result (λ types. map func_type types.items ≡ ring_types) }
{
    let none_to_one = FuncType {
        params: Vec::new(alloc),
        results: vec![in alloc; ValType::I32]?,
    };
    let three_to_one = FuncType {
        params: vec![in alloc; ValType::I32, ValType::I32, ValType::I32]?,
        results: vec![in alloc; ValType::I32]?,
    };
    let none_to_none = FuncType {
        params: Vec::new(alloc),
        results: Vec::new(alloc),
    };
    Ok(vec![in alloc; none_to_one, three_to_one, none_to_none]?)
}

fn library_call(alloc: Global, name: &[u8], type_index: u32) -> Result<Import, AllocError>
    ensures { IfOk result (λ i. import_of i ≡ library_call name.now type_index) }
{
    Ok(Import {
        module: Vec::from_slice(alloc, b"liblog")?,
        name: Vec::from_slice(alloc, name)?,
        desc: ImportDesc::Func(type_index),
    })
}

fn imports(alloc: Global) -> Result<Vec<Import>, AllocError>
    ensures { IfOk result (λ imports. map import_of imports.items ≡ ring_module.imports) }
{
    let me = library_call(alloc, b"me", 0)?;
    let send = library_call(alloc, b"send", 1)?;
    let recv = library_call(alloc, b"recv", 1)?;
    Ok(vec![in alloc; me, send, recv]?)
}

fn start(alloc: Global) -> Result<Func, AllocError>
    ensures { IfOk result (λ f. map func (f ∷ []) ≡ ring_module.funcs) }
{
    Ok(Func {
        type_index: 2,
        locals: vec![in alloc; (1, ValType::I32)]?,
        body: body(alloc)?,
    })
}

fn ring_module(alloc: Global) -> Result<Module, AllocError>
    ensures { IfOk result (λ m. module_of m ≡ ring_module) }
{
    let page = Limits {
        min: 1,
        max: Some(1),
    };
    let export = Export {
        name: Vec::from_slice(alloc, b"_start")?,
        desc: ExportDesc::Func(START),
    };
    Ok(Module {
        types: types(alloc)?,
        imports: imports(alloc)?,
        funcs: vec![in alloc; start(alloc)?]?,
        tables: Vec::new(alloc),
        mems: vec![in alloc; page]?,
        globals: Vec::new(alloc),
        exports: vec![in alloc; export]?,
        start: None,
        elems: Vec::new(alloc),
        segments: Vec::new(alloc),
    })
}

fn valid_ring(alloc: Global) -> Result<SharedModule, AllocError>
    ensures { IfOk result (λ m. module_of m ≡ ring_module) }
{
    wasm_validate::laws::exact_fault();
    SharedModule::new(alloc, claim(alloc, ring_module(alloc)?)?)
}

/// The modules of the group, which are one.
pub(crate) fn modules(alloc: Global) -> Result<Vec<SharedModule>, AllocError>
    ensures { IfOk result (λ modules. map module_of modules.items ≡ drill_modules) }
{
    let n0 = valid_ring(alloc)?;
    let n1 = n0.share()?;
    let n2 = n0.share()?;
    let n3 = n0.share()?;
    Ok(vec![in alloc; n0, n1, n2, n3]?)
}
