// A module and its parts (WebAssembly 1.0, section 2.5). Indices count from 0, and those of
// functions, tables, memories and globals count the imports first.
use crate::code::{Instr, ValType};

/// The types of a function's parameters and results.
#[derive(Debug, Drop)]
pub struct FuncType {
    pub params: Vec<ValType>,
    pub results: Vec<ValType>,
}

/// The sizes that a memory or a table may have: a memory's in pages, a table's in elements.
#[derive(Clone, Copy, Debug, Drop)]
pub struct Limits {
    pub min: u32,
    pub max: Option<u32>,
}

/// What is imported: a function of the type with this index, a table, a memory, or a global with its
/// type and whether it is mutable.
#[derive(Clone, Copy, Debug, Drop)]
pub enum ImportDesc {
    Func(u32),
    Table(Limits),
    Memory(Limits),
    Global(ValType, bool),
}

/// An import. The names are UTF-8.
#[derive(Debug, Drop)]
pub struct Import {
    pub module: Vec<u8>,
    pub name: Vec<u8>,
    pub desc: ImportDesc,
}

/// A function of the module: its type's index, its locals apart from the parameters, each a count and a
/// type, and its body without the last `end`.
#[derive(Debug, Drop)]
pub struct Func {
    pub type_index: u32,
    pub locals: Vec<(u32, ValType)>,
    pub body: Vec<Instr>,
}

/// A global of the module, and the expression that gives it its first value.
#[derive(Debug, Drop)]
pub struct GlobalDef {
    pub kind: ValType,
    pub mutable: bool,
    pub init: Vec<Instr>,
}

/// What is exported, by its index.
#[derive(Clone, Copy, Debug, Drop)]
pub enum ExportDesc {
    Func(u32),
    Table(u32),
    Memory(u32),
    Global(u32),
}

/// An export. The name is UTF-8.
#[derive(Debug, Drop)]
pub struct Export {
    pub name: Vec<u8>,
    pub desc: ExportDesc,
}

/// An element segment: the functions that a table holds from the offset on.
#[derive(Debug, Drop)]
pub struct Elem {
    pub table: u32,
    pub offset: Vec<Instr>,
    pub funcs: Vec<u32>,
}

/// A data segment: the bytes that a memory holds from the offset on.
#[derive(Debug, Drop)]
pub struct Segment {
    pub memory: u32,
    pub offset: Vec<Instr>,
    pub bytes: Vec<u8>,
}

/// A module.
#[derive(Debug, Drop)]
pub struct Module {
    pub types: Vec<FuncType>,
    pub imports: Vec<Import>,
    pub funcs: Vec<Func>,
    pub tables: Vec<Limits>,
    pub mems: Vec<Limits>,
    pub globals: Vec<GlobalDef>,
    pub exports: Vec<Export>,
    /// The index of the function that runs first.
    pub start: Option<u32>,
    pub elems: Vec<Elem>,
    pub segments: Vec<Segment>,
}
