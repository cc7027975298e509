// Imports, exports, globals and segments (WebAssembly 1.0, sections 5.5.5 to 5.5.14).
ghost use Rattle.std.specs.Prelude.{◌≡◌};
ghost use Rattle.wasm_types.specs.Modules.{import_of, export, global_def, elem, segment};
ghost use Rattle.wasm_decode.specs.inside.Decoding.{DecodesTo};
ghost use Rattle.wasm_decode.specs.Entries.{imported_at, import_desc_at, import_at, exported_of, export_desc_at, export_at, global_def_at, elem_at, segment_at};

use crate::error::DecodeError;
use crate::instructions::expression;
use crate::numbers::{byte, number};
use crate::types::{global_type, limits, table};
use crate::vectors::{Entry, IndexEntry, byte_vector, utf8_name, vector};
use fri_bytes::Cursor;
use std::alloc::Global;
use wasm_types::{Elem, Export, ExportDesc, GlobalDef, Import, ImportDesc, Segment};

#[tactic(auto, unfolding(crate::specs::Entries::import_desc_at, crate::specs::Entries::imported_at))]
fn import_desc(cursor: &mut Cursor) -> Result<ImportDesc, DecodeError>
    ensures { DecodesTo (λ desc. desc) result cursor.new (import_desc_at cursor.old.left) }
{
    match byte(cursor)? {
        0x00 => Ok(ImportDesc::Func(number(cursor)?)),
        0x01 => Ok(ImportDesc::Table(table(cursor)?)),
        0x02 => Ok(ImportDesc::Memory(limits(cursor)?)),
        0x03 => {
            let (value_type, mutable) = global_type(cursor)?;
            Ok(ImportDesc::Global(value_type, mutable))
        }
        _ => Err(DecodeError::Malformed),
    }
}

#[tactic(auto, unfolding(crate::specs::Entries::import_at))]
fn import(alloc: Global, cursor: &mut Cursor) -> Result<Import, DecodeError>
    ensures { DecodesTo import_of result cursor.new (import_at cursor.old.left) }
{
    let module = Vec::from_slice(alloc, utf8_name(cursor)?)?;
    let name = Vec::from_slice(alloc, utf8_name(cursor)?)?;
    let desc = import_desc(cursor)?;
    Ok(Import { module, name, desc })
}

#[tactic(auto, unfolding(crate::specs::Entries::export_desc_at, crate::specs::Entries::exported_of))]
fn export_desc(cursor: &mut Cursor) -> Result<ExportDesc, DecodeError>
    ensures { DecodesTo (λ desc. desc) result cursor.new (export_desc_at cursor.old.left) }
{
    let byte = byte(cursor)?;
    let index = number(cursor)?;
    match byte {
        0x00 => Ok(ExportDesc::Func(index)),
        0x01 => Ok(ExportDesc::Table(index)),
        0x02 => Ok(ExportDesc::Memory(index)),
        0x03 => Ok(ExportDesc::Global(index)),
        _ => Err(DecodeError::Malformed),
    }
}

#[tactic(auto, unfolding(crate::specs::Entries::export_at))]
fn export(alloc: Global, cursor: &mut Cursor) -> Result<Export, DecodeError>
    ensures { DecodesTo export result cursor.new (export_at cursor.old.left) }
{
    let name = Vec::from_slice(alloc, utf8_name(cursor)?)?;
    let desc = export_desc(cursor)?;
    Ok(Export { name, desc })
}

#[tactic(auto, unfolding(crate::specs::Entries::global_def_at))]
fn global_def(alloc: Global, cursor: &mut Cursor) -> Result<GlobalDef, DecodeError>
    ensures { DecodesTo global_def result cursor.new (global_def_at cursor.old.left) }
{
    let (value_type, mutable) = global_type(cursor)?;
    let init = expression(alloc, cursor)?;
    Ok(GlobalDef {
        kind: value_type,
        mutable,
        init,
    })
}

#[tactic(auto, unfolding(crate::specs::Entries::elem_at))]
fn elem(alloc: Global, cursor: &mut Cursor) -> Result<Elem, DecodeError>
    ensures { DecodesTo elem result cursor.new (elem_at cursor.old.left) }
{
    let table = number(cursor)?;
    let offset = expression(alloc, cursor)?;
    let funcs = vector::<IndexEntry>(alloc, cursor)?;
    Ok(Elem {
        table,
        offset,
        funcs,
    })
}

#[tactic(auto, unfolding(crate::specs::Entries::segment_at))]
fn segment(alloc: Global, cursor: &mut Cursor) -> Result<Segment, DecodeError>
    ensures { DecodesTo segment result cursor.new (segment_at cursor.old.left) }
{
    let memory = number(cursor)?;
    let offset = expression(alloc, cursor)?;
    let bytes = Vec::from_slice(alloc, byte_vector(cursor)?)?;
    Ok(Segment {
        memory,
        offset,
        bytes,
    })
}

// What vectors of these hold.

pub(crate) struct ImportEntry;

impl Entry for ImportEntry {
    ghost use Rattle.wasm_types.specs.Modules.{Import, import_of};
    ghost use Rattle.wasm_decode.specs.Entries.{import_at};

    type Value = Import;

    ghost Shown = { Import };

    ghost view = { import_of };

    ghost read_at = { import_at };

    fn read(alloc: Global, cursor: &mut Cursor) -> Result<Import, DecodeError> {
        import(alloc, cursor)
    }
}

pub(crate) struct ExportEntry;

impl Entry for ExportEntry {
    ghost use Rattle.wasm_types.specs.Modules.{Export, export};
    ghost use Rattle.wasm_decode.specs.Entries.{export_at};

    type Value = Export;

    ghost Shown = { Export };

    ghost view = { export };

    ghost read_at = { export_at };

    fn read(alloc: Global, cursor: &mut Cursor) -> Result<Export, DecodeError> {
        export(alloc, cursor)
    }
}

pub(crate) struct GlobalEntry;

impl Entry for GlobalEntry {
    ghost use Rattle.wasm_types.specs.Modules.{GlobalDef, global_def};
    ghost use Rattle.wasm_decode.specs.Entries.{global_def_at};

    type Value = GlobalDef;

    ghost Shown = { GlobalDef };

    ghost view = { global_def };

    ghost read_at = { global_def_at };

    fn read(alloc: Global, cursor: &mut Cursor) -> Result<GlobalDef, DecodeError> {
        global_def(alloc, cursor)
    }
}

pub(crate) struct ElemEntry;

impl Entry for ElemEntry {
    ghost use Rattle.wasm_types.specs.Modules.{Elem, elem};
    ghost use Rattle.wasm_decode.specs.Entries.{elem_at};

    type Value = Elem;

    ghost Shown = { Elem };

    ghost view = { elem };

    ghost read_at = { elem_at };

    fn read(alloc: Global, cursor: &mut Cursor) -> Result<Elem, DecodeError> {
        elem(alloc, cursor)
    }
}

pub(crate) struct SegmentEntry;

impl Entry for SegmentEntry {
    ghost use Rattle.wasm_types.specs.Modules.{Segment, segment};
    ghost use Rattle.wasm_decode.specs.Entries.{segment_at};

    type Value = Segment;

    ghost Shown = { Segment };

    ghost view = { segment };

    ghost read_at = { segment_at };

    fn read(alloc: Global, cursor: &mut Cursor) -> Result<Segment, DecodeError> {
        segment(alloc, cursor)
    }
}
