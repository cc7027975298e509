// How a module begins: its globals, its table and its memory.
ghost use Rattle.std.specs.Prelude.{◌≡◌, ◌+◌, ◌≤◌, IfOk, IsTrue, OnOk, None, length, map, nat_le, replicate, slice_get};
ghost use Rattle.std.specs.List.{list_all};
ghost use Rattle.guest_memory.specs.Limits.{most_pages};
ghost use Rattle.guest_memory.specs.Memory.{fresh_memory};
ghost use Rattle.wasm_types.specs.Code.{tree, trees};
ghost use Rattle.wasm_types.specs.Modules.{elem, global_def, module_of, segment as segment_of};
ghost use Rattle.wasm_store.specs.Start.{constant, first_min, first_most, initial_value, initial_store, is_elem_inside, is_segment_within, offset_at, offset_in, put_elems, put_funcs, put_segments, segments_fit};
ghost use Rattle.wasm_store.specs.inside.Begun.{first_globals, first_values, store_begun_so};

use crate::global::Global;
use guest_memory::{MOST_PAGES, Memory};
use guest_module::ValidModule;
use std::alloc::{AllocError, Global as Heap};
use wasm_types::{Elem, GlobalDef, Instr, Limits, Module, Segment, Value, zero_of};
use wasm_values::bits;

/// How many bytes a page of memory has.
const MEMORY_PAGE: u64 = 65_536;

// Whether so many places from this one on are among the first `len`.
fn is_within(at: u64, count: u64, len: u64) -> bool
    ensures { result ≡ nat_le (at + count) len }
{
    at <= len && count <= len - at
}

/// The globals with their first values, which no event has set.
fn first_globals(alloc: Heap, globals: &[GlobalDef]) -> Result<Vec<Global>, AllocError>
    ensures { IfOk result (λ first. first.items ≡ first_globals globals.now) }
{
    let mut first = Vec::new(alloc);
    for global in globals {
        first.push(Global {
            value: initial_value(global),
            stamp: 0,
        })?;
    }
    Ok(first)
}

fn initial_value(global: &GlobalDef) -> Value
    ensures { result ≡ initial_value (global_def global.now) }
{
    let otherwise = zero_of(global.kind);
    match global.init.as_slice() {
        [instr] => constant(instr, otherwise),
        _ => otherwise,
    }
}

fn constant(instr: &Instr, otherwise: Value) -> Value
    ensures { result ≡ constant (tree instr.now) otherwise }
{
    match instr {
        Instr::ConstI32(bits) => Value::I32(*bits),
        Instr::ConstI64(bits) => Value::I64(*bits),
        _ => otherwise,
    }
}

fn first_value(globals: &[GlobalDef], index: usize) -> Option<Value>
    ensures { result ≡ slice_get (first_values globals.now) index }
{
    let Some(global) = globals.get(index) else {
        return None;
    };
    Some(initial_value(global))
}

fn offset_at(globals: &[GlobalDef], instr: &Instr) -> u64
    ensures { result ≡ offset_at (first_values globals.now) (tree instr.now) }
{
    match instr {
        Instr::ConstI32(bits) => u64::from(*bits),
        Instr::GlobalGet(x) => bits(first_value(globals, *x as usize)),
        _ => 0,
    }
}

/// Where a segment begins. A global that it names has its first value there, so none has to be made yet.
fn offset_in(globals: &[GlobalDef], offset: &[Instr]) -> u64
    ensures { result ≡ offset_in (first_values globals.now) (trees offset.now) }
{
    match offset {
        [instr] => offset_at(globals, instr),
        _ => 0,
    }
}

/// The table, all of whose places are empty.
fn empty_table(alloc: Heap, tables: &[Limits]) -> Result<Vec<Option<u32>>, AllocError>
    ensures { IfOk result (λ table. table.items ≡ replicate (first_min tables.now) None) }
{
    vec![in alloc; None; first_min(tables) as usize]
}

fn first_min(limits: &[Limits]) -> u32
    ensures { result ≡ first_min limits.now }
{
    match limits {
        [] => 0,
        [first, ..] => first.min,
    }
}

fn is_elem_inside(globals: &[GlobalDef], len: u64, segment: &Elem) -> bool
    ensures { result ≡ is_elem_inside (first_values globals.now) len (elem segment.now) }
{
    let at = offset_in(globals, &segment.offset);
    is_within(at, segment.funcs.len() as u64, len)
}

fn are_elems_inside(globals: &[GlobalDef], len: u64, segments: &[Elem]) -> bool
    ensures { result ≡ list_all (is_elem_inside (first_values globals.now) len) (map elem segments.now) }
{
    for segment in segments {
        if !is_elem_inside(globals, len, segment) {
            return false;
        }
    }
    true
}

fn is_segment_within(globals: &[GlobalDef], len: u64, segment: &Segment) -> bool
    ensures { result ≡ is_segment_within (first_values globals.now) len (segment_of segment.now) }
{
    let at = offset_in(globals, &segment.offset);
    is_within(at, segment.bytes.len() as u64, len)
}

fn are_segments_within(globals: &[GlobalDef], len: u64, segments: &[Segment]) -> bool
    ensures { result ≡ list_all (is_segment_within (first_values globals.now) len) (map segment_of segments.now) }
{
    for segment in segments {
        if !is_segment_within(globals, len, segment) {
            return false;
        }
    }
    true
}

/// Whether all segments lie in the table and the memory. It takes no memory.
pub(crate) fn segments_fit(module: &Module) -> bool
    ensures { result ≡ segments_fit (module_of «module».now) }
{
    let places = u64::from(first_min(&module.tables));
    let bytes = u64::from(first_min(&module.mems)) * MEMORY_PAGE;
    are_elems_inside(&module.globals, places, &module.elems)
        && are_segments_within(&module.globals, bytes, &module.segments)
}

/// Writes the functions into the places of the table from this one on.
fn put_funcs(table: &mut [Option<u32>], at: usize, funcs: &[u32])
    requires { at + length funcs.now ≤ length table.old }
    ensures { table.new ≡ put_funcs table.old at funcs.now }
{
    for i in 0..funcs.len() {
        table[at + i] = Some(funcs[i]);
    }
}

/// Writes the segments into the table, in which all of them lie.
fn put_elems(globals: &[GlobalDef], table: &mut [Option<u32>], segments: &[Elem])
    requires { IsTrue (list_all (is_elem_inside (first_values globals.now) (length table.old)) (map elem segments.now)) }
    ensures { table.new ≡ put_elems (first_values globals.now) (map elem segments.now) table.old }
{
    for segment in segments {
        let at = offset_in(globals, &segment.offset);
        put_funcs(table, at as usize, &segment.funcs);
    }
}

/// Writes the segments into the memory.
fn put_segments(
    globals: &[GlobalDef],
    memory: &mut Memory,
    segments: &[Segment],
) -> Result<(), AllocError>
    ensures { OnOk result (memory.new ≡ put_segments (first_values globals.now) (map segment_of segments.now) memory.old) }
{
    for segment in segments {
        let at = offset_in(globals, &segment.offset);
        memory.write(at, &segment.bytes)?;
    }
    Ok(())
}

/// The memory without its segments.
fn empty_memory(alloc: Heap, mems: &[Limits]) -> Result<Memory, AllocError>
    requires { first_min mems.now ≤ first_most mems.now }
    ensures { IfOk result (λ memory. memory ≡ fresh_memory (first_min mems.now) (first_most mems.now)) }
{
    let memory = Memory::new(alloc, first_min(mems), first_most(mems))?;
    Ok(memory)
}

// The most pages of the first memory.
fn first_most(limits: &[Limits]) -> u32
    ensures most { result ≡ first_most limits.now }
    ensures within { result ≤ most_pages }
{
    match limits {
        [] => 0,
        [first, ..] => match first.max {
            None => MOST_PAGES,
            Some(max) => max.min(MOST_PAGES),
        },
    }
}

/// What a store begins with, but for its module.
#[derive(Drop)]
pub(crate) struct Begun {
    pub memory: Memory,
    pub globals: Vec<Global>,
    pub table: Vec<Option<u32>>,
}

/// What the threads of a module share at first.
pub(crate) fn begin(alloc: Heap, module: &ValidModule) -> Result<Begun, AllocError>
    requires { IsTrue (segments_fit (module_of «module».now)) }
    ensures { IfOk result (λ begun. store_begun_so (module_of «module».now) begun ≡ initial_store (module_of «module».now)) }
{
    let inner = module.module();
    let globals = first_globals(alloc, &inner.globals)?;
    let mut table = empty_table(alloc, &inner.tables)?;
    let mut memory = empty_memory(alloc, &inner.mems)?;
    put_elems(&inner.globals, &mut table, &inner.elems);
    put_segments(&inner.globals, &mut memory, &inner.segments)?;
    Ok(Begun {
        memory,
        globals,
        table,
    })
}
