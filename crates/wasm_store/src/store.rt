// What the threads of a module share: its memory, its globals and its table.
ghost use Rattle.std.specs.Prelude.{◌≡◌, ◌↔◌, Err, IfOk, None, OnErr, OnOk, Some, length, nat_lt, if◌then◌else◌, slice_get};
ghost use Rattle.std.specs.Borrow.{sem};
ghost use Rattle.guest_memory.specs.Memory.{WritesPrefix, after_store, growth_size, is_inside};
ghost use Rattle.guest_memory.specs.LittleEndian.{IsWidth, low_bytes};
ghost use Rattle.wasm_types.specs.Modules.{module_of};
ghost use Rattle.wasm_store.specs.Suits.{SuitsModule};
ghost use Rattle.wasm_store.specs.Start.{first_store};
ghost use Rattle.wasm_store.specs.Store.{func_in_table, global_stamp_of, handler_at, with_global, with_growth};
ghost use Rattle.wasm_store.specs.Lending.{LendsMemory};

use crate::global::Global;
use crate::handler::is_handler;
use crate::start::{begin, segments_fit};
use guest_memory::Memory;
use guest_module::ValidModule;
use std::alloc::{AllocError, Global as Heap};
use std::marker::Model;
use wasm_types::{Module, Value};

/// A module's memory, its globals and its table, with the numbers of the events that last set each global and
/// made the memory larger.
pub struct Store<'m> {
    module: &'m ValidModule,
    memory: Memory,
    globals: Vec<Global>,
    table: Vec<Option<u32>>,
    size_stamp: u64,
}

// By hand, so that it is proved here, and not in each crate that owns one.
impl Drop for Store<'_> {
    fn drop(self) {
        let Self {
            module: _module,
            memory: _memory,
            globals: _globals,
            table: _table,
            size_stamp: _size_stamp,
        } = self;
    }
}

impl<'m> Model for Store<'m> {
    ghost use Rattle.std.specs.Coded.{codes};
    ghost use Rattle.wasm_types.specs.Coding.{trees_code};
    ghost use Rattle.wasm_store.specs.inside.Globals.{stamps_of_globals, values_of_globals};
    ghost use Rattle.wasm_store.specs.Store.{Store};

    ghost Value = { Store };

    ghost coded = { Prim.hlevel (codes, trees_code) };

    ghost use Rattle.wasm_types.specs.Modules.{module_of};

    ghost view = { λ s. record { «module» = module_of s.«module».now; memory = s.memory; globals = values_of_globals s.globals.items; global_stamps = stamps_of_globals s.globals.items; table = s.table.items; size_stamp = s.size_stamp } };
}

/// Why a module does not begin.
#[derive(Clone, Copy, Drop)]
pub enum StartError {
    /// A segment ends past the table or the memory.
    BadSegment,
    NoMemory,
}

impl<'m> Store<'m> {
    /// What the threads of a module share at first. `BadSegment` comes exactly where an element segment
    /// ends past the table or a data segment past the memory, and is found without memory.
    pub fn start(alloc: Heap, module: &'m ValidModule) -> Result<Store<'m>, StartError>
        ensures ok { IfOk result (λ g. first_store (module_of «module».now) ≡ Some g) }
        ensures suits { IfOk result (λ g. SuitsModule g) }
        ensures same_module { IfOk result (λ g. g.«module» ≡ module_of «module».now) }
        ensures bad { (result ≡ Err StartError.BadSegment) ↔ (first_store (module_of «module».now) ≡ None) }
    {
        if !segments_fit(module.module()) {
            return Err(StartError::BadSegment);
        }
        match begin(alloc, module) {
            Ok(begun) => Ok(Store {
                module,
                memory: begun.memory,
                globals: begun.globals,
                table: begun.table,
                size_stamp: 0,
            }),
            Err(AllocError) => Err(StartError::NoMemory),
        }
    }

    /// An equal store. Its memory shares each page with this one's until one of them writes to it.
    pub fn copy(&self) -> Result<Store<'m>, AllocError>
        ensures { IfOk result (λ g. g ≡ self.now) }
    {
        Ok(Store {
            module: self.module,
            memory: self.memory.snapshot()?,
            globals: self.globals.clone()?,
            table: self.table.clone()?,
            size_stamp: self.size_stamp,
        })
    }

    /// The memory, to be written. Its maximum is to be left as it is.
    #[inline]
    pub fn memory_mut(&mut self) -> &mut Memory
        ensures* lends { sem 𝓛 (LendsMemory self.entry result) }
        ensures value { result.now ≡ self.old.memory }
    {
        &mut self.memory
    }

    /// The module.
    #[inline]
    pub fn module(&self) -> &'m Module
        ensures { module_of result.now ≡ self.now.«module» }
    {
        self.module.module()
    }

    /// The memory, which is empty where the module has none.
    #[inline]
    pub fn memory(&self) -> &Memory
        ensures { result.now ≡ self.now.memory }
    {
        &self.memory
    }

    /// The value of a global. `None` comes exactly where the module has no global of that index.
    #[inline]
    pub fn global(&self, n: u32) -> Option<Value>
        ensures { result ≡ slice_get self.now.globals n }
    {
        let global = self.globals.get(n as usize)?;
        Some(global.value)
    }

    /// The number of the last event that set the global. It is 0 where none did, and where there is no such
    /// global.
    pub fn global_stamp(&self, n: u32) -> u64
        ensures { result ≡ global_stamp_of self.now n }
    {
        match self.globals.get(n as usize) {
            Some(global) => global.stamp,
            None => 0,
        }
    }

    /// The number of the last event that made the memory larger, or 0.
    pub fn size_stamp(&self) -> u64
        ensures { result ≡ self.now.size_stamp }
    {
        self.size_stamp
    }

    /// What the table holds at this place.
    #[inline]
    pub fn element(&self, index: u32) -> Option<Option<u32>>
        ensures { result ≡ slice_get self.now.table index }
    {
        self.table.get(index as usize).copied()
    }

    /// The index of the function that the table holds at this place. `None` comes exactly where the
    /// place lies outside the table or is empty.
    pub fn table_func(&self, index: u32) -> Option<u32>
        ensures { result ≡ func_in_table (slice_get self.now.table index) }
    {
        match self.element(index) {
            Some(func) => func,
            None => None,
        }
    }

    /// The index of the function that the table holds at this place, where it can begin a thread or
    /// handle a signal: the module itself defines it, with one parameter of 32 bits and no result.
    pub fn handler_at(&self, index: u32) -> Option<u32>
        ensures { result ≡ handler_at self.now index }
    {
        let func = self.table_func(index)?;
        if is_handler(self.module.module(), func) {
            Some(func)
        } else {
            None
        }
    }

    /// A new value of a global, if there is one of that index, by the event that writes now.
    #[inline]
    pub fn set_global(&mut self, n: usize, v: Value) -> bool
        ensures is { result ≡ nat_lt n (length self.old.globals) }
        ensures new { self.new ≡ (if result then with_global self.old n v else self.old) }
    {
        if n >= self.globals.len() {
            return false;
        }
        self.globals[n] = Global {
            value: v,
            stamp: self.memory.number(),
        };
        true
    }

    /// Writes so many bytes of the number, if they lie in the memory.
    #[inline(always)]
    pub fn write(&mut self, addr: u64, width: u32, bits: u64) -> Result<bool, AllocError>
        requires { IsWidth width }
        ensures is { IfOk result (λ is_in. is_in ≡ is_inside self.old.memory addr width) }
        ensures new { OnOk result (self.new ≡ record self.old { memory = after_store self.old.memory addr width bits }) }
        ensures err { OnErr result (WritesPrefix self.old.memory self.new.memory addr (low_bytes width bits)) }
        ensures rest { OnErr result (self.new ≡ record self.old { memory = self.new.memory }) }
    {
        let is_in = self.memory.store(addr, width, bits)?;
        Ok(is_in)
    }

    /// What is written, set or added from now on is the work of the event of this number.
    #[inline]
    pub fn begin_event(&mut self, number: u64)
        ensures { self.new ≡ record self.old { memory = record self.old.memory { number = number } } }
    {
        self.memory.begin_event(number);
    }

    /// More pages, if the maximum allows them, and the number of pages before. With none, the size bears no
    /// new stamp.
    #[inline]
    pub fn grow(&mut self, pages: u32) -> Result<Option<u32>, AllocError>
        ensures before { IfOk result (λ before. before ≡ growth_size self.old.memory pages) }
        ensures new { OnOk result (self.new ≡ with_growth self.old pages) }
        ensures err { OnErr result (self.new ≡ self.old) }
    {
        let before = self.memory.grow(pages)?;
        if pages > 0 && before.is_some() {
            self.size_stamp = self.memory.number();
        }
        Ok(before)
    }
}
