// The modules of files that a call read, each of which is kept once.
ghost use Rattle.std.specs.Prelude.{◌≡◌, ◌++◌, ℕ, [], List, IfErr, IfNone, IfOk, IfSome, IsTrue, Ok, OnErr, OnOk, Option, false};
ghost use Rattle.fri_outside.specs.Outside.{Folder, WhenTold};
ghost use Rattle.wasm_types.specs.Modules.{module_of as shown};
ghost use Rattle.command_run.specs.Asked.{AsksAll, AsksFirst, kept_names, unless_named};
ghost use Rattle.command_run.specs.Call.{CountsFaults, RaisesCount, TellsResult};
ghost use Rattle.command_run.specs.Inputs.{module_in};
ghost use Rattle.command_run.specs.inside.Taking.{AddsFile};
ghost use Rattle.command_run.specs.Kept.{AreOfFiles, has_file};

use crate::inputs::take_module;
use crate::refusal::StopCause;
use fri_outside::Files;
use guest_module::SharedModule;
use std::alloc::{AllocError, Global};

/// A module, and the name of its file.
#[derive(Drop)]
pub(crate) struct ModuleFile {
    pub(crate) name: String,
    pub(crate) module: SharedModule,
}

/// The modules of the files that were read, each with the name of its file.
pub struct ModuleFiles {
    pub(crate) kept: Vec<ModuleFile>,
}

// By hand, so that it is proved here, and not in each crate that owns one.
impl Drop for ModuleFiles {
    fn drop(self) {
        let Self { kept: _kept } = self;
    }
}

impl ModuleFiles {
    /// Nothing was read.
    pub fn new(alloc: Global) -> ModuleFiles
        ensures none { (told : Option Folder) → AreOfFiles told result }
        ensures unnamed { kept_names result ≡ [] }
    {
        ModuleFiles {
            kept: Vec::new(alloc),
        }
    }

    // The module that is kept of the file of this name.
    fn get(&self, name: &str) -> Option<&SharedModule>
        ensures found { IfSome result (λ m. (told : Option Folder) → AreOfFiles told self.now
            → WhenTold told (λ folder. module_in folder name.now ≡ Ok (shown m.now))) }
        ensures some { IfSome result (λ _. IsTrue (has_file self.now name.now)) }
        ensures none { IfNone result (has_file self.now name.now ≡ false) }
    {
        let file = self.kept.iter().find(|file| file.name.as_str() == name)?;
        Some(&file.module)
    }

    // Keeps the module of a file.
    fn keep(&mut self, alloc: Global, name: &str, module: &SharedModule) -> Result<(), AllocError>
        ensures added { OnOk result (AddsFile self.old self.new name.now «module».now) }
        ensures unchanged { OnErr result (self.new.kept.items ≡ self.old.kept.items) }
    {
        let name = String::from_str(alloc, name)?;
        let module = module.share()?;
        self.kept.push(ModuleFile { name, module })?;
        Ok(())
    }

    /// The module of the file of this name. It is kept, and the file is read the first time alone.
    pub fn take<F: Files>(
        &mut self,
        alloc: Global,
        name: &str,
        files: &mut F,
    ) -> Result<SharedModule, StopCause>
        requires { AreOfFiles (F.told files.old) self.old }
        ensures answer { WhenTold (F.told files.old) (λ folder. TellsResult shown (module_in folder name.now) result) }
        ensures once { IsTrue (has_file self.old name.now) → files.new ≡ files.old }
        ensures read { IfOk result (λ _. IsTrue (has_file self.new name.now)) }
        ensures keeps { (other : List ℕ) → IsTrue (has_file self.old other) → IsTrue (has_file self.new other) }
        ensures kept { AreOfFiles (F.told files.old) self.new }
        ensures same { F.told files.new ≡ F.told files.old }
        ensures counts { CountsFaults (F.counts files.old) (F.counts files.new) result }
        ensures asks { AsksFirst (unless_named (kept_names self.old) name.now) (F.counts files.old) (F.counts files.new) }
        ensures asks_all { OnOk result (AsksAll (unless_named (kept_names self.old) name.now) (F.counts files.old) (F.counts files.new)) }
        ensures named { OnOk result (kept_names self.new ≡ kept_names self.old ++ unless_named (kept_names self.old) name.now) }
        ensures cause { IfErr result (RaisesCount (F.counts files.old) (F.counts files.new)) }
    {
        if let Some(module) = self.get(name) {
            return Ok(module.share()?);
        }
        let module = SharedModule::new(alloc, take_module(alloc, name, files)?)?;
        self.keep(alloc, name, &module)?;
        Ok(module)
    }
}
