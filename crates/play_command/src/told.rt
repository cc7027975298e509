// What is told of items as they are done.
ghost use Rattle.std.specs.Prelude.{◌≡◌, ◌+◌, ◌-◌, ◌<◌, ◌^◌, [], true, OnOk};
ghost use Rattle.lib_calls.specs.Entry.{entry_of};
ghost use Rattle.play_command.specs.inside.Playing.{told_event};

use fri_text::Text;
use group_text::push_event_of;
use lib_calls::EntryView;
use std::alloc::{AllocError, Global};

/// The lines of the events of some items, if they are told, and how many tries and items acted and were idle.
#[derive(Drop)]
pub(crate) struct Told {
    pub(crate) text: Text,
    pub(crate) tells: bool,
    pub(crate) acted: u64,
    pub(crate) idle: u64,
}

impl Told {
    /// Nothing is told yet.
    pub(crate) fn new(alloc: Global, tells: bool) -> Told
        ensures text { result.text ≡ [] }
        ensures tells { result.tells ≡ tells }
        ensures acted { result.acted ≡ 0 }
        ensures idle { result.idle ≡ 0 }
    {
        Told {
            text: Text::new(alloc),
            tells,
            acted: 0,
            idle: 0,
        }
    }

    /// Begins to tell anew. The room of the text is kept.
    pub(crate) fn restart(&mut self)
        ensures text { self.new.text ≡ [] }
        ensures tells { self.new.tells ≡ true }
        ensures acted { self.new.acted ≡ 0 }
        ensures idle { self.new.idle ≡ 0 }
    {
        self.text.clear();
        self.tells = true;
        self.acted = 0;
        self.idle = 0;
    }

    /// Tells an event of the process with this name.
    pub(crate) fn event(&mut self, name: &[u8], entry: &EntryView<'_>) -> Result<(), AllocError>
        requires { self.old.acted + self.old.idle < 2 ^ 64 - 1 }
        ensures { OnOk result (self.new ≡ told_event self.old name.now (entry_of entry.now)) }
    {
        self.acted += 1;
        if !self.tells {
            return Ok(());
        }
        push_event_of(&mut self.text, name, entry)?;
        self.text.push_str("\n")
    }
}
