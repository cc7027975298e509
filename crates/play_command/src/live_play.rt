// A play: a group, and where it stands.
ghost use Rattle.std.specs.Prelude.{map};
ghost use Rattle.wasm_types.specs.Modules.{module_of};
ghost use Rattle.play_command.specs.inside.Playing.{IsPlaying};

use crate::told::Told;
use fri_bytes::Bytes;
use group_record::LiveGroup;
use guest_module::SharedModule;
use schedule_text::Schedule;

/// A group that goes on by the items so far, how often these try, whether a log is full, and what was said last: `usual`, or
/// else the text of `told`.
#[derive(Drop)]
pub(crate) struct Play<'m> {
    pub(crate) schedule: &'m Schedule,
    pub(crate) modules: &'m [SharedModule],
    pub(crate) names: Vec<Bytes>,
    /// The entry of the event that was made last.
    pub(crate) bytes: Vec<u8>,
    pub(crate) live: LiveGroup<'m>,
    pub(crate) tries: u64,
    pub(crate) full: bool,
    pub(crate) told: Told,
    pub(crate) usual: Option<&'static str>,
}

/// A play whose group stands in a run.
#[derive(Drop)]
pub(crate) struct Playing<'m> {
    // Behind a box, since it is moved at each line.
    pub(crate) play: Box<Play<'m>>,
    ghost playing: { IsPlaying play.value.schedule.now (map module_of play.value.modules.now) play.value.names.items play.value.live play.value.tries },
}
