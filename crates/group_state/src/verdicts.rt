// The verdict on one log of a group.
ghost use Rattle.std.specs.Prelude.{◌≡◌, length, map, slice_get};
ghost use Rattle.group_state.specs.inside.At.{IsSoundCourse};
ghost use Rattle.group_state.specs.Place.{events_of_replays};
ghost use Rattle.group_state.specs.Report.{verdict_on};

use crate::group::{Course, Group};
use crate::one_replay::verdict;
use guest_process::Verdict;
use lib_calls::Entry;

impl<'m, 'a> Group<'m, 'a> {
    /// The verdict on a node's log, of a group at its end: there each log has been replayed to its first entry that is not
    /// legal, or to its end. None comes exactly where there is no such node.
    pub fn verdict(&self, node: u32) -> Option<Verdict>
        requires { self.now.at ≡ length (events_of_replays self.now.start) }
        ensures { result ≡ slice_get (map verdict_on self.now.start) node }
    {
        self.course().verdict(node)
    }
}

impl<'m, 'a> Course<'m, 'a> {
    fn verdict(&self, node: u32) -> Option<Verdict>
        requires sound { IsSoundCourse self.now }
        requires end { self.now.here.at ≡ length (events_of_replays self.now.start.items) }
        ensures { result ≡ slice_get (map verdict_on self.now.start.items) node }
    {
        group_order::laws::merges::<Entry>();
        proc_replay::laws::replays();
        guest_process::laws::rises();
        guest_process::laws::states_fit();
        let replayer = self.here.replayers.get(node as usize)?;
        Some(verdict(replayer))
    }
}
