// A group as expressions see it, at its position.
ghost use Rattle.std.specs.Prelude.{◌≡◌};
ghost use Rattle.group_state.specs.Nodes.{signed_global};

use crate::group::{Course, Group};
use guest_process::Process;
use lib_calls::Entry;
use page_watch::TouchView;
use wasm_types::Value;
use watch_expr::View;

/// The value of a global, as a signed number.
pub fn signed_global(value: Value) -> i64
    ensures { result ≡ signed_global value }
{
    match value {
        Value::I32(x) => i64::from(x.cast_signed()),
        Value::I64(x) => x.cast_signed(),
    }
}

impl<'m, 'a> Group<'m, 'a> {
    ghost use Rattle.std.specs.Prelude.{◌<◌, ◌^◌, Some, length, slice_get};
    ghost use Rattle.group_state.specs.Place.{states_of_nodes};

    // The process of a node that is there, of which an expression reads something.
    fn at(&self, node: u32) -> &Process<'m>
        requires { node < length (states_of_nodes self.now.start self.now.at) }
        ensures found { slice_get (states_of_nodes self.now.start self.now.at) node ≡ Some result.now }
        ensures few { result.now.events < 2 ^ 61 }
    {
        self.course().counter.count_read();
        let Some(replay) = self.replay(node) else {
            unreachable!();
        };
        let _ = replay.event_count();
        replay.process()
    }
}

impl<'m, 'a> View for Group<'m, 'a> {
    ghost use Rattle.group_state.specs.Nodes.{nodes_at};

    ghost nodes = { nodes_at };

    #[tactic(auto, using(crate::proofs::NodeViews::node_for_each))]
    fn node_count(&self) -> u32 {
        self.nodes()
    }

    fn lent(&self, node: u32, addr: u64, len: u64) -> Option<&[u8]> {
        self.at(node).memory().lent(addr, len)
    }

    fn global(&self, node: u32, n: u32) -> Option<i64> {
        Some(signed_global(self.at(node).global(n)?))
    }

    fn clock(&self, node: u32) -> i64 {
        let process = self.at(node);
        let _ = process.events();
        process.clock() as i64
    }

    fn events(&self, node: u32) -> i64 {
        self.at(node).events() as i64
    }

    fn last_thread(&self, node: u32) -> Option<i64> {
        Some(i64::from(self.at(node).last_thread()?))
    }

    fn has_ended(&self, node: u32) -> bool {
        self.at(node).has_ended()
    }

    fn pages(&self, node: u32) -> u32 {
        self.at(node).memory().size()
    }
}

impl<'m, 'a> Group<'m, 'a> {
    ghost use Rattle.std.specs.Prelude.{None, slice_get};
    ghost use Rattle.group_state.specs.Place.{GroupPlace, states_of_nodes};
    ghost use Rattle.group_state.specs.Touch.{mark_in, mark_of_place};
    ghost use Rattle.guest_process.specs.State.{State};
    ghost use Rattle.watch_expr.specs.declared.reads.Place.{Place as Location};
    ghost use Rattle.page_watch.specs.Touch.{node_of};

    // The position at which a node had its event of this number, which is that of the last event that touched a place.
    fn position_of(&self, node: u32, number: u64) -> u64
        ensures { (S : State) (l : Location) → slice_get (states_of_nodes self.now.start self.now.at) node ≡ Some S → node_of l ≡ node → number ≡ mark_in S l
            → result ≡ mark_of_place self.now.start self.now.at l }
    {
        self.course().position_of(node, number)
    }
}

impl<'m, 'a> Course<'m, 'a> {
    ghost use Rattle.std.specs.Prelude.{slice_get, Some};
    ghost use Rattle.group_state.specs.inside.At.{IsSoundCourse};
    ghost use Rattle.group_state.specs.Place.{states_of_nodes};
    ghost use Rattle.group_state.specs.Touch.{mark_in, mark_of_place};
    ghost use Rattle.guest_process.specs.State.{State};
    ghost use Rattle.watch_expr.specs.declared.reads.Place.{Place as Location};
    ghost use Rattle.page_watch.specs.Touch.{node_of};

    fn position_of(&self, node: u32, number: u64) -> u64
        requires { IsSoundCourse self.now }
        ensures { (S : State) (l : Location) → slice_get (states_of_nodes self.now.start.items self.now.here.at) node ≡ Some S → node_of l ≡ node → number ≡ mark_in S l
            → result ≡ mark_of_place self.now.start.items self.now.here.at l }
    {
        crate::laws::stepwise();
        guest_process::laws::rises();
        guest_process::laws::states_fit();
        guest_process::laws::unmarked_stays();
        self.motions.position(node, number)
    }
}

impl<'m, 'a> TouchView for Group<'m, 'a> {
    ghost use Rattle.group_state.specs.Place.{GroupPlace};
    ghost use Rattle.group_state.specs.Nodes.{nodes_at};
    ghost use Rattle.group_state.specs.Touch.{mark_of_place};

    ghost states = { λ place k. nodes_at (record place { at = k }) };

    ghost at = { λ place. place.at };

    ghost marks = { λ place. mark_of_place place.start place.at };

    fn position(&self) -> u64 {
        group_order::laws::merges::<Entry>();
        proc_replay::laws::replays();
        guest_process::laws::rises();
        guest_process::laws::states_fit();
        crate::laws::stepwise();
        guest_process::laws::unmarked_stays();
        self.course().here.at
    }

    fn last_node(&self) -> Option<u32> {
        let event = self.last_event()?;
        Some(event.node)
    }

    fn stamp(&self, node: u32, page: u32) -> u64 {
        match self.process(node) {
            Some(process) => self.position_of(node, process.page_mark(page)),
            None => 0,
        }
    }

    fn global_stamp(&self, node: u32, n: u32) -> u64 {
        match self.process(node) {
            Some(process) => self.position_of(node, process.global_mark(n)),
            None => 0,
        }
    }

    fn moved(&self, node: u32) -> u64 {
        match self.process(node) {
            Some(process) => self.position_of(node, process.events()),
            None => 0,
        }
    }

    fn resized(&self, node: u32) -> u64 {
        match self.process(node) {
            Some(process) => self.position_of(node, process.size_mark()),
            None => 0,
        }
    }
}
