// A group at a position.
ghost use Rattle.std.specs.Prelude.{◌≡◌, ◌≤◌, ◌+◌, ◌-◌, ℕ, if◌then◌else◌, Some, None, IfOk, IsTrue, IsFalse, OnErr, OnOk, ◌↔◌, length, map, nat_le, option_map, slice_get};
ghost use Rattle.group_state.specs.Place.{AreGroupReplays, ReplaysFit, GroupPlace, events_of_replays, no_logs, states_of_nodes};
ghost use Rattle.group_state.specs.inside.At.{IsSoundCourse, place_of_course};
ghost use Rattle.group_state.specs.Moves.{IsAtPosition, GroupMoves, event_of, last_event_of};

use crate::checkpoints::Checkpoints;
use crate::event::GroupEvent;
use crate::forward::{head_of, take_turn};
use crate::stand::{Stand, merge_of};
use crate::work::Counter;
use group_order::{Merge, Motions};
use guest_process::Process;
use lib_calls::Entry;
use proc_replay::{Replayer, Turn};
use std::alloc::{AllocError, Global};
use std::marker::Model;

/// The logs of a group at a position: the number of events that have been made, of all accepted events by
/// clock and then by node. Contracts see the replays at position 0, and the position.
pub struct Group<'m, 'a> {
    pub(crate) course: Course<'m, 'a>,
}

// By hand, so that it is proved here, and not in each crate that owns one.
impl Drop for Group<'_, '_> {
    fn drop(self) {
        let Self { course: _course } = self;
    }
}

/// Where a group began, where it stands, and what it knows of the way.
#[derive(Drop)]
pub(crate) struct Course<'m, 'a> {
    alloc: Global,
    // Where the group begins is a checkpoint too.
    pub(crate) start: Vec<Replayer<'m, 'a>>,
    pub(crate) checkpoints: Checkpoints<'m, 'a>,
    pub(crate) here: Stand<'m, 'a>,
    merge: Merge,
    pub(crate) motions: Motions,
    pub(crate) counter: Counter,
}

impl<'m, 'a> Course<'m, 'a> {
    // Makes the next event, which is then the last one, and says whether there is one. At the end nothing changes.
    fn step(&mut self) -> Result<bool, AllocError>
        requires { IsSoundCourse self.old }
        ensures sound { OnOk result (IsSoundCourse self.new) }
        ensures start { OnOk result (self.new.start.items ≡ self.old.start.items) }
        ensures at { IfOk result (λ made. IsTrue made → self.new.here.at ≡ self.old.here.at + 1) }
        ensures moves { IfOk result (λ made. GroupMoves (place_of_course self.old) (place_of_course self.new) (if made then self.new.here.last else None)) }
    {
        group_order::laws::merges::<Entry>();
        proc_replay::laws::replays();
        guest_process::laws::rises();
        guest_process::laws::states_fit();
        let Some(node) = self.merge.next_node() else {
            return Ok(false);
        };
        let turn = self.here.replayers[node as usize].peek();
        take_turn(&mut self.here.replayers, node)?;
        let replayer = &self.here.replayers[node as usize];
        let _ = replayer.process().memory().size();
        let head = head_of(replayer);
        self.merge.set_head(node, head);
        let Turn::Event(entry) = &turn else {
            unreachable!();
        };
        self.here.at += 1;
        self.here.last = Some(GroupEvent {
            node,
            entry: *entry,
        });
        self.motions.add(node, self.here.at)?;
        self.checkpoints.keep(self.alloc, &self.here)?;
        self.counter.count_event();
        Ok(true)
    }

    // Drops all logs.
    fn clear(&mut self)
        ensures sound { IsSoundCourse self.new }
        ensures place { place_of_course self.new ≡ no_logs }
    {
        self.start.clear();
        self.checkpoints.stands.clear();
        self.here.replayers.clear();
        self.here.at = 0;
        self.here.last = None;
        self.merge.clear();
        self.motions.clear();
    }

    // The event that was made last, if one was made.
    fn last_if(&self, made: bool) -> Option<GroupEvent<'a>>
        ensures { result ≡ (if made then self.now.here.last else None) }
    {
        if made { self.here.last } else { None }
    }

    // Stands where it comes to position k soonest: where it is, or at the last checkpoint that is not past the position.
    // All checkpoints are where it has been.
    fn go_near(&mut self, alloc: Global, k: u64) -> Result<(), AllocError>
        requires { IsSoundCourse self.old }
        ensures sound { OnOk result (IsSoundCourse self.new) }
        ensures start { OnOk result (self.new.start.items ≡ self.old.start.items) }
        ensures at { OnOk result (self.new.here.at ≤ k) }
    {
        let nearest = self.checkpoints.nearest(k.min(self.motions.reached()));
        let from = match nearest {
            Some(stand) => stand.at,
            None => 0,
        };
        if from <= self.here.at && self.here.at <= k {
            return Ok(());
        }
        let stand = Stand::at_checkpoint(alloc, nearest, &self.start)?;
        let merge = merge_of(alloc, &stand.replayers)?;
        self.here = stand;
        self.merge = merge;
        Ok(())
    }

    // Goes on to position k, which it has not passed, and tells whether it came there; else it is at the end.
    fn advance_to(&mut self, k: u64) -> Result<bool, AllocError>
        requires sound { IsSoundCourse self.old }
        requires ahead { self.old.here.at ≤ k }
        ensures sound { OnOk result (IsSoundCourse self.new) }
        ensures start { OnOk result (self.new.start.items ≡ self.old.start.items) }
        ensures there { IfOk result (λ there. IsTrue there → self.new.here.at ≡ k) }
        ensures within { IfOk result (λ there. IsTrue there ↔ k ≤ length (events_of_replays self.old.start.items)) }
    {
        'events: while self.here.at < k {
            if !self.step()? {
                return Ok(false);
            }
        }
        Ok(true)
    }

    // Goes to position k, from where it comes there soonest. Where there are fewer events, it is as it was.
    fn goto(&mut self, alloc: Global, k: u64) -> Result<bool, AllocError>
        requires { IsSoundCourse self.old }
        ensures sound { OnOk result (IsSoundCourse self.new) }
        ensures goes { IfOk result (IsAtPosition (place_of_course self.old) k (place_of_course self.new)) }
    {
        let at = self.here.at;
        self.go_near(alloc, k)?;
        if self.advance_to(k)? {
            return Ok(true);
        }
        self.go_near(alloc, at)?;
        self.advance_to(at)?;
        Ok(false)
    }

    // Whether no event is left.
    fn is_last(&self) -> bool
        requires { IsSoundCourse self.now }
        ensures { result ≡ nat_le (length (events_of_replays self.now.start.items)) self.now.here.at }
    {
        group_order::laws::merges::<Entry>();
        proc_replay::laws::replays();
        guest_process::laws::rises();
        guest_process::laws::states_fit();
        match self.merge.next_node() {
            Some(_) => false,
            None => true,
        }
    }

    // The replay of a node, at the position.
    fn replay(&self, node: u32) -> Option<&Replayer<'m, 'a>>
        requires { IsSoundCourse self.now }
        ensures { option_map (λ replayer. replayer.now.state) result ≡ slice_get (states_of_nodes self.now.start.items self.now.here.at) node }
    {
        group_order::laws::merges::<Entry>();
        proc_replay::laws::replays();
        guest_process::laws::rises();
        guest_process::laws::states_fit();
        let replayer = self.here.replayers.get(node as usize)?;
        Some(replayer)
    }
}

impl<'m, 'a> Model for Group<'m, 'a> {
    ghost use Rattle.std.specs.Coded.{codes};
    ghost use Rattle.guest_process.specs.Coding.{crew_code, trees_code};
    ghost use Rattle.group_state.specs.inside.At.{IsSoundGroup, place_of_group};
    ghost use Rattle.group_state.specs.Place.{GroupPlace};

    ghost Value = { GroupPlace };

    ghost coded = { Prim.hlevel (codes, trees_code, crew_code) };

    ghost view = { place_of_group };

    ghost invariant = { IsSoundGroup };
}

impl<'m, 'a> Group<'m, 'a> {
    /// The replays of a group's logs, at position 0: in order of their processes' numbers, each before its
    /// first event.
    pub fn begin(
        alloc: Global,
        replayers: Vec<Replayer<'m, 'a>>,
    ) -> Result<Group<'m, 'a>, AllocError>
        requires { AreGroupReplays replayers.items }
        ensures { IfOk result (λ group. group ≡ record { start = replayers.entry.items; at = 0 }) }
    {
        proc_replay::laws::replays();
        let here = Stand::first(alloc, &replayers)?;
        let merge = merge_of(alloc, &here.replayers)?;
        let motions = Motions::none(alloc, replayers.len())?;
        let course = Course {
            alloc,
            start: replayers,
            checkpoints: Checkpoints::new(alloc),
            here,
            merge,
            motions,
            counter: Counter::new(),
        };
        Ok(Group { course })
    }

    /// Makes the next event, and gives it. None comes exactly at the end, and the group is then as it was. After want
    /// of memory it has no logs.
    pub fn forward(&mut self) -> Result<Option<GroupEvent<'a>>, AllocError>
        ensures moves { IfOk result (GroupMoves self.old self.new) }
        ensures dropped { OnErr result (self.new ≡ no_logs) }
    {
        match self.course.step() {
            Ok(made) => Ok(self.course.last_if(made)),
            Err(error) => {
                self.course.clear();
                Err(error)
            }
        }
    }

    /// Goes to position k, and gives true. False comes exactly where there are fewer than k events, and the
    /// group is then as it was. It is replayed from where it is, or from the last checkpoint that is not past
    /// the position. After want of memory it has no logs.
    pub fn goto(&mut self, alloc: Global, k: u64) -> Result<bool, AllocError>
        ensures moves { IfOk result (IsAtPosition self.old k self.new) }
        ensures dropped { OnErr result (self.new ≡ no_logs) }
    {
        match self.course.goto(alloc, k) {
            Ok(there) => Ok(there),
            Err(error) => {
                self.course.clear();
                Err(error)
            }
        }
    }

    // The calls that show the group begin with this, so that each need not show again that it is sound.
    pub(crate) fn course(&self) -> &Course<'m, 'a>
        ensures sound { IsSoundCourse result.now }
        ensures place { place_of_course result.now ≡ self.now }
    {
        &self.course
    }

    /// How many events have been made.
    pub fn position(&self) -> u64
        ensures position { result ≡ self.now.at }
        ensures within { self.now.at ≤ length (events_of_replays self.now.start) }
        ensures replayers { AreGroupReplays self.now.start }
        ensures fits { ReplaysFit self.now.start }
    {
        self.course().here.at
    }

    /// Whether this is the last position.
    pub fn is_last(&self) -> bool
        ensures { result ≡ nat_le (length (events_of_replays self.now.start)) self.now.at }
    {
        self.course().is_last()
    }

    /// The event that was made last. None comes exactly at position 0.
    pub fn last_event(&self) -> Option<GroupEvent<'a>>
        ensures { option_map event_of result ≡ last_event_of self.now }
    {
        self.course().here.last
    }

    /// How many logs there are.
    pub fn nodes(&self) -> u32
        ensures { result ≡ length self.now.start }
    {
        self.course().start.len() as u32
    }

    /// The name of a node's process. None comes exactly where there is no such node.
    pub fn node_name(&self, node: u32) -> Option<&'a [u8]>
        ensures { option_map (λ name. name.now) result ≡ slice_get (map (λ r. r.head.name) self.now.start) node }
    {
        Some(self.course().start.get(node as usize)?.head().name)
    }

    /// The process of a node, at the position. None comes exactly where there is no such node.
    pub fn process(&self, node: u32) -> Option<&Process<'m>>
        ensures { option_map (λ process. process.now) result ≡ slice_get (states_of_nodes self.now.start self.now.at) node }
    {
        Some(self.replay(node)?.process())
    }

    // The replay of a node, at the position.
    pub(crate) fn replay(&self, node: u32) -> Option<&Replayer<'m, 'a>>
        ensures { option_map (λ replayer. replayer.now.state) result ≡ slice_get (states_of_nodes self.now.start self.now.at) node }
    {
        self.course().replay(node)
    }
}
