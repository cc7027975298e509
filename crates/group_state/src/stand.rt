// Where a group is.
ghost use Rattle.std.specs.Prelude.{◌≡◌, ◌≤◌, ℕ, IfOk, IfSome, length, map};
ghost use Rattle.lamport_tag.specs.Limits.{most_processes};
ghost use Rattle.group_state.specs.Place.{ReplaysFit};
ghost use Rattle.group_state.specs.inside.Turns.{head_of_replay};
ghost use Rattle.group_state.specs.inside.Stands.{AreSoundMemories, IsStand, SameStand};

use crate::event::GroupEvent;
use crate::forward::head_of;
use group_order::Merge;
use proc_replay::Replayer;
use std::alloc::{AllocError, Global};

/// The replays of a group's logs after so many of its events, and the last of these.
#[derive(Drop)]
pub(crate) struct Stand<'m, 'a> {
    pub replayers: Vec<Replayer<'m, 'a>>,
    pub at: u64,
    pub last: Option<GroupEvent<'a>>,
}

impl<'m, 'a> Stand<'m, 'a> {
    /// Where the group of these replays begins.
    pub(crate) fn first(
        alloc: Global,
        replayers: &[Replayer<'m, 'a>],
    ) -> Result<Stand<'m, 'a>, AllocError>
        ensures stand { IfOk result (IsStand replayers.now) }
        ensures at { IfOk result (λ stand. stand.at ≡ 0) }
        ensures fits { IfOk result (λ _. ReplaysFit replayers.now) }
    {
        Ok(Stand {
            replayers: copy_replayers(alloc, replayers)?,
            at: 0,
            last: None,
        })
    }

    /// The same, with replays of its own.
    pub(crate) fn copy(&self, alloc: Global) -> Result<Stand<'m, 'a>, AllocError>
        ensures { IfOk result (SameStand self.now) }
    {
        Ok(Stand {
            replayers: copy_replayers(alloc, &self.replayers)?,
            at: self.at,
            last: self.last,
        })
    }

    /// Where the group stood at a checkpoint, or where it begins.
    pub(crate) fn at_checkpoint(
        alloc: Global,
        checkpoint: Option<&Stand<'m, 'a>>,
        replayers: &[Replayer<'m, 'a>],
    ) -> Result<Stand<'m, 'a>, AllocError>
        ensures stand { IfOk result (λ stand. IfSome checkpoint.entry (λ s. IsStand replayers.now s.now) → IsStand replayers.now stand) }
        ensures at { IfOk result (λ stand. (most : ℕ) → IfSome checkpoint.entry (λ s. s.now.at ≤ most) → stand.at ≤ most) }
    {
        match checkpoint {
            Some(stand) => Ok(stand.copy(alloc)?),
            None => Stand::first(alloc, replayers),
        }
    }
}

// Equal replays, and that the process of each is in the ranges of its module, its memory too.
fn copy_replayers<'m, 'a>(
    alloc: Global,
    replayers: &[Replayer<'m, 'a>],
) -> Result<Vec<Replayer<'m, 'a>>, AllocError>
    ensures items { IfOk result (λ copies. copies.items ≡ replayers.now) }
    ensures fits { IfOk result (λ _. ReplaysFit replayers.now) }
    ensures sound { IfOk result (λ _. AreSoundMemories replayers.now) }
{
    let mut copies = Vec::new(alloc);
    for replayer in replayers {
        let process = replayer.process();
        let _ = process.events();
        let _ = process.memory().size();
        copies.push(replayer.copy(alloc)?)?;
    }
    Ok(copies)
}

/// Which of these replays has the next event of their group.
pub(crate) fn merge_of(alloc: Global, replayers: &[Replayer<'_, '_>]) -> Result<Merge, AllocError>
    requires { length replayers.now ≤ most_processes }
    ensures { IfOk result (λ merge. merge ≡ map head_of_replay replayers.now) }
{
    let mut merge = Merge::new(alloc, replayers.len() as u32)?;
    for (node, replayer) in replayers.iter().enumerate() {
        merge.set_head(node as u32, head_of(replayer));
    }
    Ok(merge)
}
