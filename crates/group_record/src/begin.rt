// How the recording of a group begins.
ghost use Rattle.std.specs.Prelude.{◌≡◌, ◌<◌, ◌≤◌, All, IfOk, length, map};
ghost use Rattle.lamport_tag.specs.Limits.{most_processes};
ghost use Rattle.schedule_text.specs.Schedule.{IsProcess};
ghost use Rattle.wasm_types.specs.Modules.{module_of};
ghost use Rattle.group_world.specs.World.{new_world};
ghost use Rattle.group_record.specs.Answer.{after_writes, first_states, first_states_from};
ghost use Rattle.group_record.specs.inside.Begun.{BeginsAll, GroupBegins, IsNewRecorder};
ghost use Rattle.group_record.specs.inside.Recorded.{prints_kept_for};

use crate::error::RecordError;
use crate::logs::begin_logs;
use crate::member::Member;
use crate::prints::Prints;
use crate::recorder::Recorder;
use fri_outside::Files;
use group_world::World;
use guest_module::SharedModule;
use schedule_text::{ProcessLine, Schedule};
use std::alloc::{AllocError, Global};

/// Begins all processes and their logs. What the processes print is kept for the images, if they are asked for.
pub(crate) fn begin<'m, F: Files>(
    alloc: Global,
    schedule: &Schedule,
    modules: &'m [SharedModule],
    images: bool,
    files: &mut F,
) -> Result<Recorder<'m>, RecordError>
    requires { length modules.now ≡ length schedule.now.processes }
    ensures begins { GroupBegins schedule.now (first_states schedule.now (map module_of modules.now)) result (F.told files.old) (F.told files.new) }
    ensures prints { IfOk result (λ r. length r.prints ≡ prints_kept_for images (length schedule.now.processes)) }
    ensures counted { F.counts files.new ≡ after_writes (F.counts files.old) result }
{
    let members = begin_members(alloc, schedule.processes(), modules)?;
    let recorder = new_recorder(alloc, images, members)?;
    begin_logs(&recorder.members, files)?;
    Ok(recorder)
}

/// Begins all processes, in their order.
pub(crate) fn begin_members<'m>(
    alloc: Global,
    lines: &[ProcessLine],
    modules: &'m [SharedModule],
) -> Result<Vec<Member<'m>>, RecordError>
    requires modules { length modules.now ≡ length lines.now }
    requires few { length lines.now ≤ most_processes }
    requires lines { All IsProcess lines.now }
    ensures { BeginsAll (λ members. members.items) (map (λ line. line.name) lines.now)
        (first_states_from (length lines.now) 0 (map module_of modules.now)) result }
{
    let count = lines.len() as u32;
    let mut members = Vec::new(alloc);
    for p in 0..count {
        let index = p as usize;
        let module = modules[index].module();
        let member = Member::start(alloc, &lines[index], module, p, count)?;
        members.push(member)?;
    }
    Ok(members)
}

// A group of these members, around which nothing has happened. What they print is kept for the images.
fn new_recorder<'m>(
    alloc: Global,
    images: bool,
    members: Vec<Member<'m>>,
) -> Result<Recorder<'m>, AllocError>
    requires { length members.items ≤ most_processes }
    ensures { IfOk result (IsNewRecorder images members.entry.items) }
{
    let count = members.len() as u32;
    let world = World::new(alloc, count)?;
    let prints = Prints::new(alloc, images, count)?;
    Ok(Recorder {
        members,
        world,
        prints,
        acted: 0,
        idle: 0,
    })
}
