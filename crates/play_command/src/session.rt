// What each line does to a play, and answers.
ghost use Rattle.std.specs.Prelude.{◌≡◌, ◌≤◌, ◌+◌, ◌++◌, IfOk, IfSome, None, OnOk, false, length, map, if◌then◌else◌};
ghost use Rattle.wasm_types.specs.Modules.{module_of};
ghost use Rattle.schedule_text.specs.Limits.{most_runs};
ghost use Rattle.schedule_text.specs.Schedule.{IsInRange, run_count, tries as tries_of_item};
ghost use Rattle.group_record.specs.Answer.{first_states, names_of};
ghost use Rattle.play_lines.specs.Lines.{Again};
ghost use Rattle.play_lines.specs.Refusals.{play_refusal_line};
ghost use Rattle.play_lines.specs.Spelled.{player_command};
ghost use Rattle.play_command.specs.Play.{command_in_play, counts_line, full_line, plays_item, process_of_item};
ghost use Rattle.play_command.specs.inside.Answers.{AnswersOnce, AnswersPlay, OpensPlay, StaysAndSays};
ghost use Rattle.play_command.specs.inside.Playing.{IsPlaying};
ghost use Rattle.play_command.specs.inside.Said.{said_by, said_of};
ghost use Rattle.play_command.specs.inside.Shown.{Shows};

use crate::going::{perform, perform_all};
use crate::live_play::{Play, Playing};
use crate::shown::{
    show_datagram, show_memory, show_printed, show_processes, show_threads, show_value,
};
use crate::told::Told;
use conversation::{Go, LineSession};
use fri_bytes::Bytes;
use fri_text::Text;
use group_record::{LiveGroup, RecordError};
use guest_module::SharedModule;
use play_lines::{PlayLine, PlayRefusal, PlayerCommand, read_play_line, refused_play};
use record_command::push_items_line;
use schedule_text::{Item, MOST_RUNS, Schedule};
use std::alloc::{AllocError, Global};

impl<'m> Playing<'m> {
    /// The play of a schedule, whose processes are of these modules, once its items are done, and the line with which it
    /// begins.
    pub(crate) fn begin(
        alloc: Global,
        schedule: &'m Schedule,
        modules: &'m [SharedModule],
    ) -> Result<(Playing<'m>, Text), RecordError>
        requires { length modules.now ≡ length schedule.now.processes }
        ensures { OpensPlay schedule.now (map module_of modules.now) (first_states schedule.now (map module_of modules.now)) result }
    {
        let names = copied_names(alloc, schedule)?;
        let mut live = LiveGroup::begin(alloc, schedule, modules)?;
        let mut told = Told::new(alloc, false);
        let mut bytes = Vec::new(alloc);
        let items = schedule.items();
        if let Some(item) = perform_all(&mut live, &names, items, &mut told, &mut bytes)? {
            return Err(RecordError::LogFull(item));
        }
        let mut text = Text::new(alloc);
        push_items_line(&mut text, told.acted, told.idle)?;
        let play = Play {
            schedule,
            modules,
            names,
            bytes,
            live,
            tries: tries_of(items),
            full: false,
            told,
            usual: None,
        };
        let play = Box::new(alloc, play)?;
        Ok((Playing { play }, text))
    }

    // The same play with the items of the file alone, and the line with which it begins.
    fn again(self, alloc: Global) -> Result<(Playing<'m>, Text), AllocError>
        ensures { IfOk result (λ said. AnswersOnce self.entry.play.value (λ state. command_in_play state Again) said.0.play.value said.1) }
    {
        match Playing::begin(alloc, self.play.schedule, self.play.modules) {
            Ok(opened) => Ok(opened),
            Err(RecordError::NoMemory) => Err(AllocError),
            Err(_) => unreachable!(),
        }
    }

    // The same play, which says this. Apart, as what follows, so that items pay nothing for it.
    #[inline(never)]
    #[tactic(auto, using(crate::proofs::SaidLast::says))]
    fn saying(self, text: Text) -> Playing<'m>
        ensures { StaysAndSays self.entry.play.value text result.play.value }
    {
        let Playing { mut play } = self;
        play.say(text);
        Playing { play }
    }

    // The same play, which says why a line is refused.
    #[inline(never)]
    fn refusing(self, alloc: Global, why: PlayRefusal) -> Result<Playing<'m>, AllocError>
        ensures { IfOk result (λ playing. StaysAndSays self.entry.play.value (play_refusal_line why) playing.play.value) }
    {
        let text = refused_play(alloc, why)?;
        Ok(self.saying(text))
    }

    // Does an item, unless there would be too many tries, or a log was full before.
    fn play_item(self, alloc: Global, item: &Item) -> Result<Playing<'m>, AllocError>
        requires { IsInRange (length self.play.value.names.items) item.now }
        ensures { IfOk result (λ playing. AnswersOnce self.entry.play.value (λ state. plays_item state item.now) playing.play.value (said_of playing.play.value)) }
    {
        let tries = self.play.tries + item.tries();
        if tries > MOST_RUNS {
            return self.refusing(alloc, PlayRefusal::TooManyTries);
        }
        if self.play.full {
            return self.refusing(alloc, PlayRefusal::Full);
        }
        self.do_item(item, tries)
    }

    // Does an item, with which there are so many tries.
    fn do_item(self, item: &Item, tries: u64) -> Result<Playing<'m>, AllocError>
        requires in_range { IsInRange (length self.play.value.names.items) item.now }
        requires room { self.play.value.full ≡ false }
        requires tries { tries ≡ self.play.value.tries + tries_of_item item.now }
        requires few { tries ≤ most_runs }
        ensures { IfOk result (λ playing. AnswersOnce self.entry.play.value (λ state. plays_item state item.now) playing.play.value (said_of playing.play.value)) }
    {
        let Playing { mut play } = self;
        play.take_item(item, tries)?;
        Ok(Playing { play })
    }

    // Answers a command, and tells whether the session goes on. Apart, so that items pay nothing for what it needs.
    #[inline(never)]
    #[tactic(auto, using(crate::proofs::SaidLast::says_play))]
    fn command(
        self,
        alloc: Global,
        command: &PlayerCommand,
    ) -> Result<(Playing<'m>, Go), AllocError>
        ensures { IfOk result (λ said. AnswersPlay self.entry.play.value (λ state. command_in_play state (player_command command.now)) said.0.play.value (said_of said.0.play.value) said.1) }
    {
        let (playing, text, goes) = self.answer(alloc, command)?;
        Ok((playing.saying(text), goes))
    }

    // What a command answers, and whether the session goes on.
    fn answer(
        self,
        alloc: Global,
        command: &PlayerCommand,
    ) -> Result<(Playing<'m>, Text, Go), AllocError>
        ensures { IfOk result (λ said. AnswersPlay self.entry.play.value (λ state. command_in_play state (player_command command.now)) said.0.play.value said.1 said.2) }
    {
        match command {
            PlayerCommand::Again => {
                let (playing, text) = self.again(alloc)?;
                Ok((playing, text, Go::On))
            }
            PlayerCommand::Quit => Ok((self, Text::new(alloc), Go::Quit)),
            _ => {
                let text = self.shown(alloc, command)?;
                Ok((self, text, Go::On))
            }
        }
    }

    // What a command shows that changes nothing.
    fn shown(&self, alloc: Global, command: &PlayerCommand) -> Result<Text, AllocError>
        ensures { IfOk result (λ text. Shows self.now.play.value.names.items self.now.play.value.live (player_command command.now) text) }
    {
        let (live, names) = (&self.play.live, self.play.names.as_slice());
        match command {
            PlayerCommand::Processes => show_processes(alloc, live, names),
            PlayerCommand::Threads(node) => show_threads(alloc, live, names, *node),
            PlayerCommand::Datagram(p, n) => show_datagram(alloc, live, names, *p, *n),
            PlayerCommand::Printed(node, from) => show_printed(alloc, live, names, *node, *from),
            PlayerCommand::Print(expression) => show_value(alloc, live, names, expression),
            PlayerCommand::Mem(node, addr, len) => {
                show_memory(alloc, live, names, *node, *addr, *len)
            }
            PlayerCommand::Again => Ok(Text::new(alloc)),
            PlayerCommand::Quit => Ok(Text::new(alloc)),
        }
    }
}

impl<'m> Play<'m> {
    // Says this.
    fn say(&mut self, text: Text)
        ensures { self.new ≡ record self.old { told = record self.old.told { text = text }; usual = None } }
    {
        self.told.text = text;
        self.usual = None;
    }

    // Does an item, with which there are so many tries. After want of memory the group may have no process.
    fn take_item(&mut self, item: &Item, tries: u64) -> Result<(), AllocError>
        requires playing { IsPlaying self.old.schedule.now (map module_of self.old.modules.now) self.old.names.items self.old.live self.old.tries }
        requires in_range { IsInRange (length self.old.names.items) item.now }
        requires room { self.old.full ≡ false }
        requires tries { tries ≡ self.old.tries + tries_of_item item.now }
        requires few { tries ≤ most_runs }
        ensures answers { OnOk result (AnswersOnce self.old (λ state. plays_item state item.now) self.new (said_of self.new)) }
        ensures playing { OnOk result (IsPlaying self.new.schedule.now (map module_of self.new.modules.now) self.new.names.items self.new.live self.new.tries) }
    {
        self.told.restart();
        let full = perform(
            &mut self.live,
            &self.names,
            item,
            &mut self.told,
            &mut self.bytes,
        )?;
        let name = self.names[process_of_item(item) as usize].as_slice();
        let usual = end(&mut self.told, full, name)?;
        self.tries = tries;
        self.full = full;
        self.usual = usual;
        Ok(())
    }
}

impl<'m> LineSession for Playing<'m> {
    ghost use Rattle.play_command.specs.Play.{PlayState, play_answer};
    ghost use Rattle.play_command.specs.inside.Answers.{StandsInPlay};
    ghost use Rattle.play_command.specs.inside.Said.{said_of};

    ghost State = { PlayState };

    ghost answer = { play_answer };

    ghost stands = { λ playing. StandsInPlay playing.play.value };

    ghost text = { λ playing. said_of playing.play.value };

    #[tactic(auto, using(crate::proofs::SaidLast::says_play))]
    fn answer_line(self, alloc: Global, line: &[u8]) -> Result<(Playing<'m>, Go), AllocError> {
        schedule_text::laws::exact_item_lines();
        match read_play_line(alloc, line, &self.play.names)? {
            PlayLine::Silent => Ok((self.saying(Text::new(alloc)), Go::On)),
            PlayLine::Refused(why) => {
                let playing = self.refusing(alloc, why)?;
                Ok((playing, Go::On))
            }
            PlayLine::Plays(item) => {
                let playing = self.play_item(alloc, &item)?;
                Ok((playing, Go::On))
            }
            PlayLine::Does(command) => self.command(alloc, &command),
        }
    }

    fn said(&self) -> &[u8] {
        match self.play.usual {
            Some(line) => line.as_bytes(),
            None => self.play.told.text.bytes(),
        }
    }
}

// The names of a schedule's processes.
fn copied_names(alloc: Global, schedule: &Schedule) -> Result<Vec<Bytes>, AllocError>
    ensures { IfOk result (λ names. names.items ≡ names_of schedule.now) }
{
    let mut names = Vec::new(alloc);
    for line in schedule.processes() {
        names.push(Bytes::from_slice(alloc, line.name.as_slice())?)?;
    }
    Ok(names)
}

// How often these items try, which are no more than a schedule may.
fn tries_of(items: &[Item]) -> u64
    requires { run_count items.now ≤ most_runs }
    ensures { result ≡ run_count items.now }
{
    let mut tries = 0;
    for item in items {
        tries += item.tries();
    }
    tries
}

// The process that an item is about.
fn process_of_item(item: &Item) -> u32
    ensures { result ≡ process_of_item item.now }
{
    match item {
        Item::Run { process, .. } => *process,
        Item::Deliver { process, .. } => *process,
        Item::Inject { process, .. } => *process,
        Item::Clock { process, .. } => *process,
        Item::Random { process, .. } => *process,
        Item::Signal { process, .. } => *process,
        Item::Kill { process } => *process,
    }
}

// Ends what is told of an item with its counts, or with that the log of the process with this name has no room. If a text of the
// program is all that is told, it is given and not copied.
fn end(told: &mut Told, full: bool, name: &[u8]) -> Result<Option<&'static str>, AllocError>
    ensures { IfOk result (λ usual. said_by usual told.new.text ≡ told.old.text ++ (if full then full_line name.now else counts_line told.old.acted told.old.idle)) }
{
    if !full {
        return count(told);
    }
    told.text.push_str("full ")?;
    told.text.push_bytes(name)?;
    told.text.push_str("\n")?;
    Ok(None)
}

// Ends it with its counts.
fn count(told: &mut Told) -> Result<Option<&'static str>, AllocError>
    ensures { IfOk result (λ usual. said_by usual told.new.text ≡ told.old.text ++ counts_line told.old.acted told.old.idle) }
{
    let Some(line) = usual_counts(told.acted, told.idle) else {
        push_counts(&mut told.text, told.acted, told.idle)?;
        return Ok(None);
    };
    if told.text.bytes().is_empty() {
        return Ok(Some(line));
    }
    told.text.push_str(line)?;
    Ok(None)
}

// The line of the counts, where it is that of most items.
fn usual_counts(acted: u64, idle: u64) -> Option<&'static str>
    ensures { IfSome result (λ line. line.now ≡ counts_line acted idle) }
{
    match (acted, idle) {
        (0, 1) => Some("0 acted, 1 idle\n"),
        (1, 0) => Some("1 acted, 0 idle\n"),
        _ => None,
    }
}

// Adds the line of any counts.
fn push_counts(text: &mut Text, acted: u64, idle: u64) -> Result<(), AllocError>
    ensures { OnOk result (text.new ≡ text.old ++ counts_line acted idle) }
{
    text.push_u64(acted)?;
    text.push_str(" acted, ")?;
    text.push_u64(idle)?;
    text.push_str(" idle\n")
}
