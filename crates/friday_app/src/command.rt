// Which command the words name.
ghost use Rattle.std.specs.Prelude.{◌≡◌, length, map, option_map, string_bytes, IfOk, IfSome};
ghost use Rattle.std.specs.List.{list_all};
ghost use Rattle.friday_app.specs.Command.{command_by_verb, command_of, cutting_command, drilling_command, is_file_word, is_images, migrating_command, names_in, options_in, pairs_of, pairs_without_images, playing_command, recording_command, some_pairs_of};
ghost use Rattle.friday_app.specs.inside.Meanings.{HasDrillRounds, command_meaning};
ghost use Rattle.log_pairs.specs.Meanings.{pair_of};

use cut_command::{event_number_of, process_of};
use drill_command::rounds_of;
use log_pairs::Pair;
use std::alloc::{AllocError, Global};

/// A command, with what its words give: names, whether images are asked for, how many rounds, and which event of which
/// process.
#[derive(Drop)]
pub enum Command<'a> {
    Record(bool, &'a str),
    Replay(bool, Vec<Pair<'a>>),
    Debug(Vec<Pair<'a>>),
    Drill(u32),
    Migrate(&'a str, &'a str),
    Schedule(Vec<Pair<'a>>),
    Cut(u32, u64, Vec<Pair<'a>>),
    Streams(Vec<Pair<'a>>),
    Play(&'a str),
}

// Whether the word may name a file.
fn is_file_word(word: &str) -> bool
    ensures { result ≡ is_file_word word.now }
{
    match word.as_bytes() {
        [] => false,
        [first, ..] => *first != b'-',
    }
}

// Whether the word asks for images.
fn is_images(word: &str) -> bool
    ensures { result ≡ is_images word.now }
{
    word == "--images"
}

/// The command that the words name: a verb, and after it names of files or a number, and once at most `--images`.
pub fn parse_words(alloc: Global, words: &[String]) -> Result<Option<Command<'_>>, AllocError>
    ensures names { IfOk result (λ command. option_map command_meaning command ≡ command_of (map string_bytes words.now)) }
    ensures rounds { IfOk result (λ command. IfSome command HasDrillRounds) }
{
    let [verb, words @ ..] = words else {
        return Ok(None);
    };
    let options = count_options(words);
    let names = names_in(alloc, words)?;
    if options <= 1 && are_file_words(&names) {
        command_by_verb(alloc, verb, options == 1, &names)
    } else {
        Ok(None)
    }
}

// How often the option is among the words.
fn count_options(words: &[String]) -> usize
    ensures { result ≡ length (options_in (map string_bytes words.now)) }
{
    words.iter().filter(|word| is_images(word)).count()
}

// Whether each of these words may name a file.
fn are_file_words(names: &[&str]) -> bool
    ensures { result ≡ list_all is_file_word (map (λ name. name.now) names.now) }
{
    names.iter().all(|name| is_file_word(name))
}

// The words other than the option.
fn names_in(alloc: Global, words: &[String]) -> Result<Vec<&str>, AllocError>
    ensures { IfOk result (λ names. map (λ name. name.now) names.items ≡ names_in (map string_bytes words.now)) }
{
    let mut names = Vec::new(alloc);
    for word in words {
        if !is_images(word) {
            names.push(word.as_str())?;
        }
    }
    Ok(names)
}

// The command of this verb, of these words other than the option.
fn command_by_verb<'a>(
    alloc: Global,
    verb: &str,
    images: bool,
    names: &[&'a str],
) -> Result<Option<Command<'a>>, AllocError>
    ensures names { IfOk result (λ command. option_map command_meaning command ≡ command_by_verb verb.now images (map (λ name. name.now) names.now)) }
    ensures rounds { IfOk result (λ command. IfSome command HasDrillRounds) }
{
    match verb {
        "record" => Ok(record_command(images, names)),
        "replay" => { Ok(some_pairs_of(alloc, names)?.map(|pairs| Command::Replay(images, pairs))) }
        "debug" => Ok(pairs_without_images(alloc, images, names)?.map(Command::Debug)),
        "drill" => Ok(drill_command(images, names)),
        "migrate" => Ok(migrate_command(images, names)),
        "schedule" => Ok(pairs_without_images(alloc, images, names)?.map(Command::Schedule)),
        "cut" => cut_command(alloc, images, names),
        "streams" => Ok(pairs_without_images(alloc, images, names)?.map(Command::Streams)),
        "play" => Ok(play_command(images, names)),
        _ => Ok(None),
    }
}

fn record_command<'a>(images: bool, names: &[&'a str]) -> Option<Command<'a>>
    ensures { option_map command_meaning result ≡ recording_command images (map (λ name. name.now) names.now) }
{
    match names {
        [schedule_file] => Some(Command::Record(images, schedule_file)),
        _ => None,
    }
}

fn drill_command<'a>(images: bool, words: &[&'a str]) -> Option<Command<'a>>
    ensures names { option_map command_meaning result ≡ drilling_command images (map (λ word. word.now) words.now) }
    ensures rounds { IfSome result HasDrillRounds }
{
    match words {
        [word] if !images => Some(Command::Drill(rounds_of(word)?)),
        _ => None,
    }
}

fn migrate_command<'a>(images: bool, names: &[&'a str]) -> Option<Command<'a>>
    ensures { option_map command_meaning result ≡ migrating_command images (map (λ name. name.now) names.now) }
{
    match names {
        [log_file, new_file] if !images => Some(Command::Migrate(log_file, new_file)),
        _ => None,
    }
}

fn cut_command<'a>(
    alloc: Global,
    images: bool,
    words: &[&'a str],
) -> Result<Option<Command<'a>>, AllocError>
    ensures names { IfOk result (λ command. option_map command_meaning command ≡ cutting_command images (map (λ word. word.now) words.now)) }
    ensures rounds { IfOk result (λ command. IfSome command HasDrillRounds) }
{
    let [process, event, names @ ..] = words else {
        return Ok(None);
    };
    let Some(process) = process_of(process) else {
        return Ok(None);
    };
    let Some(event) = event_number_of(event) else {
        return Ok(None);
    };
    let pairs = pairs_without_images(alloc, images, names)?;
    Ok(pairs.map(|pairs| Command::Cut(process, event, pairs)))
}

fn play_command<'a>(images: bool, names: &[&'a str]) -> Option<Command<'a>>
    ensures { option_map command_meaning result ≡ playing_command images (map (λ name. name.now) names.now) }
{
    match names {
        [schedule_file] if !images => Some(Command::Play(schedule_file)),
        _ => None,
    }
}

// A module and a log, two by two. None comes exactly where a name is left over.
fn pairs_of<'a>(alloc: Global, names: &[&'a str]) -> Result<Option<Vec<Pair<'a>>>, AllocError>
    ensures { IfOk result (λ pairs. option_map (λ pairs. map pair_of pairs.items) pairs ≡ pairs_of (map (λ name. name.now) names.now)) }
{
    let mut pairs = Vec::new(alloc);
    let mut left = names;
    'pairs: while let [module_file, log_file, behind @ ..] = left {
        pairs.push(Pair {
            module_file,
            log_file,
        })?;
        left = behind;
    }
    Ok(if left.is_empty() { Some(pairs) } else { None })
}

// The same, unless there are no names.
fn some_pairs_of<'a>(alloc: Global, names: &[&'a str]) -> Result<Option<Vec<Pair<'a>>>, AllocError>
    ensures { IfOk result (λ pairs. option_map (λ pairs. map pair_of pairs.items) pairs ≡ some_pairs_of (map (λ name. name.now) names.now)) }
{
    if names.is_empty() {
        return Ok(None);
    }
    pairs_of(alloc, names)
}

// The same again, unless images are asked for.
fn pairs_without_images<'a>(
    alloc: Global,
    images: bool,
    names: &[&'a str],
) -> Result<Option<Vec<Pair<'a>>>, AllocError>
    ensures { IfOk result (λ pairs. option_map (λ pairs. map pair_of pairs.items) pairs ≡ pairs_without_images images (map (λ name. name.now) names.now)) }
{
    if images {
        return Ok(None);
    }
    some_pairs_of(alloc, names)
}
