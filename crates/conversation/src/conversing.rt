// A session that is read from an input, and answered line by line.
ghost use Rattle.std.specs.Prelude.{◌≡◌, ◌∷◌, ◌++◌, ◌≤◌, ◌<◌, ◌+◌, [], length, IfOk, IfErr, IsTrue, MatchResult};
ghost use Rattle.fri_text.specs.Line.{lines_of};
ghost use Rattle.conversation.specs.declared.conversing.Ended.TheVariants as cause;
ghost use Rattle.conversation.specs.Conversing.{Converses, terminal_at};
ghost use Rattle.conversation.specs.Lines.{whole_part};
ghost use Rattle.conversation.specs.Talker.{talker_of};
ghost use Rattle.conversation.specs.inside.Reader.{FailsAtOpening, HeldSession, InputReadsOn, SessionBreaksFrom, SessionGoesOn, SessionHearsFrom, SessionHoldsFrom, SessionOpens, SessionOpensPart, SessionStopsIn, WasTold, session_begun, ended_by, exchange_of, failed_says_of_session, heard_of, listened_after, session_reader_of, why_session_ended};

use crate::session::{Go, LineSession};
use command_run::{Reason, Status, say_refused};
use fri_bytes::Cursor;
use fri_outside::{Failed, Sink, Terminal, WriteError, write_whole};
use fri_text::{Text, next_line};
use std::alloc::{AllocError, AllocFailed, Global};

// How many bytes are asked for at once.
const INPUT_PIECE: usize = 4096;

// How many bytes may be read before a line ends the session.
const MOST_INPUT: usize = 16_777_216;

// Why a session ends.
#[derive(Clone, Copy)]
enum Ended {
    Done,
    TooLarge,
    ReadFault,
    WriteFault,
    NoMemory,
}

impl From<AllocError> for Ended {
    ghost from_gives = { λ _ e. e ≡ cause.NoMemory };

    fn from(_: AllocError) -> Self {
        Ended::NoMemory
    }
}

impl<T: Drop> From<AllocFailed<T>> for Ended {
    ghost from_gives = { λ _ e. e ≡ cause.NoMemory };

    fn from(_: AllocFailed<T>) -> Self {
        Ended::NoMemory
    }
}

impl From<Failed> for Ended {
    ghost from_gives = { λ _ e. e ≡ cause.ReadFault };

    fn from(_: Failed) -> Self {
        Ended::ReadFault
    }
}

impl From<WriteError> for Ended {
    ghost from_gives = { λ error e. e ≡ ended_by error };

    fn from(error: WriteError) -> Self {
        match error {
            WriteError::Failed => Ended::WriteFault,
            WriteError::NoMemory => Ended::NoMemory,
        }
    }
}

// A session, the bytes of the line that has begun, and how many bytes were taken.
#[derive(Drop)]
struct LineReader<S> {
    session: S,
    begun: Vec<u8>,
    count: usize,
}

// Prints what a session says first.
fn begin<S: LineSession, K: Sink>(
    alloc: Global,
    session: S,
    opening: Text,
    out: &mut K,
) -> Result<LineReader<S>, Ended>
    ensures said { MatchResult result
        (λ reader. SessionOpens S.stands S.answer (session_begun session opening) (K.taken out.old) (K.taken out.new) (session_reader_of reader))
        (SessionOpensPart S.stands S.answer (session_begun session opening) (K.taken out.old) (K.taken out.new)) }
    ensures count { IfOk result (λ reader. reader.count ≡ 0) }
    ensures counted { K.faults out.new ≡ failed_says_of_session (K.faults out.old) result }
    ensures heard { K.hearing out.new ≡ K.hearing out.old }
{
    write_whole(out, opening.bytes())?;
    Ok(LineReader {
        session,
        begun: Vec::new(alloc),
        count: 0,
    })
}

// Answers a line.
fn answer<S: LineSession, K: Sink>(
    alloc: Global,
    session: S,
    line: &[u8],
    out: &mut K,
) -> Result<S, Ended>
    ensures said { WasTold S.stands S.answer session (line.now ∷ []) (K.taken out.old) (K.taken out.new) result }
    ensures reads { IfErr result InputReadsOn }
    ensures counted { K.faults out.new ≡ failed_says_of_session (K.faults out.old) result }
    ensures heard { K.hearing out.new ≡ K.hearing out.old }
{
    let (session, goes) = session.answer_line(alloc, line)?;
    write_whole(out, session.said())?;
    match goes {
        Go::On => Ok(session),
        Go::Quit => Err(Ended::Done),
    }
}

// Answers each line of these bytes.
fn answer_lines<S: LineSession, K: Sink>(
    alloc: Global,
    session: S,
    bytes: &[u8],
    out: &mut K,
) -> Result<S, Ended>
    ensures said { WasTold S.stands S.answer session (lines_of bytes.now) (K.taken out.old) (K.taken out.new) result }
    ensures reads { IfErr result InputReadsOn }
    ensures counted { K.faults out.new ≡ failed_says_of_session (K.faults out.old) result }
    ensures heard { K.hearing out.new ≡ K.hearing out.old }
{
    let mut session = session;
    let mut lines = Cursor::new(bytes);
    while let Some(line) = next_line(&mut lines) {
        session = answer(alloc, session, line, out)?;
    }
    Ok(session)
}

// The bytes up to the last line feed and with it, and those behind it.
fn split_whole(bytes: &[u8]) -> (&[u8], &[u8])
    ensures whole { result.0.now ≡ whole_part bytes.now }
    ensures parts { bytes.now ≡ result.0.now ++ result.1.now }
{
    match bytes.iter().rposition(|b| *b == b'\n') {
        Some(last) => bytes.split_at(last + 1),
        None => (&[], bytes),
    }
}

// Takes bytes that are empty or end with a line feed, and answers the lines that end in them.
fn end_lines<S: LineSession, K: Sink>(
    alloc: Global,
    reader: LineReader<S>,
    whole: &[u8],
    out: &mut K,
) -> Result<LineReader<S>, Ended>
    requires whole { whole_part whole.now ≡ whole.now }
    requires room { reader.count + length whole.now ≤ MOST_INPUT }
    ensures said { MatchResult result
        (λ next. SessionGoesOn S.stands S.answer whole.now (K.taken out.old) (K.taken out.new) (session_reader_of reader) (session_reader_of next))
        (SessionStopsIn S.stands S.answer whole.now (K.taken out.old) (K.taken out.new) (session_reader_of reader)) }
    ensures count { IfOk result (λ new. new.count ≡ reader.count + length whole.now) }
    ensures counted { K.faults out.new ≡ failed_says_of_session (K.faults out.old) result }
    ensures heard { K.hearing out.new ≡ K.hearing out.old }
{
    if whole.is_empty() {
        return Ok(reader);
    }
    let LineReader {
        session,
        mut begun,
        count,
    } = reader;
    begun.extend_from_slice(whole)?;
    let session = answer_lines(alloc, session, begun.as_slice(), out)?;
    begun.clear();
    Ok(LineReader {
        session,
        begun,
        count: count + whole.len(),
    })
}

// Takes bytes for which there is room, answers the lines that end in them, and keeps those of the line that is open then.
fn take_bytes<S: LineSession, K: Sink>(
    alloc: Global,
    reader: LineReader<S>,
    bytes: &[u8],
    out: &mut K,
) -> Result<LineReader<S>, Ended>
    requires room { reader.count + length bytes.now ≤ MOST_INPUT }
    ensures said { MatchResult result
        (λ next. SessionGoesOn S.stands S.answer bytes.now (K.taken out.old) (K.taken out.new) (session_reader_of reader) (session_reader_of next))
        (SessionStopsIn S.stands S.answer bytes.now (K.taken out.old) (K.taken out.new) (session_reader_of reader)) }
    ensures count { IfOk result (λ new. new.count ≡ reader.count + length bytes.now) }
    ensures counted { K.faults out.new ≡ failed_says_of_session (K.faults out.old) result }
    ensures heard { K.hearing out.new ≡ K.hearing out.old }
{
    let (whole, open_line) = split_whole(bytes);
    let LineReader {
        session,
        mut begun,
        count,
    } = end_lines(alloc, reader, whole, out)?;
    begun.extend_from_slice(open_line)?;
    Ok(LineReader {
        session,
        begun,
        count: count + open_line.len(),
    })
}

// Takes the bytes of a piece, as many as there is room for, and answers each line that ends in these.
fn take_piece<S: LineSession, K: Sink>(
    alloc: Global,
    reader: LineReader<S>,
    piece: &[u8],
    out: &mut K,
) -> Result<LineReader<S>, Ended>
    requires { reader.count ≤ MOST_INPUT }
    ensures said { MatchResult result
        (λ next. SessionGoesOn S.stands S.answer piece.now (K.taken out.old) (K.taken out.new) (session_reader_of reader) (session_reader_of next))
        (SessionStopsIn S.stands S.answer piece.now (K.taken out.old) (K.taken out.new) (session_reader_of reader)) }
    ensures count { IfOk result (λ new. new.count ≡ reader.count + length piece.now) }
    ensures within { IfOk result (λ new. new.count ≤ MOST_INPUT) }
    ensures counted { K.faults out.new ≡ failed_says_of_session (K.faults out.old) result }
    ensures heard { K.hearing out.new ≡ K.hearing out.old }
{
    let room = piece.len().min(MOST_INPUT - reader.count);
    let (within, past) = piece.split_at(room);
    let reader = take_bytes(alloc, reader, within, out)?;
    if !past.is_empty() {
        return Err(Ended::TooLarge);
    }
    Ok(reader)
}

// Reads a piece of the input and takes it. False comes at the end of the input, where there is none.
fn read_piece<S: LineSession, T: Terminal>(
    alloc: Global,
    reader: LineReader<S>,
    piece: &mut [u8],
    io: &mut T,
) -> Result<(LineReader<S>, bool), Ended>
    requires within { reader.count ≤ MOST_INPUT }
    requires room { 0 < length piece.old }
    ensures said { let terminal = terminal_at T.hearing T.taken T.faults in
        let exchange = exchange_of (length piece.old) (terminal io.old) (terminal io.new) in MatchResult result
        (λ heard. SessionHearsFrom S.stands S.answer exchange (session_reader_of reader) (heard_of heard))
        (SessionBreaksFrom S.stands S.answer exchange (session_reader_of reader)) }
    ensures count { IfOk result (λ heard. IsTrue heard.1 → reader.count < heard.0.count) }
    ensures within { IfOk result (λ heard. heard.0.count ≤ MOST_INPUT) }
    ensures reads { (T.hearing io.new).faults ≡ listened_after (T.hearing io.old).faults result }
    ensures counted { T.faults io.new ≡ failed_says_of_session (T.faults io.old) result }
{
    let count = io.read(piece)?;
    let reader = take_piece(alloc, reader, &piece[..count], io)?;
    Ok((reader, count > 0))
}

// Answers what is typed, up to the end of the input or of the session.
fn read_lines<S: LineSession, T: Terminal>(
    alloc: Global,
    reader: LineReader<S>,
    io: &mut T,
) -> Result<(), Ended>
    requires { reader.count ≡ 0 }
    ensures said { let terminal = terminal_at T.hearing T.taken T.faults in
        SessionHoldsFrom S.stands S.answer (terminal io.old) (terminal io.new) (session_reader_of reader) (why_session_ended result) }
    ensures reads { (T.hearing io.new).faults ≡ listened_after (T.hearing io.old).faults result }
    ensures counted { T.faults io.new ≡ failed_says_of_session (T.faults io.old) result }
{
    let mut reader = reader;
    let mut piece = [0; INPUT_PIECE];
    'hearing: loop {
        let room = INPUT_PIECE.min(MOST_INPUT + 1 - reader.count);
        let (next, more) = read_piece(alloc, reader, &mut piece[..room], io)?;
        if !more {
            answer_lines(alloc, next.session, next.begun.as_slice(), io)?;
            return Ok(());
        }
        reader = next;
    }
}

// Prints what a session says first, and holds it to its end.
fn run_session<S: LineSession, T: Terminal>(
    alloc: Global,
    session: S,
    opening: Text,
    io: &mut T,
) -> Result<(), Ended>
    ensures said { let terminal = terminal_at T.hearing T.taken T.faults in
        HeldSession S.stands S.answer (session_begun session opening) (terminal io.old) (terminal io.new) (why_session_ended result) }
    ensures reads { (T.hearing io.new).faults ≡ listened_after (T.hearing io.old).faults result }
    ensures counted { T.faults io.new ≡ failed_says_of_session (T.faults io.old) result }
{
    let reader = begin(alloc, session, opening, io)?;
    read_lines(alloc, reader, io)
}

/// Prints the opening, then answers each whole line of the input before it asks for more, and ends after a line that ends
/// the session, or after the last line.
pub fn converse<S: LineSession, T: Terminal>(
    alloc: Global,
    session: S,
    opening: Text,
    io: &mut T,
) -> Status
    ensures { let terminal = terminal_at T.hearing T.taken T.faults in
        (state : S.State) → S.stands session state → Converses (talker_of opening state S.answer) (terminal io.old) (terminal io.new) result }
{
    match run_session(alloc, session, opening, io) {
        Ok(()) => Status::Done,
        Err(Ended::Done) => Status::Done,
        Err(Ended::TooLarge) => say_refused(alloc, "input", Reason::TooLarge, io),
        Err(Ended::ReadFault) => Status::ReadFault,
        Err(Ended::WriteFault) => Status::WriteFault,
        Err(Ended::NoMemory) => Status::NoMemory,
    }
}
