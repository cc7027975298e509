// Each object of the outside through its trait, with a call that fails. `friday_cases` tries what commands do with real files.
use fri_outside::{
    Console, FileError, Files, MemFiles, MemSink, MemSource, MemTerminal, ReaderSource, RealFiles,
    Sink, Source, Terminal, WriteError, WriterSink, write_whole,
};
use std::alloc::Global;
use std::test::Fail;

// What is in a file, or why it was not read.
fn text_of<F: Files>(files: &mut F, alloc: Global, name: &str) -> Result<Vec<u8>, FileError> {
    files.read(alloc, name, 5)
}

// Makes a file of these two pieces.
fn make<F: Files>(
    files: &mut F,
    name: &str,
    first: &[u8],
    second: &[u8],
) -> Result<(), WriteError> {
    files.create(name)?;
    files.append(name, first)?;
    files.append(name, second)
}

#[test]
fn files_in_memory(rt: HostRuntime) -> Result<(), Fail> {
    let mut files = MemFiles::new(rt.alloc());
    make(&mut files, "a", b"abc", b"de")?;
    let bytes = text_of(&mut files, rt.alloc(), "a")?;
    assert_eq!(rt; bytes.as_slice(), b"abcde".as_slice());
    Ok(())
}

#[test]
fn a_write_in_memory_fails(rt: HostRuntime) -> Result<(), Fail> {
    let mut files = MemFiles::new(rt.alloc());
    files.put("a", b"kept")?;
    files.fail_at(1)?;
    assert_eq!(rt; files.append("a", b"12"), Err(WriteError::Failed));
    assert_eq!(rt; files.bytes("a").ok_or("it is there")?, b"kept1".as_slice());
    Ok(())
}

#[test]
fn a_file_in_memory_is_replaced(rt: HostRuntime) -> Result<(), Fail> {
    let mut files = MemFiles::new(rt.alloc());
    files.put("a", b"kept")?;
    files.fail_at(1)?;
    assert_eq!(rt; files.replace("a", b"12"), Err(WriteError::Failed));
    assert_eq!(rt; files.bytes("a").ok_or("it is there")?, b"kept".as_slice());
    files.replace("a", b"12")?;
    assert_eq!(rt; files.bytes("a").ok_or("it is there")?, b"12".as_slice());
    Ok(())
}

#[test]
fn a_source_in_memory(rt: HostRuntime) -> Result<(), Fail> {
    let mut source = MemSource::new(b"abcd".to_vec(rt.alloc())?, 3);
    source.fail_at(1)?;
    let mut room = [0; 4];
    assert!(rt; source.read(&mut room).is_err());
    assert!(rt; matches!(source.read(&mut room), Ok(3)));
    assert!(rt; matches!(source.read(&mut room), Ok(1)));
    Ok(())
}

#[test]
fn a_sink_in_memory(rt: HostRuntime) -> Result<(), Fail> {
    let mut sink = MemSink::new(rt.alloc());
    sink.fail_at(2)?;
    write_whole(&mut sink, b"abc")?;
    assert_eq!(rt; write_whole(&mut sink, b"de"), Err(WriteError::Failed));
    assert_eq!(rt; sink.bytes(), b"abc".as_slice());
    Ok(())
}

// Both ends of a terminal, through its trait.
fn talk<T: Terminal>(terminal: &mut T) -> Result<usize, WriteError> {
    write_whole(terminal, b"ab")?;
    let mut room = [0; 4];
    terminal.read(&mut room).map_err(|_| WriteError::Failed)
}

#[test]
fn a_terminal_in_memory(rt: HostRuntime) -> Result<(), Fail> {
    let mut input = MemSource::new(b"abcde".to_vec(rt.alloc())?, 3);
    input.fail_at(2)?;
    let out = MemSink::new(rt.alloc());
    let mut terminal = MemTerminal::new(rt.alloc(), input, out);
    assert_eq!(rt; talk(&mut terminal), Ok(3));
    assert!(rt; talk(&mut terminal).is_err());
    assert_eq!(rt; terminal.bytes(), b"abab".as_slice());
    Ok(())
}

#[test]
fn a_console(rt: HostRuntime) -> Result<(), Fail> {
    let input = MemSource::new(b"abcde".to_vec(rt.alloc())?, 3);
    let out = MemSink::new(rt.alloc());
    let mut console = Console { input, out };
    assert_eq!(rt; talk(&mut console), Ok(3));
    assert_eq!(rt; console.out.bytes(), b"ab".as_slice());
    Ok(())
}

// No command adds to a file that it did not make.
#[test]
fn a_folder_takes_no_bytes(rt: HostRuntime) {
    let mut files = RealFiles::new(rt.alloc(), &rt);
    assert_eq!(rt; files.append("/", b"a"), Err(WriteError::Failed));
    assert!(rt; !files.close().is_lost());
}

#[test]
fn readers_and_writers(rt: HostRuntime) {
    let mut source = ReaderSource::new(b"abc".as_slice());
    let mut room = [0; 4];
    assert!(rt; matches!(source.read(&mut room), Ok(3)));
    let mut sink = WriterSink::new(room.as_mut_slice());
    assert_eq!(rt; write_whole(&mut sink, b"12345"), Err(WriteError::Failed));
    assert_eq!(rt; room, *b"1234");
}
