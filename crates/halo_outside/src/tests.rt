// What the objects in memory do call by call, and the real ones over the system.
use super::*;
use std::alloc::{AllocError, Global};
use std::test::Fail;
use std::{env, fs, process};

fn named(alloc: Global, name: &str, bytes: &[u8]) -> Result<Named, AllocError> {
    Ok(Named {
        name: String::from_str(alloc, name)?,
        bytes: bytes.to_vec(alloc)?,
    })
}

fn three_files(alloc: Global) -> Result<Vec<Named>, AllocError> {
    let mut files = Vec::new(alloc);
    for (name, bytes) in [("a", b"first".as_slice()), ("b", b""), ("a", b"second")] {
        files.push(named(alloc, name, bytes)?)?;
    }
    Ok(files)
}

#[test]
fn files_in_memory_fail_where_told(rt: HostRuntime) -> Result<(), Fail> {
    let alloc = rt.alloc();
    let mut files = MemFiles::new(three_files(alloc)?, [1, 3].to_vec(alloc)?);
    for (name, limit, want) in [
        ("a", 5, Ok(5)),
        ("a", 5, Err(FileFault::Failed)),
        ("c", 5, Err(FileFault::Failed)),
        ("c", 5, Err(FileFault::Failed)),
        ("a", 4, Err(FileFault::TooLong)),
        ("b", 0, Ok(0)),
        ("ab", 9, Err(FileFault::Failed)),
        ("a", 9, Ok(5)),
    ] {
        let answer = files.read(alloc, name, limit).map(|bytes| bytes.len());
        assert_eq!(rt; answer, want, "{name} {limit}");
    }
    Ok(())
}

#[test]
fn source_in_memory_gives_pieces(rt: HostRuntime) -> Result<(), Fail> {
    let alloc = rt.alloc();
    let mut source = MemSource::new(b"abcdefg".to_vec(alloc)?, 3, [1].to_vec(alloc)?);
    for (room, want, after) in [
        (4, Ok(3), b"abc."),
        (4, Err(Failed), b"...."),
        (0, Ok(0), b"...."),
        (2, Ok(2), b"de.."),
        (4, Ok(2), b"fg.."),
        (4, Ok(0), b"...."),
    ] {
        let mut into = *b"....";
        assert!(rt; room <= 4);
        assert_eq!(rt; source.read(&mut into[..room]), want);
        assert_eq!(rt; &into, after);
    }
    Ok(())
}

#[test]
fn a_source_gives_at_least_one_byte(rt: HostRuntime) -> Result<(), Fail> {
    let alloc = rt.alloc();
    let mut source = MemSource::new(b"xy".to_vec(alloc)?, 0, Vec::new(alloc));
    assert_eq!(rt; source.read(&mut [0; 4]), Ok(1));
    Ok(())
}

#[test]
fn sink_in_memory_takes_pieces(rt: HostRuntime) -> Result<(), Fail> {
    let alloc = rt.alloc();
    let mut sink = MemSink::new(alloc, 7, 3, [1, 2].to_vec(alloc)?)?;
    for (piece, want) in [
        (b"abcde".as_slice(), Ok(3)),
        (b"de", Err(Failed)),
        (b"", Ok(0)),
        (b"de", Ok(2)),
        (b"fgh", Ok(2)),
        (b"h", Err(Failed)),
        (b"", Ok(0)),
    ] {
        assert_eq!(rt; sink.write(piece), want);
    }
    assert_eq!(rt; sink.bytes(), b"abcdefg".as_slice());
    Ok(())
}

#[test]
fn write_all_goes_on_to_the_end_or_a_failure(rt: HostRuntime) -> Result<(), Fail> {
    let alloc = rt.alloc();
    for (room, failing, want, held) in [
        (8, 9, Ok(()), b"abcdefgh".as_slice()),
        (8, 2, Err(Failed), b"abcdef"),
        (7, 9, Err(Failed), b"abcdefg"),
    ] {
        let mut sink = MemSink::new(alloc, room, 3, [failing].to_vec(alloc)?)?;
        assert_eq!(rt; write_all(&mut sink, b"abcdefgh"), want);
        assert_eq!(rt; sink.bytes(), held);
    }
    Ok(())
}

#[test]
fn sure_forms_do_not_fail(rt: HostRuntime) -> Result<(), Fail> {
    let mut source = SureSource::new(b"abcde".to_vec(rt.alloc())?);
    let mut into = *b".......";
    assert_eq!(rt; source.read(&mut into), Ok(5));
    assert_eq!(rt; &into, b"abcde..");
    assert_eq!(rt; write_all(&mut SureSink::new(), &into), Ok(()));
    Ok(())
}

#[test]
fn real_files_are_read_by_path(rt: HostRuntime) -> Result<(), Fail> {
    let alloc = rt.alloc();
    let name = format!(in alloc; "halo-outside-{}", process::id(rt.process()))?;
    let path = env::temp_dir(&rt)?.join(alloc, name.as_str())?;
    let long = vec![in alloc; 7; 5000]?;
    fs::write(&rt, path.as_path(), long.as_slice())?;
    let mut files = RealFiles::new(&rt);
    let all = files.read(alloc, path.as_str(), 5000);
    let shorter = files.read(alloc, path.as_str(), 4999);
    fs::remove_file(&rt, path.as_path())?;
    let missing = files.read(alloc, path.as_str(), 5000);
    assert_eq!(rt; all?.as_slice(), long.as_slice());
    assert!(rt; matches!(shorter, Err(FileFault::TooLong)));
    assert!(rt; matches!(missing, Err(FileFault::Failed)));
    Ok(())
}

#[test]
fn a_real_source_reads_to_the_end(rt: HostRuntime) {
    let mut source = RealSource::new(b"abcde".as_slice());
    for (want, after) in [(Ok(3), b"abc"), (Ok(2), b"de."), (Ok(0), b"...")] {
        let mut into = *b"...";
        assert_eq!(rt; source.read(&mut into), want);
        assert_eq!(rt; &into, after);
    }
}

#[test]
fn a_real_sink_without_room_fails(rt: HostRuntime) {
    let mut room = *b"....";
    let mut sink = RealSink::new(room.as_mut_slice());
    for (piece, want) in [
        (b"abc".as_slice(), Ok(3)),
        (b"de", Ok(1)),
        (b"e", Err(Failed)),
        (b"", Ok(0)),
    ] {
        assert_eq!(rt; sink.write(piece), want);
    }
    assert_eq!(rt; &room, b"abcd");
}
