ghost use Rattle.std.specs.Prelude.{◌<◌};

use outside_ports::{
    FileShelf, LoadFault, MemShelf, MemSink, OutSink, Shelf, ShelfFault, Sink, SinkFault,
    SystemFiles, load, put_all,
};
use std::alloc::{AllocError, Global};
use std::rt::Runtime;
use std::test::Fail;
use std::{env, fs};

/// A shelf of two inputs. The name of the first is there twice.
fn two_inputs(alloc: Global, piece: usize, failing: &[u64]) -> Result<MemShelf, AllocError>
    requires { 0 < piece }
{
    let mut files = Vec::new(alloc);
    for (name, bytes) in [("set", "abcdefg"), ("set", "later"), ("empty", "")] {
        let name = String::from_str(alloc, name)?;
        let bytes = Vec::from_slice(alloc, bytes.as_bytes())?;
        files.push((name, bytes))?;
    }
    Ok(MemShelf::new(files, piece, Vec::from_slice(alloc, failing)?))
}

#[test]
fn loads_from_memory(rt: HostRuntime) -> Result<(), Fail> {
    let cases: [(&str, &[u64], Result<&[u8], LoadFault>); 7] = [
        ("set", &[], Ok(b"abcdefg")),
        ("empty", &[], Ok(b"")),
        ("none", &[], Err(LoadFault::Absent)),
        ("set", &[1], Err(LoadFault::Read)),
        ("set", &[2], Err(LoadFault::Read)),
        ("set", &[5], Err(LoadFault::Read)),
        ("set", &[6], Ok(b"abcdefg")),
    ];
    for (name, failing, want) in cases {
        let mut shelf = two_inputs(rt.alloc(), 3, failing)?;
        let got = load(rt.alloc(), &mut shelf, name);
        match (got, want) {
            (Ok(bytes), Ok(text)) => assert_eq!(rt; bytes.as_slice(), text, "{name}"),
            (Err(fault), Err(other)) => assert_eq!(rt; fault, other, "{name}"),
            _ => assert!(rt; false, "{name}"),
        }
    }
    Ok(())
}

#[test]
fn reads_pieces(rt: HostRuntime) -> Result<(), Fail> {
    let mut shelf = two_inputs(rt.alloc(), 3, &[4])?;
    let mut buffer = [0u8; 2];
    let mut large = [0u8; 8];
    assert_eq!(rt; shelf.read(&mut buffer), Ok(0));
    assert_eq!(rt; shelf.start("set"), Ok(()));
    assert_eq!(rt; shelf.read(&mut buffer), Ok(2));
    assert_eq!(rt; buffer, *b"ab");
    assert_eq!(rt; shelf.read(&mut large), Err(ShelfFault::Failed));
    assert_eq!(rt; shelf.read(&mut large), Ok(3));
    assert_eq!(rt; shelf.read(&mut large), Ok(2));
    assert_eq!(rt; shelf.read(&mut large), Ok(0));
    assert_eq!(rt; large, *b"fge\0\0\0\0\0");
    assert_eq!(rt; shelf.start("none"), Err(ShelfFault::Absent));
    Ok(())
}

#[test]
fn puts_into_memory(rt: HostRuntime) -> Result<(), Fail> {
    let cases: [(usize, &[u64], &[u8], Result<(), SinkFault>); 5] = [
        (7, &[], b"abcdefg", Ok(())),
        (9, &[4], b"abcdefg", Ok(())),
        (7, &[1], b"", Err(SinkFault)),
        (7, &[2], b"abc", Err(SinkFault)),
        (6, &[], b"abcdef", Err(SinkFault)),
    ];
    for (room, failing, written, want) in cases {
        let failing = Vec::from_slice(rt.alloc(), failing)?;
        let mut sink = MemSink::new(rt.alloc(), room, 3, failing)?;
        assert_eq!(rt; put_all(&mut sink, b"abcdefg"), want, "room {room}");
        assert_eq!(rt; sink.written(), written, "room {room}");
    }
    Ok(())
}

#[test]
fn reads_real_files(rt: HostRuntime) -> Result<(), Fail> {
    let path = env::temp_dir(&rt)?
        .as_path()
        .join(rt.alloc(), "outside_ports_test")?;
    fs::write(&rt, path.as_path(), "from a file")?;
    let name = path.as_path().to_str().ok_or("no text")?;
    let mut shelf = FileShelf::new(SystemFiles::new(&rt));
    let bytes = load(rt.alloc(), &mut shelf, name)?;
    assert_eq!(rt; bytes.as_slice(), b"from a file".as_slice());
    fs::remove_file(&rt, path.as_path())?;
    assert_eq!(rt; shelf.start(name), Err(ShelfFault::Absent));
    assert_eq!(rt; shelf.read(&mut [0u8; 8]), Ok(0));
    assert_eq!(rt; shelf.start("/"), Ok(()));
    assert_eq!(rt; shelf.read(&mut [0u8; 8]), Err(ShelfFault::Failed));
    Ok(())
}

#[test]
fn writes_to_standard_output(rt: HostRuntime) -> Result<(), Fail> {
    let mut sink = OutSink::new(rt.stdout());
    assert_eq!(rt; sink.write(b"one line\n"), Ok(9));
    assert_eq!(rt; put_all(&mut sink, b"another line\n"), Ok(()));
    Ok(())
}

#[test]
fn reads_4096_bytes_at_a_time(rt: HostRuntime) -> Result<(), Fail> {
    let cases: [(u64, bool); 3] = [(3, false), (4, false), (5, true)];
    for (failing, loads) in cases {
        let mut files = Vec::new(rt.alloc());
        let bytes = Vec::from_slice(rt.alloc(), &[7; 4097])?;
        files.push((String::from_str(rt.alloc(), "long")?, bytes))?;
        let failing = Vec::from_slice(rt.alloc(), &[failing])?;
        let mut shelf = MemShelf::new(files, 10_000, failing);
        let loaded = load(rt.alloc(), &mut shelf, "long");
        assert_eq!(rt; loaded.is_ok(), loads);
    }
    Ok(())
}

#[test]
fn moves_more_than_a_megabyte(rt: HostRuntime) -> Result<(), Fail> {
    let text = vec![in rt.alloc(); b'x'; 1_300_000]?;
    let mut files = Vec::new(rt.alloc());
    let name = String::from_str(rt.alloc(), "large")?;
    files.push((name, Vec::from_slice(rt.alloc(), &text)?))?;
    let mut shelf = MemShelf::new(files, 10_000, Vec::new(rt.alloc()));
    let loaded = load(rt.alloc(), &mut shelf, "large")?;
    assert!(rt; loaded == text);
    let mut sink = MemSink::new(rt.alloc(), 1_300_000, 70_000, Vec::new(rt.alloc()))?;
    assert_eq!(rt; put_all(&mut sink, &loaded), Ok(()));
    assert!(rt; sink.written() == text.as_slice());
    Ok(())
}
