use kripke_model::Name;
use smv_outside::{
    DiskFiles, Entry, Files, LoadFault, MemFiles, MemSink, SaveFault, Sink, SinkFault, StdSink,
    have_distinct_names,
};
use std::alloc::{AllocError, Global};
use std::test::Fail;
use std::{fs, io};

fn entry(alloc: Global, name: &str, bytes: &[u8]) -> Result<Entry, AllocError> {
    Ok(Entry {
        name: Name::new(String::from_str(alloc, name)?),
        bytes: bytes.to_vec(alloc)?,
    })
}

fn load<F: Files>(files: &mut F, name: &str, most: usize) -> Result<Vec<u8>, LoadFault> {
    files.load(name, most)
}

fn save<F: Files>(files: &mut F, name: &str, bytes: &[u8]) -> Result<(), SaveFault> {
    files.save(name, bytes)
}

fn put<S: Sink>(sink: &mut S, bytes: &[u8]) -> Result<(), SinkFault> {
    sink.put(bytes)
}

#[test]
fn files_in_memory_answer_by_their_entries(rt: HostRuntime) -> Result<(), Fail> {
    let alloc = rt.alloc();
    let entries = vec![in alloc; entry(alloc, "m", b"abc")?, entry(alloc, "n", b"")?]?;
    assert!(rt; have_distinct_names(&entries));
    let mut files = MemFiles::new(alloc, entries, vec![in alloc; 2]?);
    assert_eq!(rt; load(&mut files, "m", 3)?.as_slice(), b"abc".as_slice());
    assert_eq!(rt;
        load(&mut files, "m", 2).err(),
        Some(LoadFault::TooLong { taken: 3 })
    );
    assert_eq!(rt; load(&mut files, "m", 3).err(), Some(LoadFault::Failed));
    assert_eq!(rt; load(&mut files, "o", 3).err(), Some(LoadFault::NotThere));
    assert_eq!(rt; load(&mut files, "n", 0)?.len(), 0);
    assert_eq!(rt; files.contents().len(), 2);
    Ok(())
}

// Call 2 fails: the file that it names is gone.
#[test]
fn files_in_memory_keep_what_is_saved(rt: HostRuntime) -> Result<(), Fail> {
    let alloc = rt.alloc();
    let entries = vec![in alloc; entry(alloc, "m", b"abc")?, entry(alloc, "n", b"d")?]?;
    assert!(rt; have_distinct_names(&entries));
    let mut files = MemFiles::new(alloc, entries, vec![in alloc; 2]?);
    save(&mut files, "m", b"ef")?;
    save(&mut files, "o", b"")?;
    assert_eq!(rt; save(&mut files, "n", b"g"), Err(SaveFault::Failed));
    assert_eq!(rt; load(&mut files, "m", 3)?.as_slice(), b"ef".as_slice());
    assert_eq!(rt; load(&mut files, "o", 3)?.len(), 0);
    assert_eq!(rt; load(&mut files, "n", 3).err(), Some(LoadFault::NotThere));
    assert_eq!(rt; files.contents().len(), 2);
    Ok(())
}

#[test]
fn a_sink_in_memory_holds_what_it_has_room_for(rt: HostRuntime) -> Result<(), Fail> {
    let alloc = rt.alloc();
    let mut sink = MemSink::new(alloc, 4, vec![in alloc; 1]?)?;
    put(&mut sink, b"ab")?;
    assert_eq!(rt; put(&mut sink, b"c"), Err(SinkFault::Failed));
    assert_eq!(rt; put(&mut sink, b"cde"), Err(SinkFault::Failed));
    put(&mut sink, b"cd")?;
    assert_eq!(rt; sink.written(), b"abcd".as_slice());
    Ok(())
}

// A directory is opened, and its first read fails.
#[test]
fn the_disk_gives_what_was_written(rt: HostRuntime) -> Result<(), Fail> {
    fs::write(&rt, "file", "abc")?;
    let mut files = DiskFiles::new(rt.alloc(), &rt);
    assert_eq!(rt; load(&mut files, "file", 3)?.as_slice(), b"abc".as_slice());
    for (name, most, want) in [
        ("file", 2, LoadFault::TooLong { taken: 3 }),
        ("file", 1, LoadFault::TooLong { taken: 2 }),
        ("other", 3, LoadFault::NotThere),
        (".", 3, LoadFault::Failed),
    ] {
        assert_eq!(rt; load(&mut files, name, most).err(), Some(want), "at {name}");
    }
    fs::remove_file(&rt, "file")?;
    Ok(())
}

// The second save is shorter than the first one. A directory is no file that could be made.
#[test]
fn the_disk_keeps_what_is_saved(rt: HostRuntime) -> Result<(), Fail> {
    let mut files = DiskFiles::new(rt.alloc(), &rt);
    for bytes in [b"a longer text".as_slice(), b"short".as_slice()] {
        save(&mut files, "saved", bytes)?;
        assert_eq!(rt; load(&mut files, "saved", 99)?.as_slice(), bytes);
    }
    assert_eq!(rt; save(&mut files, ".", b"ab"), Err(SaveFault::Failed));
    fs::remove_file(&rt, "saved")?;
    Ok(())
}

// A file that was opened to be read takes no bytes.
#[test]
fn the_output_takes_what_is_put(rt: HostRuntime) -> Result<(), Fail> {
    put(&mut StdSink::new(io::writer(&rt)), b"put\n")?;

    let mut sink = StdSink::new(fs::create(&rt, "put")?);
    put(&mut sink, b"ab")?;
    put(&mut sink, b"cd")?;
    let mut files = DiskFiles::new(rt.alloc(), &rt);
    assert_eq!(rt; load(&mut files, "put", 9)?.as_slice(), b"abcd".as_slice());

    let mut shut = StdSink::new(fs::open(&rt, "put")?);
    assert_eq!(rt; put(&mut shut, b"e"), Err(SinkFault::Failed));
    fs::remove_file(&rt, "put")?;
    Ok(())
}
