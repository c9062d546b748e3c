ghost use Rattle.std.specs.Prelude.{◌≡◌, Some, IfSome, IsTrue, OnOk};

use shelf_io::{DirShelf, MemShelf, MemSink, OutSink, Shelf, ShelfFault, Sink};
use std::alloc::{AllocError, Global};
use std::fs;
use std::test::Fail;

/// Copies the bytes of one name to another, by what every shelf promises.
fn copy<S: Shelf>(alloc: Global, shelf: &mut S, from: &str, to: &str) -> Result<(), ShelfFault>
    ensures { OnOk result (IsTrue (S.view shelf.old).tells → IfSome ((S.view shelf.old).content from.now) (λ held. (S.view shelf.new).content to.now ≡ Some held)) }
{
    let bytes = shelf.read(alloc, from)?;
    shelf.write(to, bytes.as_slice())
}

/// Whether a read gives these bytes.
fn has<S: Shelf>(alloc: Global, shelf: &mut S, name: &str, bytes: &[u8]) -> bool {
    match shelf.read(alloc, name) {
        Ok(found) => found.as_slice() == bytes,
        Err(_) => false,
    }
}

/// Whether a read fails.
fn fails<S: Shelf>(alloc: Global, shelf: &mut S, name: &str) -> bool {
    match shelf.read(alloc, name) {
        Err(ShelfFault::Failed) => true,
        _ => false,
    }
}

/// Two entries of one name.
fn twice(alloc: Global) -> Result<Vec<(String, Vec<u8>)>, AllocError> {
    let first = (String::from_str(alloc, "a")?, b"one".to_vec(alloc)?);
    let second = (String::from_str(alloc, "a")?, b"two".to_vec(alloc)?);
    Ok(vec![in alloc; first, second]?)
}

#[test]
fn shelves_in_memory(rt: HostRuntime) -> Result<(), Fail> {
    let alloc = rt.alloc();
    let mut shelf = MemShelf::new(alloc, twice(alloc)?, vec![in alloc; 1, 4]?)?;
    let as_promised = [
        has(alloc, &mut shelf, "a", b"two"),
        fails(alloc, &mut shelf, "a"),
        fails(alloc, &mut shelf, "b"),
        shelf.write("b", b"three").is_ok(),
        shelf.write("b", b"four").is_err(),
        has(alloc, &mut shelf, "b", b"three"),
    ];
    assert_eq!(rt; as_promised, [true; 6]);
    let mut sound = MemShelf::sound(alloc, twice(alloc)?)?;
    copy(alloc, &mut sound, "a", "b")?;
    assert!(rt; has(alloc, &mut sound, "b", b"two"));
    Ok(())
}

#[test]
fn sinks(rt: HostRuntime) -> Result<(), Fail> {
    let alloc = rt.alloc();
    let mut sink = MemSink::new(Vec::with_capacity(alloc, 5)?, vec![in alloc; 1]?);
    let as_promised = [
        sink.put(b"abc").is_ok(),
        sink.put(b"d").is_err(),
        sink.put(b"def").is_err(),
        sink.put(b"de").is_ok(),
        sink.bytes() == b"abcde".as_slice(),
    ];
    assert_eq!(rt; as_promised, [true; 5]);
    OutSink::new(rt.stdout()).put(b"put\n")?;
    Ok(())
}

#[test]
fn files_of_the_folder(rt: HostRuntime) {
    let alloc = rt.alloc();
    let mut shelf = DirShelf::new(&rt, alloc);
    let mut later = DirShelf::new(&rt, alloc);
    let as_promised = [
        shelf.write("shelf_io_test", b"longer than this").is_ok(),
        later.write("./shelf_io_test", b"\0\xff\n").is_ok(),
        has(alloc, &mut later, "shelf_io_test", b"\0\xff\n"),
        later.write("shelf_io_test", b"used before").is_err(),
        has(alloc, &mut shelf, "shelf_io_test", b"\0\xff\n"),
        fails(alloc, &mut shelf, ".shelf_io_test.spmlink-new"),
        fs::remove_file(&rt, "shelf_io_test").is_ok(),
        fails(alloc, &mut shelf, "shelf_io_test"),
    ];
    assert_eq!(rt; as_promised, [true; 8]);
}
