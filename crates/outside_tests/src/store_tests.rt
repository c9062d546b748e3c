use cell_values::{Cell, CellStore, Val, join, split};
use paged_store::{ByteStore, ListStore, PageStore};
use std::test::Fail;

#[test]
fn pages(rt: HostRuntime) -> Result<(), Fail> {
    let mut store = PageStore::new(rt.alloc());
    assert_eq!(rt; store.get_word(0x0001_0ffe), 0);
    store.room(0x0001_0ffe, 4)?;
    store.set_word(0x0001_0ffe, 0x1234_5678)?;
    assert_eq!(rt; store.get_half(0x0001_0ffe), 0x5678);
    assert_eq!(rt; store.get_half(0x0001_1000), 0x1234);
    assert_eq!(rt; store.get_word(0x0001_0ffc), 0x5678_0000);
    assert_eq!(rt; store.get(0x0002_1000), 0);
    let mut store = PageStore::new(rt.alloc());
    store.set_bytes(0xffff_effe, b"abcd")?;
    assert_eq!(rt; store.get_word(0xffff_effe), 0x6463_6261);
    assert_eq!(rt; store.get(0xffff_f000), b'c');
    assert_eq!(rt; store.get(0x0000_0000), 0);
    Ok(())
}

#[test]
fn listed_bytes(rt: HostRuntime) -> Result<(), Fail> {
    let mut store = ListStore::new(rt.alloc());
    store.room(0xffff_fffe, 4)?;
    store.set_word(0xffff_fffe, 0x1234_5678)?;
    assert_eq!(rt; store.get(0), 0x34);
    assert_eq!(rt; store.get_half(0xffff_ffff), 0x3456);
    assert_eq!(rt; store.get_word(0xffff_fffe), 0x1234_5678);
    let mut store = ListStore::new(rt.alloc());
    store.set(7, 1)?;
    store.set(7, 2)?;
    assert_eq!(rt; store.get(7), 2);
    assert_eq!(rt; store.get(8), 0);
    Ok(())
}

#[test]
fn keeps_parts_over_bytes_and_bytes_over_parts(rt: HostRuntime) -> Result<(), Fail> {
    let mut store = CellStore::new(rt.alloc());
    assert_eq!(rt; store.get(0x0001_2000), Cell::Byte(0));
    store.set(0x0001_2001, Cell::Byte(9))?;
    let address = Val::Addr { obj: 3, off: 8 };
    store.set_all(0x0001_2000, &split(&address))?;
    let word = [0x0001_2000u32, 0x0001_2001, 0x0001_2002, 0x0001_2003].map(|at| store.get(at));
    assert_eq!(rt; join(word), address);
    store.set_all(0x0001_2002, &split(&Val::Int(0x1234_5678)))?;
    let second = Cell::Part {
        hi: false,
        obj: 3,
        off: 8,
        k: 1,
    };
    assert_eq!(rt; store.get(0x0001_2001), second);
    assert_eq!(rt; store.get(0x0001_2002), Cell::Byte(0x78));
    assert_eq!(rt; store.get(0x0001_2005), Cell::Byte(0x12));
    assert_eq!(rt; store.get(0x0001_2006), Cell::Byte(0));
    Ok(())
}

#[test]
fn puts_all_or_nothing(rt: HostRuntime) -> Result<(), Fail> {
    let mut store = CellStore::new(rt.alloc());
    let cells = [Cell::Byte(1), Cell::Mist, Cell::Byte(3)];
    let left = match store.set_all(0xffff_fffd, &cells) {
        Ok(()) => cells,
        Err(_) => [Cell::Byte(0), Cell::Byte(0), Cell::Byte(0)],
    };
    let found = [0xffff_fffdu32, 0xffff_fffe, 0xffff_ffff].map(|at| store.get(at));
    assert_eq!(rt; found, left);
    Ok(())
}
