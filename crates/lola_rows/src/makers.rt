// Each call of the lower crates that may want memory, with enough of it.
use lola_bits::{Bits, Name, Seq, fits};
use lola_port::{MemSink, MemStore, RealStore, Sink, Store, StoreError};
use std::fs;
use std::test::Fail;

#[test]
fn names_and_lists_hold_what_they_are_given(rt: HostRuntime) -> Result<(), Fail> {
    let alloc = rt.alloc();
    let name = Name::new(alloc, "q0").map_err(|_| "memory")?;
    assert_eq!(rt; name.text(), "q0");
    let mut list = Seq::new(alloc);
    list.push(7u8).map_err(|_| "memory")?;
    list.push(9u8).map_err(|_| "memory")?;
    assert_eq!(rt; list.items(), [7, 9].as_slice());
    for item in list.items_mut() {
        *item = 3;
    }
    assert_eq!(rt; list.items(), [3, 3].as_slice());
    let list = Seq::of(vec![in alloc; 1u8, 2]?);
    assert_eq!(rt; list.items(), [1, 2].as_slice());
    Ok(())
}

#[test]
fn widths_hold_numbers_below_their_power(rt: HostRuntime) {
    assert!(rt; fits(1, 1) && !fits(1, 2) && !fits(0, 0) && !fits(129, 0));
    assert!(rt; fits(128, u128::MAX) && fits(127, u128::MAX / 2) && !fits(127, u128::MAX / 2 + 1));
    assert_eq!(rt; Bits::new(8, 255).value, 255);
}

#[test]
fn a_store_in_memory_reads_what_it_wrote(rt: HostRuntime) -> Result<(), Fail> {
    let alloc = rt.alloc();
    let mut store = MemStore::new(alloc, Vec::new(alloc), vec![in alloc; 4]?).map_err(
        |_| "memory",
    )?;
    assert_eq!(rt; store.write_all(alloc, "a", b"one"), Ok(()));
    let read = store.read_all(alloc, "a", 3)?;
    assert_eq!(rt; read.as_slice(), b"one".as_slice());
    assert!(rt; matches!(store.read_all(alloc, "a", 2), Err(StoreError::TooLong)));
    assert!(rt; matches!(store.read_all(alloc, "b", 2), Err(StoreError::Failed)));
    assert_eq!(rt;
        store.write_all(alloc, "a", b"two"),
        Err(StoreError::Failed)
    );
    assert_eq!(rt; store.file("a"), Some(b"one".as_slice()));
    Ok(())
}

#[test]
fn a_sink_in_memory_keeps_its_pieces(rt: HostRuntime) -> Result<(), Fail> {
    let alloc = rt.alloc();
    let mut sink = MemSink::new(alloc, vec![in alloc; 1]?).map_err(|_| "memory")?;
    assert_eq!(rt; sink.write(b"ab"), Ok(2));
    assert_eq!(rt; sink.write(b""), Ok(0));
    assert!(rt; sink.write(b"cd").is_err());
    assert_eq!(rt; sink.write(b"ef"), Ok(2));
    assert_eq!(rt; sink.bytes(), b"abef".as_slice());
    Ok(())
}

#[test]
fn the_files_of_the_system_are_read_as_written(rt: HostRuntime) -> Result<(), Fail> {
    let alloc = rt.alloc();
    let name = "real_store_test.txt";
    let mut store = RealStore::new(alloc, &rt);
    assert_eq!(rt; store.write_all(alloc, name, b"one"), Ok(()));
    let read = store.read_all(alloc, name, 3)?;
    assert_eq!(rt; read.as_slice(), b"one".as_slice());
    assert!(rt; matches!(store.read_all(alloc, name, 2), Err(StoreError::TooLong)));
    fs::remove_file(&rt, name)?;
    assert!(rt; matches!(store.read_all(alloc, name, 3), Err(StoreError::Failed)));
    Ok(())
}
