//! What is loaded of files on disk.
use crate::outside::loads;
use io_edge::opener::{LoadError, Opener};
use io_edge::system_files::SystemFiles;
use std::fs;
use std::test::Fail;

#[test]
fn the_front_of_a_file_is_loaded_by_its_path(rt: HostRuntime) -> Result<(), Fail> {
    let mut opener = SystemFiles::new(rt.alloc(), rt);
    let (file, empty) = ("ten_digits.txt", "no_bytes.txt");
    fs::write(&rt, file, "0123456789")?;
    fs::write(&rt, empty, "")?;
    for (name, most, wanted) in [
        (file, 1000001, Ok("0123456789")),
        (file, 10, Ok("0123456789")),
        (file, 9, Ok("012345678")),
        (file, 1, Ok("0")),
        (file, 0, Ok("")),
        (empty, 9, Ok("")),
    ] {
        loads(&rt, &mut opener, name, most, wanted);
    }
    fs::remove_file(&rt, file)?;
    fs::remove_file(&rt, empty)?;
    Ok(())
}

#[test]
fn a_long_file_is_loaded_up_to_the_most(rt: HostRuntime) -> Result<(), Fail> {
    let alloc = rt.alloc();
    let mut opener = SystemFiles::new(alloc, rt);
    let file = "million_bytes.txt";
    let bytes = vec![in alloc; 7u8; 1000000]?;
    fs::write(&rt, file, bytes)?;
    for (most, wanted) in [(999999, 999999), (1000000, 1000000), (1000001, 1000000)] {
        let Ok(loaded) = opener.load(file, most) else {
            panic!(rt; "no file for {most}");
        };
        assert_eq!(rt; loaded.len(), wanted);
        assert!(rt; loaded.iter().all(|byte| *byte == 7));
    }
    fs::remove_file(&rt, file)?;
    Ok(())
}

#[test]
fn what_is_no_file_is_missing_or_fails(rt: HostRuntime) -> Result<(), Fail> {
    let mut opener = SystemFiles::new(rt.alloc(), rt);
    let file = "one_word.txt";
    fs::write(&rt, file, "word")?;
    for (name, wanted) in [
        ("no_such_file.txt", LoadError::Missing),
        ("no_such_folder/one_word.txt", LoadError::Missing),
        ("", LoadError::Missing),
        (".", LoadError::Failed),
        ("one_word.txt/below", LoadError::Failed),
        ("one_word\0.txt", LoadError::Failed),
    ] {
        loads(&rt, &mut opener, name, 9, Err(wanted));
    }
    loads(&rt, &mut opener, file, 9, Ok("word"));
    fs::remove_file(&rt, file)?;
    Ok(())
}
