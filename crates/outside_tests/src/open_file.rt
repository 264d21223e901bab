//! A real file that is read on while it is open.

use pipe_io::files::{Files, ReadPart};
use pipe_io::real::RealFiles;
use std::fs;
use std::test::Fail;

// The results of three reads of a file of five bytes that is removed after the first, and a byte of the
// second: from offset 0, from offset 4, and from offset 0 again.
fn read_on(rt: &HostRuntime, name: &str) -> Result<(ReadPart, ReadPart, u8, ReadPart), Fail> {
    let mut files = RealFiles::new(rt);
    let mut part = [0; 4];
    let first = files.read_part(name, 0, &mut part);
    fs::remove_file(rt, name)?;
    let second = files.read_part(name, 4, &mut part);
    let byte = part[0];
    // Offset 0 is in the file which has the name now.
    let third = files.read_part(name, 0, &mut part);
    Ok((first, second, byte, third))
}

#[test]
fn open_file_is_read_on(rt: HostRuntime) -> Result<(), Fail> {
    let name = "outside_tests_open_file.txt";
    fs::write(&rt, name, b"twice")?;
    let read = read_on(&rt, name)?;
    let wanted = (ReadPart::Got(4), ReadPart::Got(1), b'e', ReadPart::Missing);
    assert!(rt; read == wanted, "{read:?}");
    Ok(())
}
