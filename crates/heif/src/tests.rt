use super::*;
use crate::real::{RETRIES, read_again, write_again};
use hf_desk::{Desk, ReadStop, put_all, read_all};
use std::alloc::Global;
use std::cell::Cell;
use std::fs;
use std::io::Write;
use std::os::unix::fs::FileExt;
use std::test::Fail;

/// Whether the file of this name is read where so many bytes are the most, and is these.
fn is_read(alloc: Global, desk: &mut RealDesk, name: &str, most: u64, wanted: &[u8]) -> bool {
    match read_all(alloc, desk, name, most) {
        Ok(bytes) => bytes.as_slice() == wanted,
        Err(_) => false,
    }
}

/// Whether the file of this name is refused so, where nine bytes are the most.
fn is_refused(alloc: Global, desk: &mut RealDesk, name: &str, wanted: ReadStop) -> bool {
    match read_all(alloc, desk, name, 9) {
        Ok(_) => false,
        Err(why) => why == wanted,
    }
}

#[test]
fn a_file_is_made_and_read_back(rt: HostRuntime) -> Result<(), Fail> {
    let mut desk = RealDesk::new(&rt);
    desk.create("made")?;
    put_all(&mut desk, b"0123456789")?;
    assert!(rt; is_read(rt.alloc(), &mut desk, "made", 10, b"0123456789"));
    assert!(rt; is_refused(rt.alloc(), &mut desk, "made", ReadStop::TooLong));
    fs::remove_file(&rt, "made")?;
    Ok(())
}

#[test]
fn no_file_is_made_over_another(rt: HostRuntime) -> Result<(), Fail> {
    fs::write(&rt, "there", b"1")?;
    let mut desk = RealDesk::new(&rt);
    assert!(rt; desk.create("there").is_err());
    assert!(rt; is_refused(rt.alloc(), &mut desk, ".", ReadStop::Fault));
    assert!(rt; is_refused(rt.alloc(), &mut desk, "absent", ReadStop::Fault));
    fs::remove_file(&rt, "there")?;
    Ok(())
}

/// A file of zeros whose first calls are interrupted: so many.
#[derive(Drop)]
struct InterruptedFile {
    left: Cell<u32>,
}

impl InterruptedFile {
    fn next(&self) -> io::Result<()> {
        let left = self.left.get();
        if left == 0 {
            return Ok(());
        }
        self.left.set(left - 1);
        Err(io::Error::from(ErrorKind::Interrupted))
    }
}

impl FileExt for InterruptedFile {
    fn read_at(&self, buf: &mut [u8], _offset: u64) -> io::Result<usize> {
        self.next()?;
        Ok(buf.len())
    }

    fn write_at(&self, buf: &[u8], _offset: u64) -> io::Result<usize> {
        self.next()?;
        Ok(buf.len())
    }
}

impl Write for InterruptedFile {
    fn write(&mut self, buf: &[u8]) -> io::Result<usize> {
        self.next()?;
        Ok(buf.len())
    }

    fn flush(&mut self) -> io::Result<()> {
        Ok(())
    }
}

fn interrupted(times: u32) -> InterruptedFile {
    InterruptedFile {
        left: Cell::new(times),
    }
}

#[test]
fn an_interrupted_call_is_tried_again(rt: HostRuntime) {
    let mut buf = [0u8; 3];
    let mut file = interrupted(RETRIES);
    assert_eq!(rt; read_again(&file, &mut buf, 0).ok(), Some(3));
    file.left.set(RETRIES);
    assert_eq!(rt; write_again(&mut file, b"abc").ok(), Some(3));
}

#[test]
fn a_call_that_stays_interrupted_fails(rt: HostRuntime) {
    let mut buf = [0u8; 3];
    let mut file = interrupted(RETRIES + 1);
    assert!(rt; read_again(&file, &mut buf, 0).is_err());
    file.left.set(RETRIES + 1);
    assert!(rt; write_again(&mut file, b"abc").is_err());
}
