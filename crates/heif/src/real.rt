//! The desk over the system: files by name, a file that is made, and standard output.

ghost use Rattle.heif.specs.Real.{real_outside, real_reads, real_sound};
ghost use Rattle.std.specs.Prelude.{◌≡◌, ◌<◌, ◌≤◌, None, false, length, IfOk, IfSome};
ghost use Rattle.hf_desk.specs.Calls.{FailsOnly, Rose};
ghost use Rattle.hf_desk.specs.Mark.{Untold};

use hf_desk::{Desk, Failed};
use std::fs::File;
use std::io;
use std::io::{ErrorKind, Write};
use std::os::unix::fs::FileExt;

/// How often a call that a signal interrupted is tried again before it counts as failed.
pub const RETRIES: u32 = 100;

/// Reads from a place, and tries again where a signal interrupted it.
pub fn read_again<F: FileExt>(file: &F, buf: &mut [u8], at: u64) -> io::Result<usize>
    ensures { IfOk result (λ n. n ≤ length buf.old) }
{
    for _ in 0..RETRIES {
        match file.read_at(buf, at) {
            Err(why) if why.kind() == ErrorKind::Interrupted => {}
            read => return read,
        }
    }
    file.read_at(buf, at)
}

/// Writes what it takes of a piece, and tries again where a signal interrupted it.
pub fn write_again<W: Write>(out: &mut W, piece: &[u8]) -> io::Result<usize>
    ensures { IfOk result (λ n. n ≤ length piece.now) }
{
    for _ in 0..RETRIES {
        match out.write(piece) {
            Err(why) if why.kind() == ErrorKind::Interrupted => {}
            written => return written,
        }
    }
    out.write(piece)
}

/// How many bytes of a piece a write took. One that takes nothing of a piece that has something
/// failed too.
fn taken(written: io::Result<usize>, piece: &[u8]) -> Option<usize>
    requires { IfOk written (λ n. n ≤ length piece.now) }
    ensures bound { IfSome result (λ n. n ≤ length piece.now) }
    ensures some { IfSome result (λ n. 0 < length piece.now → 0 < n) }
{
    match written {
        Ok(count) if count > 0 || piece.is_empty() => Some(count),
        _ => None,
    }
}

/// A file that is open for reading.
#[derive(Drop)]
struct Opened {
    name: String,
    file: File,
}

/// The desk of the program. It tells no content: what a file, a terminal or a disk gives and takes
/// is trusted.
#[derive(Drop)]
pub struct RealDesk<'a> {
    rt: &'a HostRuntime,
    /// The file that was read last.
    last: Option<Opened>,
    made: Option<File>,
    read_faults: u64,
    write_faults: u64,
}

impl<'a> RealDesk<'a> {
    /// Nothing is made or said.
    pub fn new(rt: &'a HostRuntime) -> RealDesk<'a>
        ensures { real_outside result ≡ record {
          files = None;
          made = None;
          said = None;
          mark = Untold;
          creating = false;
          read_faults = 0;
          write_faults = 0;
          steady = false;
        } }
    {
        RealDesk {
            rt,
            last: None,
            made: None,
            read_faults: 0,
            write_faults: 0,
        }
    }

    /// Counts a write that failed.
    fn write_failed(&mut self) -> Failed
        ensures only { FailsOnly (real_outside self.old) (real_outside self.new) }
        ensures rose { Rose self.old.write_faults self.new.write_faults }
    {
        self.write_faults = self.write_faults.saturating_add(1);
        Failed
    }

    /// Reads from a file, and keeps it open for the next read.
    fn read_open(&mut self, name: &str, at: u64, buf: &mut [u8]) -> io::Result<usize>
        ensures bound { IfOk result (λ n. n ≤ length buf.old) }
        ensures same { real_outside self.new ≡ real_outside self.old }
    {
        if let Some(last) = &self.last {
            if last.name.as_str() == name {
                return read_again(&last.file, buf, at);
            }
        }
        let file = File::open(self.rt, name)?;
        let count = read_again(&file, buf, at)?;
        // Where memory is refused, the next read opens it anew.
        if let Ok(name) = String::from_str(self.rt.alloc(), name) {
            self.last = Some(Opened { name, file });
        }
        Ok(count)
    }
}

impl Desk for RealDesk<'_> {
    ghost outside = { real_outside };

    ghost reads = { real_reads };

    ghost sound = { real_sound };

    fn read_at(&mut self, name: &str, at: u64, buf: &mut [u8]) -> Result<usize, Failed> {
        if let Ok(count) = self.read_open(name, at, buf) {
            return Ok(count);
        }
        self.read_faults = self.read_faults.saturating_add(1);
        Err(Failed)
    }

    fn create(&mut self, name: &str) -> Result<(), Failed> {
        match File::create_new(self.rt, name) {
            Ok(file) => {
                self.made = Some(file);
                Ok(())
            }
            Err(_) => Err(self.write_failed()),
        }
    }

    fn put(&mut self, piece: &[u8]) -> Result<usize, Failed> {
        if let Some(file) = &mut self.made {
            if let Some(count) = taken(write_again(file, piece), piece) {
                return Ok(count);
            }
        }
        Err(self.write_failed())
    }

    fn say(&mut self, piece: &[u8]) -> Result<usize, Failed> {
        let mut out = io::writer(self.rt);
        match taken(write_again(&mut out, piece), piece) {
            Some(count) => Ok(count),
            None => Err(self.write_failed()),
        }
    }
}
