//! A desk that compares what is put with a file, and whether a file is the canonical one.

ghost use Rattle.std.specs.Prelude.{◌≡◌, ◌↔◌, IsTrue};
ghost use Rattle.hf_plan.specs.Canon.{Canon};
ghost use Rattle.hf_plan.specs.Plan.{IsPlan};

use crate::write;
use hf_desk::{Desk, Failed};
use hf_plan::Plan;
use hf_store::Store;

/// A desk that keeps of what is put only whether it is the front of a file that is lent. It takes no memory, and fails for reads alone. This is this project's own rule.
#[derive(Drop)]
struct MatchDesk<'a> {
    /// What is left of the file; nothing once other bytes were put.
    rest: Option<&'a [u8]>,
    creating: bool,
    read_faults: u64,
}

impl<'a> MatchDesk<'a> {
    ghost use Rattle.std.specs.Prelude.{◌≡◌, ◌↔◌, [], Some, None, true, IsTrue};
    ghost use Rattle.hf_desk.specs.Mark.{Match};
    ghost use Rattle.hf_write.specs.Matching.{match_outside};

    /// A desk that made a file, where nothing was put yet.
    fn new(file: &'a [u8]) -> MatchDesk<'a>
        ensures { match_outside result ≡ record {
          files = Some [];
          made = None;
          said = None;
          mark = Match (Some file.now);
          creating = true;
          read_faults = 0;
          write_faults = 0;
          steady = true;
        } }
    {
        MatchDesk {
            rest: Some(file),
            creating: true,
            read_faults: 0,
        }
    }

    /// Whether exactly the file was put.
    fn is_whole(&self) -> bool
        ensures { IsTrue result ↔ ((match_outside self.now).mark ≡ Match (Some [])) }
    {
        match self.rest {
            Some(rest) => rest.is_empty(),
            None => false,
        }
    }
}

impl<'a> Desk for MatchDesk<'a> {
    ghost use Rattle.hf_write.specs.Matching.{match_outside, match_reads, match_sound};

    ghost outside = { match_outside };

    ghost reads = { match_reads };

    ghost sound = { match_sound };

    /// It fails, since no file is there.
    fn read_at(&mut self, _name: &str, _at: u64, _buf: &mut [u8]) -> Result<usize, Failed> {
        self.read_faults = self.read_faults.saturating_add(1);
        Err(Failed)
    }

    /// Never fails, since no file is there.
    fn create(&mut self, _name: &str) -> Result<(), Failed> {
        self.creating = true;
        Ok(())
    }

    /// Takes the whole piece, and never fails.
    fn put(&mut self, piece: &[u8]) -> Result<usize, Failed> {
        self.rest = match self.rest {
            Some(rest) => rest.strip_prefix(piece),
            None => None,
        };
        Ok(piece.len())
    }

    /// Takes the whole piece, and never fails.
    fn say(&mut self, piece: &[u8]) -> Result<usize, Failed> {
        Ok(piece.len())
    }
}

/// Whether a file is the canonical file of the store; the plan is that of the store. It takes no memory.
pub fn same(store: &Store<'_>, plan: &Plan, file: &[u8]) -> bool
    requires { IsPlan store.now plan.now }
    ensures { IsTrue result ↔ Canon store.now file.now }
{
    store.valid();
    let mut desk = MatchDesk::new(file);
    write(store, plan, &mut desk).is_ok() && desk.is_whole()
}
