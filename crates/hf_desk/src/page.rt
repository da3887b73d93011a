//! A page of bytes that are gathered, and written when it is full.

ghost use Rattle.std.specs.Prelude.{◌≡◌, ◌+◌, ◌<◌, ◌≤◌, ◌++◌, [], length, true};
ghost use Rattle.hf_desk.specs.Outside.{Outside};
ghost use Rattle.hf_desk.specs.Pages.{Call, ByPut, BySay, MayWrite, Writes, Gives};

use crate::{Desk, WriteFault, put_all, say_all};
use std::marker::{Model, PhantomData};

/// How many bytes a page holds at most.
pub const PAGE: usize = 8192;

/// One of the two calls of a desk that write bytes.
pub trait WriteCall {
    /// Which one it is.
    ghost call: { Call };

    /// Writes a whole piece. `WriteFault` comes only where `write_faults` rose; then some front of the
    /// piece was written.
    fn write_all<D: Desk>(desk: &mut D, piece: &[u8]) -> Result<(), WriteFault>
        requires { MayWrite call (D.outside desk.old) }
        ensures writes { Writes call (D.outside desk.old) piece.now result (D.outside desk.new) }
        ensures again { MayWrite call (D.outside desk.new) };
}

/// Bytes are put into the file that is made.
#[derive(Drop)]
pub struct Put;

impl WriteCall for Put {
    ghost call = { ByPut };

    fn write_all<D: Desk>(desk: &mut D, piece: &[u8]) -> Result<(), WriteFault> {
        put_all(desk, piece)
    }
}

/// Bytes are said.
#[derive(Drop)]
pub struct Say;

impl WriteCall for Say {
    ghost call = { BySay };

    fn write_all<D: Desk>(desk: &mut D, piece: &[u8]) -> Result<(), WriteFault> {
        say_all(desk, piece)
    }
}

/// Bytes that are given in pieces, and written by the pageful: a page that has no room for the next
/// piece is written first, and a piece that fits no page is written as it lies. Contracts see a page
/// as the bytes that it holds.
#[derive(Drop)]
pub struct Page<W> {
    bytes: [u8; PAGE],
    len: usize,
    call: PhantomData<W>,
}

impl<W> Model for Page<W> {
    ghost use Rattle.std.specs.Prelude.{List, ℕ, ◌≤◌, take};
    ghost use Rattle.std.specs.Coded.{coded_ℕ, coded_list};
    ghost use Rattle.hf_desk.specs.declared.page.TheConstants.{PAGE};

    ghost Value = { List ℕ };

    ghost coded = { coded_list coded_ℕ };

    ghost view = { λ page. take page.len page.bytes };

    ghost invariant = { λ page. page.len ≤ PAGE };
}

impl<W: WriteCall> Page<W> {
    /// A page that holds nothing.
    pub fn new() -> Page<W>
        ensures { result ≡ [] }
    {
        Page {
            bytes: [0; PAGE],
            len: 0,
            call: PhantomData,
        }
    }

    /// Adds a piece to what the page holds.
    #[inline]
    fn keep(&mut self, piece: &[u8])
        requires { length self.old + length piece.now ≤ PAGE }
        ensures { self.new ≡ self.old ++ piece.now }
    {
        let end = self.len + piece.len();
        self.bytes[self.len..end].copy_from_slice(piece);
        self.len = end;
    }

    /// Writes what the page holds, which then holds nothing, also after a fault.
    pub fn end<D: Desk>(&mut self, desk: &mut D) -> Result<(), WriteFault>
        requires { MayWrite W.call (D.outside desk.old) }
        ensures writes { Writes W.call (D.outside desk.old) self.old result (D.outside desk.new) }
        ensures empty { self.new ≡ [] }
        ensures again { MayWrite W.call (D.outside desk.new) }
    {
        let done = W::write_all(desk, &self.bytes[..self.len]);
        self.len = 0;
        done
    }

    /// Gives a piece to a page that has no room for it.
    #[inline(never)]
    fn give_over<D: Desk>(&mut self, piece: &[u8], desk: &mut D) -> Result<(), WriteFault>
        requires { MayWrite W.call (D.outside desk.old) }
        ensures { Gives W.call (D.outside desk.old) self.old piece.now result (D.outside desk.new) self.new }
    {
        self.end(desk)?;
        if piece.len() > PAGE {
            return W::write_all(desk, piece);
        }
        self.keep(piece);
        Ok(())
    }

    /// Gives a piece to the page. Where it fits, the desk is not called. After `WriteFault` some front
    /// of what the page held and of the piece was written, and the page holds nothing.
    #[inline]
    #[tactic(auto, using(crate::proofs::Paging::gives_kept))]
    pub fn give<D: Desk>(&mut self, piece: &[u8], desk: &mut D) -> Result<(), WriteFault>
        requires { MayWrite W.call (D.outside desk.old) }
        ensures gives { Gives W.call (D.outside desk.old) self.old piece.now result (D.outside desk.new) self.new }
        ensures fits { length self.old + length piece.now ≤ PAGE → desk.new ≡ desk.old }
    {
        if piece.len() <= PAGE - self.len {
            self.keep(piece);
            return Ok(());
        }
        self.give_over(piece, desk)
    }
}
