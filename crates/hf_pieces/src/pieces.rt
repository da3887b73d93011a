//! Slices of a file, one behind the other.

ghost use Rattle.std.specs.Prelude.{◌≡◌, ◌+◌, ◌≤◌, ◌<◌, ◌^◌, ◌++◌, [], List, ℕ, length, take, drop, min, slice_get, Some, IsOk, IfOk, OnOk, OnErr};
ghost use Rattle.hf_pieces.specs.Bytes.{joined, with_piece, BeginsWith};

use hf_base::NoMemory;
use std::alloc::Global;
use std::marker::Model;

/// Bytes in slices that are lent, one behind the other, of at most 2^62 bytes. No slice is empty, and
/// none outlives the file that it lies in.
#[derive(Drop)]
pub struct Pieces<'a> {
    slices: Vec<&'a [u8]>,
    sum: u64,
}

impl<'a> Model for Pieces<'a> {
    ghost use Rattle.std.specs.Prelude.{◌≡◌, ◌≤◌, ◌^◌, ℕ, List, length, true};
    ghost use Rattle.hf_pieces.specs.Bytes.{seen, joined, are_filled};

    ghost Value = { List (List ℕ) };

    ghost view = { λ p. seen p.slices.items };

    ghost invariant = { λ p. (p.sum ≡ length (joined (seen p.slices.items))) × (p.sum ≤ 2 ^ 62) × (are_filled (seen p.slices.items) ≡ true) };
}

impl<'a> Pieces<'a> {
    /// No pieces.
    pub fn new(alloc: Global) -> Pieces<'a>
        ensures { result ≡ [] }
    {
        Pieces {
            slices: Vec::new(alloc),
            sum: 0,
        }
    }

    /// One more piece at the end. An empty one adds nothing and takes no memory. After `NoMemory` the
    /// pieces are as before.
    pub fn push(&mut self, piece: &'a [u8]) -> Result<(), NoMemory>
        requires { length (joined self.old) + length piece.now ≤ 2 ^ 62 }
        ensures bytes { OnOk result (joined self.new ≡ joined self.old ++ piece.now) }
        ensures pieces { OnOk result (self.new ≡ with_piece self.old piece.now) }
        ensures unchanged { OnErr result (self.new ≡ self.old) }
        ensures empty { piece.now ≡ [] → IsOk result }
    {
        if piece.is_empty() {
            return Ok(());
        }
        self.slices.push(piece)?;
        self.sum += piece.len() as u64;
        Ok(())
    }

    /// Leaves the first so many pieces, which have so many bytes.
    fn shorten(&mut self, count: usize, sum: u64)
        requires within { count ≤ length self.old }
        requires bytes { sum ≡ length (joined (take count self.old)) }
        requires few { sum ≤ 2 ^ 62 }
        ensures { self.new ≡ take count self.old }
    {
        self.slices.truncate(count);
        self.sum = sum;
    }

    /// As `append_cut`, but after `NoMemory` a part of the bytes may be there.
    fn add_cut(&mut self, from: &Pieces<'a>, at: u64, len: u64) -> Result<(), NoMemory>
        requires within { at + len ≤ length (joined from.now) }
        requires room { length (joined self.old) + len ≤ 2 ^ 62 }
        ensures bytes { OnOk result (joined self.new ≡ joined self.old ++ take len (drop at (joined from.now))) }
        ensures begins { BeginsWith self.old self.new }
    {
        let mut skip = at;
        let mut left = len;
        for slice in &from.slices {
            let start = skip.min(slice.len() as u64);
            let count = left.min(slice.len() as u64 - start);
            self.push(&slice[start as usize..(start + count) as usize])?;
            skip -= start;
            left -= count;
        }
        Ok(())
    }

    /// Appends so many bytes of other pieces, from a place on, where they lie: none is copied. After
    /// `NoMemory` the pieces are as before. It takes time that grows with the pieces of `from`.
    pub fn append_cut(&mut self, from: &Pieces<'a>, at: u64, len: u64) -> Result<(), NoMemory>
        requires within { at + len ≤ length (joined from.now) }
        requires room { length (joined self.old) + len ≤ 2 ^ 62 }
        ensures bytes { OnOk result (joined self.new ≡ joined self.old ++ take len (drop at (joined from.now))) }
        ensures unchanged { OnErr result (self.new ≡ self.old) }
    {
        let count = self.slices.len();
        let sum = self.sum;
        if self.add_cut(from, at, len).is_err() {
            self.shorten(count, sum);
            return Err(NoMemory);
        }
        Ok(())
    }

    /// How many bytes there are.
    pub fn len(&self) -> u64
        ensures count { result ≡ length (joined self.now) }
        ensures few { result ≤ 2 ^ 62 }
    {
        self.sum
    }

    /// How many pieces there are.
    pub fn count(&self) -> usize
        ensures { result ≡ length self.now }
    {
        self.slices.len()
    }

    /// The piece at an index, counted from 0.
    pub fn piece(&self, i: usize) -> &'a [u8]
        requires { i < length self.now }
        ensures value { slice_get self.now i ≡ Some result.now }
        ensures filled { 0 < length result.now }
    {
        self.slices[i]
    }

    /// The byte at a place, counted from 0 over all pieces.
    pub fn byte(&self, i: u64) -> u8
        requires { i < length (joined self.now) }
        ensures { slice_get (joined self.now) i ≡ Some result }
    {
        let mut left = i;
        for slice in &self.slices {
            if left < slice.len() as u64 {
                return slice[left as usize];
            }
            left -= slice.len() as u64;
        }
        0
    }

    /// Copies the first bytes to the front of `out`, as many as fit and are there, and answers how
    /// many; the rest of `out` stays.
    pub fn copy_front(&self, out: &mut [u8]) -> usize
        ensures count { result ≡ min (length (joined self.now)) (length out.old) }
        ensures bytes { out.new ≡ take result (joined self.now) ++ drop result out.old }
    {
        let mut filled = 0;
        for slice in &self.slices {
            let count = slice.len().min(out.len() - filled);
            out[filled..filled + count].copy_from_slice(&slice[..count]);
            filled += count;
        }
        filled
    }

    /// The same pieces again.
    pub fn try_clone(&self) -> Result<Pieces<'a>, NoMemory>
        ensures { IfOk result (λ p. p ≡ self.now) }
    {
        Ok(Pieces {
            slices: self.slices.clone()?,
            sum: self.sum,
        })
    }
}
