//! Files in memory.
ghost use Rattle.std.specs.Prelude.{◌≡◌, ◌+◌, ◌^◌, ◌<◌, ◌⊎◌, ◌↔◌, ◌++◌, None, Some, length, take, drop, min, IfOk, IsErr, IsSome, OnOk, OnErr};
ghost use Rattle.std.specs.FinMap as map;
ghost use Rattle.std.specs.Ordering.{nat_cmp};
ghost use Rattle.std.specs.Cmp.Lexicographic.{slice_cmp};
ghost use Rattle.lf_base.specs.Calls.{no_calls, IsListed, failed};
ghost use Rattle.lf_base.specs.MemFiles.{held, with_file, opened, not_opened, read_on, rest};
ghost use Rattle.lf_base.specs.Outside.{ReadsBytes};
ghost use Rattle.lf_base.specs.views.FileList.{bytes_at, IsPlaceOf};
ghost use Rattle.std.specs.Option.{option_map};

use crate::calls::CallCount;
use crate::{Failed, Files, Memory, Seq, Text};
use std::alloc::Global;
use std::marker::Model;

/// Holds files by name, and hands out their bytes. A stand-in for a file system, whose calls can be made to fail. A name is looked for from one file to the next,
/// which serves for as many files as a test has.
#[derive(Debug, Drop)]
pub struct MemFiles {
    files: Vec<(Text, Seq<u8>)>,
    reading: Option<Reading>,
    opens: u64,
    calls: CallCount,
}

/// Where the open file stands in the list, and the offset of its next byte.
#[derive(Clone, Copy, Debug)]
struct Reading {
    file: usize,
    next: usize,
}

impl Model for MemFiles {
    ghost use Rattle.std.specs.FinMap as map;
    ghost use Rattle.lf_base.specs.MemFiles.{FilesState, state_code};

    ghost Value = { FilesState };

    ghost coded = { state_code };

    ghost use Rattle.lf_base.specs.views.FileList.{left_of, IsWithin};

    ghost view = { λ s. record { files = map.from_entries s.files.items; left = left_of s.files.items s.reading; opens = s.opens; calls = s.calls } };

    ghost invariant = { λ s. IsWithin s.files.items s.reading };
}

impl MemFiles {
    /// No files.
    pub fn new(alloc: Global) -> MemFiles
        ensures { result ≡ record { files = map.empty; left = None; opens = 0; calls = no_calls } }
    {
        MemFiles {
            files: Vec::new(alloc),
            reading: None,
            opens: 0,
            calls: CallCount::new(alloc),
        }
    }

    /// Holds these bytes under this name, in place of those that were held under it, and closes the file that is open, if one is.
    /// After `Memory` nothing is changed.
    pub fn add(&mut self, name: &str, bytes: &[u8]) -> Result<(), Memory>
        ensures ok { OnOk result (self.new ≡ with_file self.old name.now bytes.now) }
        ensures err { OnErr result (self.new ≡ self.old) }
    {
        let alloc = *self.files.allocator();
        let file = (Text::of(alloc, name)?, Seq::of(alloc, bytes)?);
        put_file(&mut self.files, file)?;
        self.reading = None;
        Ok(())
    }

    /// Sets the numbers of the calls of `open` and `read` that are to fail, counted together from 1 over the object's life, in place of those set before.
    /// After `Memory` nothing is changed.
    pub fn fail_calls(&mut self, calls: &[u32]) -> Result<(), Memory>
        ensures ok { OnOk result (self.new ≡ record self.old { calls = record self.old.calls { failing = calls.now } }) }
        ensures err { OnErr result (self.new ≡ self.old) }
    {
        self.calls.fail(calls)
    }
}

impl Files for MemFiles {
    ghost use Rattle.std.specs.Prelude.{IsSome};
    ghost use Rattle.lf_base.specs.MemFiles.{held as held_in};

    ghost held = { held_in };

    ghost left = { λ s. s.left };

    ghost faults = { λ s. s.calls.faults };

    ghost opens = { λ s. s.opens };

    ghost is_open = { λ s. IsSome s.left };

    /// Fails, and changes nothing but the counts, where its number is listed and where no file of this name is held.
    fn open(&mut self, name: &str) -> Result<(), Failed>
        requires calm { self.old.calls.faults ≡ 0 }
        requires room { self.old.opens < 2 ^ 32 }
        ensures fails { IsErr result ↔ (IsListed self.old.calls ⊎ (held self.old name.now ≡ None)) }
        ensures ok { OnOk result (self.new ≡ opened self.old name.now) }
        ensures ready { OnOk result (IsSome self.new.left) }
        ensures err { OnErr result (self.new ≡ not_opened self.old) }
    {
        self.opens += 1;
        match find_file(self.files.as_slice(), name) {
            Some(file) => {
                self.calls.answer(true)?;
                self.reading = Some(Reading { file, next: 0 });
                Ok(())
            }
            None => self.calls.answer(false),
        }
    }

    /// Fills as much of the buffer as bytes are left. It fails, and changes nothing but the counts, where its number is listed.
    fn read(&mut self, buf: &mut [u8]) -> Result<usize, Failed>
        requires calm { self.old.calls.faults ≡ 0 }
        requires ready { IsSome self.old.left }
        requires room { 0 < length buf.old }
        ensures fails { IsErr result ↔ IsListed self.old.calls }
        ensures ready { OnOk result (IsSome self.new.left) }
        ensures next { IfOk result (λ n. ReadsBytes self.old.left self.new.left buf.new n) }
        ensures number { IfOk result (λ n. n ≡ min (length buf.old) (length (rest self.old))) }
        ensures filled { IfOk result (λ n. buf.new ≡ take n (rest self.old) ++ drop n buf.old) }
        ensures ok { IfOk result (λ n. self.new ≡ read_on self.old n) }
        ensures err { OnErr result (self.new ≡ record self.old { calls = failed self.old.calls }) }
        ensures kept { OnErr result (buf.new ≡ buf.old) }
    {
        let Reading { file, next } = self.reading.unwrap();
        self.calls.answer(true)?;
        let n = copy_front(&self.files[file].1.as_slice()[next..], buf);
        self.reading = Some(Reading {
            file,
            next: next + n,
        });
        Ok(n)
    }
}

/// Where the file of this name stands.
fn find_file(files: &[(Text, Seq<u8>)], name: &str) -> Option<usize>
    ensures place { IsPlaceOf files.now name.now result }
    ensures held { map.get (map.from_entries {R = slice_cmp nat_cmp} files.now) name.now ≡ option_map (λ k. bytes_at files.now k) result }
{
    for k in 0..files.len() {
        if files[k].0.as_str() == name {
            return Some(k);
        }
    }
    None
}

/// Puts a file in the place of the one of its name, or else at the end.
fn put_file(files: &mut Vec<(Text, Seq<u8>)>, file: (Text, Seq<u8>)) -> Result<(), Memory>
    ensures ok { OnOk result (map.from_entries {R = slice_cmp nat_cmp} files.new.items ≡ map.insert (map.from_entries files.old.items) file.0 file.1) }
    ensures err { OnErr result (files.new.items ≡ files.old.items) }
{
    match find_file(files.as_slice(), file.0.as_str()) {
        Some(k) => files[k] = file,
        None => files.push(file)?,
    }
    Ok(())
}

/// Copies as many bytes as both have room for to the front, and says how many they are.
fn copy_front(from: &[u8], to: &mut [u8]) -> usize
    ensures number { result ≡ min (length to.old) (length from.now) }
    ensures copied { to.new ≡ take result from.now ++ drop result to.old }
{
    let n = to.len().min(from.len());
    to[..n].copy_from_slice(&from[..n]);
    n
}
