//! The parts of a run, each on its own.

use super::{run, words_in};
use lf_base::{Failed, Files, MemFiles, MemSink, Text};
use lf_lint::{Options, ReadEnd, Status, read_whole, read_words, write_whole};
use std::test::Fail;

#[test]
fn words_are_read(rt: HostRuntime) -> Result<(), Fail> {
    let words = words_in(rt.alloc(), "lint f --workers 7 --format=json -- -x")?;
    match read_words(rt.alloc(), words.as_slice())? {
        Options::Lint {
            workers,
            json,
            labels,
            files,
        } => {
            assert_eq!(rt; (workers, json, labels), (7, true, false));
            assert_eq!(rt; files.len(), 2);
            assert_eq!(rt; files.as_slice()[1].as_str(), "-x");
        }
        Options::Gen { n } => assert_eq!(rt; n, 0),
    }
    Ok(())
}

#[test]
fn other_words_are_refused(rt: HostRuntime) -> Result<(), Fail> {
    for line in [
        "",
        "lint",
        "lint --workers 0 f",
        "lint --labels --labels f",
        "lint --help",
        "gen 07",
        "gen 4001",
    ] {
        let words = words_in(rt.alloc(), line)?;
        assert!(rt; read_words(rt.alloc(), words.as_slice()).is_err(), "{line}");
    }
    Ok(())
}

#[test]
fn a_file_is_read_up_to_the_most_bytes(rt: HostRuntime) -> Result<(), Fail> {
    for len in [0, 1, 65_535, 65_536, 65_537, 70_000] {
        let bytes = vec![in rt.alloc(); b'a'; len]?;
        let mut files = MemFiles::new(rt.alloc());
        files.add("a.yml", bytes.as_slice())?;
        let name = Text::of(rt.alloc(), "a.yml")?;
        match read_whole(rt.alloc(), &mut files, &name, 65_536) {
            Ok(read) => assert_eq!(rt; read.as_slice(), bytes.as_slice(), "{len}"),
            Err(end) => {
                assert_eq!(rt; end, ReadEnd::TooLong);
                assert!(rt; len > 65_536, "{len}");
            }
        }
    }
    Ok(())
}

#[test]
fn each_write_fails_in_turn(rt: HostRuntime) -> Result<(), Fail> {
    let bytes = b"a report of 27 bytes in all";
    for call in 1..28 {
        let mut out = MemSink::new(rt.alloc(), 1000, 1)?;
        out.fail_calls(&[call])?;
        assert_eq!(rt; write_whole(&mut out, bytes), Err(Failed));
        let written = call as usize - 1;
        assert_eq!(rt; Some(out.bytes()), bytes.get(..written), "call {call}");
    }
    Ok(())
}

/// Files in memory that give one byte at a time.
#[derive(Drop)]
struct DrippingFiles {
    files: MemFiles,
}

impl Files for DrippingFiles {
    ghost use Rattle.std.specs.Prelude.{IsSome};
    ghost use Rattle.lf_base.specs.MemFiles.{held as held_in};

    ghost held = { λ s. held_in s.files };

    ghost left = { λ s. s.files.left };

    ghost faults = { λ s. s.files.calls.faults };

    ghost opens = { λ s. s.files.opens };

    ghost is_open = { λ s. IsSome s.files.left };

    fn open(&mut self, name: &str) -> Result<(), Failed> {
        self.files.open(name)
    }

    fn read(&mut self, buf: &mut [u8]) -> Result<usize, Failed> {
        self.files.read(&mut buf[..1])
    }
}

#[test]
fn a_source_may_give_one_byte_at_a_time(rt: HostRuntime) -> Result<(), Fail> {
    let bytes = vec![in rt.alloc(); b'a'; 70_000]?;
    let mut files = MemFiles::new(rt.alloc());
    files.add("a.yml", bytes.as_slice())?;
    let mut dripping = DrippingFiles { files };
    let name = Text::of(rt.alloc(), "a.yml")?;
    let read = read_whole(rt.alloc(), &mut dripping, &name, 70_000)?;
    assert_eq!(rt; read.as_slice(), bytes.as_slice());
    Ok(())
}

#[test]
fn two_files_may_come_one_byte_at_a_time(rt: HostRuntime) -> Result<(), Fail> {
    let mut files = MemFiles::new(rt.alloc());
    files.add("a.yml", b"groups: []\n")?;
    files.add("b.yml", b"groups: &x []\n")?;
    let mut dripping = DrippingFiles { files };
    let mut out = MemSink::new(rt.alloc(), 1000, 1)?;
    let end = run(&rt, rt.alloc(), "lint a.yml b.yml", &mut dripping, &mut out)?;
    assert_eq!(rt; end, Status::Refused);
    assert_eq!(rt;
        out.bytes(),
        b"b.yml:1:9: refused [LeftOut] this form is left out of the profile\nfiles 2, refused 1, rules 0, problems 0, notes 0\n".as_slice()
    );
    Ok(())
}
