//! Files and places for bytes in memory.

ghost use Rattle.std.specs.Prelude.{◌≡◌, ◌+◌, ◌<◌, ◌^◌, length, OnOk};

use lf_base::{Failed, Files, Gate, MemFiles, MemSink, OpenGate, Sink};
use std::test::Fail;

#[test]
fn files_are_read_in_pieces(rt: HostRuntime) -> Result<(), Fail> {
    let mut files = MemFiles::new(rt.alloc());
    files.add("a.yml", b"groups:")?;
    files.add("b.yml", b"")?;
    let mut buf = *b"....";
    files.open("a.yml")?;
    assert_eq!(rt; files.read(&mut buf)?, 4);
    assert_eq!(rt; buf, *b"grou");
    assert_eq!(rt; files.read(&mut buf)?, 3);
    assert_eq!(rt; buf, *b"ps:u");
    assert_eq!(rt; files.read(&mut buf)?, 0);
    assert_eq!(rt; files.read(&mut buf)?, 0);
    files.open("b.yml")?;
    assert_eq!(rt; files.read(&mut buf)?, 0);
    Ok(())
}

#[test]
fn a_listed_call_fails_in_mid_stream(rt: HostRuntime) -> Result<(), Fail> {
    let mut files = MemFiles::new(rt.alloc());
    files.add("a.yml", b"groups:")?;
    files.fail_calls(&[1, 2])?;
    files.fail_calls(&[7, 3])?;
    let mut buf = *b"....";
    files.open("a.yml")?;
    assert_eq!(rt; files.read(&mut buf)?, 4);
    assert_eq!(rt; files.read(&mut buf), Err(Failed));
    assert_eq!(rt; buf, *b"grou");
    Ok(())
}

#[test]
fn a_listed_open_fails(rt: HostRuntime) -> Result<(), Fail> {
    let mut files = MemFiles::new(rt.alloc());
    files.add("a.yml", b"groups:")?;
    files.fail_calls(&[2])?;
    files.open("a.yml")?;
    assert_eq!(rt; files.open("a.yml"), Err(Failed));
    Ok(())
}

#[test]
fn an_unknown_name_fails(rt: HostRuntime) -> Result<(), Fail> {
    let mut files = MemFiles::new(rt.alloc());
    files.add("a.yml", b"groups:")?;
    assert_eq!(rt; files.open("a.ym"), Err(Failed));
    Ok(())
}

#[test]
fn a_later_file_replaces_the_one_of_its_name(rt: HostRuntime) -> Result<(), Fail> {
    let mut files = MemFiles::new(rt.alloc());
    files.add("a.yml", b"one")?;
    files.add("b.yml", b"two")?;
    files.add("a.yml", b"three")?;
    assert_eq!(rt; front(&mut files, "a.yml")?, *b"thr");
    assert_eq!(rt; front(&mut files, "b.yml")?, *b"two");
    Ok(())
}

/// The first three bytes of a file, or fewer and then zeros.
fn front<F: Files>(files: &mut F, name: &str) -> Result<[u8; 3], Failed>
    requires calm { F.faults files.old ≡ 0 }
    requires room { F.opens files.old < 2 ^ 32 }
    ensures calm { OnOk result (F.faults files.new ≡ 0) }
    ensures counted { OnOk result (F.opens files.new ≡ F.opens files.old + 1) }
{
    let mut buf = [0; 3];
    files.open(name)?;
    files.read(&mut buf)?;
    Ok(buf)
}

#[test]
fn a_write_takes_part_of_a_piece(rt: HostRuntime) -> Result<(), Fail> {
    let mut sink = MemSink::new(rt.alloc(), 100, 10)?;
    sink.fail_calls(&[1, 2, 3])?;
    sink.fail_calls(&[3])?;
    assert_eq!(rt; sink.write(b"twelve bytes")?, 10);
    assert_eq!(rt; sink.write(b"es")?, 2);
    assert_eq!(rt; sink.write(b"!"), Err(Failed));
    assert_eq!(rt; sink.bytes(), b"twelve bytes".as_slice());
    Ok(())
}

#[test]
fn a_write_with_no_room_left_fails(rt: HostRuntime) -> Result<(), Fail> {
    let mut sink = MemSink::new(rt.alloc(), 4, 3)?;
    assert_eq!(rt; first(&mut sink, b"abcdef")?, 3);
    assert_eq!(rt; first(&mut sink, b"def")?, 1);
    assert_eq!(rt; first(&mut sink, b"ef"), Err(Failed));
    assert_eq!(rt; sink.bytes(), b"abcd".as_slice());
    Ok(())
}

/// One write.
fn first<S: Sink>(sink: &mut S, piece: &[u8]) -> Result<usize, Failed>
    requires calm { S.faults sink.old ≡ 0 }
    requires some { 0 < length piece.now }
    ensures calm { OnOk result (S.faults sink.new ≡ 0) }
{
    sink.write(piece)
}

#[test]
fn the_open_gate_lets_everyone_pass(rt: HostRuntime) {
    OpenGate.pass(2, 7);
    assert_eq!(rt; OpenGate, OpenGate);
}
