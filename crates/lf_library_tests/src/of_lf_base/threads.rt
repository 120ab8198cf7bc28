//! Values that cross threads.

use lf_base::{Files, MemFiles, MemSink, Seq, Sink, Text};
use std::test::Fail;
use std::thread::join;

#[test]
fn two_threads_share_lists_and_texts(rt: HostRuntime) -> Result<(), Fail> {
    let mut texts = Seq::new(rt.alloc());
    texts.push(Text::of(rt.alloc(), "up")?)?;
    texts.push(Text::of(rt.alloc(), "down")?)?;
    let (count, bytes) = join(
        &rt,
        || texts.len(),
        || texts.as_slice().iter().map(|text| text.len()).max(),
    );
    assert_eq!(rt; count, 2);
    assert_eq!(rt; bytes, Some(4));
    Ok(())
}

#[test]
fn stand_ins_move_to_other_threads(rt: HostRuntime) -> Result<(), Fail> {
    let mut files = MemFiles::new(rt.alloc());
    let mut sink = MemSink::new(rt.alloc(), 3, 3)?;
    files.add("a.yml", b"groups:")?;
    let (opened, written) = join(
        &rt,
        move || files.open("a.yml").is_ok(),
        move || sink.write(b"ab").is_ok(),
    );
    assert!(rt; opened);
    assert!(rt; written);
    Ok(())
}
