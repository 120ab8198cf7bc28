//! Lists and texts.

use lf_base::{Memory, Seq, Text};
use std::alloc::Global;
use std::test::Fail;

#[test]
fn lists_give_what_was_put_in(rt: HostRuntime) -> Result<(), Fail> {
    let mut list = Seq::new(rt.alloc());
    assert_eq!(rt; list.len(), 0);
    list.push(7_u32)?;
    list.push(9)?;
    assert_eq!(rt; list.as_slice(), [7, 9].as_slice());
    assert_eq!(rt; list.len(), 2);
    assert_eq!(rt; *list.get(1), 9);
    Ok(())
}

#[test]
fn the_last_of_a_list_is_taken_first(rt: HostRuntime) -> Result<(), Fail> {
    let mut list = Seq::of(rt.alloc(), &[3_u8, 4, 5])?;
    assert_eq!(rt; list.as_slice(), [3, 4, 5].as_slice());
    assert_eq!(rt; list.pop(), Some(5));
    assert_eq!(rt; list.pop(), Some(4));
    assert_eq!(rt; list.pop(), Some(3));
    assert_eq!(rt; list.pop(), None);
    Ok(())
}

#[test]
fn copies_of_a_list_stay_as_they_were(rt: HostRuntime) -> Result<(), Fail> {
    let mut list = Seq::of(rt.alloc(), &[7_u32, 9])?;
    let copy = list.copy()?;
    let clone = list.clone()?;
    assert_eq!(rt; list.pop(), Some(9));
    assert_eq!(rt; copy.as_slice(), [7, 9].as_slice());
    assert_eq!(rt; clone.as_slice(), [7, 9].as_slice());
    Ok(())
}

#[test]
fn texts_give_what_was_put_in(rt: HostRuntime) -> Result<(), Fail> {
    let mut text = Text::of(rt.alloc(), "up")?;
    text.push("time é")?;
    assert_eq!(rt; text.as_str(), "uptime é");
    assert_eq!(rt; text.len(), 9);
    assert_eq!(rt; text.get(2), b't');
    Ok(())
}

#[test]
fn copies_of_a_text_stay_as_they_were(rt: HostRuntime) -> Result<(), Fail> {
    let mut text = Text::of(rt.alloc(), "up")?;
    let copy = text.copy()?;
    let clone = text.clone()?;
    assert!(rt; text.is(&copy));
    text.push("time")?;
    assert!(rt; !text.is(&copy));
    assert_eq!(rt; copy.as_str(), "up");
    assert_eq!(rt; clone.as_str(), "up");
    Ok(())
}

// Up to 24 bytes take no memory of their own.
#[test]
fn texts_grow_from_few_bytes_to_many(rt: HostRuntime) -> Result<(), Fail> {
    for (front, back, whole) in [
        ("", "", ""),
        ("", "twenty-four letters long", "twenty-four letters long"),
        ("twenty-four letters long", "", "twenty-four letters long"),
        ("twenty-two letters lon", "é", "twenty-two letters loné"),
        ("twenty-three letters lo", "é", "twenty-three letters loé"),
        (
            "twenty-four letters long",
            "er",
            "twenty-four letters longer",
        ),
        (
            "more than twenty-four letters",
            ", by far",
            "more than twenty-four letters, by far",
        ),
    ] {
        let mut text = Text::of(rt.alloc(), front)?;
        text.push(back)?;
        assert_eq!(rt; text.as_str(), whole);
        assert_eq!(rt; text.len(), whole.len());
        let copy = text.copy()?;
        assert!(rt; copy.is(&text));
    }
    Ok(())
}

#[test]
fn a_text_is_made_of_a_string(rt: HostRuntime) -> Result<(), Fail> {
    let taken = Text::from_string(String::from_str(rt.alloc(), "é")?);
    assert_eq!(rt; taken.as_str(), "é");
    assert_eq!(rt; taken.len(), 2);
    Ok(())
}

/// A type that holds itself in lists, as trees of expressions do.
#[derive(Debug, Drop)]
enum Tree {
    Leaf(Text),
    Branch(Seq<Tree>),
}

/// How many bytes the leaves have, as far as a count of 64 bits goes.
fn weight(tree: &Tree) -> u64 {
    match tree {
        Tree::Leaf(text) => text.len() as u64,
        Tree::Branch(trees) => {
            let mut total: u64 = 0;
            for each in trees.as_slice() {
                total = total.saturating_add(weight(each));
            }
            total
        }
    }
}

fn branch(alloc: Global, left: Tree, right: Tree) -> Result<Tree, Memory> {
    let mut trees = Seq::new(alloc);
    trees.push(left)?;
    trees.push(right)?;
    Ok(Tree::Branch(trees))
}

#[test]
fn trees_hold_themselves_in_lists(rt: HostRuntime) -> Result<(), Fail> {
    let alloc = rt.alloc();
    let inner = branch(
        alloc,
        Tree::Leaf(Text::of(alloc, "sum")?),
        Tree::Branch(Seq::new(alloc)),
    )?;
    let outer = branch(alloc, inner, Tree::Leaf(Text::of(alloc, "rate")?))?;
    assert_eq!(rt; weight(&outer), 7);
    Ok(())
}
