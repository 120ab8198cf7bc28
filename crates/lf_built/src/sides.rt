//! The texts that the sides of a match get.
ghost use Rattle.std.specs.Prelude.{◌≡◌, ◌<◌, ◌&&◌, ◌||◌, cond, length, map, not, is_some, true, None, IfOk};
ghost use Rattle.std.specs.Option.{option_map};
ghost use Rattle.lf_ast.specs.declared.expr.Matching.{Matching};
ghost use Rattle.lf_ast.specs.declared.expr.Op.{Op};
ghost use Rattle.lf_classes.specs.Limits.{IsWithin};
ghost use Rattle.lf_semantics.specs.ClassRows.{Sets};
ghost use Rattle.lf_trials.specs.Candidates.{candidates_in_both, first, labels_in};
ghost use Rattle.lf_trials.specs.Given.{Given};
ghost use Rattle.lf_trials.specs.Matched.{has_signature, side, signature_text};
ghost use Rattle.lf_trials.specs.Sides.{drops, left_gives, right_gives};
ghost use Rattle.lf_candidates.specs.views.ClassTexts.{IsClass, Stands, StandsAt, name_at, text_at};
ghost use Rattle.lf_built.specs.views.Marking.{side_mark};
ghost use Rattle.lf_built.specs.views.Sides.{ArePacked, AreRows, AreSides};

use crate::marking::SideMark;
use lf_base::{Memory, Seq};
use lf_candidates::{LabelTexts, PackedRow, first_common_class, unless_lost};
use lf_classes::{Row, Universe};

/// The texts that the left and the right side of a match get.
#[derive(Drop)]
pub struct Sides {
    pub left: LabelTexts,
    pub right: LabelTexts,
}

/// The rows of the sides of a match: as they are kept, and whole once a label has asked for them. In most matches no label does, and to unpack a row takes long.
#[derive(Drop)]
struct SideRows<'a> {
    left: &'a PackedRow,
    right: &'a PackedRow,
    whole: Option<WholeRows>,
}

/// The rows of the sides of a match, unpacked.
#[derive(Drop)]
struct WholeRows {
    left: Row,
    right: Row,
}

impl<'a> SideRows<'a> {
    /// The class of a label's first candidate in both rows.
    fn first_common_class(&mut self, universe: &Universe, label: u32) -> Result<Option<u32>, Memory>
        requires universe { IsWithin universe.now }
        requires label { label < length universe.now.named }
        requires rows { (l : Sets) × (r : Sets) × AreRows universe.now l r self.old }
        ensures rows { (l r : Sets) → AreRows universe.now l r self.old → AreRows universe.now l r self.new }
        ensures class { IfOk result (IsClass universe.now label) }
        ensures candidate { (l r : Sets) → AreRows universe.now l r self.old → IfOk result (λ class. option_map (text_at universe.now label) class ≡ first (candidates_in_both universe.now l r (name_at universe.now label))) }
    {
        if let Some(rows) = &self.whole {
            return Ok(first_common_class(universe, &rows.left, &rows.right, label));
        }
        let left = self.left.row(universe)?;
        let right = self.right.row(universe)?;
        let class = first_common_class(universe, &left, &right, label);
        self.whole = Some(WholeRows { left, right });
        Ok(class)
    }
}

/// The texts that the sides of a match get, by their rows, and none where a label of the signature has no text. What the match makes of each label is marked.
pub fn side_texts(
    universe: &Universe,
    marks: &Seq<SideMark>,
    left_row: &PackedRow,
    right_row: &PackedRow,
    texts: &LabelTexts,
) -> Result<Option<Sides>, Memory>
    requires universe { IsWithin universe.now }
    requires marks { (op : Op) × (m : Matching) × (marks.now ≡ map (side_mark op m) (labels_in universe.now)) }
    requires rows { (l : Sets) × (r : Sets) × ArePacked universe.now l r left_row.now right_row.now }
    requires count { length texts.now ≡ length universe.now.named }
    ensures { (l r : Sets) (op : Op) (m : Matching) (D : Given) → ArePacked universe.now l r left_row.now right_row.now → marks.now ≡ map (side_mark op m) (labels_in universe.now) → Stands universe.now texts.now D → IfOk result (AreSides universe.now (has_signature universe.now op m l r D) (side universe.now (left_gives op m) op m l r D) (side universe.now (right_gives op m) op m l r D)) }
{
    let mut rows = SideRows {
        left: left_row,
        right: right_row,
        whole: None,
    };
    let mut left = texts.copy()?;
    let mut right = texts.copy()?;
    for label in 0..universe.labels() {
        let place = label as usize;
        let mark = marks.get(place);
        let class = texts.get(place);
        let signature = signature_class(
            universe,
            &mut rows,
            mark.signed,
            is_dropped(mark),
            label,
            class,
        )?;
        if lacks_text(mark.signed, signature) {
            return Ok(None);
        }
        left.put(place, side_class(mark.signed, signature, mark.left, class));
        right.put(place, side_class(mark.signed, signature, mark.right, class));
    }
    Ok(Some(Sides { left, right }))
}

/// Whether the result drops a label: neither side gives it.
fn is_dropped(mark: &SideMark) -> bool
    ensures { result ≡ not (mark.now.left || mark.now.right) }
{
    !(mark.left || mark.right)
}

/// The class of a label of the signature: what is said of the label, or, if the result drops it or nothing is said, its first candidate in the rows of both sides. Of
/// another label nothing is looked for.
fn signature_class<'a>(
    universe: &Universe,
    rows: &mut SideRows<'a>,
    is_signed: bool,
    dropped: bool,
    label: u32,
    class: Option<u32>,
) -> Result<Option<u32>, Memory>
    requires universe { IsWithin universe.now }
    requires rows { (l : Sets) × (r : Sets) × AreRows universe.now l r rows.old }
    requires label { label < length universe.now.named }
    ensures rows { (l r : Sets) → AreRows universe.now l r rows.old → AreRows universe.now l r rows.new }
    ensures class { (l r : Sets) (op : Op) (m : Matching) (D : Given) → AreRows universe.now l r rows.old → is_signed ≡ true → dropped ≡ drops op m (name_at universe.now label) → StandsAt universe.now label class D → IfOk result (λ found. StandsAt universe.now label found (signature_text universe.now op m l r D)) }
{
    if !is_signed {
        return Ok(None);
    }
    match unless_lost(dropped, class) {
        Some(class) => Ok(Some(class)),
        None => rows.first_common_class(universe, label),
    }
}

/// Whether a label of the signature is left without a text.
fn lacks_text(is_signed: bool, signature: Option<u32>) -> bool
    ensures { result ≡ (is_signed && not (is_some signature)) }
{
    is_signed && signature.is_none()
}

/// The class of a label on a side: that of the signature, or else what is said of a label that the side gives to the result.
fn side_class(
    is_signed: bool,
    signature: Option<u32>,
    gives: bool,
    class: Option<u32>,
) -> Option<u32>
    ensures { result ≡ cond is_signed signature (cond gives class None) }
{
    if is_signed {
        signature
    } else if gives {
        class
    } else {
        None
    }
}
