//! The entries of a mapping, and which of its keys count as missing.
ghost use Rattle.std.specs.Prelude.{◌≡◌, Some, map, option_map};
ghost use Rattle.lf_scalar.specs.Scalars.{value};
ghost use Rattle.lf_yaml.specs.Tree.{tree, pair};
ghost use Rattle.lf_rules.specs.Mappings as mappings;
ghost use Rattle.lf_rules.specs.reading.Files as reading;

use lf_base::Span;
use lf_scalar::Scalar;
use lf_yaml::{Entry, Node};

/// The entry with this key, the first where there are more.
#[tactic(auto, unfolding(crate::specs::Mappings::entry_at))]
pub fn entry_at<'a>(entries: &'a [Entry], key: &str) -> Option<&'a Entry>
    ensures { option_map (λ e. pair e.now) result ≡ mappings.entry_at key.now (map pair entries.now) }
{
    let mut rest = entries;
    while let Some((entry, others)) = rest.split_first() {
        if entry.key.text.as_str() == key {
            return Some(entry);
        }
        rest = others;
    }
    None
}

/// The entry of a key that isn't missing: where the value is the empty text, the key counts as missing.
pub fn given_entry<'a>(entries: &'a [Entry], key: &str) -> Option<&'a Entry>
    ensures { option_map (λ e. pair e.now) result ≡ mappings.given_entry key.now (map pair entries.now) }
{
    match entry_at(entries, key) {
        Some(entry) => {
            if is_empty(&entry.value) {
                None
            } else {
                Some(entry)
            }
        }
        None => None,
    }
}

/// The value of a key that isn't missing.
pub fn given<'a>(entries: &'a [Entry], key: &str) -> Option<&'a Node>
    ensures { option_map (λ t. tree t.now) result ≡ mappings.given key.now (map pair entries.now) }
{
    value_of(given_entry(entries, key))
}

/// The value of an entry, where there is one.
pub fn value_of<'a>(entry: Option<&'a Entry>) -> Option<&'a Node>
    ensures { option_map (λ t. tree t.now) result ≡ option_map (λ e. e.1) (option_map (λ e. pair e.now) entry.entry) }
{
    match entry {
        Some(entry) => Some(&entry.value),
        None => None,
    }
}

/// Whether a node is a scalar without a text: nothing, a word that is null, or quotes with nothing between them.
pub fn is_empty(node: &Node) -> bool
    ensures { result ≡ mappings.is_empty (tree node.now) }
{
    match node {
        Node::Scalar { of } => of.text.len() == 0,
        Node::Map { .. } => false,
        Node::List { .. } => false,
    }
}

/// The place of a node.
pub fn place(node: &Node) -> Span
    ensures { result ≡ mappings.place (tree node.now) }
{
    match node {
        Node::Scalar { of } => of.span,
        Node::Map { span, .. } => *span,
        Node::List { span, .. } => *span,
    }
}

/// The entries of a mapping, and none of another node.
pub fn entries_of(node: &Node) -> &[Entry]
    ensures { map pair result.now ≡ reading.entries_of (tree node.now) }
{
    match node {
        Node::Scalar { .. } => &[],
        Node::Map { entries, .. } => entries.as_slice(),
        Node::List { .. } => &[],
    }
}

/// The items of a list, and none of another node.
pub fn items_of(node: &Node) -> &[Node]
    ensures { map tree result.now ≡ reading.items_of (Some (tree node.now)) }
{
    match node {
        Node::Scalar { .. } => &[],
        Node::Map { .. } => &[],
        Node::List { items, .. } => items.as_slice(),
    }
}

/// The scalar that a node is.
pub fn scalar_of(node: &Node) -> Option<&Scalar>
    ensures { option_map (λ s. value s.now) result ≡ reading.scalar_of (Some (tree node.now)) }
{
    match node {
        Node::Scalar { of } => Some(of),
        Node::Map { .. } => None,
        Node::List { .. } => None,
    }
}
