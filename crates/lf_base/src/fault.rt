//! Breaches, and which of several is told.
ghost use Rattle.std.specs.Prelude.{◌≡◌};
ghost use Rattle.lf_base.specs.Faults.{fault, first, rank, told_order, when};
ghost use Rattle.lf_base.specs.declared.refusal.Refusal.TheVariants as refusal_of;

use crate::{Kind, Refusal, Span};
use std::cmp::Ordering;

/// A breach of a rule: its kind, and the part of the source where it stands.
#[derive(Clone, Copy, PartialEq, Eq, Drop, Debug)]
pub struct Fault {
    pub kind: Kind,
    pub span: Span,
}

impl Fault {
    /// Of two breaches the one that is told: the one with the lesser start, at one start the one whose kind stands first in the table of kinds, and of one kind the
    /// shorter.
    pub fn first(one: Option<Fault>, other: Option<Fault>) -> Option<Fault>
        ensures { result ≡ first one other }
    {
        match (one, other) {
            (Some(f), Some(g)) => Some(if told_order(&g, &f) == Ordering::Less {
                g
            } else {
                f
            }),
            (Some(f), None) => Some(f),
            (None, other) => other,
        }
    }

    /// A breach of this kind at this span, if the rule is broken.
    pub fn when(broken: bool, kind: Kind, span: Span) -> Option<Fault>
        ensures { result ≡ when broken (fault kind span) }
    {
        if broken {
            Some(Fault { kind, span })
        } else {
            None
        }
    }
}

impl From<Fault> for Refusal {
    ghost use Rattle.std.specs.Prelude.{◌≡◌};
    ghost use Rattle.lf_base.specs.declared.refusal.Refusal.TheVariants as refusal_of;

    ghost from_gives = { λ fault refusal. refusal ≡ refusal_of.At fault.kind fault.span };

    fn from(fault: Fault) -> Refusal {
        Refusal::At {
            kind: fault.kind,
            span: fault.span,
        }
    }
}

/// The order in which breaches are told.
#[tactic(auto, unfolding(crate::specs::Faults::told_order))]
fn told_order(one: &Fault, other: &Fault) -> Ordering
    ensures { result ≡ told_order one.now other.now }
{
    let by_kind = rank(one.kind).cmp(&rank(other.kind));
    let by_end = one.span.end.cmp(&other.span.end);
    one.span
        .start
        .cmp(&other.span.start)
        .then(by_kind.then(by_end))
}

/// The place of a kind in the table of kinds, counted from 0.
fn rank(kind: Kind) -> u8
    ensures { result ≡ rank kind }
{
    kind as u8
}
