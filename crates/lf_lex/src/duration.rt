//! Durations that stand alone, as the lengths of time of a rule file do.
ghost use Rattle.std.specs.Prelude.{◌↔◌, IsTrue};
ghost use Rattle.lf_lex.specs.Durations.{IsDuration};

use crate::run::duration_order;

/// Whether a text is a duration: one or more parts, each digits and a unit, the units in the order `y w d h m s ms`, each at most once, as Prometheus'
/// documentation on querying has them.
pub fn is_duration(text: &[u8]) -> bool
    ensures { IsTrue result ↔ IsDuration text.now }
{
    if text.is_empty() {
        return false;
    }
    match duration_order(text) {
        Some(ordered) => ordered,
        None => false,
    }
}
