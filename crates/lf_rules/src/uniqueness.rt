//! The law that a tree has one answer. The function does nothing; what it ensures is the law.
ghost use Rattle.std.specs.Prelude.{List};
ghost use Rattle.lf_base.specs.Answers.{OneAnswer};
ghost use Rattle.lf_base.specs.declared.fault.Fault.{Fault};
ghost use Rattle.lf_yaml.specs.Tree.{Tree};
ghost use Rattle.lf_rules.specs.Breaches.{Breaks, FirstBreak};
ghost use Rattle.lf_rules.specs.Rules.{IsRules};
ghost use Rattle.lf_rules.specs.Sources.{Source};

/// A tree says one list of rules or has one breach that is told, never two and never both; and where it says rules, nothing breaks it.
pub fn one_answer()
    ensures answer { (t : Tree) → OneAnswer (IsRules t) (FirstBreak t) }
    ensures one { (t : Tree) (rules : List Source) (fault : Fault) → IsRules t rules → Breaks t fault → ⊥ }
{}
