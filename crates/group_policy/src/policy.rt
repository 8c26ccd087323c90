// A policy: a rule with a name, kept beside what every caller may rely on.
ghost use Rattle.std.specs.Prelude.{◌≡◌, string_bytes};
ghost use Rattle.group_policy.specs.Cuts.{InRange, IsFair, IsKept};

use crate::cut::Cut;

/// A rule: what it answers for a cut says how gladly the candidate is taken, and above 0 that it may join.
pub type Rule = Box<dyn Fn(Cut) -> i128>;

/// A rule and its name. The rule may be called on every cut in range. It answers from `-2^110` to `2^110`, and at
/// most 0 where no edge leads from the candidate to the group.
#[derive(Drop)]
pub struct Policy {
    /// What the rule is called.
    pub name: String,
    /// The rule.
    pub rule: Rule,
    ghost kept: { IsKept (λ cut. Rule.pre rule cut) (λ cut answer. Rule.post rule cut answer) },
}

impl Policy {
    /// Keeps `rule` under `name`.
    pub fn keep(name: String, rule: Rule) -> Policy
        requires { IsKept (λ cut. Rule.pre rule cut) (λ cut answer. Rule.post rule cut answer) }
        ensures name { result.name ≡ name }
        ensures rule { result.rule ≡ rule }
    {
        Policy { name, rule }
    }

    /// What the rule answers for a cut in range.
    pub fn ask(&self, cut: Cut) -> i128
        requires { InRange cut }
        ensures answer { Rule.post self.now.rule cut result }
        ensures fair { IsFair cut result }
    {
        (self.rule)(cut)
    }

    /// The name of the policy.
    pub fn name(&self) -> &str
        ensures { result.now ≡ string_bytes self.now.name }
    {
        self.name.as_str()
    }
}
