// The child that each switch finds.
#![tactic(auto)]

ghost use Rattle.std.specs.Prelude.{◌≡◌, ◌<◌, set};
ghost use Rattle.base.specs.Tests.{when◌then◌else◌};
ghost use Rattle.machine.specs.Terms.{no_id};
ghost use Rattle.machine.specs.Tables.{bind_at};
ghost use Rattle.machine.specs.Records.{is_default};
ghost use Rattle.machine.specs.Sound.{SoundRules};
ghost use Rattle.rules.specs.Memo.{EarlierIn};
ghost use Rattle.choosing.specs.Choosing.{SoundBinds, LowSwitches, BindDecided, Chosen, no_child, FoundChildren};

use machine::{Binds, Rules, terms};
use rules::KnownRules;

// Bind b gives its switch its child, if it passes.
fn choose(binds: &Binds, chosen: &mut [u8; 64], passes: bool, b: usize)
    requires { (b < 64) × ((bind_at binds.now b).switch < 64) }
    ensures { chosen.new ≡ (when passes
        then set chosen.old (bind_at binds.now b).switch (bind_at binds.now b).child
        else chosen.old) }
{
    if passes {
        chosen[usize::from(binds.switches[b])] = binds.children[b];
    }
}

// The child of the default of each switch; 0 where there is none, as in a session's choices. From the last bind on, so that the first one stays.
fn default_children(binds: &Binds) -> [u8; 64]
    requires { LowSwitches binds.now }
    ensures { Chosen binds.now (is_default binds.now) no_child 0 result }
{
    let mut chosen = [0; 64];
    for b in (0..binds.count).rev() {
        let passes = binds.rules[b] == terms::NO_ID;
        choose(binds, &mut chosen, passes, b);
    }
    chosen
}

// Whether the rule of a bind holds, from what is known of the rules; the default has none.
fn bind_rule_holds(known: &mut KnownRules, rule: u8) -> bool
    requires { (rule ≡ no_id → ⊥) → (rule < 32) × EarlierIn known.old rule }
    ensures { BindDecided known.old rule result known.new }
{
    if rule == terms::NO_ID {
        return false;
    }
    known.decide(usize::from(rule))
}

// The child that each switch finds: that of its first bind whose rule holds, else that of its default; 0 where there is none.
// What is known of the rules is shared by all binds. As in `rules`, what is asked of rules is of their table alone, and the values of
// properties are lent alone, so that what is promised is of every state that has them.
pub fn found_children(binds: &Binds, rules: &Rules, values: &[i32; 32]) -> [u8; 64]
    requires { SoundBinds binds.now rules.now × SoundRules 32 rules.now }
    ensures { FoundChildren binds.now rules.now values.now result }
{
    let mut chosen = default_children(binds);
    let mut known = KnownRules::new(rules, values);
    for b in (0..binds.count).rev() {
        let passes = bind_rule_holds(&mut known, binds.rules[b]);
        choose(binds, &mut chosen, passes, b);
    }
    chosen
}
