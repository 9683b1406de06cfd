// Whether rules hold. A composite rule is decided by deciding its two earlier rules, each composite rule once. What is required is of the
// rules alone: a sound document would ask more of callers; and the values of properties are lent alone, so that it is said of
// every state that has them. No struct lends both, since it would be made anew for each guard and each start.
#![tactic(auto)]

mod byte_marks;

ghost use Rattle.std.specs.Prelude.{◌≡◌, ◌<◌, pos, get_or, length};
ghost use Rattle.machine.specs.Terms.{no_id};
ghost use Rattle.machine.specs.Tables.{rule_at};
ghost use Rattle.machine.specs.Deciding.{compared, combined, rule_holds, guard_holds};
ghost use Rattle.machine.specs.Sound.{SoundRules};

pub use byte_marks::{decide, simple_marks};
use machine::{Rules, terms};

// Comparators: 0 equal, 1 not equal, 2 less, 3 greater, 4 less or equal, 5 greater or equal. Bytes, since a session may be written down with any.
fn compare(comparator: u8, x: i32, y: i32) -> bool
    ensures { result ≡ compared comparator x y }
{
    match comparator {
        0 => x == y,
        1 => x != y,
        2 => x < y,
        3 => y < x,
        4 => x <= y,
        _ => y <= x,
    }
}

// Operators, bytes too: 0 and, 1 or.
fn combine(operator: u8, x: bool, y: bool) -> bool
    ensures { result ≡ combined operator x y }
{
    if operator == 0 { x && y } else { x || y }
}

// Whether a simple rule holds: the property's value stands on the left.
fn simple_rule_holds(rules: &Rules, values: &[i32; 32], id: usize) -> bool
    requires { (id < 32) × ((rule_at rules.now id).property < 32) }
    ensures { result ≡ compared (rule_at rules.now id).comparator
        (get_or values.now (rule_at rules.now id).property (pos 0))
        (rule_at rules.now id).value }
{
    let x = values[usize::from(rules.properties[id])];
    let y = rules.values[id];
    compare(rules.comparators[id], x, y)
}

// What is known of rules on some values, while they are decided: of each, by id, whether it holds, where it is decided. The fields are
// public: who knows this in another way than by `new` may ask `decide` too.
#[derive(Drop)]
pub struct KnownRules<'a> {
    pub rules: &'a Rules,
    pub known: [Option<bool>; 32],
}

impl<'a> KnownRules<'a> {
    ghost use Rattle.std.specs.Prelude.{◌<◌};
    ghost use Rattle.machine.specs.Sound.{SoundRules};
    ghost use Rattle.rules.specs.Memo.{KnownIn, EarlierIn, DecidedIn};

    // The simple rules are decided.
    pub fn new(rules: &'a Rules, values: &[i32; 32]) -> KnownRules<'a>
        requires { SoundRules 32 rules.now }
        ensures { KnownIn result rules.now values.now }
    {
        let mut known = [None; 32];
        for id in 0..rules.count {
            if rules.kinds[id] == terms::SIMPLE_RULE {
                known[id] = Some(simple_rule_holds(rules, values, id));
            }
        }
        KnownRules { rules, known }
    }

    // Whether a rule holds; each rule that is decided for it is known then.
    pub fn decide(&mut self, id: usize) -> bool
        requires { (id < 32) × EarlierIn self.old id }
        ensures { DecidedIn self.old id result self.new }
    {
        if let Some(holds) = self.known[id] {
            return holds;
        }
        let left = usize::from(self.rules.lefts[id]);
        let first = self.decide(left);
        let right = usize::from(self.rules.rights[id]);
        let second = self.decide(right);
        let holds = combine(self.rules.operators[id], first, second);
        self.known[id] = Some(holds);
        holds
    }
}

// Whether the rule holds on the values of the properties.
#[tactic(auto, using(crate::proofs::ByKind::simple))]
pub fn rule_holds(rules: &Rules, values: &[i32; 32], id: usize) -> bool
    requires { (id < rules.now.count) × SoundRules 32 rules.now }
    ensures { result ≡ rule_holds rules.now values.now id }
{
    if rules.kinds[id] == terms::SIMPLE_RULE {
        return simple_rule_holds(rules, values, id);
    }
    KnownRules::new(rules, values).decide(id)
}

// Whether the guard holds, if there is one.
#[tactic(auto, using(crate::proofs::ByKind::no_guard, crate::proofs::ByKind::some_guard))]
pub fn guard_holds(rules: &Rules, values: &[i32; 32], guard: u8) -> bool
    requires { ((guard ≡ no_id → ⊥) → guard < rules.now.count) × SoundRules 32 rules.now }
    ensures { result ≡ guard_holds rules.now values.now guard }
{
    if guard == terms::NO_ID {
        return true;
    }
    rule_holds(rules, values, usize::from(guard))
}
