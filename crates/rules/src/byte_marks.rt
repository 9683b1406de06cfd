// What is known of rules as a byte for each: 0 not decided, 1 does not hold, 2 holds. Any other byte is a mark too, and stays: its rule counts
// as decided, and as one that does not hold. Only the bytes are read and noted here; `KnownRules` decides.
ghost use Rattle.std.specs.Prelude.{◌≡◌, ◌<◌, length, map};
ghost use Rattle.machine.specs.Sound.{SoundRules};
ghost use Rattle.rules.specs.ByteMarks.{mark_of, known_of, noted, NotedMarks, Known, Earlier, Decided};

use crate::KnownRules;
use machine::Rules;

const NOT_DECIDED: u8 = 0;

const DOES_NOT_HOLD: u8 = 1;

const HOLDS: u8 = 2;

fn mark_of(holds: bool) -> u8
    ensures { result ≡ mark_of holds }
{
    if holds { HOLDS } else { DOES_NOT_HOLD }
}

fn known_of(mark: u8) -> Option<bool>
    ensures { result ≡ known_of mark }
{
    if mark == NOT_DECIDED {
        return None;
    }
    Some(mark == HOLDS)
}

// A mark that is there stays.
fn noted(mark: u8, known: Option<bool>) -> u8
    ensures { result ≡ noted mark known }
{
    match known {
        Some(holds) if mark == NOT_DECIDED => mark_of(holds),
        _ => mark,
    }
}

fn read_marks(marks: &[u8; 32]) -> [Option<bool>; 32]
    ensures { result ≡ map known_of marks.now }
{
    marks.map(known_of)
}

fn note_known(marks: &mut [u8; 32], known: &[Option<bool>; 32])
    ensures { NotedMarks marks.old known.now marks.new }
{
    for id in 0..32 {
        marks[id] = noted(marks[id], known[id]);
    }
}

// What is known of the rules, by id, once the simple ones are decided.
pub fn simple_marks(rules: &Rules, values: &[i32; 32]) -> [u8; 32]
    requires { SoundRules 32 rules.now }
    ensures { Known rules.now values.now rules.now.count result }
{
    let mut marks = [NOT_DECIDED; 32];
    note_known(&mut marks, &KnownRules::new(rules, values).known);
    marks
}

// Whether a rule holds; each rule without a mark that is decided for it is marked.
pub fn decide(
    operators: &[u8; 32],
    lefts: &[u8; 32],
    rights: &[u8; 32],
    known: &mut [u8; 32],
    id: usize,
) -> bool
    requires { (id < 32) × (length known.old ≡ 32) × Earlier lefts.now rights.now known.old id }
    ensures { Decided operators.now lefts.now rights.now
        known.old id result known.new }
{
    // Of these rules no more than the three columns is looked at.
    let rules = Rules {
        count: 32,
        kinds: [0; 32],
        properties: [0; 32],
        comparators: [0; 32],
        values: [0; 32],
        operators: *operators,
        lefts: *lefts,
        rights: *rights,
    };
    let mut decided = KnownRules {
        rules: &rules,
        known: read_marks(known),
    };
    let holds = decided.decide(id);
    note_known(known, &decided.known);
    holds
}
