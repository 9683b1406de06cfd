// The constant tables of the engine.
ghost use Rattle.std.specs.Prelude.{◌≡◌, ◌<◌, ◌≤◌};
ghost use Rattle.machine.specs.Terms.{to_start, to_resume};
ghost use Rattle.machine.specs.Records.{body_length};
ghost use Rattle.machine.specs.Events.{next_state};

use crate::fields::byte_at;
use machine::terms::{OCCURRING, PAUSED, SLEEPING};

// Kinds are 0 to 9: numbers, as `record_of` says.
pub const GREATEST_KIND: u8 = 9;

// The length of a record's body, by its kind.
const BODY_LENGTHS: [u8; 10] = [1, 4, 5, 4, 6, 3, 3, 2, 5, 6];

// The next state of a media. A row for each state; columns: start, stop, abort, pause, resume.
const NEXT_STATES: [[u8; 5]; 3] = [
    [OCCURRING, SLEEPING, SLEEPING, SLEEPING, SLEEPING],
    [OCCURRING, SLEEPING, SLEEPING, PAUSED, OCCURRING],
    [PAUSED, SLEEPING, SLEEPING, PAUSED, OCCURRING],
];

// Of any number, since a caller need not know that it is a kind.
pub fn body_length(kind: usize) -> usize
    ensures { (result ≡ body_length kind) × (result < 256) }
{
    usize::from(byte_at(&BODY_LENGTHS, kind))
}

// The action is a byte: it comes from links and commands and goes on to the cause of settling. An enum of the five would be made of it
// in `events::acting::perform` alone, by a match of its own, and turned back into the column here.
#[tactic(auto, using(crate::proofs::NextStates::no_row, crate::proofs::NextStates::in_row))]
pub fn next_state(state: u8, action: u8) -> u8
    requires { (to_start ≤ action) × (action ≤ to_resume) }
    ensures { result ≡ next_state state action }
{
    if PAUSED < state {
        return state;
    }
    NEXT_STATES[usize::from(state)][usize::from(action) - 1]
}
