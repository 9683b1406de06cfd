// What an action does to events: to media and their anchors, to properties, and by settling to composites. Each function changes
// the working record of a call and writes its lines to the log slice; it states the whole of what it does by a definition of
// `machine`.
#![tactic(auto)]

pub mod acting;
mod media;
mod properties;
pub mod settling;

ghost use Rattle.std.specs.Prelude.{◌≡◌, List, ℕ, length};
ghost use Rattle.machine.specs.Operations.{fresh_run};
ghost use Rattle.events.specs.Running.{run};

use call_log::Written;
use machine::State;

// What of a session changes, while a call runs; with what is written of its log, and the firings. The document and the log slice are lent
// beside it: held in here, each function lent a `Work` would have to promise that both are still the same (see `call_log::Written`).
#[derive(Clone, Copy)]
pub struct Work {
    pub state: State,
    pub written: Written,
    pub firings: u8,
}

impl Work {
    // The working record of a call that begins.
    #[tactic(auto, using(call_log::proofs::LogLaws::lines_none))]
    pub fn new(state: State) -> Work
        ensures { (bytes : List ℕ) → run result bytes ≡ fresh_run state (length bytes) }
    {
        let written = Written {
            lines: 0,
            stop: Ok(()),
        };
        Work {
            state,
            written,
            firings: 0,
        }
    }
}
