// The log slice: lines of 4 bytes, class, id, transition, 0.
#![tactic(auto)]

ghost use Rattle.std.specs.Prelude.{List, ◌≡◌, ℕ, ◌/◌, ◌<◌, length, get_or};
ghost use Rattle.base.specs.Tests.{◌=?◌};
ghost use Rattle.machine.specs.Answers.{number_of, check_number};
ghost use Rattle.machine.specs.Log.{line, met, logged, slice_with};
ghost use Rattle.call_log.specs.LogSlice.{lines_in, log_of};

use machine::{Line, Refusal};

// What is written of a call's log: so many lines; and what stops the call, nothing or the refusal that was met first.
// The slice is lent beside it: held in here it would give a lifetime to this and to all that have one, and each function lent a `Work` would
// have to promise that it is still the same slice, as `Adds` of printing does with `same_slice`.
#[derive(Clone, Copy)]
pub struct Written {
    pub lines: usize,
    pub stop: Result<(), Refusal>,
}

impl Written {
    // Nothing stops the call.
    pub fn goes_on(&self) -> bool
        ensures { result ≡ check_number self.now.stop =? 0 }
    {
        self.stop.is_ok()
    }

    // The refusal stops the call, unless one was met before.
    #[tactic(auto, using(base::specs::Tests::when_tells))]
    pub fn meet(&mut self, refusal: Refusal)
        ensures { (bytes : List ℕ) → log_of self.new bytes ≡ met (number_of refusal) (log_of self.old bytes) }
    {
        if self.goes_on() {
            self.stop = Err(refusal);
        }
    }

    // A line at the end of the log, if it fits.
    pub fn emit(&mut self, log: &mut [u8], class: u8, id: u8, transition: u8)
        ensures { log_of self.new log.new
            ≡ logged (line class id transition) (log_of self.old log.old) }
    {
        if self.lines >= log.len() / 4 {
            self.meet(Refusal::LogFull);
            return;
        }
        let p = 4 * self.lines;
        log[p..p + 4].copy_from_slice(&[class, id, transition, 0]);
        self.lines += 1;
    }
}

// Line k of the slice: where more lines than k are written, that of the log.
#[tactic(auto, using(crate::proofs::LogLaws::line_cut))]
pub fn line_at(log: &[u8], k: usize) -> Line
    requires { k < length log.now / 4 }
    ensures { (lines : ℕ) → k < lines → result ≡ get_or (lines_in log.now lines) k (line 0 0 0) }
{
    let [class, id, transition, zero] = log.as_chunks::<4>().0[k];
    Line {
        class,
        id,
        transition,
        zero,
    }
}

// Zeros after the last line, to the end of the slice.
pub fn clear(log: &mut [u8], lines: usize)
    ensures { log.new
        ≡ slice_with (lines_in log.old lines) (length log.old) }
{
    let end = 4 * lines.min(log.len() / 4);
    log[end..].fill(0);
}
