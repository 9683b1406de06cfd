// The calls on a session that is known not to be broken. A call leaves such a session, so that a caller who makes many calls
// carries the fact from one to the next and nothing is checked twice. `player` has the operations for any session.
#![tactic(auto)]

ghost use Rattle.std.specs.Prelude.{◌≡◌, false, length};
ghost use Rattle.machine.specs.Answers.{number_of, check_number};
ghost use Rattle.machine.specs.Broken.{broken};
ghost use Rattle.machine.specs.Operations.{argument_fault, begun, call_refused, ended, call};
ghost use Rattle.machine.specs.Sessions.{session_of};
ghost use Rattle.machine.specs.declared.Session.{Session};
ghost use Rattle.events.specs.Running.{run};
ghost use Rattle.engine.specs.Promises.{called_result};

use call_log::clear;
use chain::run_chain;
use checks::{action_right, target_given};
use events::Work;
use events::acting::act;
use machine::sound::{SoundDocument, UnbrokenSession};
use machine::{Call, Document, Refusal};
use ticking::{key, tick};

// ---- the end of a call

// A refused call leaves the session and logs nothing.
#[tactic(auto, using(call_log::proofs::LogLaws::lines_none), unfolding(machine::specs::Operations::call_refused))]
pub fn refuse(refusal: Refusal, log: &mut [u8]) -> Result<u8, Refusal>
    ensures { (s : Session) → called_result result s log.new
        ≡ call_refused (number_of refusal) s (length log.old) }
{
    clear(log, 0);
    Err(refusal)
}

#[tactic(auto, unfolding(machine::specs::Operations::ended, machine::specs::Chain::goes_on))]
fn end(s: &mut UnbrokenSession, w: &Work, log: &mut [u8]) -> Result<u8, Refusal>
    requires { broken (ended (session_of s.old) (length log.old) (run w.now log.old)).session ≡ false }
    ensures { called_result result (session_of s.new) log.new
        ≡ ended (session_of s.old) (length log.old) (run w.now log.old) }
{
    match w.written.stop {
        Ok(()) => {
            clear(log, w.written.lines);
            s.set_state(w.state);
            Ok(w.firings)
        }
        Err(refusal) => refuse(refusal, log),
    }
}

// ---- the calls

// The refusals 9 and 10.
#[tactic(auto, unfolding(machine::specs::Operations::argument_fault, machine::specs::Operations::command_fault))]
fn check_arguments(d: &Document, c: Call) -> Result<(), Refusal>
    ensures { check_number result ≡ argument_fault d.now c }
{
    match c {
        Call::Command(a) => {
            if !action_right(a.action, a.value) {
                return Err(Refusal::BadArgument);
            }
            if !target_given(d, a.action, a.target) {
                return Err(Refusal::NoSuchId);
            }
            Ok(())
        }
        Call::Key(_) | Call::Tick => Ok(()),
    }
}

// What a call does before the chain.
#[tactic(auto, unfolding(machine::specs::Operations::begun, machine::specs::Operations::argument_fault))]
fn begin(d: &SoundDocument, w: &mut Work, log: &mut [u8], c: Call)
    requires { argument_fault d.now.document c ≡ 0 }
    ensures { run w.new log.new ≡ begun d.now.document c (run w.old log.old) }
{
    match c {
        Call::Command(a) => act(d, w, log, a),
        Call::Key(code) => key(w, log, code),
        Call::Tick => tick(d, w, log),
    }
}

// The working record begins with a copy of the state, and what it leaves is copied back only where the call is accepted.
pub fn call(s: &mut UnbrokenSession, c: Call, log: &mut [u8]) -> Result<u8, Refusal>
    ensures { called_result result (session_of s.new) log.new
        ≡ call (session_of s.old) c (length log.old) }
{
    if let Err(refusal) = check_arguments(&s.document.document, c) {
        return refuse(refusal, log);
    }
    let mut w = Work::new(s.state);
    begin(&s.document, &mut w, &mut *log, c);
    run_chain(&s.document, &mut w, &mut *log);
    end(s, &w, log)
}
