// The report player: the crate to link. Any session, any arguments and a log slice of any length may be handed in.
// A session that is not broken goes on to `engine` and `questions`. Sessions go by value, so that what comes back is a value of its own.
#![tactic(auto)]

ghost use Rattle.std.specs.Prelude.{◌≡◌, true, false, length, IfOk, IfErr};
ghost use Rattle.machine.specs.Answers.{read_answer, counts_answer, count_answer};
ghost use Rattle.machine.specs.Broken.{broken};
ghost use Rattle.machine.specs.Load.{load};
ghost use Rattle.machine.specs.Operations.{command, call, read};
ghost use Rattle.machine.specs.Counts.{check_counts, give_count};
ghost use Rattle.document.specs.Loading.{load_result};
ghost use Rattle.engine.specs.Promises.{call_result};

use machine::sound::UnbrokenSession;
use machine::{
    ActionRecord, Call, Called, CountAnswer, CountsAnswer, Loaded, Reading, Refusal, Session,
};

// Refuses a broken session. It answers no `UnbrokenSession`: a Result of one would be filled with zeros and copied in every call.
fn check_unbroken(s: &Session) -> Result<(), Refusal>
    ensures unbroken { IfOk result (λ _. broken s.now ≡ false) }
    ensures refused { IfErr result (λ refusal. (broken s.now ≡ true) × (refusal ≡ Refusal.BrokenSession)) }
{
    if session_check::is_broken(s) {
        return Err(Refusal::BrokenSession);
    }
    Ok(())
}

pub fn load(document: &[u8]) -> Loaded
    ensures { load_result result ≡ load document.now }
{
    document::loading::load(document)
}

#[tactic(auto, using(base::specs::Tests::when_tells), unfolding(machine::specs::Operations::call_admitting))]
pub fn call(s: Session, c: Call, log: &mut [u8]) -> Called
    ensures { call_result result log.new ≡ call s c (length log.old) }
{
    if let Err(refusal) = check_unbroken(&s) {
        return Called {
            answer: engine::refuse(refusal, log),
            session: s,
        };
    }
    let mut session = UnbrokenSession::new(s);
    let answer = engine::call(&mut session, c, log);
    Called {
        answer,
        session: Session::from(session),
    }
}

// 01's three calls by its names, each one kind of `call`.

pub fn command(s: Session, action: u8, target: u8, value: i32, log: &mut [u8]) -> Called
    ensures { call_result result log.new
        ≡ call s (command action target value) (length log.old) }
{
    call(
        s,
        Call::Command(ActionRecord {
            action,
            target,
            value,
        }),
        log,
    )
}

pub fn key(s: Session, code: u8, log: &mut [u8]) -> Called
    ensures { call_result result log.new ≡ call s (Call.Key code) (length log.old) }
{
    call(s, Call::Key(code), log)
}

pub fn tick(s: Session, log: &mut [u8]) -> Called
    ensures { call_result result log.new ≡ call s Call.Tick (length log.old) }
{
    call(s, Call::Tick, log)
}

#[tactic(auto, using(base::specs::Tests::when_tells), unfolding(machine::specs::Operations::read))]
pub fn read(s: Session, class: u8, id: u8) -> Result<Reading, Refusal>
    ensures { read_answer result ≡ read s class id }
{
    check_unbroken(&s)?;
    questions::read(&UnbrokenSession::new(s), class, id)
}

#[tactic(auto, using(base::specs::Tests::when_tells), unfolding(machine::specs::Counts::check_counts))]
pub fn check_counts(s: Session, media: u8, property: u8) -> CountsAnswer
    ensures { counts_answer result ≡ check_counts s media property }
{
    check_unbroken(&s)?;
    questions::check_counts(&UnbrokenSession::new(s), media, property)
}

#[tactic(auto, using(base::specs::Tests::when_tells), unfolding(machine::specs::Counts::give_count))]
pub fn count_of(s: Session, anchor: u8, property: u8) -> CountAnswer
    ensures { count_answer result ≡ give_count s anchor property }
{
    check_unbroken(&s)?;
    questions::count_of(&UnbrokenSession::new(s), anchor, property)
}
