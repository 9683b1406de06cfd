// The player's operations for tests and measurements from another language: sessions go in and come back as C lays them
// out, so that any session can be handed over.
#![tactic(auto)]

ghost use Rattle.std.specs.Prelude.{List, ◌≡◌, ℕ, true, false, length, IfOk, IfErr};
ghost use Rattle.machine.specs.Answers.{number_of, read_answer, counts_answer, count_answer};
ghost use Rattle.machine.specs.Load.{load};
ghost use Rattle.machine.specs.Operations.{command, call, read};
ghost use Rattle.machine.specs.declared.Call.TheVariants.{Key, Tick};
ghost use Rattle.machine.specs.Counts.{check_counts, give_count};
ghost use Rattle.document.specs.Loading.{load_result};
ghost use Rattle.engine.specs.Promises.{call_result};
ghost use Rattle.probe.specs.Returning.{load_in, call_in, read_in, check_in, count_in};

use machine::{Called, CountAnswer, CountsAnswer, Loaded, Reading, Refusal, Session};

// A flag with numbers beside it, in each of these, since C has no enum with values.

// What a load or a call returned: the number of its refusal, or that it was accepted, with the firings of a call.
#[repr(C)]
#[derive(Clone, Copy)]
pub struct ReturnedSession {
    pub accepted: bool,
    pub refusal: u8,
    pub firings: u8,
    pub session: Session,
}

// What a read returned.
#[repr(C)]
#[derive(Clone, Copy)]
pub struct ReturnedReading {
    pub accepted: bool,
    pub refusal: u8,
    pub state: u8,
    pub value: i32,
    pub count: u32,
}

// What a check of counts returned: the number of the first condition that fails, 0 if none does.
#[repr(C)]
#[derive(Clone, Copy)]
pub struct ReturnedCheck {
    pub accepted: bool,
    pub refusal: u8,
    pub condition: u8,
}

// What was returned for an anchor's count.
#[repr(C)]
#[derive(Clone, Copy)]
pub struct ReturnedCount {
    pub accepted: bool,
    pub refusal: u8,
    pub condition: u8,
    pub count: i32,
}

// An answer and a session. An accepted load is as a call with no firings.
fn returned(answer: Result<u8, Refusal>, session: Session) -> ReturnedSession
    ensures accepted { IfOk answer (λ firings. (result.accepted ≡ true) × (result.firings ≡ firings)) }
    ensures refused { IfErr answer (λ refusal. (result.accepted ≡ false) × (result.refusal ≡ number_of refusal)) }
    ensures same { result.session ≡ session }
{
    match answer {
        Ok(firings) => ReturnedSession {
            accepted: true,
            refusal: 0,
            firings,
            session,
        },
        Err(refusal) => ReturnedSession {
            accepted: false,
            refusal: u8::from(refusal),
            firings: 0,
            session,
        },
    }
}

impl From<Loaded> for ReturnedSession {
    ghost from_gives = { λ loaded returned. load_in returned ≡ load_result loaded };

    fn from(loaded: Loaded) -> ReturnedSession {
        returned(loaded.answer.and(Ok(0)), loaded.session)
    }
}

impl From<Called> for ReturnedSession {
    ghost from_gives = { λ called returned. (bytes : List ℕ) → call_in returned bytes ≡ call_result called bytes };

    fn from(called: Called) -> ReturnedSession {
        returned(called.answer, called.session)
    }
}

impl From<Result<Reading, Refusal>> for ReturnedReading {
    ghost from_gives = { λ answer returned. read_in returned ≡ read_answer answer };

    fn from(answer: Result<Reading, Refusal>) -> ReturnedReading {
        match answer {
            Ok(reading) => ReturnedReading {
                accepted: true,
                refusal: 0,
                state: reading.state,
                value: reading.value,
                count: reading.count,
            },
            Err(refusal) => ReturnedReading {
                accepted: false,
                refusal: u8::from(refusal),
                state: 0,
                value: 0,
                count: 0,
            },
        }
    }
}

impl From<CountsAnswer> for ReturnedCheck {
    ghost from_gives = { λ answer returned. check_in returned ≡ counts_answer answer };

    fn from(answer: CountsAnswer) -> ReturnedCheck {
        match answer {
            Ok(Ok(())) => ReturnedCheck {
                accepted: true,
                refusal: 0,
                condition: 0,
            },
            Ok(Err(condition)) => ReturnedCheck {
                accepted: true,
                refusal: 0,
                condition: u8::from(condition),
            },
            Err(refusal) => ReturnedCheck {
                accepted: false,
                refusal: u8::from(refusal),
                condition: 0,
            },
        }
    }
}

impl From<CountAnswer> for ReturnedCount {
    ghost from_gives = { λ answer returned. count_in returned ≡ count_answer answer };

    fn from(answer: CountAnswer) -> ReturnedCount {
        match answer {
            Ok(Ok(count)) => ReturnedCount {
                accepted: true,
                refusal: 0,
                condition: 0,
                count,
            },
            Ok(Err(condition)) => ReturnedCount {
                accepted: true,
                refusal: 0,
                condition: u8::from(condition),
                count: 0,
            },
            Err(refusal) => ReturnedCount {
                accepted: false,
                refusal: u8::from(refusal),
                condition: 0,
                count: 0,
            },
        }
    }
}

// One function for each operation: the exported names are C's.

#[unsafe(no_mangle)]
pub extern "C" fn probe_load(document: &[u8]) -> ReturnedSession
    ensures { load_in result ≡ load document.now }
{
    ReturnedSession::from(player::load(document))
}

#[unsafe(no_mangle)]
pub extern "C" fn probe_command(
    s: Session,
    action: u8,
    target: u8,
    value: i32,
    log: &mut [u8],
) -> ReturnedSession
    ensures { call_in result log.new
        ≡ call s (command action target value) (length log.old) }
{
    ReturnedSession::from(player::command(s, action, target, value, log))
}

#[unsafe(no_mangle)]
pub extern "C" fn probe_key(s: Session, code: u8, log: &mut [u8]) -> ReturnedSession
    ensures { call_in result log.new ≡ call s (Key code) (length log.old) }
{
    ReturnedSession::from(player::key(s, code, log))
}

#[unsafe(no_mangle)]
pub extern "C" fn probe_tick(s: Session, log: &mut [u8]) -> ReturnedSession
    ensures { call_in result log.new ≡ call s Tick (length log.old) }
{
    ReturnedSession::from(player::tick(s, log))
}

#[unsafe(no_mangle)]
pub extern "C" fn probe_read(s: Session, class: u8, id: u8) -> ReturnedReading
    ensures { read_in result ≡ read s class id }
{
    ReturnedReading::from(player::read(s, class, id))
}

#[unsafe(no_mangle)]
pub extern "C" fn probe_check_counts(s: Session, media: u8, property: u8) -> ReturnedCheck
    ensures { check_in result ≡ check_counts s media property }
{
    ReturnedCheck::from(player::check_counts(s, media, property))
}

#[unsafe(no_mangle)]
pub extern "C" fn probe_count_of(s: Session, anchor: u8, property: u8) -> ReturnedCount
    ensures { count_in result ≡ give_count s anchor property }
{
    ReturnedCount::from(player::count_of(s, anchor, property))
}
