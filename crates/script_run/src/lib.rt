// A script run on slices: the records at the front of its bytes, one call each, and the lines that they print.
#![tactic(auto)]

ghost use Rattle.std.specs.Prelude.{◌≡◌, ℕ, ◌+◌, ◌^◌, ◌<◌, ◌≤◌, length, take};
ghost use Rattle.std.proofs.Math.Seq.{slice};
ghost use Rattle.machine.specs.Sessions.{session_of};
ghost use Rattle.machine.specs.declared.Session.{Session};
ghost use Rattle.printing.specs.Lines.{line_room};
ghost use Rattle.printing.specs.Script.{script_record};
ghost use Rattle.printing.specs.Writing.{Front, Printed};
ghost use Rattle.script_run.specs.Running.{printed_all, call_size, Ran};

use machine::Call;
use machine::sound::UnbrokenSession;
use printing::lines::{LINE_ROOM, call_line, script_line};
use printing::script::{ScriptRecord, record_in};
use printing::text::Text;

// Why a part of a script stopped: there is no room for one line more; the bytes that are left are a cut record, or none; or the line
// of a wrong record was written.
#[derive(Clone, Copy)]
pub enum Stop {
    Full,
    Cut,
    Ended,
}

// What is run of a part of a script: the number of the next call, how many bytes of the part were used and of `out` filled, and why it
// stopped. (Both slices are the caller's, in fixed memory, so these are numbers, as those of a reader are.)
#[derive(Clone, Copy)]
pub struct Part {
    pub number: u64,
    pub used: usize,
    pub filled: usize,
    pub stop: Stop,
}

fn size_of(call: Call) -> usize
    ensures { result ≡ call_size call }
{
    match call {
        Call::Command(_) => 7,
        Call::Key(_) => 2,
        Call::Tick => 1,
    }
}

// Runs the records at the front of `script` while `out` has room for one line more, of a call or of a wrong record. Log and `out` are slices,
// which any caller has, and what is asked of their lengths stands here.
pub fn run_part(
    s: &mut UnbrokenSession,
    number: u64,
    script: &[u8],
    log: &mut [u8],
    out: &mut [u8],
) -> Part
    requires { (length log.old ≡ 65_536) × (number + length script.now < 2 ^ 64)
        × (line_room 65_536 ≤ length out.old) }
    ensures { Ran number (session_of s.old) script.now (session_of s.new) out.new result }
{
    let mut text = Text::new(out);
    let mut next = number;
    let mut used = 0;
    // A `loop`: records are of several lengths, and what ends it is the answer.
    let stop = loop {
        if text.room() < LINE_ROOM {
            break Stop::Full;
        }
        match record_in(&script[used..]) {
            ScriptRecord::Call(c) => {
                let answer = engine::call(&mut *s, c, &mut *log);
                call_line(&mut text, next, answer, &*log);
                next += 1;
                used += size_of(c);
            }
            ScriptRecord::Cut => break Stop::Cut,
            ScriptRecord::Wrong => {
                script_line(&mut text);
                break Stop::Ended;
            }
        }
    };
    Part {
        number: next,
        used,
        filled: text.written().len(),
        stop,
    }
}

// The bytes from `start` to `end`, which are left of a part, go to the front of the slice, so that more can be read behind them. Answers
// how many they are.
pub fn to_front(bytes: &mut [u8], start: usize, end: usize) -> usize
    requires { (start ≤ end) × (end ≤ length bytes.old) }
    ensures { Printed (slice start end bytes.old) bytes.new result }
{
    bytes.copy_within(start..end, 0);
    end - start
}

// The end of a script, of which these bytes are left: a cut record, or nothing.
pub fn finish(left: &[u8], out: &mut [u8]) -> usize
    requires { (script_record left.now ≡ ScriptRecord.Cut) × (7 ≤ length out.old) }
    ensures front { Front result out.new }
    ensures printed { (number : ℕ) (s : Session)
        → take result out.new ≡ printed_all number left.now s }
{
    if left.is_empty() {
        return 0;
    }
    let mut text = Text::new(out);
    script_line(&mut text);
    text.written().len()
}
