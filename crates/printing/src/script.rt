// The records of a script, cut and decoded.
ghost use Rattle.std.specs.Prelude.{◌≡◌};
ghost use Rattle.printing.specs.Script.{record_after, script_record};

use machine::Call;
use records::fields::action_of;

// What stands at the front of some bytes of a script. Cut: there is no whole record yet, and more bytes may make one.
// Wrong: no record begins there, whatever follows. (A Result of a call would nest the other two, which are no failures of one kind.)
#[derive(Clone, Copy)]
pub enum ScriptRecord {
    Call(Call),
    Cut,
    Wrong,
}

// The bytes of a script after one of kind, which may be any byte: 6 of a command, 1 of a key, none of a tick.
fn record_after(kind: u8, rest: &[u8]) -> ScriptRecord
    ensures { result ≡ record_after kind rest.now }
{
    match kind {
        1 if rest.len() >= 6 => ScriptRecord::Call(Call::Command(action_of(&rest[..6]))),
        2 if rest.len() >= 1 => ScriptRecord::Call(Call::Key(rest[0])),
        3 => ScriptRecord::Call(Call::Tick),
        1 | 2 => ScriptRecord::Cut,
        _ => ScriptRecord::Wrong,
    }
}

pub fn record_in(bytes: &[u8]) -> ScriptRecord
    ensures { result ≡ script_record bytes.now }
{
    match bytes {
        [kind, rest @ ..] => record_after(*kind, rest),
        [] => ScriptRecord::Cut,
    }
}
