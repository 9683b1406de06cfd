// The printed run: reads the files `doc` and `script` of the folder that it is started in, and prints a line for each call.
//
// What is printed is made by the libraries `script_run` and `printing`. Here files are read, and lines go to standard output.
#![tactic(auto)]

ghost use Rattle.std.specs.Prelude.{false, ◌≡◌, List, ℕ, ◌+◌, ◌≤◌, length, take, None, Ok, IfSome, IfOk};
ghost use Rattle.std.proofs.Math.Seq.{slice};
ghost use Rattle.machine.specs.Broken.{broken};
ghost use Rattle.machine.specs.Sessions.{session_of};
ghost use Rattle.printing.specs.Script.{script_record};
ghost use Rattle.printing.specs.Writing.{Front};
ghost use Rattle.printed_run.specs.Held.{HeldNext, Reached};
ghost use Rattle.printed_run.specs.declared.TheConstants.{PART_BYTES};

use document_front::DECIDING_BYTES;
use machine::Loaded;
use machine::sound::UnbrokenSession;
use printing::script::ScriptRecord;
use printing::text::Text;
use script_run::{Part, Stop};
use std::fs::File;
use std::io;
use std::io::Read;
use std::rt::Files;

// A proved loop has to end, and nothing says that a file does: the loop has a number of turns that no run uses up. In so many the number
// of a call does not become too large.
const TURNS: u64 = 1_000_000_000_000_000;

// In bytes: what is held of the script at a time, the log of a call, and the lines of one part.
const PART_BYTES: usize = 4096;

const LOG_BYTES: usize = 65536;

const OUT_BYTES: usize = 262144;

// The value; where there is none, standard error says what could not be read or written, and why. Where that cannot be written either,
// nothing can be said.
fn or_fail<T>(rt: &impl Eprint, what: &str, outcome: io::Result<T>) -> Option<T>
    ensures { IfSome result (λ value. outcome ≡ Ok value) }
{
    match outcome {
        Ok(value) => Some(value),
        Err(error) => {
            let _ = eprintln!(rt; "{what}: {error}");
            None
        }
    }
}

// None if not all was written.
fn print<R: Print + Eprint>(rt: &R, line: &[u8]) -> Option<()> {
    or_fail(rt, "standard output", rt.write_all(line))
}

// ---- the script

// The script as far as it was read: so many bytes of `part` as `held` says are still to be run, since memory is fixed. That they are a cut
// record, or none, is known only where a part stopped for one (`Stop::Cut`): it is asked there, and no fact of the struct. `rt`, the log and
// `out` are lent beside it: nothing in them is kept from part to part.
#[derive(Drop)]
struct Script {
    file: File,
    part: [u8; PART_BYTES],
    held: usize,
    ghost within: { held ≤ PART_BYTES },
}

impl Script {
    // One read, behind the bytes that are held. Answers how many bytes it gave: none at the end of the script.
    fn read(&mut self, rt: &impl Eprint) -> Option<usize>
        ensures { IfSome result (λ n. (self.new.held ≡ self.old.held + n)
            × (take self.old.held self.new.part ≡ take self.old.held self.old.part)) }
    {
        let n = or_fail(rt, "script", self.file.read(&mut self.part[self.held..]))?;
        self.held += n;
        Some(n)
    }

    // The end of the script, of which the bytes that are held are left.
    fn end<R: Print + Eprint>(&self, rt: &R, out: &mut [u8; OUT_BYTES])
        requires { script_record (take self.now.held self.now.part) ≡ ScriptRecord.Cut }
    {
        let filled = script_run::finish(&self.part[..self.held], &mut *out);
        print(rt, &out[..filled]);
    }

    // Reads more of the script behind the bytes that are held, a cut record or none; where there is no more, the script ends with them.
    // None if the run ends.
    #[tactic(auto, using(crate::proofs::Parts::more_held))]
    fn read_on<R: Print + Eprint>(&mut self, rt: &R, out: &mut [u8; OUT_BYTES]) -> Option<()>
        requires { script_record (take self.old.held self.old.part) ≡ ScriptRecord.Cut }
        ensures { HeldNext (take self.old.held self.old.part) (take self.new.held self.new.part) result }
    {
        if self.read(rt)? == 0 {
            self.end(rt, out);
            return None;
        }
        Some(())
    }

    // After a part of the script was run: writes its lines, and reads on where all its whole records are run. None if the run ends.
    fn go_on<R: Print + Eprint>(
        &mut self,
        rt: &R,
        ran: Part,
        out: &mut [u8; OUT_BYTES],
    ) -> Option<()>
        requires { (ran.used ≤ self.old.held) × Front ran.filled out.old
            × (ran.stop ≡ Stop.Cut → script_record (slice ran.used self.old.held self.old.part) ≡ ScriptRecord.Cut) }
        ensures held { HeldNext (slice ran.used self.old.held self.old.part) (take self.new.held self.new.part) result }
        ensures ended { ran.stop ≡ Stop.Ended → result ≡ None }
    {
        print(rt, &out[..ran.filled])?;
        self.held = script_run::to_front(&mut self.part, ran.used, self.held);
        match ran.stop {
            Stop::Full => Some(()),
            Stop::Cut => self.read_on(rt, out),
            Stop::Ended => None,
        }
    }
}

// The first bytes of the script are held. All lines are written before more of the script is read: whoever feeds it through a pipe sees
// the lines of what has been read. Answers the last part.
fn run_script<R: Print + Eprint>(
    rt: &R,
    session: &mut UnbrokenSession,
    script: &mut Script,
    log: &mut [u8; LOG_BYTES],
    out: &mut [u8; OUT_BYTES],
) -> Part
    ensures { (result.stop ≡ Stop.Ended → ⊥) → (left : List ℕ) × Reached (session_of session.old) (session_of session.new) result left }
{
    // Nothing is run yet.
    let mut ran = Part {
        number: 1,
        used: 0,
        filled: 0,
        stop: Stop::Full,
    };
    for _ in 0..TURNS {
        ran = script_run::run_part(
            &mut *session,
            ran.number,
            &script.part[..script.held],
            &mut *log,
            &mut *out,
        );
        let Some(()) = script.go_on(rt, ran, &mut *out) else {
            return ran;
        };
    }
    ran
}

// ---- files

// That no more bytes are read than there is room for goes up through three functions to its one use, `load_front`; a struct that says it would
// be taken apart there.

// The file's bytes, as many as fit. (A while: how many bytes one read gives is not known.)
fn read_start(file: &mut impl Read, bytes: &mut [u8]) -> io::Result<usize>
    ensures { IfOk result (λ n. n ≤ length bytes.new) }
{
    let mut at = 0;
    while at < bytes.len() {
        let n = file.read(&mut bytes[at..])?;
        if n == 0 {
            break;
        }
        at += n;
    }
    Ok(at)
}

fn open_and_read_start(rt: &impl Files, document: &mut [u8]) -> io::Result<usize>
    ensures { IfOk result (λ n. n ≤ length document.new) }
{
    let mut file = File::open(rt, "doc")?;
    read_start(&mut file, document)
}

fn read_document<R: Files + Eprint>(rt: &R, document: &mut [u8]) -> Option<usize>
    ensures { IfSome result (λ n. n ≤ length document.new) }
{
    or_fail(rt, "doc", open_and_read_start(rt, document))
}

fn run_document<R: Print + Eprint>(
    rt: &R,
    loaded: Loaded,
    script: &mut Script,
    log: &mut [u8; LOG_BYTES],
    out: &mut [u8; OUT_BYTES],
)
    requires { loaded.answer ≡ Ok tt → broken loaded.session ≡ false }
{
    match loaded.answer {
        Ok(()) => {
            let mut session = UnbrokenSession::new(loaded.session);
            run_script(rt, &mut session, script, log, out);
        }
        Err(refusal) => {
            let mut line = [0u8; 8];
            let mut text = Text::new(&mut line);
            printing::lines::document_line(&mut text, refusal);
            print(rt, text.written());
        }
    }
}

// The first bytes of both files are read before anything is printed.
fn main(rt: HostRuntime) {
    let mut document = [0u8; DECIDING_BYTES];
    let Some(filled) = read_document(&rt, &mut document) else {
        return;
    };
    let Some(file) = or_fail(&rt, "script", File::open(&rt, "script")) else {
        return;
    };
    let mut script = Script {
        file,
        part: [0u8; PART_BYTES],
        held: 0,
    };
    let Some(_) = script.read(&rt) else {
        return;
    };
    let mut log = [0u8; LOG_BYTES];
    let mut out = [0u8; OUT_BYTES];
    let loaded = document_front::load_front(&document, filled);
    run_document(&rt, loaded, &mut script, &mut log, &mut out);
}
