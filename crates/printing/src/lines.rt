// The lines of the printed run: one for each call, or one for a document that is refused. What prints them is no `Display`, nor written by
// `write!`, since it cannot fail (see `Text::put_decimal`).
ghost use Rattle.std.specs.Prelude.{◌≡◌, ◌++◌, map, length};
ghost use Rattle.std.specs.List.{prefix_len};
ghost use Rattle.machine.specs.Answers.{number_of, call_answer};
ghost use Rattle.machine.specs.Log.{lines_of};
ghost use Rattle.machine.specs.PrintedRun.{printed_call};
ghost use Rattle.machine.specs.Text.{text as text_of, decimal};
ghost use Rattle.machine.specs.declared.Session.{Session};
ghost use Rattle.printing.specs.Writing.{Adds, HasRoom};
ghost use Rattle.printing.specs.Lines.{is_line, group_of, groups_text, line_text, accepted_text, refused_text, line_room};

use crate::text::Text;
use machine::Refusal;

// Room for a call's line, with a log of 65,536 bytes (`Lines.line_room`).
pub const LINE_ROOM: usize = 196_658;

// ---- the lines of a log

fn is_line(group: &[u8; 4]) -> bool
    ensures { result ≡ is_line group.now }
{
    group[0] != 0
}

// The groups of four bytes of a log before the first of class 0.
fn lines_of(log: &[u8]) -> &[[u8; 4]]
    ensures { result.now ≡ map group_of (lines_of log.now) }
{
    let (groups, _) = log.as_chunks();
    &groups[..line_count(groups)]
}

fn line_count(groups: &[[u8; 4]]) -> usize
    ensures { result ≡ prefix_len is_line groups.now }
{
    groups.iter().take_while(|group| is_line(*group)).count()
}

#[tactic(auto, using(crate::proofs::Writings::then, crate::proofs::Texts::line_length), unfolding(crate::specs::Lines::line_text, machine::specs::Text::text))]
fn put_line(text: &mut Text, class: u8, id: u8, transition: u8)
    requires { HasRoom (length (line_text class id transition)) text.old }
    ensures { Adds (line_text class id transition) text.old text.new }
{
    text.put_number(b' ', u64::from(class));
    text.put_number(b'.', u64::from(id));
    text.put_number(b'.', u64::from(transition));
}

fn put_lines(text: &mut Text, lines: &[[u8; 4]])
    requires { HasRoom (length (groups_text lines.now)) text.old }
    ensures { Adds (groups_text lines.now) text.old text.new }
{
    for [class, id, transition, _] in lines {
        put_line(text, *class, *id, *transition);
    }
}

// ---- the answer of a call

#[tactic(auto, using(crate::proofs::Writings::then, crate::proofs::Texts::accepted_length), unfolding(crate::specs::Lines::accepted_text, machine::specs::Text::text))]
fn put_accepted(text: &mut Text, firings: u8, log: &[u8])
    requires { HasRoom (length (accepted_text firings log.now)) text.old }
    ensures { Adds (accepted_text firings log.now) text.old text.new }
{
    let lines = lines_of(log);
    text.put_text(b" ok");
    // (a length fits 64 bits; `try_from` would give a Result that cannot fail here, to be unwrapped by the same fact)
    text.put_number(b' ', lines.len() as u64);
    text.put_number(b' ', u64::from(firings));
    put_lines(text, lines);
}

#[tactic(auto, using(crate::proofs::Writings::then, crate::proofs::Texts::refused_length), unfolding(crate::specs::Lines::refused_text, machine::specs::Text::text))]
fn put_refused(text: &mut Text, refusal: Refusal)
    requires { HasRoom (length (refused_text (number_of refusal))) text.old }
    ensures { Adds (refused_text (number_of refusal)) text.old text.new }
{
    text.put_text(b" no");
    text.put_number(b' ', u64::from(u8::from(refusal)));
}

// ---- whole lines

// The line of a call.
pub fn call_line(text: &mut Text, number: u64, answer: Result<u8, Refusal>, log: &[u8])
    requires { HasRoom (line_room (length log.now)) text.old }
    ensures { (s : Session)
        → Adds (printed_call number (record { answer = call_answer answer; session = s; log = log.now }))
        text.old text.new }
{
    text.put_decimal(number);
    match answer {
        Ok(firings) => put_accepted(text, firings, log),
        Err(refusal) => put_refused(text, refusal),
    }
    text.put(b'\n');
}

// The line of a wrong or cut record of a script.
#[tactic(auto, unfolding(machine::specs::Text::text))]
pub fn script_line(text: &mut Text)
    requires { HasRoom 7 text.old }
    ensures { Adds (text_of "script\n") text.old text.new }
{
    text.put_text(b"script\n");
}

// The line of a document that is refused.
#[tactic(auto, using(crate::proofs::Writings::then, crate::proofs::Decimals::byte_length), unfolding(machine::specs::Text::text))]
pub fn document_line(text: &mut Text, refusal: Refusal)
    requires { HasRoom 8 text.old }
    ensures { Adds (text_of "doc " ++ decimal (number_of refusal) ++ text_of "\n") text.old text.new }
{
    text.put_text(b"doc");
    text.put_number(b' ', u64::from(u8::from(refusal)));
    text.put(b'\n');
}
