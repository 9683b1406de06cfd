// What may be asked of a session that is known not to be broken. `player` has the questions for any session.
#![tactic(auto)]

ghost use Rattle.std.specs.Prelude.{◌≡◌, ◌&&◌, Ok};
ghost use Rattle.base.specs.Tests.{◌<?◌, ◌≤?◌};
ghost use Rattle.machine.specs.Answers.{read_answer, counts_answer, count_answer};
ghost use Rattle.machine.specs.Terms.{of_node, of_property};
ghost use Rattle.machine.specs.Sessions.{session_of};
ghost use Rattle.machine.specs.Operations.{read_state, read};
ghost use Rattle.machine.specs.Counts.{check_counts, give_count};
ghost use Rattle.questions.specs.Places.{Within};

use checks::subject_given;
use machine::sound::UnbrokenSession;
use machine::{CountAnswer, CountsAnswer, Reading, Refusal, State, terms};

// ---- read

fn class_is_read(class: u8) -> bool
    ensures { result ≡ of_node ≤? class && class ≤? of_property }
{
    matches!(class, terms::OF_NODE..=terms::OF_PROPERTY)
}

// A node and an anchor have no value, a property no state; the columns of each are its own.
#[tactic(auto, using(base::specs::Tests::when_tells), unfolding(machine::specs::Operations::read_state))]
fn read_event(s: &State, class: u8, id: usize) -> Reading
    requires { Within class id }
    ensures { read_answer (Ok result) ≡ read_state s.now class id }
{
    match class {
        terms::OF_NODE => Reading {
            state: s.nodes.states[id],
            value: 0,
            count: s.nodes.counts[id],
        },
        terms::OF_ANCHOR => Reading {
            state: s.anchors.states[id],
            value: 0,
            count: s.anchors.counts[id],
        },
        _ => Reading {
            state: terms::SLEEPING,
            value: s.properties.values[id],
            count: s.properties.counts[id],
        },
    }
}

#[tactic(auto, using(base::specs::Tests::when_tells), unfolding(machine::specs::Operations::read))]
pub fn read(s: &UnbrokenSession, class: u8, id: u8) -> Result<Reading, Refusal>
    ensures { read_answer result ≡ read (session_of s.now) class id }
{
    if !class_is_read(class) {
        return Err(Refusal::BadArgument);
    }
    if !subject_given(&s.document.document, class, id) {
        return Err(Refusal::NoSuchId);
    }
    Ok(read_event(&s.state, class, usize::from(id)))
}

// ---- the check for report authors

// An id and a property, each among so many.
fn both_given(id: u8, count: usize, property: u8, properties: usize) -> bool
    ensures { result ≡ id <? count && property <? properties }
{
    usize::from(id) < count && usize::from(property) < properties
}

#[tactic(auto, using(base::specs::Tests::when_tells, crate::proofs::Given::few_nodes), unfolding(machine::specs::Counts::check_counts))]
pub fn check_counts(s: &UnbrokenSession, media: u8, property: u8) -> CountsAnswer
    ensures { counts_answer result ≡ check_counts (session_of s.now) media property }
{
    let d = &s.document.document;
    if !both_given(media, d.nodes.count, property, d.properties) {
        return Err(Refusal::NoSuchId);
    }
    if d.nodes.types[usize::from(media)] != terms::MEDIA {
        return Err(Refusal::NoSuchId);
    }
    Ok(counts::first_failing(&s.document, media, property))
}

#[tactic(auto, using(base::specs::Tests::when_tells, crate::proofs::Given::few_anchors), unfolding(machine::specs::Counts::give_count, machine::specs::Counts::with_count, machine::specs::Counts::shows_counts))]
pub fn count_of(s: &UnbrokenSession, anchor: u8, property: u8) -> CountAnswer
    ensures { count_answer result ≡ give_count (session_of s.now) anchor property }
{
    let d = &s.document.document;
    if !both_given(anchor, d.anchors.count, property, d.properties) {
        return Err(Refusal::NoSuchId);
    }
    let media = d.anchors.media[usize::from(anchor)];
    // `map` would take a closure, which would not know that the counts are shown, and `?` a function of its own for one arm.
    Ok(match counts::first_failing(&s.document, media, property) {
        Ok(()) => Ok(counts::count_of(&s.document, property, anchor)),
        Err(condition) => Err(condition),
    })
}
