// A change of state: its transition, and the count and the clock after it; which anchors follow their media, and whether the
// media's line goes before theirs.
#![tactic(auto, using(base::specs::Tests::when_true, base::specs::Tests::when_false), unfolding(machine::specs::Events::transition, machine::specs::Events::counted, machine::specs::Events::clocked, machine::specs::Events::begins_at, machine::specs::Events::ends_at, machine::specs::Events::is_awake, machine::specs::Events::line_first, machine::specs::Events::follows, crate::specs::Transitions::transition_or_none))]

ghost use Rattle.std.specs.Prelude.{◌≡◌, ◌&&◌};
ghost use Rattle.base.specs.Tests.{when◌then◌else◌, ◌=?◌};
ghost use Rattle.machine.specs.Terms.{no_transition};
ghost use Rattle.machine.specs.Events.{transition, counted, clocked, follows, line_first};
ghost use Rattle.changes.specs.Moves.{moves};
ghost use Rattle.changes.specs.Transitions.{transition_or_none};

use machine::{AnchorRecord, terms};

// The transition from a state to another, as it goes into the log; none from a state to itself.
pub fn transition_of(aborting: bool, old: u8, new: u8) -> Option<u8>
    ensures { result ≡ transition_or_none (transition aborting old new) }
{
    match (old, new) {
        _ if old == new => None,
        (_, terms::SLEEPING) if aborting => Some(terms::ABORTS),
        (_, terms::SLEEPING) => Some(terms::STOPS),
        (terms::SLEEPING, _) => Some(terms::STARTS),
        (_, terms::OCCURRING) => Some(terms::RESUMES),
        _ => Some(terms::PAUSES),
    }
}

// The occurrence count after a transition. A transition is 01's number: a type for the five would take fewer numbers, and so ask more of
// callers.
pub fn count_after(transition: u8, count: u32) -> u32
    ensures { result ≡ counted transition count }
{
    if transition == terms::STOPS {
        count.wrapping_add(1)
    } else {
        count
    }
}

// The clock after a transition, by its number, as above.
pub fn clock_after(transition: u8, clock: u16) -> u16
    ensures { result ≡ clocked transition clock }
{
    if transition <= terms::ABORTS {
        0
    } else {
        clock
    }
}

// A change of state of a node, or with it of the anchors of a media: the state that it goes to, and whether it aborts where that is
// sleeping.
#[derive(Clone, Copy)]
pub struct Change {
    pub node: usize,
    pub state: u8,
    pub aborting: bool,
}

// Which anchors of a media move, as data, since a closure that is made here could not be handed out: those that begin at a clock,
// those awake that end at it, those awake.
#[derive(Clone, Copy)]
pub enum Moving {
    BeginningAt(u16),
    EndingAt(u16),
    Awake,
}

impl Moving {
    // Whether an anchor moves.
    fn moves(self, begin: u16, end: u16, state: u8) -> bool
        ensures { result ≡ moves self begin end state }
    {
        match self {
            Moving::BeginningAt(clock) => begin == clock,
            Moving::EndingAt(clock) => state != terms::SLEEPING && end == clock,
            Moving::Awake => state != terms::SLEEPING,
        }
    }
}

// The transition that a media's change brings an anchor in a state; none if it is not one of those of the media that move.
pub fn anchor_transition(
    moving: Moving,
    change: Change,
    anchor: AnchorRecord,
    state: u8,
) -> Option<u8>
    ensures { result ≡ transition_or_none (when anchor.media =? change.node && moves moving anchor.begin anchor.end state
        then transition change.aborting state change.state else no_transition) }
{
    if usize::from(anchor.media) == change.node && moving.moves(anchor.begin, anchor.end, state) {
        transition_of(change.aborting, state, change.state)
    } else {
        None
    }
}

// Whether the media's line goes before those of its anchors. An action is a byte, here and below, as in `records::tables::next_state`.
pub fn line_first(action: u8) -> bool
    ensures { result ≡ line_first action }
{
    matches!(action, terms::TO_START | terms::TO_RESUME)
}

// The anchors that follow their media in an action.
pub fn following(action: u8) -> Moving
    ensures { moves result ≡ follows action }
{
    if action == terms::TO_START {
        Moving::BeginningAt(0)
    } else {
        Moving::Awake
    }
}
