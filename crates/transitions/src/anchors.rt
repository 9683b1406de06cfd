// The anchors of a media.
ghost use Rattle.std.specs.Prelude.{◌≡◌, ◌≤◌};
ghost use Rattle.machine.specs.Events.{anchors_moved};
ghost use Rattle.machine.specs.declared.NodeEvents.{NodeEvents};
ghost use Rattle.call_log.specs.LogSlice.{log_of};
ghost use Rattle.changes.specs.Moves.{moves};
ghost use Rattle.transitions.specs.Lent.{Rest, run_with, anchors_of};

use call_log::Written;
use changes::{Change, Moving, anchor_transition, count_after};
use machine::{AnchorEvents, Anchors, terms};
use records::fields::anchor_at;

// Of the first anchors, up to `end`, those of the media that move go to the state, in id order. (An id below 128 fits a byte; `try_from`
// would give a Result, to be unwrapped by the same fact.)
#[tactic(auto, using(base::specs::Loops::ascending_none, base::specs::Loops::ascending_more, base::specs::Loops::ascending_done, crate::proofs::AnchorLaws::anchor_moved_lem), unfolding(machine::specs::Events::anchors_moved, crate::proofs::AnchorLaws::changed_by))]
pub fn move_anchors(
    anchors: &Anchors,
    end: usize,
    events: &mut AnchorEvents,
    log: &mut [u8],
    written: &mut Written,
    moving: Moving,
    change: Change,
)
    requires { end ≤ 128 }
    ensures { (nodes : NodeEvents) (rest : Rest)
        → run_with nodes events.new rest (log_of written.new log.new)
        ≡ anchors_moved (anchors_of end anchors.now.media anchors.now.begins anchors.now.ends)
        (moves moving) change.aborting change.node change.state
        (run_with nodes events.old rest (log_of written.old log.old)) }
{
    for a in 0..end {
        let anchor = anchor_at(anchors, a);
        if let Some(transition) = anchor_transition(moving, change, anchor, events.states[a]) {
            events.states[a] = change.state;
            events.counts[a] = count_after(transition, events.counts[a]);
            written.emit(log, terms::OF_ANCHOR, a as u8, transition);
        }
    }
}
