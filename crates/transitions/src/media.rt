// An action on a media, and a media that comes to a clock.
ghost use Rattle.std.specs.Prelude.{◌≡◌, ◌<◌, ◌≤◌};
ghost use Rattle.machine.specs.Terms.{to_start, to_resume};
ghost use Rattle.machine.specs.Events.{media_moved};
ghost use Rattle.machine.specs.Tick.{passed};
ghost use Rattle.machine.specs.declared.Document.{Document};
ghost use Rattle.call_log.specs.LogSlice.{log_of};
ghost use Rattle.transitions.specs.Lent.{Rest, run_with};
ghost use Rattle.transitions.specs.Due.{due_of};

use super::anchors::move_anchors;
use super::node::node_to;
use call_log::Written;
use changes::{Change, Moving, following, line_first};
use machine::{AnchorEvents, Anchors, NodeEvents, terms};
use records::tables::next_state;

// An action on media n, with its anchors. (The action is a byte, as `next_state` says.)
#[tactic(auto, using(base::specs::Tests::when_true, base::specs::Tests::when_false), unfolding(machine::specs::Events::media_moved, machine::specs::Events::media_to))]
pub fn move_media(
    anchors: &Anchors,
    nodes: &mut NodeEvents,
    events: &mut AnchorEvents,
    log: &mut [u8],
    written: &mut Written,
    action: u8,
    n: usize,
)
    requires { (anchors.now.count ≤ 128) × (n < 64) × (to_start ≤ action) × (action ≤ to_resume) }
    ensures { (rest : Rest)
        → run_with nodes.new events.new rest (log_of written.new log.new)
        ≡ media_moved anchors.now action n
        (run_with nodes.old events.old rest (log_of written.old log.old)) }
{
    let old = nodes.states[n];
    let new = next_state(old, action);
    if old == new {
        return;
    }
    let change = Change {
        node: n,
        state: new,
        aborting: action == terms::TO_ABORT,
    };
    let moving = following(action);
    if line_first(action) {
        node_to(nodes, log, written, change);
        move_anchors(anchors, anchors.count, events, log, written, moving, change);
    } else {
        move_anchors(anchors, anchors.count, events, log, written, moving, change);
        node_to(nodes, log, written, change);
    }
}

// What is due for a media at a clock: its anchors that end there are among the first `ending` of all anchors, those that begin
// there among the first `beginning`; and whether it stops itself.
#[derive(Clone, Copy)]
pub struct Due {
    pub clock: u16,
    pub ending: usize,
    pub beginning: usize,
    pub stops: bool,
}

// Media n comes to a clock: its awake anchors that end there stop, those that begin there start, and at its duration it stops
// itself.
pub fn pass_media(
    anchors: &Anchors,
    nodes: &mut NodeEvents,
    events: &mut AnchorEvents,
    log: &mut [u8],
    written: &mut Written,
    n: usize,
    due: Due,
)
    requires { (anchors.now.count ≤ 128) × (n < 64) × (due.ending ≤ anchors.now.count) × (due.beginning ≤ anchors.now.count) }
    ensures { (d : Document) (rest : Rest)
        → d.anchors ≡ anchors.now
        → due ≡ due_of d n due.clock
        → run_with nodes.new events.new rest (log_of written.new log.new)
        ≡ passed d n due.clock
        (run_with nodes.old events.old rest (log_of written.old log.old)) }
{
    nodes.clocks[n] = due.clock;
    move_anchors(
        anchors,
        due.ending,
        events,
        log,
        written,
        Moving::EndingAt(due.clock),
        Change {
            node: n,
            state: terms::SLEEPING,
            aborting: false,
        },
    );
    move_anchors(
        anchors,
        due.beginning,
        events,
        log,
        written,
        Moving::BeginningAt(due.clock),
        Change {
            node: n,
            state: terms::OCCURRING,
            aborting: false,
        },
    );
    if due.stops {
        move_media(anchors, nodes, events, log, written, terms::TO_STOP, n);
    }
}
