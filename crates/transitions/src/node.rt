// A node.
ghost use Rattle.std.specs.Prelude.{◌≡◌, ◌<◌};
ghost use Rattle.machine.specs.Events.{node_to};
ghost use Rattle.machine.specs.declared.AnchorEvents.{AnchorEvents};
ghost use Rattle.call_log.specs.LogSlice.{log_of};
ghost use Rattle.transitions.specs.Lent.{Rest, run_with};

use call_log::Written;
use changes::{Change, clock_after, count_after, transition_of};
use machine::{NodeEvents, terms};

// The node goes to the state. (An id below 64 fits a byte; `try_from` would give a Result, to be unwrapped by the same fact.)
#[tactic(auto, using(base::specs::Tests::when_true, base::specs::Tests::when_false), unfolding(machine::specs::Events::node_to, machine::specs::Events::node_changed, changes::specs::Transitions::transition_or_none))]
pub fn node_to(nodes: &mut NodeEvents, log: &mut [u8], written: &mut Written, change: Change)
    requires { change.node < 64 }
    ensures { (anchors : AnchorEvents) (rest : Rest)
        → run_with nodes.new anchors rest (log_of written.new log.new)
        ≡ node_to change.aborting change.node change.state
        (run_with nodes.old anchors rest (log_of written.old log.old)) }
{
    let n = change.node;
    if let Some(transition) = transition_of(change.aborting, nodes.states[n], change.state) {
        nodes.states[n] = change.state;
        nodes.clocks[n] = clock_after(transition, nodes.clocks[n]);
        nodes.counts[n] = count_after(transition, nodes.counts[n]);
        written.emit(log, terms::OF_NODE, n as u8, transition);
    }
}
