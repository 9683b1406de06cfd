// Settling: every composite takes the state that its children give it. What is required is of the nodes alone: a sound document would ask
// more of callers.
ghost use Rattle.std.specs.Prelude.{◌≡◌, ◌<◌};
ghost use Rattle.machine.specs.Events.{aborts_at, settled};
ghost use Rattle.machine.specs.Sound.{SoundNodes};
ghost use Rattle.events.specs.Running.{run};
ghost use Rattle.events.specs.Parts.{resettled, with_child, action_of, target_of};

use super::Work;
use super::media::is_below;
use changes::Change;
use machine::{Nodes, terms};
use transitions::node::node_to;

// Whether composite c logs aborts where it goes to sleep.
#[tactic(auto, unfolding(machine::specs::Events::aborts_at))]
fn aborts_at(nodes: &Nodes, cause: Option<(u8, usize)>, c: usize) -> bool
    requires { SoundNodes nodes.now × (c < nodes.now.count) }
    ensures { result ≡ aborts_at nodes.now (action_of cause) (target_of cause) c }
{
    match cause {
        Some((terms::TO_ABORT, target)) => is_below(nodes, target, c),
        _ => false,
    }
}

// Whether a node of this type and state takes the state that its children give it.
#[tactic(auto, unfolding(crate::specs::Parts::resettled))]
fn resettles(node_type: u8, state: u8, children: u8) -> bool
    ensures { result ≡ resettled node_type state children }
{
    node_type != terms::MEDIA && state != children
}

// The state that some children give, with one child more.
#[tactic(auto, using(base::specs::Tests::when_true, base::specs::Tests::when_false), unfolding(crate::specs::Parts::with_child))]
fn with_child(state: u8, child: u8) -> u8
    ensures { result ≡ with_child state child }
{
    match (state, child) {
        (_, terms::OCCURRING) => terms::OCCURRING,
        (terms::SLEEPING, terms::PAUSED) => terms::PAUSED,
        (terms::SLEEPING, _) => terms::SLEEPING,
        _ => state,
    }
}

// Composites by descending id. A child has a later id than its parent: where a composite is come to, the states of all its children are
// gathered. The cause is the action that settling follows, with its target; a tick's settling has none. (An action's record has its target as
// a byte, and so would ask more of callers.)
#[tactic(auto, using(crate::proofs::Gathering::gathered_none, base::specs::Loops::descending_done), unfolding(machine::specs::Events::settled))]
pub fn settle(nodes: &Nodes, w: &mut Work, log: &mut [u8], cause: Option<(u8, usize)>)
    requires { SoundNodes nodes.now }
    ensures { run w.new log.new ≡ settled nodes.now (action_of cause) (target_of cause) (run w.old log.old) }
{
    // A place for every byte, so that the parent of node 0, which is none, needs no branch.
    let mut gathered = [terms::SLEEPING; 256];
    for n in (0..nodes.count).rev() {
        if resettles(nodes.types[n], w.state.nodes.states[n], gathered[n]) {
            let change = Change {
                node: n,
                state: gathered[n],
                aborting: aborts_at(nodes, cause, n),
            };
            node_to(&mut w.state.nodes, log, &mut w.written, change);
        }
        let parent = usize::from(nodes.parents[n]);
        gathered[parent] = with_child(gathered[parent], w.state.nodes.states[n]);
    }
}
