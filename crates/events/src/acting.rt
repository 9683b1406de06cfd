// An action, and the settling that follows it.
ghost use Rattle.std.specs.Prelude.{◌≡◌, ◌<◌};
ghost use Rattle.machine.specs.Events.{started, performed, acted};
ghost use Rattle.machine.specs.Sound.{Applicable};
ghost use Rattle.events.specs.Running.{run};

use super::Work;
use super::media::{move_all, move_each};
use super::properties::set_property;
use super::settling::settle;
use machine::sound::SoundDocument;
use machine::{ActionRecord, terms};
use starting::media_of_start;

// Start of node n: of the media that it reaches, one after the other; with the choices of the switches that it reaches.
#[tactic(auto, unfolding(starting::specs::Queues::reach_started))]
fn start_node(d: &SoundDocument, w: &mut Work, log: &mut [u8], n: usize)
    requires { n < d.now.document.nodes.count }
    ensures { run w.new log.new ≡ started d.now.document 64 n (run w.old log.old) }
{
    let s = &w.state;
    let reach = media_of_start(d, &s.nodes.states, &s.properties.values, &s.choices, n);
    move_each(&d.document.anchors, w, log, terms::TO_START, &reach.queue);
    w.state.choices = reach.choices;
}

#[tactic(auto, using(base::specs::Tests::when_true, base::specs::Tests::when_false), unfolding(machine::specs::Events::performed))]
fn perform(d: &SoundDocument, w: &mut Work, log: &mut [u8], a: ActionRecord)
    requires { Applicable d.now.document a }
    ensures { run w.new log.new ≡ performed d.now.document a (run w.old log.old) }
{
    let target = usize::from(a.target);
    match a.action {
        terms::TO_SET => set_property(w, log, target, a.value),
        terms::TO_START => start_node(d, w, log, target),
        action => move_all(d, w, log, action, target),
    }
}

// An action on its target: a node, or a property that takes the value.
#[tactic(auto, unfolding(machine::specs::Events::acted))]
pub fn act(d: &SoundDocument, w: &mut Work, log: &mut [u8], a: ActionRecord)
    requires { Applicable d.now.document a }
    ensures { run w.new log.new ≡ acted d.now.document a (run w.old log.old) }
{
    perform(d, w, log, a);
    let cause = Some((a.action, usize::from(a.target)));
    settle(&d.document.nodes, w, log, cause);
}
