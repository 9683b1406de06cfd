// The chain of links: the lines of the log are taken in order, those too that are written meanwhile, and links fire on them.
#![tactic(auto)]

ghost use Rattle.std.specs.Prelude.{◌≡◌, ℕ, List, ◌&&◌, ◌<◌};
ghost use Rattle.base.specs.Tests.{◌=?◌};
ghost use Rattle.machine.specs.Tables.{link_at};
ghost use Rattle.machine.specs.Owners.{owner_chosen};
ghost use Rattle.machine.specs.Chain.{actions_run, link_tried, chained};
ghost use Rattle.events.specs.Running.{run};
ghost use Rattle.chain.specs.Trying.{may_fire, firing_begun};

use call_log::line_at;
use choices::path_chosen;
use events::Work;
use events::acting::act;
use machine::sound::SoundDocument;
use machine::{Line, Links, Refusal, terms};
use records::fields::action_at;
use rules::guard_holds;

// The actions of link l run in order, each settled, while nothing stops the call.
fn run_actions(d: &SoundDocument, w: &mut Work, log: &mut [u8], l: usize)
    requires { l < d.now.document.links.count }
    ensures { run w.new log.new ≡ actions_run d.now.document l (run w.old log.old) }
{
    for j in 0..usize::from(d.document.links.action_counts[l]) {
        if w.written.goes_on() {
            let a = action_at(&d.document.actions, l, j);
            act(d, &mut *w, &mut *log, a);
        }
    }
}

// What a firing of link l does before its actions: it is logged and counted, unless the limit is used up. (An id below 64 fits a byte;
// `try_from` would give a Result, to be unwrapped by the same fact.)
#[tactic(auto, using(crate::proofs::Begins::begins_below, crate::proofs::Begins::begins_full))]
fn begin_firing(w: &mut Work, log: &mut [u8], limit: u8, l: usize)
    requires { l < 64 }
    ensures { run w.new log.new ≡ firing_begun limit l (run w.old log.old) }
{
    if w.firings < limit {
        w.written
            .emit(log, terms::OF_FIRED, l as u8, terms::NO_TRANSITION);
        w.firings += 1;
    } else {
        w.written.meet(Refusal::LimitReached);
    }
}

// Whether link l hears the line. (The records of a link and of a line are two types, each with more fields: a type of these three would be
// made only to be compared.)
fn hears(links: &Links, l: usize, x: Line) -> bool
    requires { l < 64 }
    ensures { result
        ≡ (link_at links.now l).class =? x.class
        && (link_at links.now l).subject =? x.id
        && (link_at links.now l).transition =? x.transition }
{
    links.classes[l] == x.class && links.subjects[l] == x.id && links.transitions[l] == x.transition
}

// Whether a link that hears a line fires: nothing stops the call, the path to its owner is chosen, and its guard holds now.
#[tactic(auto, unfolding(crate::specs::Trying::may_fire, machine::specs::Owners::owner_chosen, machine::specs::Chain::goes_on))]
fn may_fire(d: &SoundDocument, w: &Work, l: usize) -> bool
    requires { l < d.now.document.links.count }
    ensures { (bytes : List ℕ) → result ≡ may_fire d.now.document l (run w.now bytes) }
{
    let d = &d.document;
    w.written.goes_on()
        && path_chosen(&d.nodes, &w.state.choices, usize::from(d.links.owners[l]))
        && guard_holds(&d.rules, &w.state.properties.values, d.links.guards[l])
}

// Link l, on a line.
fn try_link(d: &SoundDocument, w: &mut Work, log: &mut [u8], x: Line, l: usize)
    requires { l < d.now.document.links.count }
    ensures { run w.new log.new
        ≡ link_tried owner_chosen d.now.document x l (run w.old log.old) }
{
    if hears(&d.document.links, l, x) && may_fire(d, &*w, l) {
        begin_firing(&mut *w, &mut *log, d.document.limit, l);
        run_actions(d, w, log, l);
    }
}

// The lines of the log are taken in order, until none is left or something stops the call; for each, links by id.
pub fn run_chain(d: &SoundDocument, w: &mut Work, log: &mut [u8])
    ensures { run w.new log.new ≡ chained owner_chosen d.now.document (run w.old log.old) }
{
    for k in 0..log.len() / 4 {
        if !w.written.goes_on() || w.written.lines <= k {
            return;
        }
        let x = line_at(&*log, k);
        for l in 0..d.document.links.count {
            try_link(d, &mut *w, &mut *log, x, l);
        }
    }
}
