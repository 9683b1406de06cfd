// An action on several media: those of a queue, or all below a target. The action is a byte, as `next_state` says.
ghost use Rattle.std.specs.Prelude.{◌≡◌, ◌&&◌, ◌<◌, ◌≤◌};
ghost use Rattle.machine.specs.Terms.{to_start, to_resume};
ghost use Rattle.machine.specs.Tables.{is_media};
ghost use Rattle.machine.specs.Events.{is_below, all_moved};
ghost use Rattle.machine.specs.Sound.{SoundNodes};
ghost use Rattle.starting.specs.Queues.{Places, queue_moved};
ghost use Rattle.events.specs.Running.{run};

use super::Work;
use machine::sound::SoundDocument;
use machine::{Anchors, Nodes, terms};
use starting::Queue;
use transitions::media::move_media;

// An action on each media of a queue, one after the other, with its anchors.
#[tactic(auto, using(base::specs::Loops::ascending_none, base::specs::Loops::ascending_done), unfolding(starting::specs::Queues::queue_moved))]
pub fn move_each(anchors: &Anchors, w: &mut Work, log: &mut [u8], action: u8, queue: &Queue)
    requires { (anchors.now.count ≤ 128) × Places queue.now × (to_start ≤ action) × (action ≤ to_resume) }
    ensures { run w.new log.new ≡ queue_moved anchors.now action queue.now (run w.old log.old) }
{
    for i in 0..queue.count {
        let n = usize::from(queue.media[i]);
        move_media(
            anchors,
            &mut w.state.nodes,
            &mut w.state.anchors,
            log,
            &mut w.written,
            action,
            n,
        );
    }
}

// Whether node n is the target or lies below it: a walk up by parents, which passes no table in order. Asked of the nodes alone, since
// `settle`, which asks this too, has no more.
#[tactic(auto, using(crate::proofs::BelowLaws::leads_end, crate::proofs::BelowLaws::leads_more))]
pub fn is_below(nodes: &Nodes, target: usize, n: usize) -> bool
    requires { SoundNodes nodes.now × (n < nodes.now.count) }
    ensures { result ≡ is_below nodes.now target n }
{
    let mut k = n;
    while target < k {
        k = usize::from(nodes.parents[k]);
    }
    k == target
}

// Whether node n is a media, and the target or below it.
fn is_media_below(d: &SoundDocument, target: usize, n: usize) -> bool
    requires { n < d.now.document.nodes.count }
    ensures { result ≡ (is_media d.now.document.nodes n && is_below d.now.document.nodes target n) }
{
    let nodes = &d.document.nodes;
    nodes.types[n] == terms::MEDIA && is_below(nodes, target, n)
}

// An action on the target, if it is a media, and else on every media below it, in id order.
#[tactic(auto, using(base::specs::Loops::ascending_none, base::specs::Loops::ascending_done), unfolding(machine::specs::Events::all_moved))]
pub fn move_all(d: &SoundDocument, w: &mut Work, log: &mut [u8], action: u8, target: usize)
    requires { (to_start ≤ action) × (action ≤ to_resume) }
    ensures { run w.new log.new ≡ all_moved d.now.document action target (run w.old log.old) }
{
    let document = &d.document;
    for n in 0..document.nodes.count {
        if is_media_below(d, target, n) {
            move_media(
                &document.anchors,
                &mut w.state.nodes,
                &mut w.state.anchors,
                log,
                &mut w.written,
                action,
                n,
            );
        }
    }
}
