// The tick's own part, every media that occurs and one settling; and a key.
#![tactic(auto)]

ghost use Rattle.std.specs.Prelude.{◌≡◌, ◌+◌};
ghost use Rattle.base.specs.Tests.{◌=?◌};
ghost use Rattle.base.specs.Loops.{ascending};
ghost use Rattle.base.specs.Marks.{LastFound};
ghost use Rattle.machine.specs.Tick.{ticked_one, ticked, keyed};
ghost use Rattle.events.specs.Running.{run};
ghost use Rattle.ticking.specs.Advancing.{advancing, due_next};

use events::Work;
use events::settling::settle;
use machine::sound::SoundDocument;
use machine::terms;
use transitions::media::{Due, pass_media};

// Whether a node of this type, state and clock adds one to its clock.
#[tactic(auto, unfolding(crate::specs::Advancing::advancing))]
fn advances(node_type: u8, state: u8, clock: u16) -> bool
    ensures { result ≡ advancing node_type state clock }
{
    node_type == terms::MEDIA && state == terms::OCCURRING && clock < 65535
}

// Whether a begin or an end is the clock after this one.
fn is_next(time: u16, clock: u16) -> bool
    ensures { result ≡ time =? clock + 1 }
{
    u32::from(time) == u32::from(clock) + 1
}

// For each media one past the last of its anchors whose time is the media's next clock, 0 where there is none; the times are the
// begins or the ends of the anchors, one column of the two. Lent the clocks alone, so that it is said of every state that has them.
fn past_last_due(d: &SoundDocument, times: &[u16; 128], clocks: &[u16; 64]) -> [usize; 64]
    ensures { LastFound (due_next d.now.document.anchors.media times.now clocks.now) d.now.document.anchors.count result }
{
    let anchors = &d.document.anchors;
    let mut past = [0; 64];
    for a in 0..anchors.count {
        let n = usize::from(anchors.media[a]);
        if is_next(times[a], clocks[n]) {
            past[n] = a + 1;
        }
    }
    past
}

// Every media that occurs comes to its next clock, ids ascending.
fn advance_all(d: &SoundDocument, w: &mut Work, log: &mut [u8])
    ensures { run w.new log.new
        ≡ ascending (ticked_one d.now.document) d.now.document.nodes.count (run w.old log.old) }
{
    let nodes = &d.document.nodes;
    let anchors = &d.document.anchors;
    // Two lists by node, of the ends and of the begins, each by one call of the same sweep.
    let ending = past_last_due(d, &anchors.ends, &w.state.nodes.clocks);
    let beginning = past_last_due(d, &anchors.begins, &w.state.nodes.clocks);
    for n in 0..nodes.count {
        let clock = w.state.nodes.clocks[n];
        if advances(nodes.types[n], w.state.nodes.states[n], clock) {
            let now = clock + 1;
            let due = Due {
                clock: now,
                ending: ending[n],
                beginning: beginning[n],
                stops: nodes.durations[n] == now,
            };
            pass_media(
                anchors,
                &mut w.state.nodes,
                &mut w.state.anchors,
                &mut *log,
                &mut w.written,
                n,
                due,
            );
        }
    }
}

// A tick; no action is the cause of its settling.
#[tactic(auto, unfolding(machine::specs::Tick::ticked))]
pub fn tick(d: &SoundDocument, w: &mut Work, log: &mut [u8])
    ensures { run w.new log.new ≡ ticked d.now.document (run w.old log.old) }
{
    advance_all(d, &mut *w, &mut *log);
    settle(&d.document.nodes, w, log, None);
}

// A key logs one line.
#[tactic(auto, unfolding(machine::specs::Tick::keyed))]
pub fn key(w: &mut Work, log: &mut [u8], code: u8)
    ensures { run w.new log.new ≡ keyed code (run w.old log.old) }
{
    w.written.emit(log, terms::OF_KEY, code, terms::STARTS);
}
