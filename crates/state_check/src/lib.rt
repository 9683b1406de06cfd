// The states obey the rules of composites, anchors and clocks. Lent a document and a state, and no whole session: who has the two apart would
// have to copy both into one.
#![tactic(auto)]

ghost use Rattle.std.specs.Prelude.{◌≡◌, ℕ, ◌<◌, ◌≤◌, true, false, replicate};
ghost use Rattle.base.specs.Tests.{when◌then◌else◌};
ghost use Rattle.base.specs.Loops.{every};
ghost use Rattle.base.specs.Marks.{Marked};
ghost use Rattle.machine.specs.Terms.{occurring, paused, sleeping};
ghost use Rattle.machine.specs.Tables.{anchor_at};
ghost use Rattle.machine.specs.Events.{child_in, children_state};
ghost use Rattle.machine.specs.Broken.{tables_obey, clock_right, node_right, anchor_right, states_right};

use machine::{Document, Nodes, State, terms};

// Of each byte as a parent, whether one of its children is occurring, and whether one is paused. Two arrays and no array of pairs, since each
// is the marks of one question (`Marked`).
#[derive(Drop)]
struct Marks {
    occurs: [bool; 256],
    pauses: [bool; 256],
}

// Marked in place, since a copy of all marks takes time. Lent the states alone, so that it is said of every state that has them.
fn mark_parents(nodes: &Nodes, states: &[u8; 64], marks: &mut Marks)
    requires { (nodes.now.count ≤ 64)
        × (marks.old.occurs ≡ replicate 256 false)
        × (marks.old.pauses ≡ replicate 256 false) }
    ensures occurs { Marked (child_in nodes.now states.now occurring) nodes.now.count marks.new.occurs }
    ensures pauses { Marked (child_in nodes.now states.now paused) nodes.now.count marks.new.pauses }
{
    for n in 0..nodes.count {
        let parent = usize::from(nodes.parents[n]);
        marks.occurs[parent] |= states[n] == terms::OCCURRING;
        marks.pauses[parent] |= states[n] == terms::PAUSED;
    }
}

// The state that the children give: whether one is occurring, and whether one is paused.
#[tactic(auto, using(base::specs::Tests::when_tells))]
fn state_of_children(occurs: bool, pauses: bool) -> u8
    ensures { result ≡ (when occurs then occurring else when pauses then paused else sleeping) }
{
    if occurs {
        terms::OCCURRING
    } else if pauses {
        terms::PAUSED
    } else {
        terms::SLEEPING
    }
}

// A clock of 0 is always right. No branch, so that many nodes are looked at at once.
#[tactic(auto, using(base::specs::Tests::when_tells, std::proofs::lemmas::Bool::Decides::nat_tests), unfolding(machine::specs::Broken::clock_right))]
fn clock_right(d: &Document, s: &State, n: usize) -> bool
    requires { n < 64 }
    ensures { result ≡ clock_right d.now s.now n }
{
    let is_awake = (d.nodes.types[n] == terms::MEDIA) & (s.nodes.states[n] != terms::SLEEPING);
    let duration = d.nodes.durations[n];
    let clock = s.nodes.clocks[n];
    (is_awake & ((duration == 0) | (clock < duration))) | (clock == 0)
}

// A node whose children give this state.
#[tactic(auto, unfolding(machine::specs::Broken::node_right, machine::specs::Broken::composite_right))]
fn node_right(d: &Document, s: &State, n: usize, children: u8) -> bool
    requires { n < 64 }
    ensures { children ≡ children_state d.now.nodes s.now.nodes.states n → result ≡ node_right d.now s.now n }
{
    let state = s.nodes.states[n];
    (state <= terms::PAUSED)
        & ((d.nodes.types[n] == terms::MEDIA) | (state == children))
        & clock_right(d, s, n)
}

#[tactic(auto, unfolding(base::specs::Loops::every, machine::specs::Events::children_state))]
fn nodes_right(d: &Document, s: &State) -> bool
    requires { d.now.nodes.count ≤ 64 }
    ensures { result ≡ every (node_right d.now s.now) d.now.nodes.count }
{
    let mut marks = Marks {
        occurs: [false; 256],
        pauses: [false; 256],
    };
    mark_parents(&d.nodes, &s.nodes.states, &mut marks);
    let mut right = true;
    for n in 0..d.nodes.count {
        let children = state_of_children(marks.occurs[n], marks.pauses[n]);
        right &= node_right(d, s, n, children);
    }
    right
}

#[tactic(auto, using(base::specs::Tests::when_tells), unfolding(machine::specs::Broken::anchor_right, machine::specs::Broken::anchor_state_in))]
fn anchor_right(d: &Document, s: &State, a: usize) -> bool
    requires { (a < 128) × ((anchor_at d.now.anchors a).media < 64) }
    ensures { result ≡ anchor_right d.now s.now a }
{
    let media = usize::from(d.anchors.media[a]);
    let clock = s.nodes.clocks[media];
    let state = s.anchors.states[a];
    if (d.anchors.begins[a] <= clock) & (clock < d.anchors.ends[a]) {
        state == s.nodes.states[media]
    } else {
        state == terms::SLEEPING
    }
}

// Anchors of media that are given.
#[tactic(auto, unfolding(base::specs::Loops::every))]
fn anchors_right(d: &Document, s: &State) -> bool
    requires { (d.now.anchors.count ≤ 128)
        × ((a : ℕ) → a < d.now.anchors.count → (anchor_at d.now.anchors a).media < 64) }
    ensures { result ≡ every (anchor_right d.now s.now) d.now.anchors.count }
{
    let mut right = true;
    for a in 0..d.anchors.count {
        right &= anchor_right(d, s, a);
    }
    right
}

// Of tables that obey, as the caller has found (see `end_check`, which asks the same).
#[tactic(auto, unfolding(machine::specs::Broken::states_right))]
pub fn states_right(d: &Document, s: &State) -> bool
    requires { tables_obey d.now ≡ true }
    ensures { result ≡ states_right d.now s.now }
{
    nodes_right(d, s) & anchors_right(d, s)
}
