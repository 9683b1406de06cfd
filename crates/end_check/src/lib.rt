// Nothing stands past the end of a table.
#![tactic(auto)]

ghost use Rattle.std.specs.Prelude.{◌≡◌, true, not, ◌&&◌, ◌||◌, ◌<◌, length, drop, get_or};
ghost use Rattle.base.specs.Tests.{◌=?◌};
ghost use Rattle.base.specs.Loops.{every};
ghost use Rattle.machine.specs.Tables.{node_table, anchor_table, rule_table, bind_table, port_table, link_table, action_tables, node_event_table, anchor_event_table, property_event_table};
ghost use Rattle.machine.specs.Broken.{all, ends_zero, tables_obey, document_ends_zero, state_ends_zero};
ghost use Rattle.end_check.specs.Places.{Used, unused_zero};

use machine::{
    Actions, AnchorEvents, Anchors, Binds, Document, Links, NodeEvents, Nodes, Ports,
    PropertyEvents, Rules, State,
};

// Whether each entry from a place on is 0, of its type. No early end: each turn is the same.
fn zero_from<T: Copy + PartialEq>(table: &[T], end: usize, zero: T) -> bool
    ensures { result ≡ all (λ x. T.eq x zero) (drop end table.now) }
{
    let mut all_zero = true;
    for i in end..table.len() {
        all_zero &= table[i] == zero;
    }
    all_zero
}

// Each table has columns of its own, laid out for C, so each has a function that names them.

#[tactic(auto, unfolding(machine::specs::Broken::all))]
fn node_ends_zero(nodes: &Nodes) -> bool
    ensures { result ≡ ends_zero (node_table nodes.now) }
{
    let end = nodes.count;
    zero_from(&nodes.types, end, 0)
        & zero_from(&nodes.parents, end, 0)
        & zero_from(&nodes.durations, end, 0)
}

#[tactic(auto, unfolding(machine::specs::Broken::all))]
fn anchor_ends_zero(anchors: &Anchors) -> bool
    ensures { result ≡ ends_zero (anchor_table anchors.now) }
{
    let end = anchors.count;
    zero_from(&anchors.media, end, 0)
        & zero_from(&anchors.begins, end, 0)
        & zero_from(&anchors.ends, end, 0)
}

#[tactic(auto, unfolding(machine::specs::Broken::all))]
fn rule_ends_zero(rules: &Rules) -> bool
    ensures { result ≡ ends_zero (rule_table rules.now) }
{
    let end = rules.count;
    zero_from(&rules.kinds, end, 0)
        & zero_from(&rules.properties, end, 0)
        & zero_from(&rules.comparators, end, 0)
        & zero_from(&rules.values, end, 0)
        & zero_from(&rules.operators, end, 0)
        & zero_from(&rules.lefts, end, 0)
        & zero_from(&rules.rights, end, 0)
}

#[tactic(auto, unfolding(machine::specs::Broken::all))]
fn bind_ends_zero(binds: &Binds) -> bool
    ensures { result ≡ ends_zero (bind_table binds.now) }
{
    let end = binds.count;
    zero_from(&binds.switches, end, 0)
        & zero_from(&binds.children, end, 0)
        & zero_from(&binds.rules, end, 0)
}

#[tactic(auto, unfolding(machine::specs::Broken::all))]
fn port_ends_zero(ports: &Ports) -> bool
    ensures { result ≡ ends_zero (port_table ports.now) }
{
    zero_from(&ports.contexts, ports.count, 0) & zero_from(&ports.children, ports.count, 0)
}

#[tactic(auto, unfolding(machine::specs::Broken::all))]
fn link_ends_zero(links: &Links) -> bool
    ensures { result ≡ ends_zero (link_table links.now) }
{
    let end = links.count;
    zero_from(&links.owners, end, 0)
        & zero_from(&links.classes, end, 0)
        & zero_from(&links.subjects, end, 0)
        & zero_from(&links.transitions, end, 0)
        & zero_from(&links.guards, end, 0)
        & zero_from(&links.action_counts, end, 0)
}

// ---- the actions of the links, in 8 places for each: no loop over the targets and values looks at the links, so that many places are looked
// at at once. Counts, actions and a column are lent alone, since nothing else is looked at, and what is promised is of every table that has them.

// No action stands in the places of a link past so many.
#[tactic(auto, unfolding(crate::specs::Places::unused_zero, base::specs::Loops::every))]
fn unused_zero(actions: &[u8; 512], link: usize, count: u8) -> bool
    requires { link < 64 }
    ensures { result ≡ unused_zero actions.now count link }
{
    let end = usize::from(count);
    let mut zero = true;
    for j in 0..8 {
        zero &= (j < end) | (actions[8 * link + j] == 0);
    }
    zero
}

#[tactic(auto, unfolding(base::specs::Loops::every))]
fn actions_end_zero(counts: &[u8; 64], actions: &[u8; 512]) -> bool
    ensures { result ≡ every (λ l. unused_zero actions.now (get_or counts.now l 0) l) 64 }
{
    let mut zero = true;
    for link in 0..64 {
        zero &= unused_zero(actions, link, counts[link]);
    }
    zero
}

// Each place has an action, or a zero in the column.
#[tactic(auto, unfolding(base::specs::Loops::every))]
fn used<T: Copy + PartialEq>(actions: &[u8; 512], column: &[T], zero: T) -> bool
    requires { length column.now ≡ 512 }
    ensures { result ≡ every (λ i. not (get_or actions.now i 0 =? 0) || T.eq (get_or column.now i zero) zero) 512 }
{
    let mut all_used = true;
    for i in 0..512 {
        all_used &= (actions[i] != 0) | (column[i] == zero);
    }
    all_used
}

// Of links whose actions are none of them 0: a place without an action has no target and no value. Of the links it looks at the counts alone.
fn action_ends_zero(counts: &[u8; 64], actions: &Actions) -> bool
    requires { Used counts.now actions.now.actions }
    ensures { result ≡ all ends_zero (action_tables counts.now actions.now.actions actions.now.targets actions.now.values) }
{
    actions_end_zero(counts, &actions.actions)
        & used(&actions.actions, &actions.targets, 0)
        & used(&actions.actions, &actions.values, 0)
}

// Of tables that obey, as the caller has found (a struct that lends the document with this fact would be made for two calls in one
// expression, and is no plainer). The actions are looked at once no link past the end has any.
fn links_end_zero(d: &Document) -> bool
    requires { tables_obey d.now ≡ true }
    ensures { result ≡ (ends_zero (link_table d.now.links)
        && all ends_zero (action_tables d.now.links.action_counts d.now.actions.actions
        d.now.actions.targets d.now.actions.values)) }
{
    link_ends_zero(&d.links) && action_ends_zero(&d.links.action_counts, &d.actions)
}

// Of tables that obey.
#[tactic(auto, unfolding(machine::specs::Broken::document_ends_zero))]
pub fn document_ends_zero(d: &Document) -> bool
    requires { tables_obey d.now ≡ true }
    ensures { result ≡ document_ends_zero d.now }
{
    node_ends_zero(&d.nodes)
        & anchor_ends_zero(&d.anchors)
        & rule_ends_zero(&d.rules)
        & bind_ends_zero(&d.binds)
        & port_ends_zero(&d.ports)
        & links_end_zero(d)
}

#[tactic(auto, unfolding(machine::specs::Broken::all))]
fn node_events_end_zero(nodes: usize, events: &NodeEvents) -> bool
    ensures { result ≡ ends_zero (node_event_table nodes events.now) }
{
    zero_from(&events.states, nodes, 0)
        & zero_from(&events.clocks, nodes, 0)
        & zero_from(&events.counts, nodes, 0)
}

#[tactic(auto, unfolding(machine::specs::Broken::all))]
fn anchor_events_end_zero(anchors: usize, events: &AnchorEvents) -> bool
    ensures { result ≡ ends_zero (anchor_event_table anchors events.now) }
{
    zero_from(&events.states, anchors, 0) & zero_from(&events.counts, anchors, 0)
}

#[tactic(auto, unfolding(machine::specs::Broken::all))]
fn property_events_end_zero(properties: usize, events: &PropertyEvents) -> bool
    ensures { result ≡ ends_zero (property_event_table properties events.now) }
{
    zero_from(&events.values, properties, 0) & zero_from(&events.counts, properties, 0)
}

// A document and a state, as in `state_check`.
#[tactic(auto, unfolding(machine::specs::Broken::state_ends_zero))]
pub fn state_ends_zero(d: &Document, s: &State) -> bool
    ensures { result ≡ state_ends_zero d.now s.now }
{
    node_events_end_zero(d.nodes.count, &s.nodes)
        & anchor_events_end_zero(d.anchors.count, &s.anchors)
        & property_events_end_zero(d.properties, &s.properties)
}
