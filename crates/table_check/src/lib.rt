// The tables obey the rules of loading: each entry is checked as the record that made it.
#![tactic(auto)]

ghost use Rattle.std.specs.Prelude.{◌≡◌, ◌<◌};
ghost use Rattle.base.specs.Loops.{every};
ghost use Rattle.machine.specs.Tables.{node_at, rule_at, bind_at, port_at, link_at, action_count};
ghost use Rattle.machine.specs.Broken.{node_obeys, anchor_obeys, rule_unused_zero, rule_obeys, bind_obeys, port_obeys, action_obeys, link_obeys, tables_obey};

use checks::{
    check_action, check_anchor, check_bind, check_link, check_node, check_port, check_rule,
    parent_of,
};
use machine::{
    BindRecord, Binds, Document, LinkRecord, Links, NodeRecord, Nodes, PortRecord, Ports,
    RuleRecord, Rules, terms,
};
use records::fields::{action_at, anchor_at};

// ---- an entry as a record, each from the columns of its own table, laid out for C

fn node_at(nodes: &Nodes, i: usize) -> NodeRecord
    requires { i < 64 }
    ensures { result ≡ node_at nodes.now i }
{
    NodeRecord {
        node_type: nodes.types[i],
        parent: nodes.parents[i],
        duration: nodes.durations[i],
    }
}

fn rule_at(rules: &Rules, i: usize) -> RuleRecord
    requires { i < 32 }
    ensures { result ≡ rule_at rules.now i }
{
    RuleRecord {
        kind: rules.kinds[i],
        property: rules.properties[i],
        comparator: rules.comparators[i],
        value: rules.values[i],
        operator: rules.operators[i],
        left: rules.lefts[i],
        right: rules.rights[i],
    }
}

fn bind_at(binds: &Binds, i: usize) -> BindRecord
    requires { i < 64 }
    ensures { result ≡ bind_at binds.now i }
{
    BindRecord {
        switch: binds.switches[i],
        child: binds.children[i],
        rule: binds.rules[i],
    }
}

fn port_at(ports: &Ports, i: usize) -> PortRecord
    requires { i < 64 }
    ensures { result ≡ port_at ports.now i }
{
    PortRecord {
        context: ports.contexts[i],
        child: ports.children[i],
    }
}

fn link_at(links: &Links, i: usize) -> LinkRecord
    requires { i < 64 }
    ensures { result ≡ link_at links.now i }
{
    LinkRecord {
        owner: links.owners[i],
        class: links.classes[i],
        subject: links.subjects[i],
        transition: links.transitions[i],
        guard: links.guards[i],
    }
}

// ---- the entries of each table: each has columns of its own, which its `*_at` names. Those of binds and ports by a loop, which marks.

#[tactic(auto, using(crate::proofs::Full::full_nodes))]
fn nodes_obey(d: &Document) -> bool
    ensures { result ≡ every (node_obeys d.now) d.now.nodes.count }
{
    d.nodes.count <= 64
        && (0..d.nodes.count).all(|i| check_node(&d.nodes, i, node_at(&d.nodes, i)).is_ok())
}

#[tactic(auto, using(crate::proofs::Full::full_anchors))]
fn anchors_obey(d: &Document) -> bool
    ensures { result ≡ every (anchor_obeys d.now) d.now.anchors.count }
{
    d.anchors.count <= 128
        && (0..d.anchors.count).all(|i| check_anchor(&d.nodes, i, anchor_at(&d.anchors, i)).is_ok())
}

fn rule_unused_zero(r: RuleRecord) -> bool
    ensures { result ≡ rule_unused_zero r }
{
    if r.kind == terms::SIMPLE_RULE {
        (r.operator == 0) & (r.left == 0) & (r.right == 0)
    } else {
        (r.property == 0) & (r.comparator == 0) & (r.value == 0)
    }
}

#[tactic(auto, using(crate::proofs::Passed::passed), unfolding(machine::specs::Broken::rule_obeys))]
fn rule_obeys(d: &Document, i: usize) -> bool
    requires { i < 32 }
    ensures { result ≡ rule_obeys d.now i }
{
    let rule = rule_at(&d.rules, i);
    ((rule.kind == terms::SIMPLE_RULE) | (rule.kind == terms::COMPOSITE_RULE))
        & check_rule(d.properties, i, rule).is_ok()
        & rule_unused_zero(rule)
}

#[tactic(auto, using(crate::proofs::Full::full_rules))]
fn rules_obey(d: &Document) -> bool
    ensures { result ≡ every (rule_obeys d.now) d.now.rules.count }
{
    d.rules.count <= 32 && (0..d.rules.count).all(|i| rule_obeys(d, i))
}

// A switch is marked where it has a default.
#[tactic(auto, using(crate::proofs::Full::full_binds))]
fn binds_obey(d: &Document) -> bool
    ensures { result ≡ every (bind_obeys d.now) d.now.binds.count }
{
    if 64 < d.binds.count {
        return false;
    }
    let mut has_default = [false; 256];
    let mut obey = true;
    for i in 0..d.binds.count {
        let bind = bind_at(&d.binds, i);
        let switch = usize::from(bind.switch);
        obey &= check_bind(d, i, bind, has_default[switch]).is_ok();
        has_default[switch] |= bind.rule == terms::NO_ID;
    }
    obey
}

// A child is marked where it has a port. The context of each port so far is its child's parent: the same port is there exactly where
// the child is marked and this context is its parent.
#[tactic(auto, using(crate::proofs::Full::full_ports))]
fn ports_obey(d: &Document) -> bool
    ensures { result ≡ every (port_obeys d.now) d.now.ports.count }
{
    if 64 < d.ports.count {
        return false;
    }
    let mut has_port = [false; 256];
    let mut obey = true;
    for i in 0..d.ports.count {
        let port = port_at(&d.ports, i);
        let child = usize::from(port.child);
        let has_same_port = has_port[child] & (parent_of(&d.nodes, port.child) == port.context);
        obey &= check_port(d, i, port, has_same_port).is_ok();
        has_port[child] = true;
    }
    obey
}

// The actions of one link.
#[tactic(auto, using(crate::proofs::Full::full_actions))]
fn actions_obey(d: &Document, link: usize) -> bool
    requires { link < 64 }
    ensures { result ≡ every (action_obeys d.now link) (action_count d.now.links link) }
{
    let count = usize::from(d.links.action_counts[link]);
    count <= 8 && (0..count).all(|j| check_action(d, j, action_at(&d.actions, link, j)).is_ok())
}

#[tactic(auto, using(crate::proofs::Passed::passed, crate::proofs::Passed::link_obeys_lem))]
fn link_obeys(d: &Document, i: usize) -> bool
    requires { i < 64 }
    ensures { result ≡ link_obeys d.now i }
{
    check_link(d, i, link_at(&d.links, i)).is_ok() & actions_obey(d, i)
}

#[tactic(auto, using(crate::proofs::Full::full_links))]
fn links_obey(d: &Document) -> bool
    ensures { result ≡ every (link_obeys d.now) d.now.links.count }
{
    d.links.count <= 64 && (0..d.links.count).all(|i| link_obeys(d, i))
}

#[tactic(auto, using(crate::proofs::Full::properties_within), unfolding(machine::specs::Broken::tables_obey))]
pub fn tables_obey(d: &Document) -> bool
    ensures { result ≡ tables_obey d.now }
{
    (1 <= d.limit)
        & (1 <= d.nodes.count)
        & nodes_obey(d)
        & anchors_obey(d)
        & (d.properties <= 32)
        & rules_obey(d)
        & binds_obey(d)
        & ports_obey(d)
        & links_obey(d)
}
