// A record without a fault becomes the next entry of its table: column by column, since each table has columns of its own, laid out for C.
ghost use Rattle.std.specs.Prelude.{◌≡◌, ◌<◌, ◌≤◌};
ghost use Rattle.machine.specs.Tables.{more_nodes, more_anchors, more_rules, more_binds, more_ports, more_links, latest, action_count};
ghost use Rattle.machine.specs.Records.{record_fault, with_property, with_action, entered};

use machine::{
    ActionRecord, AnchorRecord, Anchors, BindRecord, Binds, Document, LinkRecord, Links,
    NodeRecord, Nodes, PortRecord, Ports, PropertyRecord, Record, RuleRecord, Rules, Session,
};

fn enter_node(nodes: &mut Nodes, r: NodeRecord)
    requires { nodes.old.count < 64 }
    ensures { nodes.new ≡ more_nodes r nodes.old }
{
    let id = nodes.count;
    nodes.types[id] = r.node_type;
    nodes.parents[id] = r.parent;
    nodes.durations[id] = r.duration;
    nodes.count = id + 1;
}

fn enter_anchor(anchors: &mut Anchors, r: AnchorRecord)
    requires { anchors.old.count < 128 }
    ensures { anchors.new ≡ more_anchors r anchors.old }
{
    let id = anchors.count;
    anchors.media[id] = r.media;
    anchors.begins[id] = r.begin;
    anchors.ends[id] = r.end;
    anchors.count = id + 1;
}

// The first value of a property stands among the values that change.
fn enter_property(s: &mut Session, r: PropertyRecord)
    requires { s.old.document.properties < 32 }
    ensures { s.new ≡ with_property r.value s.old }
{
    let id = s.document.properties;
    s.state.properties.values[id] = r.value;
    s.document.properties = id + 1;
}

fn enter_rule(rules: &mut Rules, r: RuleRecord)
    requires { rules.old.count < 32 }
    ensures { rules.new ≡ more_rules r rules.old }
{
    let id = rules.count;
    rules.kinds[id] = r.kind;
    rules.properties[id] = r.property;
    rules.comparators[id] = r.comparator;
    rules.values[id] = r.value;
    rules.operators[id] = r.operator;
    rules.lefts[id] = r.left;
    rules.rights[id] = r.right;
    rules.count = id + 1;
}

fn enter_bind(binds: &mut Binds, r: BindRecord)
    requires { binds.old.count < 64 }
    ensures { binds.new ≡ more_binds r binds.old }
{
    let id = binds.count;
    binds.switches[id] = r.switch;
    binds.children[id] = r.child;
    binds.rules[id] = r.rule;
    binds.count = id + 1;
}

fn enter_port(ports: &mut Ports, r: PortRecord)
    requires { ports.old.count < 64 }
    ensures { ports.new ≡ more_ports r ports.old }
{
    let id = ports.count;
    ports.contexts[id] = r.context;
    ports.children[id] = r.child;
    ports.count = id + 1;
}

fn enter_link(links: &mut Links, r: LinkRecord)
    requires { links.old.count < 64 }
    ensures { links.new ≡ more_links r links.old }
{
    let id = links.count;
    links.owners[id] = r.owner;
    links.classes[id] = r.class;
    links.subjects[id] = r.subject;
    links.transitions[id] = r.transition;
    links.guards[id] = r.guard;
    links.count = id + 1;
}

// An action of the latest link.
fn enter_action(d: &mut Document, r: ActionRecord)
    requires { (1 ≤ d.old.links.count)
        × ((d.old.links.count ≤ 64) × (action_count d.old.links (latest d.old.links) < 8)) }
    ensures { d.new ≡ with_action r d.old }
{
    let l = d.links.count - 1;
    let place = 8 * l + usize::from(d.links.action_counts[l]);
    d.links.action_counts[l] += 1;
    d.actions.actions[place] = r.action;
    d.actions.targets[place] = r.target;
    d.actions.values[place] = r.value;
}

#[tactic(auto, using(crate::proofs::Room::room, crate::proofs::Room::action_room), unfolding(machine::specs::Records::node_fault, machine::specs::Records::anchor_fault, machine::specs::Records::property_fault, machine::specs::Records::rule_fault, machine::specs::Records::bind_fault, machine::specs::Records::port_fault, machine::specs::Records::link_fault))]
pub fn enter(s: &mut Session, r: Record)
    requires { (record_fault s.old.document r ≡ 0) × (s.old.document.links.count ≤ 64) }
    ensures { s.new ≡ entered r s.old }
{
    let d = &mut s.document;
    match r {
        Record::Head(limit) => d.limit = limit,
        Record::Node(node) => enter_node(&mut d.nodes, node),
        Record::Anchor(anchor) => enter_anchor(&mut d.anchors, anchor),
        Record::Property(property) => enter_property(s, property),
        Record::Rule(rule) => enter_rule(&mut d.rules, rule),
        Record::Bind(bind) => enter_bind(&mut d.binds, bind),
        Record::Port(port) => enter_port(&mut d.ports, port),
        Record::Link(link) => enter_link(&mut d.links, link),
        Record::Action(action) => enter_action(d, action),
    }
}
