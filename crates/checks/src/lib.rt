// The checks of one record, as entry `id` of its table: the rules of loading, which the check of a session shares.
// Whether an earlier bind or port stands against the record is handed over: loading searches for one; the check of a session marks them,
// since a search for each entry would be quadratic.
#![tactic(auto)]

ghost use Rattle.std.specs.Prelude.{◌≡◌, true, ◌&&◌, ◌||◌};
ghost use Rattle.base.specs.Tests.{when◌then◌else◌, ◌=?◌, ◌<?◌};
ghost use Rattle.base.specs.Loops.{some};
ghost use Rattle.machine.specs.Terms.{context, media, no_id};
ghost use Rattle.machine.specs.Tables.{type_of, duration_of, parent_of, given};
ghost use Rattle.machine.specs.Records.{node_fields_right, node_fault, anchor_fault, property_fault, simple_rule_fault, composite_rule_fault, rule_fault, is_default, bind_fault, is_port, port_fault, transition_right, subject_given, link_fault, action_right, target_given, action_fault};
ghost use Rattle.machine.specs.Answers.{check_number};

use machine::{
    ActionRecord, AnchorRecord, BindRecord, Document, LinkRecord, NodeRecord, Nodes, PortRecord,
    Refusal, RuleRecord, Rules, terms,
};
use records::fields::{byte_at, number_at};

// ---- what the tables say of an id that may not be given, by the names of the definitions

fn type_of(nodes: &Nodes, n: u8) -> u8
    ensures { result ≡ type_of nodes.now n }
{
    byte_at(&nodes.types, usize::from(n))
}

pub fn parent_of(nodes: &Nodes, n: u8) -> u8
    ensures { result ≡ parent_of nodes.now n }
{
    byte_at(&nodes.parents, usize::from(n))
}

fn duration_of(nodes: &Nodes, n: u8) -> u16
    ensures { result ≡ duration_of nodes.now n }
{
    number_at(&nodes.durations, usize::from(n))
}

fn given(nodes: &Nodes, node_type: u8, n: u8) -> bool
    ensures { result ≡ given nodes.now node_type n }
{
    usize::from(n) < nodes.count && type_of(nodes, n) == node_type
}

// ---- node

fn duration_right(node_type: u8, duration: u16) -> bool
    ensures { result ≡ node_type =? media || duration =? 0 }
{
    node_type == terms::MEDIA || duration == 0
}

// Node 0 is a context with parent 255.
#[tactic(auto, using(base::specs::Tests::tests))]
fn place_right(id: usize, node_type: u8, parent: u8) -> bool
    ensures { result ≡ (when id =? 0 then node_type =? context && parent =? no_id else true) }
{
    id != 0 || (node_type == terms::CONTEXT && parent == terms::NO_ID)
}

#[tactic(auto, using(base::specs::Tests::tests), unfolding(machine::specs::Records::node_fields_right))]
fn node_fields_right(id: usize, r: NodeRecord) -> bool
    ensures { result ≡ node_fields_right id r }
{
    r.node_type <= terms::SWITCH
        && duration_right(r.node_type, r.duration)
        && place_right(id, r.node_type, r.parent)
}

#[tactic(auto, using(base::specs::Tests::tests), unfolding(machine::specs::Records::node_fault, machine::specs::Records::parent_right))]
pub fn check_node(nodes: &Nodes, id: usize, r: NodeRecord) -> Result<(), Refusal>
    ensures { check_number result ≡ node_fault nodes.now id r }
{
    if 64 <= id {
        return Err(Refusal::TableFull);
    }
    if !node_fields_right(id, r) {
        return Err(Refusal::FieldOutOfRange);
    }
    if id == 0 {
        return Ok(());
    }
    if id <= usize::from(r.parent) || type_of(nodes, r.parent) == terms::MEDIA {
        return Err(Refusal::UnknownId);
    }
    Ok(())
}

// ---- anchor

#[tactic(auto, using(base::specs::Tests::tests), unfolding(machine::specs::Records::anchor_fault))]
pub fn check_anchor(nodes: &Nodes, id: usize, r: AnchorRecord) -> Result<(), Refusal>
    ensures { check_number result ≡ anchor_fault nodes.now id r }
{
    if 128 <= id {
        return Err(Refusal::TableFull);
    }
    if r.end <= r.begin {
        return Err(Refusal::FieldOutOfRange);
    }
    if !given(nodes, terms::MEDIA, r.media) {
        return Err(Refusal::UnknownId);
    }
    let duration = duration_of(nodes, r.media);
    if duration != 0 && duration < r.end {
        return Err(Refusal::Conflict);
    }
    Ok(())
}

// ---- property

#[tactic(auto, using(base::specs::Tests::tests), unfolding(machine::specs::Records::property_fault))]
pub fn check_property(id: usize) -> Result<(), Refusal>
    ensures { check_number result ≡ property_fault id }
{
    if 32 <= id {
        return Err(Refusal::TableFull);
    }
    Ok(())
}

// ---- rule

#[tactic(auto, using(base::specs::Tests::tests), unfolding(machine::specs::Records::simple_rule_fault))]
fn check_simple_rule(properties: usize, r: RuleRecord) -> Result<(), Refusal>
    ensures { check_number result ≡ simple_rule_fault properties r }
{
    if 5 < r.comparator {
        return Err(Refusal::FieldOutOfRange);
    }
    if properties <= usize::from(r.property) {
        return Err(Refusal::UnknownId);
    }
    Ok(())
}

#[tactic(auto, using(base::specs::Tests::tests), unfolding(machine::specs::Records::composite_rule_fault))]
fn check_composite_rule(id: usize, r: RuleRecord) -> Result<(), Refusal>
    ensures { check_number result ≡ composite_rule_fault id r }
{
    if 1 < r.operator {
        return Err(Refusal::FieldOutOfRange);
    }
    if id <= usize::from(r.left) || id <= usize::from(r.right) {
        return Err(Refusal::UnknownId);
    }
    Ok(())
}

// A rule of either kind, among so many properties.
#[tactic(auto, using(base::specs::Tests::tests), unfolding(machine::specs::Records::rule_fault))]
pub fn check_rule(properties: usize, id: usize, r: RuleRecord) -> Result<(), Refusal>
    ensures { check_number result ≡ rule_fault properties id r }
{
    if 32 <= id {
        return Err(Refusal::TableFull);
    }
    if r.kind == terms::SIMPLE_RULE {
        check_simple_rule(properties, r)
    } else {
        check_composite_rule(id, r)
    }
}

// ---- bind

// No rule, or one that is given.
fn rule_given(rules: &Rules, rule: u8) -> bool
    ensures { result ≡ rule =? no_id || rule <? rules.now.count }
{
    rule == terms::NO_ID || usize::from(rule) < rules.count
}

#[tactic(auto, using(base::specs::Tests::tests), unfolding(machine::specs::Records::bind_fault))]
pub fn check_bind(d: &Document, id: usize, r: BindRecord, has_default: bool) -> Result<(), Refusal>
    ensures { some (is_default d.now.binds r.switch) id ≡ has_default
        → check_number result ≡ bind_fault d.now id r }
{
    if 64 <= id {
        return Err(Refusal::TableFull);
    }
    if !given(&d.nodes, terms::SWITCH, r.switch)
        || d.nodes.count <= usize::from(r.child)
        || !rule_given(&d.rules, r.rule)
    {
        return Err(Refusal::UnknownId);
    }
    if parent_of(&d.nodes, r.child) != r.switch || (r.rule == terms::NO_ID && has_default) {
        return Err(Refusal::Conflict);
    }
    Ok(())
}

// ---- port

#[tactic(auto, using(base::specs::Tests::tests), unfolding(machine::specs::Records::port_fault))]
pub fn check_port(
    d: &Document,
    id: usize,
    r: PortRecord,
    has_same_port: bool,
) -> Result<(), Refusal>
    ensures { some (is_port d.now.ports r) id ≡ has_same_port
        → check_number result ≡ port_fault d.now id r }
{
    if 64 <= id {
        return Err(Refusal::TableFull);
    }
    if !given(&d.nodes, terms::CONTEXT, r.context) || d.nodes.count <= usize::from(r.child) {
        return Err(Refusal::UnknownId);
    }
    if parent_of(&d.nodes, r.child) != r.context || has_same_port {
        return Err(Refusal::Conflict);
    }
    Ok(())
}

// ---- link

#[tactic(auto, using(base::specs::Tests::tests), unfolding(machine::specs::Records::transition_right))]
fn transition_right(class: u8, transition: u8) -> bool
    ensures { result ≡ transition_right class transition }
{
    match class {
        terms::OF_NODE | terms::OF_ANCHOR => matches!(transition, terms::STARTS..=terms::RESUMES),
        terms::OF_PROPERTY => matches!(transition, terms::STARTS..=terms::STOPS),
        terms::OF_KEY => transition == terms::STARTS,
        _ => false,
    }
}

// Whether there is an event of this class and id; a key is any byte.
#[tactic(auto, using(base::specs::Tests::tests), unfolding(machine::specs::Records::subject_given))]
pub fn subject_given(d: &Document, class: u8, id: u8) -> bool
    ensures { result ≡ subject_given d.now class id }
{
    match class {
        terms::OF_NODE => usize::from(id) < d.nodes.count,
        terms::OF_ANCHOR => usize::from(id) < d.anchors.count,
        terms::OF_PROPERTY => usize::from(id) < d.properties,
        _ => true,
    }
}

#[tactic(auto, using(base::specs::Tests::tests), unfolding(machine::specs::Records::link_fault))]
pub fn check_link(d: &Document, id: usize, r: LinkRecord) -> Result<(), Refusal>
    ensures { check_number result ≡ link_fault d.now id r }
{
    if 64 <= id {
        return Err(Refusal::TableFull);
    }
    if !transition_right(r.class, r.transition) {
        return Err(Refusal::FieldOutOfRange);
    }
    if !given(&d.nodes, terms::CONTEXT, r.owner)
        || !subject_given(d, r.class, r.subject)
        || !rule_given(&d.rules, r.guard)
    {
        return Err(Refusal::UnknownId);
    }
    Ok(())
}

// ---- action

// Whether an action, of a link or commanded, has a value that it may have.
#[tactic(auto, using(base::specs::Tests::tests), unfolding(machine::specs::Records::action_right))]
pub fn action_right(action: u8, value: i32) -> bool
    ensures { result ≡ action_right action value }
{
    match action {
        terms::TO_START..=terms::TO_RESUME => value == 0,
        terms::TO_SET => true,
        _ => false,
    }
}

// Whether the target of an action, of a link or commanded, is given.
#[tactic(auto, using(base::specs::Tests::tests), unfolding(machine::specs::Records::target_given))]
pub fn target_given(d: &Document, action: u8, target: u8) -> bool
    ensures { result ≡ target_given d.now action target }
{
    let count = if action == terms::TO_SET {
        d.properties
    } else {
        d.nodes.count
    };
    usize::from(target) < count
}

// Action `id` of a link.
#[tactic(auto, using(base::specs::Tests::tests), unfolding(machine::specs::Records::action_fault))]
pub fn check_action(d: &Document, id: usize, r: ActionRecord) -> Result<(), Refusal>
    ensures { check_number result ≡ action_fault d.now id r }
{
    if 8 <= id {
        return Err(Refusal::TableFull);
    }
    if !action_right(r.action, r.value) {
        return Err(Refusal::FieldOutOfRange);
    }
    if d.links.count == 0 || !target_given(d, r.action, r.target) {
        return Err(Refusal::UnknownId);
    }
    Ok(())
}
