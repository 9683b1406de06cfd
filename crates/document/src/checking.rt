// The place of a record, and its fault as the next entry of its table.
ghost use Rattle.std.specs.Prelude.{◌≡◌};
ghost use Rattle.base.specs.Loops.{some};
ghost use Rattle.machine.specs.Answers.{check_number};
ghost use Rattle.machine.specs.Tables.{latest, action_count};
ghost use Rattle.machine.specs.Records.{is_default, bind_fault, is_port, port_fault, record_fault};
ghost use Rattle.machine.specs.Load.{head_fault, other_fault, place_fault};

use checks::{check_action, check_anchor, check_link, check_node, check_property, check_rule};
use machine::{BindRecord, Binds, Document, Links, PortRecord, Ports, Record, Refusal, terms};
use records::fields::byte_at;

// ---- what an earlier record of the same table may say

// Whether bind b is the default of switch n.
fn is_default(binds: &Binds, n: u8, b: usize) -> bool
    ensures { result ≡ is_default binds.now n b }
{
    byte_at(&binds.switches, b) == n && byte_at(&binds.rules, b) == terms::NO_ID
}

// Whether switch n has a default among the first binds.
fn has_default(binds: &Binds, n: u8, end: usize) -> bool
    ensures { result ≡ some (is_default binds.now n) end }
{
    (0..end).any(|b| is_default(binds, n, b))
}

// Whether port p is the same: by its columns, since a record would be built only to be compared.
fn is_port(ports: &Ports, r: PortRecord, p: usize) -> bool
    ensures { result ≡ is_port ports.now r p }
{
    byte_at(&ports.contexts, p) == r.context && byte_at(&ports.children, p) == r.child
}

// Whether the same port is among the first ports.
fn has_same_port(ports: &Ports, r: PortRecord, end: usize) -> bool
    ensures { result ≡ some (is_port ports.now r) end }
{
    (0..end).any(|p| is_port(ports, r, p))
}

fn check_bind(d: &Document, r: BindRecord) -> Result<(), Refusal>
    ensures { check_number result ≡ bind_fault d.now d.now.binds.count r }
{
    let id = d.binds.count;
    checks::check_bind(d, id, r, has_default(&d.binds, r.switch, id))
}

fn check_port(d: &Document, r: PortRecord) -> Result<(), Refusal>
    ensures { check_number result ≡ port_fault d.now d.now.ports.count r }
{
    let id = d.ports.count;
    checks::check_port(d, id, r, has_same_port(&d.ports, r, id))
}

// ---- a record of any kind

// How many actions the latest link has.
fn latest_actions(links: &Links) -> usize
    ensures { result ≡ action_count links.now (latest links.now) }
{
    usize::from(byte_at(&links.action_counts, links.count.saturating_sub(1)))
}

pub fn check_record(d: &Document, r: Record) -> Result<(), Refusal>
    ensures { check_number result ≡ record_fault d.now r }
{
    match r {
        Record::Head(_) => Ok(()),
        Record::Node(node) => check_node(&d.nodes, d.nodes.count, node),
        Record::Anchor(anchor) => check_anchor(&d.nodes, d.anchors.count, anchor),
        Record::Property(_) => check_property(d.properties),
        Record::Rule(rule) => check_rule(d.properties, d.rules.count, rule),
        Record::Bind(bind) => check_bind(d, bind),
        Record::Port(port) => check_port(d, port),
        Record::Link(link) => check_link(d, d.links.count, link),
        Record::Action(action) => check_action(d, latest_actions(&d.links), action),
    }
}

// ---- its place

#[tactic(auto, using(crate::proofs::Heads::head_later, crate::proofs::Heads::head_unlimited, crate::proofs::Heads::head_right))]
fn check_head(d: &Document, limit: u8) -> Result<(), Refusal>
    ensures { check_number result ≡ head_fault d.now limit }
{
    if d.limit != 0 {
        return Err(Refusal::MisplacedHead);
    }
    if limit == 0 {
        return Err(Refusal::MisplacedHead);
    }
    Ok(())
}

#[tactic(auto, using(base::specs::Tests::tests))]
fn check_other(d: &Document) -> Result<(), Refusal>
    ensures { check_number result ≡ other_fault d.now }
{
    if d.limit == 0 {
        return Err(Refusal::MisplacedHead);
    }
    Ok(())
}

#[tactic(auto, unfolding(machine::specs::Load::place_fault))]
pub fn check_place(d: &Document, r: Record) -> Result<(), Refusal>
    ensures { check_number result ≡ place_fault d.now r }
{
    match r {
        Record::Head(limit) => check_head(d, limit),
        _ => check_other(d),
    }
}
