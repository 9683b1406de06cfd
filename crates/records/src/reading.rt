// One record of a document, cut from its bytes: its kind, its body, and the fields of the body.
ghost use Rattle.std.specs.Prelude.{◌≡◌, ◌<◌, length};
ghost use Rattle.machine.specs.Records.{node_of, anchor_of, property_of, simple_rule_of, composite_rule_of, bind_of, port_of, link_of, record_of};
ghost use Rattle.records.specs.Reading.{cut_from, reading_of};

use crate::fields::{action_of, byte_at, i32_at, u16_at};
use crate::tables::{GREATEST_KIND, body_length};
use machine::{
    AnchorRecord, BindRecord, LinkRecord, NodeRecord, PortRecord, PropertyRecord, Record, Refusal,
    RuleRecord, terms,
};

// Functions, and no `From` of a body, which could not stand here: the records' types are another crate's.

fn node_of(body: &[u8]) -> NodeRecord
    ensures { result ≡ node_of body.now }
{
    NodeRecord {
        node_type: byte_at(body, 0),
        parent: byte_at(body, 1),
        duration: u16_at(body, 2),
    }
}

fn anchor_of(body: &[u8]) -> AnchorRecord
    ensures { result ≡ anchor_of body.now }
{
    AnchorRecord {
        media: byte_at(body, 0),
        begin: u16_at(body, 1),
        end: u16_at(body, 3),
    }
}

fn property_of(body: &[u8]) -> PropertyRecord
    ensures { result ≡ property_of body.now }
{
    PropertyRecord {
        value: i32_at(body, 0),
    }
}

fn simple_rule_of(body: &[u8]) -> RuleRecord
    ensures { result ≡ simple_rule_of body.now }
{
    RuleRecord {
        kind: terms::SIMPLE_RULE,
        property: byte_at(body, 0),
        comparator: byte_at(body, 1),
        value: i32_at(body, 2),
        operator: 0,
        left: 0,
        right: 0,
    }
}

fn composite_rule_of(body: &[u8]) -> RuleRecord
    ensures { result ≡ composite_rule_of body.now }
{
    RuleRecord {
        kind: terms::COMPOSITE_RULE,
        property: 0,
        comparator: 0,
        value: 0,
        operator: byte_at(body, 0),
        left: byte_at(body, 1),
        right: byte_at(body, 2),
    }
}

fn bind_of(body: &[u8]) -> BindRecord
    ensures { result ≡ bind_of body.now }
{
    BindRecord {
        switch: byte_at(body, 0),
        child: byte_at(body, 1),
        rule: byte_at(body, 2),
    }
}

fn port_of(body: &[u8]) -> PortRecord
    ensures { result ≡ port_of body.now }
{
    PortRecord {
        context: byte_at(body, 0),
        child: byte_at(body, 1),
    }
}

fn link_of(body: &[u8]) -> LinkRecord
    ensures { result ≡ link_of body.now }
{
    LinkRecord {
        owner: byte_at(body, 0),
        class: byte_at(body, 1),
        subject: byte_at(body, 2),
        transition: byte_at(body, 3),
        guard: byte_at(body, 4),
    }
}

// The record of a kind and a body. Kinds are numbers: an enum of them would be matched once to be made and once more here (`Record` is that
// enum), and `body_length` takes any number. Only the kinds of rules are asked elsewhere, and have names.
#[tactic(auto, using(base::specs::Tests::tests), unfolding(machine::specs::Records::record_of))]
fn record_of(kind: u8, body: &[u8]) -> Record
    ensures { result ≡ record_of kind body.now }
{
    match kind {
        0 => Record::Head(byte_at(body, 0)),
        1 => Record::Node(node_of(body)),
        2 => Record::Anchor(anchor_of(body)),
        3 => Record::Property(property_of(body)),
        terms::SIMPLE_RULE => Record::Rule(simple_rule_of(body)),
        terms::COMPOSITE_RULE => Record::Rule(composite_rule_of(body)),
        6 => Record::Bind(bind_of(body)),
        7 => Record::Port(port_of(body)),
        8 => Record::Link(link_of(body)),
        _ => Record::Action(action_of(body)),
    }
}

// The record that begins at a place of the document.
pub fn cut_at(document: &[u8], at: usize) -> Result<Record, Refusal>
    requires { at < length document.now }
    ensures { reading_of result ≡ cut_from document.now at }
{
    let kind = document[at];
    if GREATEST_KIND < kind {
        return Err(Refusal::UnknownKind);
    }
    let start = at + 1;
    let end = start + body_length(usize::from(kind));
    let Some(body) = document.get(start..end) else {
        return Err(Refusal::CutRecord);
    };
    Ok(record_of(kind, body))
}
