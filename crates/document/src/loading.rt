// Load: record after record, until the bytes end or a record is refused.
ghost use Rattle.std.specs.Prelude.{◌≡◌, ◌<◌, length};
ghost use Rattle.machine.specs.Tables.{empty_document, new_state, empty_session};
ghost use Rattle.machine.specs.Load.{checked, place_fault, load_refused, load};
ghost use Rattle.machine.specs.Answers.{number_of};
ghost use Rattle.records.specs.Reading.{cut_from, reading_of};
ghost use Rattle.document.specs.Loading.{load_result};

use crate::checking::{check_place, check_record};
use crate::entering::enter;
use machine::{
    Actions, AnchorEvents, Anchors, Binds, Document, Links, Loaded, NodeEvents, Nodes, Ports,
    PropertyEvents, Record, Refusal, Rules, Session, State, terms,
};
use records::reading::cut_at;
use records::tables::body_length;

// Every zero is written out, here and in `new_state`: a derived `Default` reaches these arrays too, but promises of a column only that each
// entry is zero, so that each column would take a line of proof; and 01 wants the anchors' states and counts as repeat arrays.
#[tactic(auto, unfolding(machine::specs::Tables::empty_document))]
fn empty_document() -> Document
    ensures { result ≡ empty_document }
{
    Document {
        limit: 0,
        nodes: Nodes {
            count: 0,
            types: [0u8; 64],
            parents: [0u8; 64],
            durations: [0u16; 64],
        },
        anchors: Anchors {
            count: 0,
            media: [0u8; 128],
            begins: [0u16; 128],
            ends: [0u16; 128],
        },
        properties: 0,
        rules: Rules {
            count: 0,
            kinds: [0u8; 32],
            properties: [0u8; 32],
            comparators: [0u8; 32],
            values: [0i32; 32],
            operators: [0u8; 32],
            lefts: [0u8; 32],
            rights: [0u8; 32],
        },
        binds: Binds {
            count: 0,
            switches: [0u8; 64],
            children: [0u8; 64],
            rules: [0u8; 64],
        },
        ports: Ports {
            count: 0,
            contexts: [0u8; 64],
            children: [0u8; 64],
        },
        links: Links {
            count: 0,
            owners: [0u8; 64],
            classes: [0u8; 64],
            subjects: [0u8; 64],
            transitions: [0u8; 64],
            guards: [0u8; 64],
            action_counts: [0u8; 64],
        },
        actions: Actions {
            actions: [0u8; 512],
            targets: [0u8; 512],
            values: [0i32; 512],
        },
    }
}

#[tactic(auto, unfolding(machine::specs::Tables::new_state))]
fn new_state() -> State
    ensures { result ≡ new_state }
{
    State {
        nodes: NodeEvents {
            states: [terms::SLEEPING; 64],
            clocks: [0u16; 64],
            counts: [0u32; 64],
        },
        anchors: AnchorEvents {
            states: [terms::SLEEPING; 128],
            counts: [0u32; 128],
        },
        properties: PropertyEvents {
            values: [0i32; 32],
            counts: [0u32; 32],
        },
        choices: [0u8; 64],
    }
}

#[tactic(auto, unfolding(machine::specs::Tables::empty_session))]
pub fn empty_session() -> Session
    ensures { result ≡ empty_session }
{
    Session {
        document: empty_document(),
        state: new_state(),
    }
}

fn refuse(refusal: Refusal) -> Loaded
    ensures { load_result result ≡ load_refused (number_of refusal) }
{
    Loaded {
        answer: Err(refusal),
        session: empty_session(),
    }
}

// The record that begins at a place of the document, checked.
#[tactic(auto, unfolding(machine::specs::Load::checked, machine::specs::Load::and_then))]
fn read_at(d: &Document, document: &[u8], at: usize) -> Result<Record, Refusal>
    requires { at < length document.now }
    ensures { reading_of result ≡ checked place_fault d.now (cut_from document.now at) }
{
    let reading = cut_at(document, at);
    let Ok(record) = reading else {
        return reading;
    };
    check_place(d, record)?;
    check_record(d, record)?;
    reading
}

// Where a record is refused, the session is the empty one.
pub fn load(document: &[u8]) -> Loaded
    ensures { load_result result ≡ load document.now }
{
    let mut s = empty_session();
    let mut at = 0;
    // A `while`: records are of several lengths.
    while at < document.len() {
        let reading = read_at(&s.document, document, at);
        let Ok(record) = reading else {
            return Loaded {
                answer: reading.and(Ok(())),
                session: empty_session(),
            };
        };
        enter(&mut s, record);
        at = at + 1 + body_length(usize::from(document[at]));
    }
    if s.document.limit == 0 {
        return refuse(Refusal::MisplacedHead);
    }
    if s.document.nodes.count == 0 {
        return refuse(Refusal::NoNode);
    }
    Loaded {
        answer: Ok(()),
        session: s,
    }
}
