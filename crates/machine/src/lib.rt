// The types of the report player. What its operations do is defined in specs/; the code here turns refusals, conditions and sessions into
// what they stand for. 01's numbers by name are in `terms`.
//
// A session is written down in public numbers, laid out as in C, and anybody may write one: nothing is assumed of it.
#![tactic(auto)]

pub mod sound;
pub mod terms;

ghost use Rattle.std.specs.Prelude.{◌≡◌};
ghost use Rattle.machine.specs.Answers.{number_of, condition_number};

// ---- the tables of a document: entry i of each array belongs to id i. No count has an invariant, since anybody may write one; who needs a
// bound asks for it. Ids are numbers: a type of those below a count would have to lend the document whose count it is to each id; and one of
// those below 64, 32 or 128 would be made in every loop and of every byte of a column, and undone at each column that it indexes.

// Types: 0 context, 1 media, 2 switch.
#[repr(C)]
#[derive(Clone, Copy)]
pub struct Nodes {
    pub count: usize,
    pub types: [u8; 64],
    pub parents: [u8; 64],
    pub durations: [u16; 64],
}

#[repr(C)]
#[derive(Clone, Copy)]
pub struct Anchors {
    pub count: usize,
    pub media: [u8; 128],
    pub begins: [u16; 128],
    pub ends: [u16; 128],
}

// Kinds: 4 a simple rule, with property, comparator and value; 5 a composite rule, with operator, left and right rule.
#[repr(C)]
#[derive(Clone, Copy)]
pub struct Rules {
    pub count: usize,
    pub kinds: [u8; 32],
    pub properties: [u8; 32],
    pub comparators: [u8; 32],
    pub values: [i32; 32],
    pub operators: [u8; 32],
    pub lefts: [u8; 32],
    pub rights: [u8; 32],
}

// Rule 255 marks the default.
#[repr(C)]
#[derive(Clone, Copy)]
pub struct Binds {
    pub count: usize,
    pub switches: [u8; 64],
    pub children: [u8; 64],
    pub rules: [u8; 64],
}

#[repr(C)]
#[derive(Clone, Copy)]
pub struct Ports {
    pub count: usize,
    pub contexts: [u8; 64],
    pub children: [u8; 64],
}

// Guard 255: none.
#[repr(C)]
#[derive(Clone, Copy)]
pub struct Links {
    pub count: usize,
    pub owners: [u8; 64],
    pub classes: [u8; 64],
    pub subjects: [u8; 64],
    pub transitions: [u8; 64],
    pub guards: [u8; 64],
    pub action_counts: [u8; 64],
}

// Action j of link l is entry 8 l + j.
#[repr(C)]
#[derive(Clone, Copy)]
pub struct Actions {
    pub actions: [u8; 512],
    pub targets: [u8; 512],
    pub values: [i32; 512],
}

#[repr(C)]
#[derive(Clone, Copy)]
pub struct Document {
    pub limit: u8,
    pub nodes: Nodes,
    pub anchors: Anchors,
    pub properties: usize,
    pub rules: Rules,
    pub binds: Binds,
    pub ports: Ports,
    pub links: Links,
    pub actions: Actions,
}

// ---- what changes: states are 0 sleeping, 1 occurring, 2 paused; counts are of occurrences

#[repr(C)]
#[derive(Clone, Copy)]
pub struct NodeEvents {
    pub states: [u8; 64],
    pub clocks: [u16; 64],
    pub counts: [u32; 64],
}

#[repr(C)]
#[derive(Clone, Copy)]
pub struct AnchorEvents {
    pub states: [u8; 128],
    pub counts: [u32; 128],
}

#[repr(C)]
#[derive(Clone, Copy)]
pub struct PropertyEvents {
    pub values: [i32; 32],
    pub counts: [u32; 32],
}

// Choices: the child that each switch chose last; 0 where there is none, and for a node that is no switch.
#[repr(C)]
#[derive(Clone, Copy)]
pub struct State {
    pub nodes: NodeEvents,
    pub anchors: AnchorEvents,
    pub properties: PropertyEvents,
    pub choices: [u8; 64],
}

#[repr(C)]
#[derive(Clone, Copy)]
pub struct Session {
    pub document: Document,
    pub state: State,
}

// ---- the fields of one record; of a rule, those that its kind has not are 0 (an entry of a session may hold any kind and any field, and is
// asked as a record too)

#[derive(Clone, Copy)]
pub struct NodeRecord {
    pub node_type: u8,
    pub parent: u8,
    pub duration: u16,
}

#[derive(Clone, Copy)]
pub struct AnchorRecord {
    pub media: u8,
    pub begin: u16,
    pub end: u16,
}

#[derive(Clone, Copy)]
pub struct PropertyRecord {
    pub value: i32,
}

#[derive(Clone, Copy)]
pub struct RuleRecord {
    pub kind: u8,
    pub property: u8,
    pub comparator: u8,
    pub value: i32,
    pub operator: u8,
    pub left: u8,
    pub right: u8,
}

#[derive(Clone, Copy)]
pub struct BindRecord {
    pub switch: u8,
    pub child: u8,
    pub rule: u8,
}

#[derive(Clone, Copy)]
pub struct PortRecord {
    pub context: u8,
    pub child: u8,
}

#[derive(Clone, Copy)]
pub struct LinkRecord {
    pub owner: u8,
    pub class: u8,
    pub subject: u8,
    pub transition: u8,
    pub guard: u8,
}

#[derive(Clone, Copy)]
pub struct ActionRecord {
    pub action: u8,
    pub target: u8,
    pub value: i32,
}

#[derive(Clone, Copy)]
pub enum Record {
    Head(u8),
    Node(NodeRecord),
    Anchor(AnchorRecord),
    Property(PropertyRecord),
    Rule(RuleRecord),
    Bind(BindRecord),
    Port(PortRecord),
    Link(LinkRecord),
    Action(ActionRecord),
}

// ---- a call: a command has the fields of an action, a key its code

#[derive(Clone, Copy)]
pub enum Call {
    Command(ActionRecord),
    Key(u8),
    Tick,
}

// ---- a log line: its 4 bytes, of which the last is 0

#[derive(Clone, Copy)]
pub struct Line {
    pub class: u8,
    pub id: u8,
    pub transition: u8,
    pub zero: u8,
}

// ---- the answers of the operations: what an accepted one returns, or its refusal

// In the order of their numbers.
#[derive(Clone, Copy)]
pub enum Refusal {
    CutRecord,
    UnknownKind,
    MisplacedHead,
    TableFull,
    FieldOutOfRange,
    UnknownId,
    Conflict,
    NoNode,
    BadArgument,
    NoSuchId,
    LimitReached,
    LogFull,
    BrokenSession,
}

// 01's number of a refusal.
impl From<Refusal> for u8 {
    ghost from_gives = { λ refusal number. number ≡ number_of refusal };

    fn from(refusal: Refusal) -> u8 {
        match refusal {
            Refusal::CutRecord => 1,
            Refusal::UnknownKind => 2,
            Refusal::MisplacedHead => 3,
            Refusal::TableFull => 4,
            Refusal::FieldOutOfRange => 5,
            Refusal::UnknownId => 6,
            Refusal::Conflict => 7,
            Refusal::NoNode => 8,
            Refusal::BadArgument => 9,
            Refusal::NoSuchId => 10,
            Refusal::LimitReached => 11,
            Refusal::LogFull => 12,
            Refusal::BrokenSession => 13,
        }
    }
}

// An answer, with the session after it.
#[derive(Clone, Copy)]
pub struct Outcome<T> {
    pub answer: Result<T, Refusal>,
    pub session: Session,
}

pub type Loaded = Outcome<()>;

// An accepted call returns its firings.
pub type Called = Outcome<u8>;

// What a read gives: a node and an anchor have the value 0, a property the state 0, as 01 says.
#[derive(Clone, Copy)]
pub struct Reading {
    pub state: u8,
    pub value: i32,
    pub count: u32,
}

// The conditions under which a document shows the counts of a media in a property, in the order of their numbers, 1 to 7.
#[derive(Clone, Copy)]
pub enum Condition {
    HasAnchor,
    AnchorsDisjoint,
    EachHasOneLink,
    EachSetsOnce,
    EachUnguarded,
    NoOtherAction,
    EachOutsideSwitches,
}

// The number of a condition.
impl From<Condition> for u8 {
    ghost from_gives = { λ condition number. number ≡ condition_number condition };

    fn from(condition: Condition) -> u8 {
        match condition {
            Condition::HasAnchor => 1,
            Condition::AnchorsDisjoint => 2,
            Condition::EachHasOneLink => 3,
            Condition::EachSetsOnce => 4,
            Condition::EachUnguarded => 5,
            Condition::NoOtherAction => 6,
            Condition::EachOutsideSwitches => 7,
        }
    }
}

// Whether a document shows the counts, or the first condition that fails. A condition that fails is an accepted answer: one Result in another.
pub type CountsAnswer = Result<Result<(), Condition>, Refusal>;

// The count of an anchor whose media's counts a document shows, or the first condition that fails.
pub type CountAnswer = Result<Result<i32, Condition>, Refusal>;
