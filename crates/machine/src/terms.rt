// 01's numbers of types, states, actions, transitions, classes and kinds of a rule, by name. Numbers and no enums: sessions, documents,
// scripts and logs have them as bytes, which anybody may write, so any byte has to be taken, and what is computed goes back into them.

// Types of a node.
pub const CONTEXT: u8 = 0;

pub const MEDIA: u8 = 1;

pub const SWITCH: u8 = 2;

// States.
pub const SLEEPING: u8 = 0;

pub const OCCURRING: u8 = 1;

pub const PAUSED: u8 = 2;

// Actions: start, stop, abort, pause, resume a node; set a property.
pub const TO_START: u8 = 1;

pub const TO_STOP: u8 = 2;

pub const TO_ABORT: u8 = 3;

pub const TO_PAUSE: u8 = 4;

pub const TO_RESUME: u8 = 5;

pub const TO_SET: u8 = 6;

// Transitions; NO_TRANSITION is none, and also that of a fired line.
pub const NO_TRANSITION: u8 = 0;

pub const STARTS: u8 = 1;

pub const STOPS: u8 = 2;

pub const ABORTS: u8 = 3;

pub const PAUSES: u8 = 4;

pub const RESUMES: u8 = 5;

// Classes; the last is that of a fired line.
pub const OF_NODE: u8 = 1;

pub const OF_ANCHOR: u8 = 2;

pub const OF_PROPERTY: u8 = 3;

pub const OF_KEY: u8 = 4;

pub const OF_FIRED: u8 = 5;

// Kinds of a rule.
pub const SIMPLE_RULE: u8 = 4;

pub const COMPOSITE_RULE: u8 = 5;

// The parent of node 0, the rule of a default bind, the guard of a link that has none.
pub const NO_ID: u8 = 255;
