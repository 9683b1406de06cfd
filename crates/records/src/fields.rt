// Entries of a table or body, 0 past its end; fields of several bytes, the low byte first; an action of a body or a table; an anchor of its table.
ghost use Rattle.std.specs.Prelude.{◌≡◌, ◌<◌, ◌≤◌, ◌+◌, ◌*◌, get_or};
ghost use Rattle.machine.specs.Fields.{u16, i32};
ghost use Rattle.machine.specs.Tables.{action_at, anchor_at};
ghost use Rattle.machine.specs.Records.{action_of};

use machine::{ActionRecord, Actions, AnchorRecord, Anchors};

// Two names for the library's `get`, which is generic: one name by `Default` was tried, of which a clause has no value, so that each call
// would hand the 0 over.

pub fn byte_at(table: &[u8], at: usize) -> u8
    ensures { result ≡ get_or table.now at 0 }
{
    table.get(at).copied().unwrap_or(0)
}

pub fn number_at(table: &[u16], at: usize) -> u16
    ensures { result ≡ get_or table.now at 0 }
{
    table.get(at).copied().unwrap_or(0)
}

// Two, which differ in type and size alone: `from_le_bytes` is a method of each type and of no trait, so that a generic one would need a
// trait with these two as its impls; and the definitions are two. Places of fields are small, so that the sums below do not overflow.

pub fn u16_at(body: &[u8], at: usize) -> u16
    requires { at ≤ 255 }
    ensures { result ≡ u16 body.now at }
{
    u16::from_le_bytes([byte_at(body, at), byte_at(body, at + 1)])
}

pub fn i32_at(body: &[u8], at: usize) -> i32
    requires { at ≤ 255 }
    ensures { result ≡ i32 body.now at }
{
    i32::from_le_bytes([
        byte_at(body, at),
        byte_at(body, at + 1),
        byte_at(body, at + 2),
        byte_at(body, at + 3),
    ])
}

// The fields of an action; a command in a script has the same.
pub fn action_of(body: &[u8]) -> ActionRecord
    ensures { result ≡ action_of body.now }
{
    ActionRecord {
        action: byte_at(body, 0),
        target: byte_at(body, 1),
        value: i32_at(body, 2),
    }
}

// An entry as a record, each from the columns of its own table, laid out for C.

// Action j of link l.
pub fn action_at(actions: &Actions, l: usize, j: usize) -> ActionRecord
    requires { 8 * l + j < 512 }
    ensures { result ≡ action_at actions.now l j }
{
    let place = 8 * l + j;
    ActionRecord {
        action: actions.actions[place],
        target: actions.targets[place],
        value: actions.values[place],
    }
}

pub fn anchor_at(anchors: &Anchors, a: usize) -> AnchorRecord
    requires { a < 128 }
    ensures { result ≡ anchor_at anchors.now a }
{
    AnchorRecord {
        media: anchors.media[a],
        begin: anchors.begins[a],
        end: anchors.ends[a],
    }
}
