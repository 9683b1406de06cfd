// The choices of switches: whether those on the path up from a node chose it, and whether the choices of a session are right.
#![tactic(auto)]

ghost use Rattle.std.specs.Prelude.{◌≡◌, not, ◌&&◌, ◌||◌, ◌<◌, ◌≤◌, get_or};
ghost use Rattle.base.specs.Tests.{◌=?◌, ◌<?◌};
ghost use Rattle.machine.specs.Terms.{switch};
ghost use Rattle.machine.specs.Owners.{path_chosen};
ghost use Rattle.machine.specs.Broken.{choice_right, choices_right};
ghost use Rattle.choices.specs.Parents.{Earlier};

use machine::{Nodes, terms};

// A child of a node of this type, with this choice: the node is no switch, or chose the child.
fn is_chosen(parent_type: u8, choice: usize, child: usize) -> bool
    ensures { result ≡ not (parent_type =? switch) || choice =? child }
{
    (parent_type != terms::SWITCH) | (choice == child)
}

// Whether every switch above the owner chose the child on the path. Lent the choices alone, so that it is said of every state that has them.
// A walk by parents has no index to count: a `while`.
#[tactic(auto, using(crate::proofs::PathLaws::path_ends), unfolding(machine::specs::Owners::path_chosen, machine::specs::Owners::is_chosen))]
pub fn path_chosen(nodes: &Nodes, choices: &[u8; 64], owner: usize) -> bool
    requires { (owner < 64) × Earlier nodes.now.parents owner }
    ensures { result ≡ path_chosen nodes.now choices.now owner }
{
    let mut chosen = true;
    let mut node = owner;
    while 0 < node {
        let child = node;
        node = usize::from(nodes.parents[child]);
        chosen &= is_chosen(nodes.types[node], usize::from(choices[node]), child);
    }
    chosen
}

// The choice c of node n: none, or a child of a switch.
#[tactic(auto, unfolding(machine::specs::Broken::choice_right))]
fn choice_right(nodes: &Nodes, n: usize, c: usize) -> bool
    requires { nodes.now.count ≤ 64 }
    ensures { result ≡ choice_right nodes.now n c }
{
    c == 0
        || (n < nodes.count
            && nodes.types[n] == terms::SWITCH
            && c < nodes.count
            && usize::from(nodes.parents[c]) == n)
}

// Of all places, those too that have no node. Lent the choices alone, as above.
#[tactic(auto, unfolding(machine::specs::Broken::choices_right))]
pub fn choices_right(nodes: &Nodes, choices: &[u8; 64]) -> bool
    requires { nodes.now.count ≤ 64 }
    ensures { result ≡ choices_right nodes.now choices.now }
{
    (0..64).all(|n| choice_right(nodes, n, usize::from(choices[n])))
}
