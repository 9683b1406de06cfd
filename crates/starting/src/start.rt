// A start on its way: what it goes by, and what it has reached so far.
ghost use Rattle.std.specs.Prelude.{◌≡◌};
ghost use Rattle.starting.specs.Reaching.{found_at, LaterChoices, Room};

use super::{Queue, Reach};
use choosing::found_children;
use machine::sound::SoundDocument;
use machine::terms;

// What a start finds at a node that sleeps.
#[derive(Clone, Copy)]
pub enum Found {
    Media,
    Context,
    Switch,
}

// What a start finds at a node of this type and state; nothing, if it is awake.
#[tactic(auto, using(crate::proofs::Finding::found_awake, crate::proofs::Finding::found_media, crate::proofs::Finding::found_context, crate::proofs::Finding::found_switch))]
pub fn found_at(node_type: u8, state: u8) -> Option<Found>
    ensures { result ≡ found_at node_type state }
{
    if state != terms::SLEEPING {
        return None;
    }
    match node_type {
        terms::MEDIA => Some(Found::Media),
        terms::CONTEXT => Some(Found::Context),
        _ => Some(Found::Switch),
    }
}

// The document and the child that each switch finds; the states, in which a media of the queue counts as awake, and what is reached.
// It is lent to each composite, so that those which nest in each other take little stack.
#[derive(Drop)]
pub struct Start<'a> {
    pub document: &'a SoundDocument,
    pub chosen: [u8; 64],
    pub states: [u8; 64],
    pub reach: Reach,
    pub ghost later: { LaterChoices chosen },
    pub ghost room: { Room states reach.queue },
}

impl<'a> Start<'a> {
    ghost use Rattle.std.specs.Prelude.{◌≡◌, ◌<◌, get_or};
    ghost use Rattle.machine.specs.Terms.{sleeping};
    ghost use Rattle.choosing.specs.Choosing.{FoundChildren};
    ghost use Rattle.starting.specs.Reached.{Reached, media_by, context_by, switch_by, Begun};

    // Nothing is reached yet. Lent the columns alone, as `media_of_start` is.
    pub fn new(
        document: &'a SoundDocument,
        states: &[u8; 64],
        values: &[i32; 32],
        choices: &[u8; 64],
    ) -> Start<'a>
        ensures { Begun document.now.document states.now values.now choices.now result }
    {
        Start {
            document,
            chosen: found_children(&document.document.binds, &document.document.rules, values),
            states: *states,
            reach: Reach {
                queue: Queue::new(),
                choices: *choices,
            },
        }
    }

    // Sleeping media n is the next of the queue; what is reached later finds it awake.
    fn enqueue(&mut self, n: usize)
        requires { (n < 64) × (get_or self.old.states n 0 ≡ sleeping) }
        ensures { Reached self.old n (media_by self.old n) self.new }
    {
        self.states[n] = terms::OCCURRING;
        self.reach.queue.push(n);
    }

    // A sleeping context starts the children of its ports, in record order.
    #[cycle(start_context_start_switch)]
    #[tactic(auto, using(crate::proofs::Finding::media_sleeps))]
    pub fn start_context(&mut self, n: usize)
        ensures { Reached self.old n (context_by self.old n) self.new }
    {
        for p in 0..self.document.document.ports.count {
            if usize::from(self.document.document.ports.contexts[p]) == n {
                let child = usize::from(self.document.document.ports.children[p]);
                match found_at(
                    self.document.document.nodes.types[child],
                    self.states[child],
                ) {
                    Some(Found::Media) => self.enqueue(child),
                    Some(Found::Context) => self.start_context(child),
                    Some(Found::Switch) => self.start_switch(child),
                    None => {}
                }
            }
        }
    }

    // A sleeping switch chooses and starts the child that it finds. (The match stands in both: the measure is 01's, 64 minus the id, which
    // falls from a context or switch to its child, and a third method would be called, or would call, with the same id.)
    #[cycle(start_context_start_switch)]
    #[tactic(auto, using(crate::proofs::Finding::media_sleeps))]
    pub fn start_switch(&mut self, n: usize)
        requires { n < 64 }
        ensures { Reached self.old n (switch_by self.old n) self.new }
    {
        self.reach.choices[n] = self.chosen[n];
        let child = usize::from(self.chosen[n]);
        if child != 0 {
            match found_at(
                self.document.document.nodes.types[child],
                self.states[child],
            ) {
                Some(Found::Media) => self.enqueue(child),
                Some(Found::Context) => self.start_context(child),
                Some(Found::Switch) => self.start_switch(child),
                None => {}
            }
        }
    }
}
