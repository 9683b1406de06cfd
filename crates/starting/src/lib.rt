// Which media the start of a node reaches, in which order, and what the switches that it reaches choose. Nothing is started here: the
// answer is a queue of media, with the choices.
#![tactic(auto)]

mod start;

ghost use Rattle.std.specs.Prelude.{◌≡◌, ◌<◌, ◌+◌, set, replicate};
ghost use Rattle.starting.specs.Queues.{queue_of, MediaOfStart};

use machine::sound::SoundDocument;
use start::{Found, Start, found_at};

// The first `count` entries of `media`, in this order: memory is fixed, there are no more than 64 nodes, and the crates use `std` alone, which
// has no vector of fixed memory.
#[derive(Clone, Copy)]
pub struct Queue {
    pub media: [u8; 64],
    pub count: usize,
}

impl Queue {
    pub fn new() -> Queue
        ensures { result ≡ queue_of (replicate 64 0) 0 }
    {
        Queue {
            media: [0; 64],
            count: 0,
        }
    }

    // Media n is the last of the queue. Its id fits a byte, by what is required, and is cast: `try_from` would give a Result that cannot
    // fail here, to be unwrapped by the same fact.
    pub fn push(&mut self, n: usize)
        requires { (n < 64) × (self.old.count < 64) }
        ensures { self.new ≡ queue_of (set self.old.media self.old.count n) (self.old.count + 1) }
    {
        self.media[self.count] = n as u8;
        self.count += 1;
    }
}

// What a start reaches: its media, and the choices after it.
#[derive(Clone, Copy)]
pub struct Reach {
    pub queue: Queue,
    pub choices: [u8; 64],
}

// What the start of node n reaches, where nodes have these states, properties these values and switches these choices. Lent the three
// columns that a start reads, and no whole state, since what it promises is of every state that has them. A `Start` is made in two arms:
// before the match it would be made for a media or an awake node too, with every rule decided for nothing; and in one arm for both kinds
// of composite, these would have to be told apart once more.
pub fn media_of_start(
    d: &SoundDocument,
    states: &[u8; 64],
    values: &[i32; 32],
    choices: &[u8; 64],
    n: usize,
) -> Reach
    requires { n < d.now.document.nodes.count }
    ensures { MediaOfStart d.now.document states.now values.now choices.now n result }
{
    match found_at(d.document.nodes.types[n], states[n]) {
        Some(Found::Media) => {
            let mut queue = Queue::new();
            queue.push(n);
            Reach {
                queue,
                choices: *choices,
            }
        }
        Some(Found::Context) => {
            let mut start = Start::new(d, states, values, choices);
            start.start_context(n);
            start.reach
        }
        Some(Found::Switch) => {
            let mut start = Start::new(d, states, values, choices);
            start.start_switch(n);
            start.reach
        }
        None => Reach {
            queue: Queue::new(),
            choices: *choices,
        },
    }
}
