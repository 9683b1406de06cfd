// Whether a session is broken. Any session may be handed in: its counts may be any numbers, its bytes any bytes.
#![tactic(auto)]

ghost use Rattle.std.specs.Prelude.{◌≡◌};
ghost use Rattle.machine.specs.Broken.{broken};

use choices::choices_right;
use end_check::{document_ends_zero, state_ends_zero};
use machine::Session;
use state_check::states_right;
use table_check::tables_obey;

#[tactic(auto, using(crate::proofs::Few::few_nodes), unfolding(machine::specs::Broken::broken))]
pub fn is_broken(s: &Session) -> bool
    ensures { result ≡ broken s.now }
{
    !tables_obey(&s.document)
        || !document_ends_zero(&s.document)
        || !state_ends_zero(&s.document, &s.state)
        || !states_right(&s.document, &s.state)
        || !choices_right(&s.document.nodes, &s.state.choices)
}
