// Set of a property.
ghost use Rattle.std.specs.Prelude.{◌≡◌, ◌<◌};
ghost use Rattle.machine.specs.Events.{set_property};
ghost use Rattle.events.specs.Running.{run};

use super::Work;
use changes::count_after;
use machine::terms;

// Property p takes the value. (An id below 32 fits a byte; `try_from` would give a Result, to be unwrapped by the same fact.)
#[tactic(auto, unfolding(machine::specs::Events::set_property))]
pub fn set_property(w: &mut Work, log: &mut [u8], p: usize, value: i32)
    requires { p < 32 }
    ensures { run w.new log.new ≡ set_property p value (run w.old log.old) }
{
    w.written
        .emit(log, terms::OF_PROPERTY, p as u8, terms::STARTS);
    w.state.properties.values[p] = value;
    w.written
        .emit(log, terms::OF_PROPERTY, p as u8, terms::STOPS);
    w.state.properties.counts[p] = count_after(terms::STOPS, w.state.properties.counts[p]);
}
