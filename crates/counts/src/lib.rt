// The check for report authors: whether a document shows the counts of a media in a property, and the count of an anchor. Document, media and
// property are handed on one by one: all but two functions look at a media alone or at a property alone, and a struct of the three would hand
// each what it does not look at. Nor has `linked` a struct with what it counts, which would have to lend the document and the property.
#![tactic(auto)]

mod anchors;
mod links;

ghost use Rattle.std.specs.Prelude.{◌≡◌, true, ◌<◌};
ghost use Rattle.machine.specs.Tables.{anchor_at};
ghost use Rattle.machine.specs.Counts.{failing, shows_counts, count_of};
ghost use Rattle.counts.specs.Verdicts.{verdict_number};

use machine::Condition;
use machine::sound::SoundDocument;

// The first condition that fails for a media and a property.
#[tactic(auto, using(base::specs::Tests::when_tells), unfolding(machine::specs::Counts::failing, machine::specs::Counts::conditions, machine::specs::Counts::first_failing))]
pub fn first_failing(d: &SoundDocument, media: u8, property: u8) -> Result<(), Condition>
    ensures { verdict_number result ≡ failing d.now.document media property }
{
    if !anchors::has_anchor(d, media) {
        return Err(Condition::HasAnchor);
    }
    if !anchors::disjoint(d, media) {
        return Err(Condition::AnchorsDisjoint);
    }
    let found = links::sweep(d, media, property);
    if !anchors::each_has_one_link(d, media, &found.linked) {
        return Err(Condition::EachHasOneLink);
    }
    if !found.each_sets_once {
        return Err(Condition::EachSetsOnce);
    }
    if !found.each_unguarded {
        return Err(Condition::EachUnguarded);
    }
    if !found.no_other {
        return Err(Condition::NoOtherAction);
    }
    if !found.each_outside_switches {
        return Err(Condition::EachOutsideSwitches);
    }
    Ok(())
}

// The count of an anchor whose media's counts the document shows.
#[tactic(auto, using(crate::proofs::Places::link_given, crate::proofs::Places::action_given), unfolding(machine::specs::Counts::count_of))]
pub fn count_of(d: &SoundDocument, property: u8, anchor: u8) -> i32
    requires { (anchor < d.now.document.anchors.count)
        × (shows_counts d.now.document (anchor_at d.now.document.anchors anchor).media property ≡ true) }
    ensures { result ≡ count_of d.now.document property anchor }
{
    let l = links::count_link(d, property, anchor);
    let j = links::count_action(d, l, property);
    d.document.actions.values[8 * l + j]
}
