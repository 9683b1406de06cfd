// The conditions on the links that set a property.
ghost use Rattle.std.specs.Prelude.{◌≡◌, ◌&&◌, ◌<◌};
ghost use Rattle.base.specs.Tests.{◌=?◌, ◌<?◌};
ghost use Rattle.base.specs.Marks.{Numbered};
ghost use Rattle.machine.specs.Terms.{starts, of_anchor};
ghost use Rattle.machine.specs.Tables.{link_at};
ghost use Rattle.machine.specs.Counts.{sets_in, times_set, is_count_link_of, each_sets_once, each_unguarded, no_other, each_outside_switches, count_link, count_action};

use crate::anchors::is_anchor_of;
use choices::path_chosen;
use machine::sound::SoundDocument;
use machine::{Document, Links, terms};

// What one sweep over the links finds: for each anchor how many links on its start set the property, and whether the conditions on links hold.
// Filled in one sweep, so one struct and no Result: later conditions are found beside earlier ones that fail.
#[derive(Drop)]
pub struct Findings {
    pub linked: [u8; 256],
    pub each_sets_once: bool,
    pub each_unguarded: bool,
    pub no_other: bool,
    pub each_outside_switches: bool,
}

// Action j of a link sets the property.
#[tactic(auto, unfolding(machine::specs::Counts::sets_in))]
fn sets(d: &Document, link: usize, j: usize, property: u8) -> bool
    requires { (link < 64) × (j < 8) }
    ensures { result ≡ sets_in d.now property link j }
{
    let at = 8 * link + j;
    (d.actions.actions[at] == terms::TO_SET) & (d.actions.targets[at] == property)
}

// How many actions of a link set the property.
#[tactic(auto, using(base::specs::Tests::when_tells), unfolding(base::specs::Loops::passing, machine::specs::Counts::times_set))]
fn times_set(d: &SoundDocument, link: usize, property: u8) -> u8
    requires { link < d.now.document.links.count }
    ensures { result ≡ times_set d.now.document property link }
{
    let mut times = 0;
    for j in 0..usize::from(d.document.links.action_counts[link]) {
        times += u8::from(sets(&d.document, link, j, property));
    }
    times
}

// A link that sets the property so many times is on the start of an anchor and sets it.
fn is_count_link(links: &Links, link: usize, times: u8) -> bool
    requires { link < 64 }
    ensures { result ≡ (link_at links.now link).class =? of_anchor && (link_at links.now link).transition =? starts && 0 <? times }
{
    (links.classes[link] == terms::OF_ANCHOR)
        & (links.transitions[link] == terms::STARTS)
        & (0 < times)
}

#[tactic(auto, unfolding(machine::specs::Counts::each_sets_once, machine::specs::Counts::each_unguarded, machine::specs::Counts::no_other, machine::specs::Counts::each_outside_switches))]
pub fn sweep(d: &SoundDocument, m: u8, property: u8) -> Findings
    ensures { Numbered (is_count_link_of d.now.document property) d.now.document.links.count result.linked
        × (result.each_sets_once ≡ each_sets_once d.now.document m property)
        × (result.each_unguarded ≡ each_unguarded d.now.document m property)
        × (result.no_other ≡ no_other d.now.document m property)
        × (result.each_outside_switches ≡ each_outside_switches d.now.document m property) }
{
    let document = &d.document;
    // where no switch has chosen, a path is chosen exactly if no switch lies above
    let none_chosen = [0; 64];
    let mut found = Findings {
        linked: [0; 256],
        each_sets_once: true,
        each_unguarded: true,
        no_other: true,
        each_outside_switches: true,
    };
    for l in 0..document.links.count {
        let times = times_set(d, l, property);
        let sets_count = is_count_link(&document.links, l, times);
        let a = usize::from(document.links.subjects[l]);
        found.linked[a] += u8::from(sets_count);
        let own = is_anchor_of(d, m, a) & sets_count;
        found.each_sets_once &= !own | (times == 1);
        found.each_unguarded &= !own | (document.links.guards[l] == terms::NO_ID);
        found.no_other &= (times == 0) | own;
        let outside = path_chosen(
            &document.nodes,
            &none_chosen,
            usize::from(document.links.owners[l]),
        );
        found.each_outside_switches &= !own | outside;
    }
    found
}

// ---- the count of an anchor: the first link that sets it, and its first action that does; the number past them where there is none, as the
// definition's search gives: loops, since the Option of `position` would be unwrapped at once; a count is asked only where both are there

#[tactic(auto, unfolding(machine::specs::Counts::is_count_link_of, machine::specs::Counts::is_count_link))]
fn is_count_link_of(d: &SoundDocument, property: u8, anchor: u8, link: usize) -> bool
    requires { link < d.now.document.links.count }
    ensures { result ≡ is_count_link_of d.now.document property anchor link }
{
    let links = &d.document.links;
    links.subjects[link] == anchor && is_count_link(links, link, times_set(d, link, property))
}

#[tactic(auto, unfolding(machine::specs::Counts::count_link))]
pub fn count_link(d: &SoundDocument, property: u8, anchor: u8) -> usize
    ensures { result ≡ count_link d.now.document property anchor }
{
    for l in 0..d.document.links.count {
        if is_count_link_of(d, property, anchor, l) {
            return l;
        }
    }
    d.document.links.count
}

#[tactic(auto, unfolding(machine::specs::Counts::count_action))]
pub fn count_action(d: &SoundDocument, link: usize, property: u8) -> usize
    requires { link < d.now.document.links.count }
    ensures { result ≡ count_action d.now.document property link }
{
    let count = usize::from(d.document.links.action_counts[link]);
    for j in 0..count {
        if sets(&d.document, link, j, property) {
            return j;
        }
    }
    count
}
