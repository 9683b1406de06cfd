// The conditions on the anchors of a media.
ghost use Rattle.std.specs.Prelude.{◌≡◌, ℕ, ◌<◌};
ghost use Rattle.base.specs.Marks.{Numbered};
ghost use Rattle.machine.specs.Counts.{is_anchor_of, is_count_link_of, has_anchor, apart, apart_from_earlier, disjoint, has_one_link, each_has_one_link};

use machine::Anchors;
use machine::sound::SoundDocument;

// Anchor a is given, and of media m.
#[tactic(auto, unfolding(machine::specs::Counts::is_anchor_of))]
pub fn is_anchor_of(d: &SoundDocument, m: u8, a: usize) -> bool
    ensures { result ≡ is_anchor_of d.now.document.anchors m a }
{
    let anchors = &d.document.anchors;
    a < anchors.count && anchors.media[a] == m
}

pub fn has_anchor(d: &SoundDocument, m: u8) -> bool
    ensures { result ≡ has_anchor d.now.document.anchors m }
{
    (0..d.document.anchors.count).any(|a| is_anchor_of(d, m, a))
}

// One ends at or before the begin of the other.
#[tactic(auto, unfolding(machine::specs::Counts::apart))]
fn is_apart(anchors: &Anchors, a: usize, b: usize) -> bool
    requires { (a < 128) × (b < 128) }
    ensures { result ≡ apart anchors.now a b }
{
    (anchors.ends[a] <= anchors.begins[b]) | (anchors.ends[b] <= anchors.begins[a])
}

#[tactic(auto, unfolding(machine::specs::Counts::apart_from_earlier))]
fn apart_from_earlier(d: &SoundDocument, m: u8, b: usize) -> bool
    requires { b < 128 }
    ensures { result ≡ apart_from_earlier d.now.document.anchors m b }
{
    if !is_anchor_of(d, m, b) {
        return true;
    }
    (0..b).all(|a| !is_anchor_of(d, m, a) || is_apart(&d.document.anchors, a, b))
}

pub fn disjoint(d: &SoundDocument, m: u8) -> bool
    ensures { result ≡ disjoint d.now.document.anchors m }
{
    (0..d.document.anchors.count).all(|b| apart_from_earlier(d, m, b))
}

// Anchor a is not of media m, or has exactly one link that sets the property on its start; with the number of such links, for each anchor.
#[tactic(auto, unfolding(machine::specs::Counts::has_one_link))]
fn has_one_link(d: &SoundDocument, m: u8, linked: &[u8; 256], a: usize) -> bool
    requires { a < 256 }
    ensures { (p : ℕ)
        → Numbered (is_count_link_of d.now.document p) d.now.document.links.count linked.now
        → result ≡ has_one_link d.now.document m p a }
{
    !is_anchor_of(d, m, a) || linked[a] == 1
}

// With the number of links that set the property, for each anchor whose start they are on.
pub fn each_has_one_link(d: &SoundDocument, m: u8, linked: &[u8; 256]) -> bool
    ensures { (p : ℕ)
        → Numbered (is_count_link_of d.now.document p) d.now.document.links.count linked.now
        → result ≡ each_has_one_link d.now.document m p }
{
    (0..d.document.anchors.count).all(|a| has_one_link(d, m, linked, a))
}
