// Whether events and paths are the same.
ghost use Rattle.std.specs.Prelude.{◌≡◌, ◌==◌, ◌↔◌, IsTrue};
ghost use Rattle.px_program.specs.Paths.{event_eq, kind_number, path_eq, site_eq};

use crate::{Event, Site, SiteKind};

fn kind_number(kind: SiteKind) -> u8
    ensures { result ≡ kind_number kind }
{
    match kind {
        SiteKind::Shape => 0,
        SiteKind::Branch => 1,
        SiteKind::Switch => 2,
        SiteKind::Bounds => 3,
        SiteKind::Zero => 4,
        SiteKind::Overflow => 5,
        SiteKind::Length => 6,
        SiteKind::Index => 7,
        SiteKind::Assume => 8,
        SiteKind::Assert => 9,
    }
}

#[tactic(auto, using(crate::proofs::Apart::kind_from_number))]
fn is_same_kind(a: SiteKind, b: SiteKind) -> bool
    ensures is { result ≡ (kind_number a == kind_number b) }
    ensures same { IsTrue result ↔ (a ≡ b) }
{
    kind_number(a) == kind_number(b)
}

fn is_same_site(a: Site, b: Site) -> bool
    ensures is { result ≡ site_eq a b }
    ensures same { IsTrue result ↔ (a ≡ b) }
{
    a.method == b.method
        && a.offset == b.offset
        && is_same_kind(a.kind, b.kind)
        && a.arity == b.arity
}

impl Event {
    /// Whether two events are one: the same side of the same site.
    pub fn is_same(self, other: Event) -> bool
        ensures is { result ≡ event_eq self other }
        ensures same { IsTrue result ↔ (self ≡ other) }
    {
        is_same_site(self.site, other.site) && self.side == other.side
    }
}

/// Whether two paths are one: the same events in the same order.
pub fn is_same_path(a: &[Event], b: &[Event]) -> bool
    ensures is { result ≡ path_eq a.now b.now }
    ensures same { IsTrue result ↔ (a.now ≡ b.now) }
{
    if a.len() != b.len() {
        return false;
    }
    for (k, event) in a.iter().enumerate() {
        if !event.is_same(b[k]) {
            return false;
        }
    }
    true
}
