//! Making the links of one source.
ghost use Rattle.std.specs.Prelude.{◌≡◌, ◌<◌, ◌≤◌, length, map, All, IfOk, OnOk};
ghost use Rattle.cell_links.specs.Making.{AllNew, Connects, ConnectsOne, IsNewOut, TargetsApart};

use crate::ends::{Inward, Outward};
use join_base::{Items, NoMemory, Source};
use post_ring::link;
use std::alloc::Global;

// A link to a target: the end that messages go into is handed back.
fn link_to(
    alloc: Global,
    source: Source,
    target: u32,
    ring: u32,
    inwards: &mut Vec<Items<Inward>>,
) -> Result<Outward, NoMemory>
    requires exists { target < length inwards.old.items }
    requires ring { (1 ≤ ring) × (ring ≤ 4096) }
    ensures target { IfOk result (λ w. w.target ≡ target) }
    ensures sends { IfOk result (IsNewOut ring) }
    ensures count { length inwards.new.items ≡ length inwards.old.items }
    ensures linked { IfOk result (λ w. ConnectsOne source w inwards.old.items inwards.new.items) }
    ensures fresh { OnOk result (AllNew inwards.old.items → AllNew inwards.new.items) }
{
    let (first, second) = link(alloc, ring)?;
    let inward = &mut inwards[target as usize];
    inward.push(Inward {
        source,
        link: second,
    })?;
    Ok(Outward {
        target,
        link: first,
    })
}

/// The links from a source to its targets.
pub fn connect_source(
    alloc: Global,
    source: Source,
    targets: &[u32],
    ring: u32,
    inwards: &mut Vec<Items<Inward>>,
) -> Result<Vec<Outward>, NoMemory>
    requires exist { All (λ t. t < length inwards.old.items) targets.now }
    requires apart { TargetsApart targets.now }
    requires ring { (1 ≤ ring) × (ring ≤ 4096) }
    ensures targets { IfOk result (λ outward. map (λ w. w.target) outward.items ≡ targets.now) }
    ensures sends { IfOk result (λ outward. All (IsNewOut ring) outward.items) }
    ensures count { length inwards.new.items ≡ length inwards.old.items }
    ensures linked { IfOk result (λ outward. Connects source outward.items inwards.old.items inwards.new.items) }
    ensures fresh { OnOk result (AllNew inwards.old.items → AllNew inwards.new.items) }
{
    let mut outward = Vec::new(alloc);
    for i in 0..targets.len() {
        let one = link_to(alloc, source, targets[i], ring, inwards)?;
        outward.push(one)?;
    }
    Ok(outward)
}
