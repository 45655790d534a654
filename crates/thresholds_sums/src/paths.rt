// One "works" path of the walk: what each threshold under way gains from it.
ghost use Rattle.std.specs.Prelude.{◌≡◌, ◌-◌, ◌*◌, ◌^◌, ◌≤◌, ◌<◌, length, get_or};
ghost use Rattle.mass.specs.Split.{certain};
ghost use Rattle.sets.specs.Sets.{joined};
ghost use Rattle.plan.specs.Lists.{events_of};
ghost use Rattle.plan.specs.Held.{Held, Falling};
ghost use Rattle.network.specs.Table.{LinksAt};
ghost use Rattle.pairs.specs.Pairs.{pair_count};
ghost use Rattle.thresholds_walk.specs.Paths.{shared_walk, SoundPath};
ghost use Rattle.thresholds_sums.specs.Walked.{plans_of, examined_by, FallingFirst, PathFits, WantedBlocks, Places, CountsFit};
ghost use Rattle.thresholds_sums.specs.Walked.{PathAdded, PathCounted};

use crate::PlaceNumbers;
use network::Failed;
use plan::Header;
use thresholds_walk::{WorksPath, ends_of};
use walk::Failing;

// 1 where a path's scenario, with its mass, is examined by the walk with a threshold of which so much room is left, else 0.
fn examined_by(threshold: u64, room: u64, last: u64) -> u64
    ensures { result ≡ examined_by threshold room last }
{
    u64::from(threshold <= last && 2 <= room)
}

// Counts a path for each of the first `active` thresholds: its ends come off the rooms, and its scenario is counted where it is examined.
pub fn count_path(
    events: u64,
    words: &[u64; 512],
    list: &[u64; 16],
    active: usize,
    path: WorksPath,
    places: &mut PlaceNumbers,
)
    requires events_bound { (events ≤ 128) × Falling certain (events_of events words.now) }
    requires falling_first { FallingFirst active list.now × (1 ≤ active) }
    requires sound_path { SoundPath (shared_walk events (get_or list.now (active - 1) 0) words.now) path }
    requires places { Places places.old × CountsFit active path list.now places.old }
    ensures { PathCounted (shared_walk events (get_or list.now (active - 1) 0) words.now) list.now active path
        places.old places.new }
{
    let lowest = list[active - 1];
    // The path is counted for the first i thresholds, and not for the others.
    for i in 0..active {
        let ends = ends_of(events, lowest, list[i], words, path);
        let one = examined_by(list[i], places.rooms[i], path.last);
        places.counts[i] += one;
        places.masses[i] += path.last * one;
        places.rooms[i] = places.rooms[i].saturating_sub(ends);
    }
}

// The set of the blocks, among the first `active`, whose thresholds examine a path's scenario, with the mass `last`.
fn wanted_blocks(list: &[u64; 16], active: usize, rooms: &[u64; 16], last: u64) -> u64
    requires { active ≤ 16 }
    ensures { WantedBlocks list.now rooms.now active last result }
{
    let mut blocks = 0;
    // The set holds those of the first i blocks that are wanted.
    for i in 0..active {
        let wanted = examined_by(list[i], rooms[i], last);
        blocks = sets::union(blocks, sets::only(wanted, i));
    }
    blocks
}

// Adds the mass of a path's scenario to the blocks of the first `active` thresholds that examine it. Its topology is worked out once, and
// not at all where none does.
pub fn add_path(
    h: Header,
    links: &[u8; 256],
    words: &[u64; 512],
    table: &[u64; 128],
    list: &[u64; 16],
    active: usize,
    path: WorksPath,
    rooms: &[u64; 16],
    lower: &mut [u64],
)
    requires held { Held h links.now words.now }
    requires links_at { LinksAt links.now h.links table.now }
    requires falling_first { FallingFirst active list.now × (1 ≤ active) × (joined path.low path.high < 2 ^ h.events) }
    requires active_in_bounds { pair_count h.nodes * active ≤ length lower.old }
    requires path_fits { PathFits h active path list.now rooms.now lower.old }
    ensures { PathAdded (plans_of h links.now words.now list.now) active path
        rooms.now lower.old lower.new }
{
    let blocks = wanted_blocks(list, active, rooms, path.last);
    if blocks == 0 {
        return;
    }
    bounds::examine(
        h,
        links,
        words,
        table,
        Failed::NONE,
        Failing {
            low: path.low,
            high: path.high,
        },
        lower,
        blocks,
        path.last,
    );
}
