ghost use Rattle.std.specs.Prelude.{◌≡◌, ◌<◌};

use crate::graphs::{RECTANGULAR, graph, grid};
use kmc_base::{SiteId, SpeciesId};
use lattice_core::{Bare, Config, Overlay, State, States, Steps, Window};
use std::alloc::Global;
use std::marker::Brand;
use std::process::Abort;
use std::sync::ledger::{Blank, Ledger};
use std::test::Fail;

/// A dentate of an adsorbate.
fn holds(species: u16, dentate: u8, home: u32) -> State {
    State::Holds {
        species: SpeciesId(species),
        dentate,
        home: SiteId(home),
    }
}

/// The state that is shown of a site.
fn shown<W: States>(shows: &W, s: SiteId) -> State
    requires { W.covers shows.now s.0 }
    ensures { result ≡ W.shown shows.now s.0 }
{
    shows.state(s)
}

/// An adsorbate of two dentates is put on four sites and taken off again.
fn put_and_take<L: Ledger>(rt: &impl Abort, alloc: Global, blank: Blank) -> Result<(), Fail>
    requires name { blank.name ≡ L.name }
    requires parts { blank.parts ≡ L.parts }
    requires has_a_part { 0 < L.parts }
{
    let mut steps = Steps::<L>::new(blank);
    let mut config = Config::vacant(alloc, 4)?;
    let sites = [SiteId(2), SiteId(0)];
    config.set(SpeciesId(3), &sites);
    let copy = config.copy(alloc)?;
    assert_eq!(rt; copy.classes(&mut steps), [26u32, 0, 25, 0].as_slice());
    assert_eq!(rt; copy.at(SiteId(0), &mut steps), holds(3, 2, 2));
    assert_eq!(rt; copy.at(SiteId(1), &mut steps), State::Vacant);
    assert_eq!(rt; copy.at(SiteId(2), &mut steps), holds(3, 1, 2));
    config.clear(&sites);
    assert_eq!(rt; config.classes(&mut steps), [0u32; 4].as_slice());
    Ok(())
}

#[test]
fn configurations(rt: HostRuntime) -> Result<(), Fail> {
    put_and_take::<Brand>(&rt, rt.alloc(), Blank::new(1))
}

/// A window shows what was there when it was loaded.
fn loaded_window<L: Ledger>(rt: &impl Abort, alloc: Global, blank: Blank) -> Result<(), Fail>
    requires name { blank.name ≡ L.name }
    requires parts { blank.parts ≡ L.parts }
    requires has_a_part { 0 < L.parts }
{
    let mut steps = Steps::<L>::new(blank);
    let lists = grid(alloc, 2, 2, RECTANGULAR)?;
    let made = graph(rt, alloc, lists)?;
    let lattice = made.ok().ok_or("a fault")?;
    assert_eq!(rt; lattice.len(), 4);
    let mut config = Config::vacant(alloc, 4)?;
    let sites = [SiteId(0)];
    config.set(SpeciesId(3), &sites);
    let mut window = Window::new(alloc);
    window.load(alloc, &lattice, &config, SiteId(0), 1, &mut steps)?;
    config.clear(&sites);
    assert_eq!(rt; shown(&window, SiteId(0)), holds(3, 1, 0));
    Ok(())
}

#[test]
fn windows(rt: HostRuntime) -> Result<(), Fail> {
    loaded_window::<Brand>(&rt, rt.alloc(), Blank::new(1))
}

/// Two dentates of an adsorbate, and an adsorbate of another species.
const FIRST: State = State::Holds {
    species: SpeciesId(0),
    dentate: 1,
    home: SiteId(1),
};

const SECOND: State = State::Holds {
    species: SpeciesId(0),
    dentate: 2,
    home: SiteId(1),
};

const OTHER: State = State::Holds {
    species: SpeciesId(1),
    dentate: 1,
    home: SiteId(4),
};

/// Sites, and the state that the overlay shows of each.
const SHOWN: &[(u32, State)] = &[
    (1, FIRST),
    (4, OTHER),
    (5, State::Vacant),
    (6, State::Vacant),
];

#[test]
fn bare_lattices_and_overlays(rt: HostRuntime) {
    let bare = Bare::of(&[(SiteId(1), FIRST), (SiteId(5), SECOND)]);
    assert_eq!(rt; shown(&bare, SiteId(5)), SECOND);
    assert_eq!(rt; shown(&bare, SiteId(4)), State::Vacant);
    let overlay = Overlay::over(&bare, &[(SiteId(5), State::Vacant), (SiteId(4), OTHER)]);
    for (site, state) in SHOWN {
        assert_eq!(rt; shown(&overlay, SiteId(*site)), *state, "site {site}");
    }
}
