// Sends a frame, and prints where it came and who got it.
ghost use Rattle.std.specs.Prelude.{◌≡◌, ◌≢◌, ◌⊎◌, ◌↔◌, IsTrue};
ghost use Rattle.std.specs.List.{list_any};
ghost use Rattle.scenario.specs.Travel.{went_by};

use layout::net::Layout;
use layout::stations::Station;
use scenario::{Player, Step, heard_at};
use script::lines::Target;
use std::io;
use std::str::from_utf8;

/// The address of all stations.
const ALL: [u8; 6] = [255; 6];

/// The station with a name.
fn station_named(layout: &Layout, name: &[u8]) -> Option<Station> {
    let stations = layout.roster().stations();
    stations
        .iter()
        .find(|station| station.name.text() == name)
        .copied()
}

/// The address to which a frame goes.
fn address_of(layout: &Layout, to: Target<'_>) -> Option<[u8; 6]> {
    match to {
        Target::All => Some(ALL),
        Target::Station(name) => station_named(layout, name).map(|station| station.address),
    }
}

/// To whom a frame goes, as it is printed.
fn target_name<'a>(to: Target<'a>) -> &'a str {
    match to {
        Target::All => "all",
        Target::Station(name) => from_utf8(name).unwrap_or("?"),
    }
}

/// Prints the boxes to which copies came, and where they were dropped.
fn print_steps(rt: &HostRuntime, steps: &[Step]) -> io::Result<()> {
    print!(rt; " at")?;
    if steps.is_empty() {
        print!(rt; " no box")?;
    }
    for step in steps {
        let node = step.node;
        if step.outcome.is_ok() {
            print!(rt; " {node}")?;
        }
    }
    for step in steps {
        let node = step.node;
        if let Err(fault) = step.outcome {
            print!(rt; ", dropped at {node} with {fault}")?;
        }
    }
    Ok(())
}

/// Says whether a station gets a frame: it is for the station or for all, and went out by the station's port.
fn gets(steps: &[Step], station: &Station, from: &Station, to: [u8; 6]) -> bool
    ensures { IsTrue result ↔ ((station.now.address ≢ from.now.address) × ((to ≡ ALL) ⊎ (to ≡ station.now.address)) × IsTrue (list_any (went_by station.now.port) steps.now)) }
{
    station.address != from.address
        && (to == ALL || to == station.address)
        && heard_at(steps, station.port)
}

/// Prints the stations that get a frame.
fn print_audience(
    rt: &HostRuntime,
    layout: &Layout,
    steps: &[Step],
    from: &Station,
    to: [u8; 6],
) -> io::Result<()> {
    print!(rt; ", got by")?;
    let stations = layout.roster().stations();
    let mut audience = stations
        .iter()
        .filter(|station| gets(steps, station, from, to))
        .peekable();
    if audience.peek().is_none() {
        print!(rt; " nobody")?;
    }
    for station in audience {
        let name = station.name;
        print!(rt; " {name}")?;
    }
    println!(rt; "")
}

/// A station sends a frame: plays it and prints what became of it.
pub fn send(
    rt: &HostRuntime,
    layout: &Layout,
    player: &mut Player,
    from: &[u8],
    to: Target<'_>,
    frame: u64,
) -> io::Result<()> {
    // Stays: where a name stands for no station nothing is sent or printed, and that is no fault.
    let (Some(sender), Some(address)) = (station_named(layout, from), address_of(layout, to)) else {
        return Ok(());
    };
    let sender_name = sender.name;
    let name = target_name(to);
    print!(rt; "frame {frame}: {sender_name} to {name}:")?;
    let own = sender.address;
    match player.send(rt.alloc(), &layout.wiring(), sender.port, own, address)? {
        Ok(steps) => {
            print_steps(rt, steps.as_slice())?;
            print_audience(rt, layout, steps.as_slice(), &sender, address)
        }
        Err(fault) => println!(rt; " fault {fault}"),
    }
}
