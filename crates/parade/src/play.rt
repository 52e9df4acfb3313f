// Plays the commands of a script, one after the other.
use crate::frames::send;
use layout::net::Layout;
use layout::session::Session;
use scenario::{Player, Refusal};
use script::lines::Command;
use std::io;

/// Asks whether the net rests, and prints the answer.
fn rest(rt: &HostRuntime, layout: &Layout, player: &Player) -> io::Result<()> {
    match player.rest(&layout.wiring()) {
        Some(tree) => {
            let seq = tree.id().seq();
            let announcer = tree.id().announcer();
            println!(rt; "rests along tree {seq} of {announcer}")
        }
        None => println!(rt; "does not rest"),
    }
}

/// Prints why a tree was not announced or adopted, if it was not.
fn print_refused(
    rt: &HostRuntime,
    line: u64,
    step: &str,
    seq: u32,
    refused: Option<Refusal>,
) -> io::Result<()> {
    match refused {
        Some(refusal) => println!(rt; "line {line}: {step} {seq}: fault {refusal}"),
        None => Ok(()),
    }
}

/// Plays a command that the net has taken.
fn play_command(
    rt: &HostRuntime,
    layout: &Layout,
    player: &mut Player,
    command: Command<'_>,
    line: u64,
    frames: &mut u64,
) -> io::Result<()> {
    let wiring = layout.wiring();
    player.prepare(rt.alloc(), &wiring)?;
    // Stays: a match on the kinds of commands.
    match command {
        Command::Access { port, .. } => player.renew(port.node),
        Command::Start { node } => player.renew(node),
        Command::Fall { node } => player.fall(node),
        Command::Tick { ticks } => player.tick(ticks),
        Command::Lose { port, packets } => player.lose(port, packets),
        Command::Tree { seq, node, parents } => {
            let refused = player.announce(&wiring, seq, node, &parents).err();
            print_refused(rt, line, "tree", seq, refused)?;
        }
        Command::Adopt { node, seq } => {
            let refused = player.adopt(&wiring, node, seq).err();
            print_refused(rt, line, "adopt", seq, refused)?;
        }
        Command::Send { from, to, .. } => {
            *frames = frames.saturating_add(1);
            send(rt, layout, player, from, to, *frames)?;
        }
        Command::Rest => rest(rt, layout, player)?,
        Command::Blank
        | Command::Bridge { .. }
        | Command::Cable { .. }
        | Command::Pull { .. }
        | Command::Station { .. }
        | Command::Move { .. } => {}
    }
    Ok(())
}

/// Plays a script to its end or its first fault.
pub fn play(rt: &HostRuntime, session: &mut Session<'_>, player: &mut Player) -> io::Result<()> {
    let mut frames = 0;
    while let Some(read) = session.next() {
        match read {
            Ok(command) => {
                let line = session.line();
                play_command(rt, session.layout(), player, command, line, &mut frames)?;
            }
            Err(fault) => println!(rt; "{fault}")?,
        }
    }
    Ok(())
}
