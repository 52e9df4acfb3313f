// Reads a script from standard input and plays it.
#![tactic(auto)]

mod frames;
mod play;
mod print;

use layout::session::Session;
use play::play;
use print::print_layout;
use scenario::Player;
use std::io;
use std::io::Read;

fn main(rt: HostRuntime) -> io::Result<()> {
    let heap = rt.alloc();
    let mut text = Vec::new(heap);
    rt.stdin().read_to_end(&mut text)?;
    let mut session = Session::new(heap, text.as_slice())?;
    let mut player = Player::new(heap)?;
    play(&rt, &mut session, &mut player)?;
    print_layout(&rt, session.layout())
}
