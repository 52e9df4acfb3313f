// Three bridges in a ring.
use forwarding::{Arrival, Bridge, Fault};
use ports::{Link, Port, Vlan};
use sets::BridgeId;
use std::alloc::Global;
use std::array;
use std::test::Fail;
use trees::{Tree, TreeFault, TreeId};

const TILL: [u8; 6] = [2, 0, 0, 0, 0, 1];

const LAMP: [u8; 6] = [2, 0, 0, 0, 0, 2];

const ALL: [u8; 6] = [255; 6];

fn id(b: u8) -> Result<BridgeId, Fail> {
    BridgeId::new(b).ok_or_else(|| Fail::new("no such bridge"))
}

fn vlan(v: u16) -> Result<Vlan, Fail> {
    Vlan::new(v).ok_or_else(|| Fail::new("no such vlan"))
}

// The number of a tree.
fn number(seq: u32, announcer: u8) -> Result<TreeId, Fail> {
    TreeId::new(seq, id(announcer)?, 7).ok_or_else(|| Fail::new("no such number"))
}

fn trunk(neighbour: u8) -> Result<Port, Fail> {
    Ok(Port::Trunk(Link {
        neighbour: id(neighbour)?,
        up: true,
    }))
}

// A bridge of the ring without a tree: ports 0 and 1 lead to two others, port 2 to tills and lamps, port 3 to guests.
fn bare(heap: Global, b: u8, next: u8, last: u8) -> Result<Bridge, Fail> {
    let mut ports = [Port::Unused; 16];
    ports[0] = trunk(next)?;
    ports[1] = trunk(last)?;
    ports[2] = Port::Access(vlan(10)?);
    ports[3] = Port::Access(vlan(20)?);
    Bridge::new(heap, id(b)?, ports).map_err(|_| Fail::new("no memory"))
}

// What a tree over the ring would be, by the parents of 0, 1 and 2; who isn't at the top is one deep.
fn made(id: TreeId, above: [u8; 3]) -> Result<Tree, TreeFault> {
    let mut parent = array::from_fn(|b| b as u8);
    parent[..3].copy_from_slice(&above);
    let mut depth = [0u8; 128];
    for (b, above) in above.iter().enumerate() {
        depth[b] = u8::from(usize::from(*above) != b);
    }
    Tree::new(id, parent, depth)
}

fn tree(seq: u32, announcer: u8, above: [u8; 3]) -> Result<Tree, Fail> {
    made(number(seq, announcer)?, above).map_err(|_| Fail::new("not a tree"))
}

// A bridge of the ring that holds the tree of 0, with 1 and 2 below it.
fn ring(heap: Global, b: u8, next: u8, last: u8) -> Result<Bridge, Fail> {
    Ok(bare(heap, b, next, last)?.adopt(tree(1, 0, [0, 0, 0])?))
}

// A frame of the tills' VLAN along a tree.
fn frame(by: u8, to_bridge: u8, tree: TreeId, from: [u8; 6], to: [u8; 6]) -> Result<Arrival, Fail> {
    Ok(Arrival {
        by: id(by)?,
        to_bridge: id(to_bridge)?,
        tree,
        vlan: vlan(10)?,
        from,
        to,
    })
}

// The ports of an answer as bits, port 0 the lowest; a refusal is its number in the thousands.
fn bits(answer: Result<[bool; 16], Fault>) -> u32 {
    match answer {
        Ok(out) => {
            let mut bits = 0u32;
            for (i, goes) in out.iter().enumerate() {
                if *goes {
                    bits |= 1 << i;
                }
            }
            bits
        }
        Err(fault) => 100_000 * u32::from(fault.number()),
    }
}

#[test]
fn a_to_nobody_known_along_the_tree(rt: HostRuntime) -> Result<(), Fail> {
    let t = number(1, 0)?;
    // on to 0 alone, and not by the link between 1 and 2, nor to guests
    let (_, out) = ring(rt.alloc(), 1, 2, 0)?.from_station(2, TILL, LAMP, 0);
    assert_eq!(rt; bits(out), 0b0010);
    let (_, out) = ring(rt.alloc(), 0, 1, 2)?.from_neighbour(frame(1, 0, t, TILL, LAMP)?, 0);
    assert_eq!(rt; bits(out), 0b0110);
    let (_, out) = ring(rt.alloc(), 2, 0, 1)?.from_neighbour(frame(0, 2, t, TILL, LAMP)?, 0);
    assert_eq!(rt; bits(out), 0b0100);
    Ok(())
}

#[test]
fn b_a_reply_goes_to_nobody_else(rt: HostRuntime) -> Result<(), Fail> {
    let t = number(1, 0)?;
    let (two, _) = ring(rt.alloc(), 2, 0, 1)?.from_neighbour(frame(0, 2, t, TILL, LAMP)?, 0);
    let (_, out) = two.from_station(2, LAMP, TILL, 1);
    assert_eq!(rt; bits(out), 0b0001);
    let (zero, _) = ring(rt.alloc(), 0, 1, 2)?.from_neighbour(frame(1, 0, t, TILL, LAMP)?, 0);
    let (_, out) = zero.from_neighbour(frame(2, 0, t, LAMP, TILL)?, 1);
    assert_eq!(rt; bits(out), 0b0001);
    let (one, _) = ring(rt.alloc(), 1, 2, 0)?.from_station(2, TILL, LAMP, 0);
    let (_, out) = one.from_neighbour(frame(0, 1, t, LAMP, TILL)?, 1);
    assert_eq!(rt; bits(out), 0b0100);
    Ok(())
}

#[test]
fn c_the_root_falls_and_another_tree_is_used(rt: HostRuntime) -> Result<(), Fail> {
    let zero = ring(rt.alloc(), 0, 1, 2)?.crash();
    let (_, out) = zero.from_neighbour(frame(1, 0, number(1, 0)?, TILL, LAMP)?, 0);
    assert_eq!(rt; bits(out), 300_000);
    let one = ring(rt.alloc(), 1, 2, 0)?.adopt(tree(2, 1, [0, 1, 1])?);
    let (_, out) = one.from_station(2, TILL, LAMP, 1);
    assert_eq!(rt; bits(out), 0b0001);
    Ok(())
}

#[test]
fn d_a_tree_that_is_not_held(rt: HostRuntime) -> Result<(), Fail> {
    let two = ring(rt.alloc(), 2, 0, 1)?;
    let (two, out) = two.from_neighbour(frame(1, 2, number(2, 1)?, TILL, LAMP)?, 1);
    assert_eq!(rt; bits(out), 400_000);
    let (_, out) = two.from_neighbour(frame(1, 0, number(1, 0)?, TILL, LAMP)?, 1);
    assert_eq!(rt; bits(out), 400_000);
    Ok(())
}

#[test]
fn e_a_station_moves(rt: HostRuntime) -> Result<(), Fail> {
    let t = number(1, 0)?;
    let (zero, _) = ring(rt.alloc(), 0, 1, 2)?.from_neighbour(frame(1, 0, t, TILL, ALL)?, 0);
    // towards 1, until one of its frames came by 2
    let (zero, out) = zero.from_station(2, LAMP, TILL, 1);
    assert_eq!(rt; bits(out), 0b0001);
    let (zero, _) = zero.from_neighbour(frame(2, 0, t, TILL, ALL)?, 2);
    let (zero, out) = zero.age(301).from_station(2, LAMP, TILL, 301);
    assert_eq!(rt; bits(out), 0b0010);
    // or it is forgotten: then to all
    let (_, out) = zero.age(302).from_station(2, LAMP, TILL, 302);
    assert_eq!(rt; bits(out), 0b0011);
    Ok(())
}

#[test]
fn f_what_is_no_tree(rt: HostRuntime) -> Result<(), Fail> {
    let Err(fault) = made(number(1, 0)?, [0, 2, 1]) else {
        return Err(Fail::new("a ring was taken for a tree"));
    };
    assert_eq!(rt; fault, TreeFault::NotATree);
    Ok(())
}

#[test]
fn g_guests_get_nothing_of_tills(rt: HostRuntime) -> Result<(), Fail> {
    let (zero, out) = ring(rt.alloc(), 0, 1, 2)?.from_station(2, TILL, ALL, 0);
    assert_eq!(rt; bits(out), 0b0011);
    let (_, out) = zero.from_station(3, TILL, ALL, 0);
    assert_eq!(rt; bits(out), 0b0011);
    Ok(())
}

#[test]
fn refusals(rt: HostRuntime) -> Result<(), Fail> {
    let (zero, out) = bare(rt.alloc(), 0, 1, 2)?.from_station(2, TILL, LAMP, 0);
    assert_eq!(rt; bits(out), 300_000);
    let (zero, out) = zero.from_station(0, TILL, LAMP, 0);
    assert_eq!(rt; bits(out), 300_000);
    let (zero, out) = zero.from_station(16, TILL, LAMP, 0);
    assert_eq!(rt; bits(out), 200_000);
    let (_, out) = zero.from_station(2, [1, 0, 0, 0, 0, 1], LAMP, 0);
    assert_eq!(rt; bits(out), 100_000);
    Ok(())
}

#[test]
fn of_two_links_the_lowest_that_is_up(rt: HostRuntime) -> Result<(), Fail> {
    let zero = ring(rt.alloc(), 0, 1, 2)?;
    let (zero, _) = zero.set_link(
        5,
        Some(Link {
            neighbour: id(1)?,
            up: true,
        }),
    );
    let (zero, out) = zero.from_station(2, TILL, ALL, 0);
    assert_eq!(rt; bits(out), 0b0011);
    let (zero, _) = zero.set_link(
        0,
        Some(Link {
            neighbour: id(1)?,
            up: false,
        }),
    );
    let (zero, out) = zero.from_station(2, TILL, ALL, 0);
    assert_eq!(rt; bits(out), 0b10_0010);
    let (_, answer) = zero.set_link(2, None);
    assert_eq!(rt; answer, Err(Fault::NotATrunk));
    Ok(())
}
