// Tables at their edges: full, ties, the kept station, the last tick of an entry, and groups.
use super::*;
use std::test::Fail;

// What happens to a table, and what it must then say of a station.
#[derive(Clone, Copy)]
enum Step {
    // a station, its port, the tick, and the station that the frame is for
    Hear(u16, u8, u64, u16),
    Forget(u64),
    Known(u16, u8),
    Unknown(u16),
}

use Step::{Forget, Hear, Known, Unknown};

// Stations by short numbers; from 32,768 on their addresses are those of groups.
fn numbered(n: u16) -> Station {
    let [high, low] = n.to_be_bytes();
    Station {
        address: [u8::from(n >= 32768), 0, 0, 0, high, low],
        vlan: 7,
    }
}

fn hear(table: &mut Table, n: u16, port: u8, tick: u64, keep: u16) {
    table.learn(numbered(n), Location::Here(port), tick, numbered(keep));
}

// How many steps went as they must.
fn play(table: &mut Table, steps: &[Step]) -> usize {
    for (i, step) in steps.iter().enumerate() {
        let (n, said) = match *step {
            Hear(n, port, tick, keep) => {
                hear(table, n, port, tick, keep);
                continue;
            }
            Forget(tick) => {
                table.forget(tick);
                continue;
            }
            Known(n, port) => (n, Some(Location::Here(port))),
            Unknown(n) => (n, None),
        };
        if table.lookup(numbered(n)) != said {
            return i;
        }
    }
    steps.len()
}

#[test]
fn stations(rt: HostRuntime) {
    let address = [255, 254, 253, 252, 251, 250];
    let last = Station {
        address,
        vlan: 4095,
    };
    assert_eq!(rt; last.number(), 0xFFF_EFDF_CFBF_AFFF);
    assert!(rt; last.is_group() && !numbered(2).is_group());
    assert!(rt; Station::new(address, 4096).is_none());
}

const LIFETIMES: [Step; 12] = [
    Hear(1, 3, 1000, 2),
    Forget(1299),
    Known(1, 3),
    Forget(1300),
    Unknown(1),
    Hear(1, 3, 1300, 2),
    Hear(1, 9, 1301, 2),
    Forget(1600),
    Known(1, 9),
    Forget(1602),
    Unknown(1),
    Unknown(2),
];

// 9000 to 4905 were heard in tick 5, in that order. 9000 is heard again and 8999 is kept, so 8998 is the first heard of those that may go.
const FULL: [Step; 13] = [
    Known(9000, 1),
    Known(4905, 1),
    Hear(9000, 2, 5, 1),
    Known(8999, 1),
    Hear(1, 4, 5, 8999),
    Unknown(8998),
    Known(8999, 1),
    Hear(2, 4, 6, 1),
    Unknown(8999),
    Known(9000, 2),
    Known(1, 4),
    Hear(40000, 4, 6, 1),
    Unknown(40000),
];

#[test]
fn edges(rt: HostRuntime) -> Result<(), Fail> {
    let mut table = Table::new(rt.alloc())?;
    assert_eq!(rt; play(&mut table, &LIFETIMES), 12);
    for n in 0..4096u16 {
        hear(&mut table, 9000 - n, 1, 5, 1);
    }
    assert_eq!(rt; play(&mut table, &FULL), 13);
    table.clear();
    assert!(rt; table.lookup(numbered(9000)).is_none());
    Ok(())
}
