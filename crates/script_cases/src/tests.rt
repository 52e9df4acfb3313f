// Each kind of fault, with its line.
use layout::session::{FAULT, Session};
use scan::reader::Words;
use script::faults::Expected;
use std::alloc::Global;
use std::process::Abort;
use std::test::Fail;

/// Reads a script to its first fault, and says whether it is the one that is expected; line 0 stands for none.
fn faults_at(
    rt: &impl Abort,
    heap: Global,
    text: &[u8],
    line: u64,
    expected: Expected,
) -> Result<(), Fail> {
    let mut session = Session::new(heap, text)?;
    let mut seen = 0;
    while let Some(read) = session.next() {
        if let Err(fault) = read {
            assert_eq!(rt; fault.expected, expected);
            seen = fault.line;
        }
    }
    assert_eq!(rt; seen, line);
    Ok(())
}

#[test]
fn words_of_a_line(rt: HostRuntime) -> Result<(), Fail> {
    let mut words = Words::new(b"  send \tall  good  day ");
    words.skip();
    assert_eq!(rt; words.rest(), b"send \tall  good  day ".as_slice());
    assert_eq!(rt; words.next(), Some(b"send".as_slice()));
    assert_eq!(rt; words.next(), Some(b"all".as_slice()));
    assert_eq!(rt; words.rest(), b"  good  day ".as_slice());
    words.skip();
    assert_eq!(rt; words.rest(), b"good  day ".as_slice());
    assert_eq!(rt; words.next(), Some(b"good".as_slice()));
    assert_eq!(rt; words.next(), Some(b"day".as_slice()));
    assert_eq!(rt; words.next(), None);
    Ok(())
}

#[test]
fn words_and_numbers(rt: HostRuntime) -> Result<(), Fail> {
    let heap = rt.alloc();
    assert_eq!(rt; FAULT, 10);
    faults_at(&rt, heap, b"# fine\n\nbridge 0 4\n", 0, Expected::Text)?;
    faults_at(
        &rt,
        heap,
        b"# fine\n\nbridge 0 4\nbrigde 1 4\n",
        4,
        Expected::Command,
    )?;
    faults_at(&rt, heap, b"bridge 0", 1, Expected::PortCount)?;
    faults_at(&rt, heap, b"bridge 0 4 7", 1, Expected::End)?;
    faults_at(&rt, heap, b"bridge 6 4", 1, Expected::BoxNumber)?;
    faults_at(&rt, heap, b"bridge 0 17", 1, Expected::PortCount)?;
    faults_at(&rt, heap, b"bridge 0 4 as 128", 1, Expected::BridgeNumber)?;
    faults_at(
        &rt,
        heap,
        b"tick 100000\r\ntick 100001\r\n",
        2,
        Expected::Ticks,
    )?;
    faults_at(&rt, heap, b"tick 4294967297", 1, Expected::Ticks)?;
    faults_at(&rt, heap, b"rest\nrest now", 2, Expected::End)?;
    faults_at(
        &rt,
        heap,
        b"bridge 1 2\ntree 1 1 01\ntree 1001 1 01",
        3,
        Expected::Sequence,
    )?;
    faults_at(&rt, heap, b"bridge 1 2\ntree 1 0 01", 2, Expected::BoxThere)?;
    faults_at(&rt, heap, b"tree 1 0 0600", 1, Expected::Parents)?;
    faults_at(&rt, heap, b"tree 1 0 0123450", 1, Expected::Parents)?;
    faults_at(
        &rt,
        heap,
        b"bridge 1 2\nadopt 1 1\nadopt 2 1",
        3,
        Expected::BoxThere,
    )?;
    faults_at(&rt, heap, b"tick 1 # caf\xc3\xa9", 1, Expected::Text)?;
    faults_at(&rt, heap, b"tick 1\ntick \x00", 2, Expected::Text)
}

#[test]
fn ports_and_cables(rt: HostRuntime) -> Result<(), Fail> {
    let heap = rt.alloc();
    faults_at(&rt, heap, b"access 0.0 10", 1, Expected::PortThere)?;
    faults_at(
        &rt,
        heap,
        b"bridge 0 2\naccess 0.2 10",
        2,
        Expected::PortThere,
    )?;
    faults_at(&rt, heap, b"bridge 0 2\naccess 0.1 4095", 2, Expected::Vlan)?;
    faults_at(
        &rt,
        heap,
        b"bridge 0 2\naccess 0-1 10",
        2,
        Expected::PortName,
    )?;
    faults_at(&rt, heap, b"bridge 0 2\nbridge 0 2", 2, Expected::NewBox)?;
    faults_at(
        &rt,
        heap,
        b"bridge 0 2\ncable 0.0 0.0",
        2,
        Expected::FreePort,
    )?;
    faults_at(
        &rt,
        heap,
        b"bridge 0 2\ncable 0.0 0.1\naccess 0.1 10",
        3,
        Expected::FreePort,
    )?;
    faults_at(
        &rt,
        heap,
        b"bridge 0 2\ncable 0.0 0.1\npull 0.1 0.0\npull 0.0 0.1",
        4,
        Expected::CableThere,
    )?;
    faults_at(&rt, heap, b"fall 0", 1, Expected::BoxThere)?;
    faults_at(&rt, heap, b"bridge 0 2\nfall 0\nfall 0", 3, Expected::BoxOn)?;
    faults_at(&rt, heap, b"bridge 0 2\nstart 0", 2, Expected::BoxOff)?;
    faults_at(
        &rt,
        heap,
        b"bridge 0 2\nlose 0.1 1001",
        2,
        Expected::Packets,
    )
}

#[test]
fn stations_and_texts(rt: HostRuntime) -> Result<(), Fail> {
    let heap = rt.alloc();
    faults_at(
        &rt,
        heap,
        b"bridge 0 2\naccess 0.0 9\nstation lamp 02:00:00:00:00:01 0.0\nsend lamp all on\nmove lamp 0.0",
        0,
        Expected::Text,
    )?;
    faults_at(
        &rt,
        heap,
        b"bridge 0 2\nstation lamp 02:00:00:00:00:01 0.0",
        2,
        Expected::AccessPort,
    )?;
    faults_at(
        &rt,
        heap,
        b"station lamp 03:00:00:00:00:01 0.0",
        1,
        Expected::Address,
    )?;
    faults_at(
        &rt,
        heap,
        b"station lamp 02:00:00:00:00-01 0.0",
        1,
        Expected::Address,
    )?;
    faults_at(
        &rt,
        heap,
        b"station lamp 02:00:00:00:0",
        1,
        Expected::Address,
    )?;
    faults_at(
        &rt,
        heap,
        b"station all 02:00:00:00:00:01 0.0",
        1,
        Expected::Name,
    )?;
    faults_at(
        &rt,
        heap,
        b"bridge 0 2\naccess 0.0 9\nstation a 02:00:00:00:00:01 0.0\nstation a 02:00:00:00:00:02 0.0",
        4,
        Expected::NewName,
    )?;
    faults_at(
        &rt,
        heap,
        b"bridge 0 2\naccess 0.0 9\nstation a 02:00:00:00:00:01 0.0\nstation b 02:00:00:00:00:01 0.0",
        4,
        Expected::NewAddress,
    )?;
    faults_at(&rt, heap, b"send a all hello", 1, Expected::StationThere)?;
    faults_at(&rt, heap, b"send a b x ", 1, Expected::Message)?;
    faults_at(&rt, heap, b"send a all", 1, Expected::Message)
}
