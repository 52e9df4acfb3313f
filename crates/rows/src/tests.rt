use crate::budget::Budget;
use crate::refused::Refused;
use crate::row::Row;
use std::test::Fail;

// Sixteen frames fit, the next does not; they leave in the order in which they came, also once the ring has turned.
#[test]
fn row_at_its_edges(rt: HostRuntime) -> Result<(), Fail> {
    let mut row = Row::new(rt.alloc())?;
    for turn in 0..3u8 {
        assert!(rt; row.enqueue(&[turn]).is_ok() && row.pop());
        for n in 0..20u8 {
            assert!(rt; row.enqueue(&[n, turn]).is_ok() == (n < 16));
        }
        for n in 0..16u8 {
            assert!(rt; row.front() == Some(&[n, turn]) && row.pop());
        }
    }
    assert!(rt; row.front().is_none() && !row.pop());
    Ok(())
}

// The longest frame fits, and one byte more does not.
#[test]
fn frame_at_its_edges(rt: HostRuntime) -> Result<(), Fail> {
    let mut row = Row::new(rt.alloc())?;
    assert!(rt;
        row.enqueue(&[0; 1530]) == Err(Refused::TooLong) && row.enqueue(&[7; 1529]).is_ok()
    );
    row.clear();
    assert!(rt; row.front().is_none());
    Ok(())
}

// Sixty-four frames may leave in a tick, and as many in the next.
#[test]
fn budget_at_its_edge(rt: HostRuntime) {
    let mut budget = Budget::new();
    for _tick in 0..2u8 {
        for n in 0..66u8 {
            assert!(rt; budget.take() == (n < 64));
        }
        budget.refill();
    }
}
