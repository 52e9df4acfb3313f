use crate::Queues;
use std::test::Fail;

// All sixteen rows take sixteen frames each, 256 in all, and no port takes those of another.
#[test]
fn all_rows_full(rt: HostRuntime) -> Result<(), Fail> {
    let mut queues = Queues::new(rt.alloc())?;
    for port in 0..18usize {
        for n in 0..17u8 {
            assert!(rt; queues.enqueue(port, &[n]).is_ok() == (port < 16 && n < 16));
        }
    }
    for port in 0..16usize {
        for n in 0..16u8 {
            assert!(rt; queues.next_frame(port) == Some(&[n]) && queues.sent(port));
        }
        assert!(rt; !queues.sent(port));
    }
    Ok(())
}

// Sixty-four frames leave in a tick; the next waits for the tick after, and messages go on.
#[test]
fn budget_and_messages(rt: HostRuntime) -> Result<(), Fail> {
    let mut queues = Queues::new(rt.alloc())?;
    for n in 0..66u8 {
        let Some(slot) = queues.place(3) else {
            return Err(Fail::new("no room"));
        };
        assert!(rt; slot.append(&[n]).is_ok());
        assert!(rt; queues.sent(3) == (n < 64));
    }
    queues.tick();
    let Some(pending) = queues.pending(3) else {
        return Err(Fail::new("no port"));
    };
    pending.add_hello();
    assert!(rt; queues.next_frame(3).is_none() && queues.sent(3));
    assert!(rt; queues.next_frame(3) == Some(&[64]) && queues.sent(3));
    queues.clear(3);
    assert!(rt; !queues.sent(3));
    Ok(())
}
