//! What no row says: an output that nobody would keep in a file, and a gate, which needs threads.
use pure_io::{Gate, OpenGate, StdSink, write_all};
use std::alloc::{AllocError, Global};
use std::test::Fail;

/// So many bytes of numbered lines, each unlike the others; the last one may be cut short.
fn numbered_lines(alloc: Global, count: usize) -> Result<Vec<u8>, AllocError> {
    let mut text = Vec::new(alloc);
    for number in 0..u32::MAX {
        if text.len() >= count {
            break;
        }
        text.extend_from_slice(number.to_string(alloc)?.as_bytes())?;
        text.push(b'\n')?;
    }
    text.truncate(count);
    Ok(text)
}

#[test]
fn writes_much_to_standard_output(rt: HostRuntime) -> Result<(), Fail> {
    let mut sink = StdSink::make();
    let large = numbered_lines(rt.alloc(), 100_000)?;
    assert_eq!(rt; write_all(&rt, &mut sink, &large), Ok(()));
    Ok(())
}

#[test]
fn an_open_gate_lets_pass(rt: HostRuntime) {
    let gate = OpenGate::make();
    gate.enter(&rt, 0);
    gate.left(&rt, 0);
}
