// A script of an outbox, and what is written of it.
use pv_io::{MemSink, MemSource};
use pv_lines::ScriptEnd;
use pv_outbox_run::read_and_run;
use std::alloc::Global;
use std::test::Fail;

const TWO_OUTPUTS: &str =
    "hold 1 0 if -0.1.0 ; 1 if +0.1.0\nhold 2 1\ntake\nlearn 0.1.0 yes\ntake\ntake\n";

// Runs a script: how that ends, and what is written.
fn ran(alloc: Global, script: &str) -> Result<(ScriptEnd, Vec<u8>), Fail> {
    let mut source = MemSource::new(script.as_bytes().to_vec(alloc)?, Vec::new(alloc));
    let mut sink = MemSink::new(alloc, Vec::new(alloc));
    let end = read_and_run(alloc, &mut source, &mut sink)?;
    Ok((end, sink.bytes().to_vec(alloc)?))
}

#[test]
fn an_output_waits_for_its_transaction(rt: HostRuntime) -> Result<(), Fail> {
    let (end, text) = ran(rt.alloc(), TWO_OUTPUTS)?;
    assert!(rt; end == ScriptEnd::Done);
    assert!(rt;
        text.as_slice() == b"held 1\nheld 2\nout 2\nlearnt 0.1.0\nout 1\nnone\n".as_slice()
    );
    Ok(())
}
