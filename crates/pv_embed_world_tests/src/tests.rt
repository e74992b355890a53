// Worlds that are stepped line by line, and runs in memory: both answer the same.
use pv_base::NoMemory;
use pv_embed_world::*;
use std::alloc::Global;
use std::test::Fail;

const CATALOG: &[u8] = b"sites 2\nitem a 0 100\nitem b 1 50";

const SUBMIT: &[u8] = b"submit 0 a := a - 10 ; b := b + 10";

const LINES: [&[u8]; 3] = [SUBMIT, b"pump", b"report"];

const OUTPUT: &str =
    "txn 0.1.0\ncommit 0.1.0 certain nothing\norder 0.1.0\ncommitted 0.1.0\nopen\nitem a 90\nitem b 60\nend\n";

// Makes a step of each line.
fn step_all(world: &mut HostedWorld, lines: &[&[u8]]) -> Result<(), WorldFault> {
    for line in lines {
        world.step(line)?;
    }
    Ok(())
}

// What is kept, where that is no more than fits.
fn all_kept(alloc: Global, world: &mut HostedWorld) -> Result<Vec<u8>, NoMemory> {
    let mut out = Vec::new(alloc);
    out.resize(4096, 0)?;
    let count = world.take(&mut out);
    out.truncate(count);
    Ok(out)
}

// The run of the schedule of the catalog and these lines.
fn run_of(alloc: Global, lines: &[&[u8]]) -> Result<Ran, NoMemory> {
    let mut text = Vec::from_slice(alloc, CATALOG)?;
    for line in lines {
        text.push(b'\n')?;
        text.extend_from_slice(line)?;
    }
    run(alloc, &text)
}

#[test]
fn steps_print_what_the_run_prints(rt: HostRuntime) -> Result<(), Fail> {
    let mut world = HostedWorld::open(rt.alloc(), CATALOG)?;
    step_all(&mut world, &LINES)?;
    let text = all_kept(rt.alloc(), &mut world)?;
    assert!(rt; text.as_slice() == OUTPUT.as_bytes());
    Ok(())
}

#[test]
fn a_run_prints_its_text(rt: HostRuntime) -> Result<(), Fail> {
    let ran = run_of(rt.alloc(), &LINES)?;
    assert!(rt; ran.status == 0 && ran.text.as_slice() == OUTPUT.as_bytes());
    Ok(())
}
