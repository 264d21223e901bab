//! Generated workloads.

use pipe_gen::choices::choice;
use pipe_gen::workload::generate;
use pipe_io::numbers::numbers;
use pipe_model::memory::NoMemory;
use std::alloc::Global;

const SOURCE: &str = "limits iterations 3, stages 6, steps 100, emits 3;
cell sum = 0;
pipe_while (more()) {
  let x = take();
  pipe_continue(1);
  let a = x * 3 + 1;
  pipe_continue(2);
  a = a % 1024;
  pipe_continue(3);
  a = a * a;
  pipe_continue(4);
  a = a % 1000;
  pipe_wait(5);
  sum = sum + a;
  emit sum;
}
";

const INPUT: &[u8] = b"408\n800\n63\n";

#[test]
fn choices_are_mixed(rt: HostRuntime) {
    let found = [choice(1, 1), choice(1, 2), choice(1, 3), choice(0, 1)];
    assert!(rt; found == [11_408, 1_800, 63, 47_912], "{found:?}");
}

// Whether the source and the input of seed 1 and size 3 are these.
fn makes(alloc: Global, source: &[u8], input: &[u8]) -> bool {
    match generate(alloc, 1, 3) {
        Ok(made) => made.source.as_slice() == source && made.input.as_slice() == input,
        Err(NoMemory) => false,
    }
}

#[test]
fn a_workload_is_generated(rt: HostRuntime) {
    assert!(rt; makes(rt.alloc(), SOURCE.as_bytes(), INPUT));
}

// Whether an input is read as 40,000 numbers.
fn has_40_000(alloc: Global, input: &[u8]) -> bool {
    match numbers(alloc, input) {
        Ok(items) => items.len() == 40_000,
        Err(_) => false,
    }
}

// The same for that of the greatest workload.
fn greatest_has_its_items(alloc: Global) -> bool {
    match generate(alloc, 65_535, 40_000) {
        Ok(made) => has_40_000(alloc, made.input.as_slice()),
        Err(NoMemory) => false,
    }
}

#[test]
fn the_greatest_workload_is_generated(rt: HostRuntime) {
    assert!(rt; greatest_has_its_items(rt.alloc()));
}
