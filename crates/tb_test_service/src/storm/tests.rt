//! Storms: their lines and totals. tests/programs tests outputs that fail, over `tbs`.
ghost use Rattle.std.specs.Prelude.{◌≡◌, ◌≤◌};

use std::alloc::Global;
use std::process::Abort;
use std::sync::Wait;
use std::thread::Threads;
use tb_edge_storm::storm;
use tb_records::Counting;

/// A storm ends well, and these are its lines.
fn expect_totals<R: Threads + Wait + Sync + Abort>(
    rt: &R,
    alloc: Global,
    clients: u32,
    transfers: u32,
    lines: &str,
)
    requires few { clients ≤ 16 }
    requires short { transfers ≤ 1000 }
{
    let mut writer = Counting::new(Vec::new(alloc));
    let mut faults = Counting::new(Vec::new(alloc));
    let status = storm(rt, alloc, clients, transfers, &mut writer, &mut faults);
    assert!(rt; status == 0 && faults.into_inner().is_empty());
    assert!(rt; writer.into_inner().as_slice() == lines.as_bytes());
}

#[test]
fn storm_totals(rt: HostRuntime) {
    let alloc = rt.alloc();
    let small = "clients 2\ncommits 10\ntransfers 6\ncredited 12\n";
    expect_totals(&rt, alloc, 2, 3, small);
    let large = "clients 16\ncommits 16018\ntransfers 16000\ncredited 8008000\n";
    expect_totals(&rt, alloc, 16, 1000, large);
}
