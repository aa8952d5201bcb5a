//! Large maps, up to a limit and past it.
use super::{Written, assert_prints, write};
use rdl_run::status::Status;
use std::alloc::{AllocError, Global};
use std::process::Abort;
use std::test::Fail;

fn with_registers(alloc: Global, count: usize) -> Result<String, AllocError> {
    let mut map = String::from_str(alloc, "addrmap top {")?;
    for _ in 0..count {
        map.push_str("reg{}a;")?;
    }
    Ok(map)
}

// With the last statement the map has one more item than a description may have.
#[test]
fn of_the_items_of_a_text(rt: HostRuntime) -> Result<(), Fail> {
    let map = with_registers(rt.alloc(), 65_537)?;
    let want = "map:1:458772: S12 description too large\n";
    assert_prints(
        &rt,
        rt.alloc(),
        map.as_bytes(),
        b"",
        Status::MapRefused,
        want,
    )
}

/// A map of 65,536 rows: the top, and three register files of 21,845 rows each.
const MANY_ROWS: &str = "reg C0 {};
regfile C1 { C0 a, b, c, d; };
regfile C2 { C1 a, b, c, d; };
regfile C3 { C2 a, b, c, d; };
regfile C4 { C3 a, b, c, d; };
regfile C5 { C4 a, b, c, d; };
regfile C6 { C5 a, b, c, d; };
regfile C7 { C6 a, b, c, d; };
addrmap top { C7 x, y, z; };
";

#[test]
fn of_rows(rt: HostRuntime) -> Result<(), Fail> {
    let want = "script:1: X9 the edited map has a fault: E15 over 65536 rows at item 8\n";
    assert_prints(
        &rt,
        rt.alloc(),
        MANY_ROWS.as_bytes(),
        b"add /$top last reg {} r;\n",
        Status::LineRefused,
        want,
    )
}

/// A map of 49,208 rows: nine levels of three instances each.
const LARGE: &str = "reg T0 { field {} f; };
regfile T1 { T0 a; T0 b; T0 c; };
regfile T2 { T1 a; T1 b; T1 c; };
regfile T3 { T2 a; T2 b; T2 c; };
regfile T4 { T3 a; T3 b; T3 c; };
regfile T5 { T4 a; T4 b; T4 c; };
regfile T6 { T5 a; T5 b; T5 c; };
regfile T7 { T6 a; T6 b; T6 c; };
regfile T8 { T7 a; T7 b; T7 c; };
regfile T9 { T8 a; T8 b; T8 c; };
addrmap top { T9 x; };
";

fn assert_many(rt: &impl Abort, written: &Written) -> Result<(), Fail> {
    let text = written.messages()?;
    assert!(rt; text.bytes().filter(|byte| *byte == b'\n').count() == 49_208);
    assert!(rt; text.starts_with("0x0 addrmap top size 0x1338C\n0x0 regfile top.x size 0x1338C\n"));
    assert!(rt;
        text.ends_with(
            "0x13388 reg top.x.c.c.c.c.c.c.c.c.c size 0x4\n[0:0] field top.x.c.c.c.c.c.c.c.c.c.f\n"
        )
    );
    Ok(())
}

#[test]
fn of_many_rows(rt: HostRuntime) -> Result<(), Fail> {
    let written = write(rt.alloc(), LARGE, "list")?;
    assert_many(&rt, &written)
}
