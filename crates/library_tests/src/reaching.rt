//! Edits inside one definition, judged by what they reach in others.
use crate::assert_holds;
use crate::history::{is_made, opened};
use std::test::Fail;

/// Two registers of fields, and two blocks of them, of which one sets the reset of its field from outside.
const BLOCKS: &str = "reg T { field {} f[8]; };
reg U { field {} g; };
addrmap A { T t; t.f->reset = 200; };
addrmap B { U u; };
addrmap top { A a; B b; };
";

/// Lines, and whether each is made: 200 needs eight bits, in whichever block the field stands.
const LINES: [(&str, bool); 12] = [
    ("resize /$B/u [2]", true),
    ("resize /$T/f [4]", false),
    ("undo", true),
    ("resize /$T/f [4]", false),
    ("resize /$T/f [16]", true),
    ("rename /$B/u t", true),
    ("add /$B last U t;", false),
    ("add /$B last T v;", true),
    ("assign /$B v.f reset 65536", false),
    ("assign /$B v.f reset 65535", true),
    ("resize /$T/f [8]", false),
    ("remove /$B/v", true),
];

#[test]
fn an_edit_inside_one_definition_is_judged_where_it_reaches(rt: HostRuntime) -> Result<(), Fail> {
    let mut journal = opened(rt.alloc(), BLOCKS, 100)?;
    for (line, made) in LINES.iter() {
        let is = is_made(rt.alloc(), &mut journal, line)?;
        assert_holds(&rt, is == *made, line);
    }
    Ok(())
}

/// Two blocks of twenty registers each, which are 80 bytes: neither is looked at where the other one is edited.
const LARGE: &str = "reg T { field {} f[8] = 1; };
addrmap A {
    T a0; T a1; T a2; T a3; T a4; T a5; T a6; T a7; T a8; T a9;
    T a10; T a11; T a12; T a13; T a14; T a15; T a16; T a17; T a18; T a19;
};
addrmap B {
    T b0; T b1; T b2; T b3; T b4; T b5; T b6; T b7; T b8; T b9;
    T b10; T b11; T b12; T b13; T b14; T b15; T b16; T b17; T b18; T b19;
};
addrmap top { A a; B b; };
";

/// Lines, and whether each is made: no block may begin in the other, and 256 needs nine bits.
const PLACES: [(&str, bool); 13] = [
    ("address /$top/b 0x50", true),
    ("address /$top/b 0x4C", false),
    ("add /$A last T more;", false),
    ("address /$top/b 0x54", true),
    ("add /$A last T more;", true),
    ("address /$top/b 0x50", false),
    ("undo", true),
    ("address /$top/b 0x50", true),
    ("resize /$B/b0 [2]", true),
    ("assign /$top a.a3.f reset 256", false),
    ("assign /$top a.a3.f reset 255", true),
    ("resize /$T/f [4]", false),
    ("undo", true),
];

#[test]
fn what_a_step_does_not_reach_is_judged_as_it_was(rt: HostRuntime) -> Result<(), Fail> {
    let mut journal = opened(rt.alloc(), LARGE, 100)?;
    for (line, made) in PLACES.iter() {
        let is = is_made(rt.alloc(), &mut journal, line)?;
        assert_holds(&rt, is == *made, line);
    }
    Ok(())
}

/// A block with an instance that another block assigns through, and one that only has another of the same name.
const LED: &str = "reg T { field {} f[8]; };
addrmap A { T t; T u; };
addrmap B { A a; a.t.f->reset = 3; };
addrmap C { A a; T t; t.f->reset = 4; };
addrmap top { B b; C c; };
";

/// Lines, and whether each is made: a name in a target follows the instance for which it stands, and no other of its name.
const FOLLOWED: [(&str, bool); 13] = [
    ("rename /$A/t x", true),
    ("assign /$B a.t.f reset 1", false),
    ("assign /$B a.x.f reset 5", true),
    ("assign /$C t.f reset 6", true),
    ("rename /$C/t y", true),
    ("assign /$C y.f reset 7", true),
    ("rename /$T/f h", true),
    ("assign /$C y.f reset 8", false),
    ("assign /$C y.h reset 8", true),
    ("remove /$A/x", true),
    ("unassign /$B a.x.h reset", false),
    ("undo", true),
    ("unassign /$B a.x.h reset", true),
];

#[test]
fn what_leads_to_an_item_from_other_definitions_follows_it(rt: HostRuntime) -> Result<(), Fail> {
    let mut journal = opened(rt.alloc(), LED, 100)?;
    for (line, made) in FOLLOWED.iter() {
        let is = is_made(rt.alloc(), &mut journal, line)?;
        assert_holds(&rt, is == *made, line);
    }
    Ok(())
}
