//! The maps of the worked examples, how they are written and listed, and their headers.
use std::alloc::{AllocError, Global};

/// Three registers.
pub(crate) const THREE: &str = "addrmap top {
reg { field {} f[8] = 0x5; } a;
reg { field {} f; } b;
reg { field {} f[7:4]; } c;
};";

pub(crate) const THREE_WRITTEN: &str = "addrmap top {
    reg {
        field {
        } f[8] = 0x5;
    } a;
    reg {
        field {
        } f;
    } b;
    reg {
        field {
        } f[7:4];
    } c;
};
";

pub(crate) const THREE_LINES: &str = "0x0 addrmap top size 0xC
0x0 reg top.a size 0x4
[7:0] field top.a.f reset 0x5
0x4 reg top.b size 0x4
[0:0] field top.b.f
0x8 reg top.c size 0x4
[7:4] field top.c.f
";

pub(crate) const THREE_HEADER: &str = "#ifndef top_H
#define top_H
#define top__a_base 0x0
#define top__a_offset 0x0
#define top__a_size 0x4
#define top__a__f_bm 0xFF
#define top__a__f_bp 0
#define top__a__f_bw 8
#define top__a__f_reset 0x5
#define top__b_base 0x4
#define top__b_offset 0x4
#define top__b_size 0x4
#define top__b__f_bm 0x1
#define top__b__f_bp 0
#define top__b__f_bw 1
#define top__c_base 0x8
#define top__c_offset 0x8
#define top__c_size 0x4
#define top__c__f_bm 0xF0
#define top__c__f_bp 4
#define top__c__f_bw 4
#endif
";

/// `THREE` with a fourth register behind the first.
pub(crate) const FOUR_WRITTEN: &str = "addrmap top {
    reg {
        field {
        } f[8] = 0x5;
    } a;
    reg {
        field {
        } g;
    } x;
    reg {
        field {
        } f;
    } b;
    reg {
        field {
        } f[7:4];
    } c;
};
";

pub(crate) const FOUR_LINES: &str = "0x0 addrmap top size 0x10
0x0 reg top.a size 0x4
[7:0] field top.a.f reset 0x5
0x4 reg top.x size 0x4
[0:0] field top.x.g
0x8 reg top.b size 0x4
[0:0] field top.b.f
0xC reg top.c size 0x4
[7:4] field top.c.f
";

pub(crate) const FOUR_HEADER: &str = "#ifndef top_H
#define top_H
#define top__a_base 0x0
#define top__a_offset 0x0
#define top__a_size 0x4
#define top__a__f_bm 0xFF
#define top__a__f_bp 0
#define top__a__f_bw 8
#define top__a__f_reset 0x5
#define top__x_base 0x4
#define top__x_offset 0x4
#define top__x_size 0x4
#define top__x__g_bm 0x1
#define top__x__g_bp 0
#define top__x__g_bw 1
#define top__b_base 0x8
#define top__b_offset 0x8
#define top__b_size 0x4
#define top__b__f_bm 0x1
#define top__b__f_bp 0
#define top__b__f_bw 1
#define top__c_base 0xC
#define top__c_offset 0xC
#define top__c_size 0x4
#define top__c__f_bm 0xF0
#define top__c__f_bp 4
#define top__c__f_bw 4
#endif
";

/// A type that three instances share.
pub(crate) const SHARED: &str = "reg T { field {} e; field {} f; };
addrmap top { T u; T v; u.f->reset = 1; T w; v.f->reset = 0; v.e->sw = r; };";

pub(crate) const SHARED_WRITTEN: &str = "reg T {
    field {
    } e;
    field {
    } f;
};
addrmap top {
    T u;
    T v;
    u.f->reset = 1;
    T w;
    v.f->reset = 0;
    v.e->sw = r;
};
";

pub(crate) const SHARED_LINES: &str = "0x0 addrmap top size 0xC
0x0 reg top.u size 0x4
[0:0] field top.u.e
[1:1] field top.u.f reset 0x1
0x4 reg top.v size 0x4
[0:0] field top.v.e
[1:1] field top.v.f reset 0x0
0x8 reg top.w size 0x4
[0:0] field top.w.e
[1:1] field top.w.f
";

pub(crate) const SHARED_HEADER: &str = "#ifndef top_H
#define top_H
#define top__u_base 0x0
#define top__u_offset 0x0
#define top__u_size 0x4
#define top__u__e_bm 0x1
#define top__u__e_bp 0
#define top__u__e_bw 1
#define top__u__f_bm 0x2
#define top__u__f_bp 1
#define top__u__f_bw 1
#define top__u__f_reset 0x1
#define top__v_base 0x4
#define top__v_offset 0x4
#define top__v_size 0x4
#define top__v__e_bm 0x1
#define top__v__e_bp 0
#define top__v__e_bw 1
#define top__v__f_bm 0x2
#define top__v__f_bp 1
#define top__v__f_bw 1
#define top__v__f_reset 0x0
#define top__w_base 0x8
#define top__w_offset 0x8
#define top__w_size 0x4
#define top__w__e_bm 0x1
#define top__w__e_bp 0
#define top__w__e_bw 1
#define top__w__f_bm 0x2
#define top__w__f_bp 1
#define top__w__f_bw 1
#endif
";

/// `SHARED` without a field of the type, and without the assignments that lead to it.
pub(crate) const REMOVED_WRITTEN: &str = "reg T {
    field {
    } e;
};
addrmap top {
    T u;
    T v;
    T w;
    v.e->sw = r;
};
";

pub(crate) const REMOVED_HEADER: &str = "#ifndef top_H
#define top_H
#define top__u_base 0x0
#define top__u_offset 0x0
#define top__u_size 0x4
#define top__u__e_bm 0x1
#define top__u__e_bp 0
#define top__u__e_bw 1
#define top__v_base 0x4
#define top__v_offset 0x4
#define top__v_size 0x4
#define top__v__e_bm 0x1
#define top__v__e_bp 0
#define top__v__e_bw 1
#define top__w_base 0x8
#define top__w_offset 0x8
#define top__w_size 0x4
#define top__w__e_bm 0x1
#define top__w__e_bp 0
#define top__w__e_bw 1
#endif
";

/// `SHARED` with another name of the type.
pub(crate) const RENAMED_WRITTEN: &str = "reg U {
    field {
    } e;
    field {
    } f;
};
addrmap top {
    U u;
    U v;
    u.f->reset = 1;
    U w;
    v.f->reset = 0;
    v.e->sw = r;
};
";

/// A field that is assigned from two bodies around it.
pub(crate) const NESTED: &str =
    "addrmap top { regfile { reg { field {} f[8] = 1; } q; q.f->reset = 2; } g; g.q.f->reset = 3; };";

pub(crate) const NESTED_WRITTEN: &str = "addrmap top {
    regfile {
        reg {
            field {
            } f[8] = 0x1;
        } q;
        q.f->reset = 2;
    } g;
    g.q.f->reset = 3;
};
";

pub(crate) const NESTED_LINES: &str = "0x0 addrmap top size 0x4
0x0 regfile top.g size 0x4
0x0 reg top.g.q size 0x4
[7:0] field top.g.q.f reset 0x3
";

pub(crate) const NESTED_HEADER: &str = "#ifndef top_H
#define top_H
#define top__g_base 0x0
#define top__g_offset 0x0
#define top__g_size 0x4
#define top__g__q_base 0x0
#define top__g__q_offset 0x0
#define top__g__q_size 0x4
#define top__g__q__f_bm 0xFF
#define top__g__q__f_bp 0
#define top__g__q__f_bw 8
#define top__g__q__f_reset 0x3
#endif
";

/// `NESTED` without the outer assignment.
pub(crate) const UNASSIGNED_WRITTEN: &str = "addrmap top {
    regfile {
        reg {
            field {
            } f[8] = 0x1;
        } q;
        q.f->reset = 2;
    } g;
};
";

pub(crate) const UNASSIGNED_LINES: &str = "0x0 addrmap top size 0x4
0x0 regfile top.g size 0x4
0x0 reg top.g.q size 0x4
[7:0] field top.g.q.f reset 0x2
";

/// `NESTED` without any assignment.
pub(crate) const BARE_LINES: &str = "0x0 addrmap top size 0x4
0x0 regfile top.g size 0x4
0x0 reg top.g.q size 0x4
[7:0] field top.g.q.f reset 0x1
";

/// Two register files in one map.
pub(crate) const TWO_FILES: &str = "regfile A { reg R { field {} f; }; R r0; R r1; R r2; };
regfile B { reg { field {} f; } x; };
addrmap top { A a; B b; };
";

/// The same with a thousand registers in the first one.
pub(crate) fn two_large_files(alloc: Global) -> Result<String, AllocError> {
    let mut text = String::from_str(alloc, "regfile A { reg R { field {} f; };\n")?;
    for i in 0..1000u32 {
        write!(text, "R r{i};\n")?;
    }
    text.push_str("};\nregfile B { reg { field {} f; } x; };\naddrmap top { A a; B b; };\n")?;
    Ok(text)
}

/// The session of an empty address map, and a step on that puts a register in.
pub(crate) const ONE_STEP_ON: &str = "regedit session 1
map 17
addrmap top {
};
undo 0
redo 1
back 1
insert 0.0 32
reg {
    field {
    } f;
} a;
end
";

pub(crate) const ONE_STEP_LISTED: &str = "0x0 addrmap top size 0x4
0x0 reg top.a size 0x4
[0:0] field top.a.f
";

/// The session behind the step of `ONE_STEP_ON`.
pub(crate) const ONE_STEP_BACK: &str = "regedit session 1
map 65
addrmap top {
    reg {
        field {
        } f;
    } a;
};
undo 1
back 1
delete 0.0
redo 0
end
";

/// The session of `ONE_STEP_BACK`, with a second register added.
pub(crate) const TWO_STEPS_BACK: &str = "regedit session 1
map 113
addrmap top {
    reg {
        field {
        } f;
    } a;
    reg {
        field {
        } g;
    } b;
};
undo 2
back 1
delete 0.1
back 1
delete 0.0
redo 0
end
";

/// `ONE_STEP_ON` with a field that the register can't hold.
pub(crate) const STEP_PAST_REGISTER: &str = "regedit session 1
map 17
addrmap top {
};
undo 0
redo 1
back 1
insert 0.0 36
reg {
    field {
    } f[33];
} a;
end
";
