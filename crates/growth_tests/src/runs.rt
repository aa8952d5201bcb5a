//! Whole runs. Where memory is wanted, the messages are a front of whole lines, and both files are empty.
use crate::examples::{
    FOUR_HEADER, FOUR_LINES, FOUR_WRITTEN, NESTED, NESTED_HEADER, NESTED_LINES, NESTED_WRITTEN,
    REMOVED_HEADER, REMOVED_WRITTEN, SHARED, SHARED_HEADER, SHARED_WRITTEN, THREE, THREE_HEADER,
    THREE_LINES, THREE_WRITTEN,
};
use rdl_run::run::{Options, run};
use rdl_run::status::{Missing, RunFault, Status};
use std::alloc::{AllocError, Global};
use std::process::Abort;

/// A map and a script, how the run ends, and what it writes.
struct Case {
    map: &'static str,
    script: &'static str,
    status: Status,
    messages: &'static str,
    rdl: &'static str,
    header: &'static str,
    /// The session; with none it isn't asked for.
    session: &'static str,
}

/// The outputs, with room for more than any of these runs writes.
#[derive(Drop)]
struct Outputs {
    messages: Vec<u8>,
    rdl: Vec<u8>,
    header: Vec<u8>,
    session: Vec<u8>,
}

const ROOM: usize = 4_096;

impl Outputs {
    fn new(alloc: Global) -> Result<Outputs, AllocError> {
        Ok(Outputs {
            messages: Vec::with_capacity(alloc, ROOM)?,
            rdl: Vec::with_capacity(alloc, ROOM)?,
            header: Vec::with_capacity(alloc, ROOM)?,
            session: Vec::with_capacity(alloc, ROOM)?,
        })
    }

    fn are_whole(&self, case: &Case) -> bool {
        self.messages.as_slice() == case.messages.as_bytes()
            && self.rdl.as_slice() == case.rdl.as_bytes()
            && self.header.as_slice() == case.header.as_bytes()
            && self.session.as_slice() == case.session.as_bytes()
    }

    fn are_of_whole_lines(&self, case: &Case) -> bool {
        let messages = self.messages.as_slice();
        case.messages.as_bytes().starts_with(messages)
            && (messages.is_empty() || messages.ends_with(b"\n"))
            && self.rdl.is_empty()
            && self.header.is_empty()
            && self.session.is_empty()
    }
}

fn run_into(alloc: Global, case: &Case, outputs: &mut Outputs) -> Result<Status, RunFault> {
    let options = Options {
        top: None,
        history: 10_000,
        session: !case.session.is_empty(),
        edited: true,
    };
    run(
        alloc,
        &mut case.map.as_bytes(),
        &mut case.script.as_bytes(),
        &options,
        &mut outputs.rdl,
        &mut outputs.header,
        &mut outputs.session,
        &mut outputs.messages,
    )
}

/// Whether the run ends as it should; or want of memory, with the outputs that it may leave.
fn is_right(alloc: Global, case: &Case) -> Result<bool, AllocError> {
    let mut outputs = Outputs::new(alloc)?;
    match run_into(alloc, case, &mut outputs) {
        Ok(status) => Ok(status == case.status && outputs.are_whole(case)),
        Err(RunFault::Memory) if outputs.are_of_whole_lines(case) => Err(AllocError),
        Err(_) => Ok(false),
    }
}

fn assert_right(rt: &impl Abort, alloc: Global, case: &Case) {
    let mut found = is_right(alloc, case);
    if found.is_err() {
        found = is_right(alloc, case);
    }
    assert!(rt; found == Ok(true), "the run of {}", case.script);
}

const ADDED: Case = Case {
    map: THREE,
    script: "add /$top after a reg { field {} g; } x;\nundo\nredo\nlist\n",
    status: Status::Accepted,
    messages: FOUR_LINES,
    rdl: FOUR_WRITTEN,
    header: FOUR_HEADER,
    session: "",
};

#[test]
fn of_an_addition_are_right(rt: HostRuntime) {
    assert_right(&rt, rt.alloc(), &ADDED);
}

const UNDONE: Case = Case {
    map: THREE,
    script: "add /$top after a reg { field {} g; } x;\nundo\nlist\n",
    status: Status::Accepted,
    messages: THREE_LINES,
    rdl: THREE_WRITTEN,
    header: THREE_HEADER,
    session: "",
};

#[test]
fn of_an_undone_addition_are_right(rt: HostRuntime) {
    assert_right(&rt, rt.alloc(), &UNDONE);
}

const REMOVED: Case = Case {
    map: SHARED,
    script: "remove /$T/f\n",
    status: Status::Accepted,
    messages: "",
    rdl: REMOVED_WRITTEN,
    header: REMOVED_HEADER,
    session: "",
};

#[test]
fn of_a_removal_are_right(rt: HostRuntime) {
    assert_right(&rt, rt.alloc(), &REMOVED);
}

const UNASSIGNED: Case = Case {
    map: NESTED,
    script: "unassign /$top g.q.f reset\nunassign /$top/g q.f reset\nundo\nundo\nlist\n",
    status: Status::Accepted,
    messages: NESTED_LINES,
    rdl: NESTED_WRITTEN,
    header: NESTED_HEADER,
    session: "",
};

#[test]
fn of_assignments_are_right(rt: HostRuntime) {
    assert_right(&rt, rt.alloc(), &UNASSIGNED);
}

const RENAMED: Case = Case {
    map: SHARED,
    script: "rename /$T U\nrename /$U top\nundo\n",
    status: Status::LineRefused,
    messages: "script:2: X3 name taken\n",
    rdl: SHARED_WRITTEN,
    header: SHARED_HEADER,
    session: "",
};

#[test]
fn of_a_renaming_are_right(rt: HostRuntime) {
    assert_right(&rt, rt.alloc(), &RENAMED);
}

const REFUSED: Case = Case {
    map: SHARED,
    script: "frob\nremove\nadd /$top last reg {\nremove /$top/zz\nremove /$T\nremove /$T/e\nresize /$top/u [0]\nredo\nlist x\n",
    status: Status::LineRefused,
    messages: "script:1: C1 unknown command
script:2: C2 bad operands
script:3: C4 text refused: S10 unexpected end at column 6
script:4: X1 no such path: P1 no such name
script:5: X5 definition in use
script:7: X9 the edited map has a fault: E12 number out of range at item 1.0
script:8: J3 nothing to redo
script:9: C2 bad operands
",
    rdl: "reg T {
    field {
    } f;
};
addrmap top {
    T u;
    T v;
    u.f->reset = 1;
    T w;
    v.f->reset = 0;
};
",
    header: "#ifndef top_H
#define top_H
#define top__u_base 0x0
#define top__u_offset 0x0
#define top__u_size 0x4
#define top__u__f_bm 0x1
#define top__u__f_bp 0
#define top__u__f_bw 1
#define top__u__f_reset 0x1
#define top__v_base 0x4
#define top__v_offset 0x4
#define top__v_size 0x4
#define top__v__f_bm 0x1
#define top__v__f_bp 0
#define top__v__f_bw 1
#define top__v__f_reset 0x0
#define top__w_base 0x8
#define top__w_offset 0x8
#define top__w_size 0x4
#define top__w__f_bm 0x1
#define top__w__f_bp 0
#define top__w__f_bw 1
#endif
",
    session: "",
};

#[test]
fn of_refused_lines_are_right(rt: HostRuntime) {
    assert_right(&rt, rt.alloc(), &REFUSED);
}

const RESUMED: Case = Case {
    map: "regedit session 1
map 17
addrmap top {
};
undo 0
redo 1
back 1
insert 0.0 32
reg {
    field {
    } f;
} a;
end
",
    script: "redo\nlist\n",
    status: Status::Accepted,
    messages: "0x0 addrmap top size 0x4
0x0 reg top.a size 0x4
[0:0] field top.a.f
",
    rdl: "addrmap top {
    reg {
        field {
        } f;
    } a;
};
",
    header: "#ifndef top_H
#define top_H
#define top__a_base 0x0
#define top__a_offset 0x0
#define top__a_size 0x4
#define top__a__f_bm 0x1
#define top__a__f_bp 0
#define top__a__f_bw 1
#endif
",
    session: "regedit session 1
map 65
addrmap top {
    reg {
        field {
        } f;
    } a;
};
undo 1
back 1
delete 0.0
redo 0
end
",
};

#[test]
fn of_a_session_are_right(rt: HostRuntime) {
    assert_right(&rt, rt.alloc(), &RESUMED);
}

const SHORT: Case = Case {
    map: "addrmap top { reg {",
    script: "list\n",
    status: Status::MapRefused,
    messages: "map:1:20: S10 unexpected end\n",
    rdl: "",
    header: "",
    session: "",
};

const WIDE: Case = Case {
    map: "addrmap top { reg { field {} f = 2; } a; };",
    script: "list\n",
    status: Status::MapRefused,
    messages: "map:1:30: E23 reset too wide\n",
    rdl: "",
    header: "",
    session: "",
};

const CLASHING: Case = Case {
    map: "addrmap top { reg { field {} c; } a__b; reg { field {} b__c; } a; };",
    script: "",
    status: Status::Incomplete(Missing::Header),
    messages: "header: H1 two macros with one name: top__a__b__c_bm\n",
    rdl: "addrmap top {
    reg {
        field {
        } c;
    } a__b;
    reg {
        field {
        } b__c;
    } a;
};
",
    header: "",
    session: "",
};

#[test]
fn of_refused_maps_and_headers_are_right(rt: HostRuntime) {
    assert_right(&rt, rt.alloc(), &SHORT);
    assert_right(&rt, rt.alloc(), &WIDE);
    assert_right(&rt, rt.alloc(), &CLASHING);
}
