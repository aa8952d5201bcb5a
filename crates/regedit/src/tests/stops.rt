//! Runs that stop at each of their reads and writes, and what the outputs hold then.
use super::{THREE, Written, assert_ends, assert_same, write};
use rdl_run::run::{Options, run};
use rdl_run::status::{RunFault, Status};
use std::alloc::Global;
use std::io;
use std::io::{ErrorKind, Read, Write};
use std::process::Abort;
use std::test::Fail;

const SCRIPT: &str = "add /$top after a reg { field {} g; } x;\nundo\nredo\nlist\n";

const FOUR_LINES: &str = "0x0 addrmap top size 0x10
0x0 reg top.a size 0x4
[7:0] field top.a.f reset 0x5
0x4 reg top.x size 0x4
[0:0] field top.x.g
0x8 reg top.b size 0x4
[0:0] field top.b.f
0xC reg top.c size 0x4
[7:4] field top.c.f
";

const FOUR_WRITTEN: &str = "addrmap top {
    reg {
        field {
        } f[8] = 0x5;
    } a;
    reg {
        field {
        } g;
    } x;
    reg {
        field {
        } f;
    } b;
    reg {
        field {
        } f[7:4];
    } c;
};
";

/// More calls than any of these runs makes.
const MANY: usize = 1_000_000;

/// A reader of one byte a call, that fails after so many.
#[derive(Drop)]
struct Trickle<'a> {
    calls: usize,
    rest: &'a [u8],
}

impl Read for Trickle<'_> {
    fn read(&mut self, buffer: &mut [u8]) -> io::Result<usize> {
        if self.calls == 0 {
            return Err(io::Error::from(ErrorKind::Other));
        }
        self.calls -= 1;
        let count = buffer.len().min(1);
        self.rest.read(&mut buffer[..count])
    }
}

/// A writer that is interrupted so often, and takes one byte a call until it has taken so many. Then it fails, or takes
/// nothing.
#[derive(Drop)]
struct Drip {
    interrupts: usize,
    room: usize,
    fails: bool,
    taken: Vec<u8>,
}

impl Drip {
    fn new(alloc: Global, room: usize) -> Drip {
        Drip {
            interrupts: 0,
            room,
            fails: true,
            taken: Vec::new(alloc),
        }
    }
}

impl Write for Drip {
    fn write(&mut self, bytes: &[u8]) -> io::Result<usize> {
        if self.interrupts > 0 {
            self.interrupts -= 1;
            return Err(io::Error::from(ErrorKind::Interrupted));
        }
        if self.room == 0 && self.fails {
            return Err(io::Error::from(ErrorKind::Other));
        }
        if self.room == 0 {
            return Ok(0);
        }
        self.room -= 1;
        let count = bytes.len().min(1);
        self.taken.write(&bytes[..count])
    }

    fn flush(&mut self) -> io::Result<()> {
        Ok(())
    }
}

/// The writers of a run.
#[derive(Drop)]
struct Drips {
    messages: Drip,
    rdl: Drip,
    header: Drip,
    session: Drip,
}

/// How many calls the two readers answer.
type Calls = (usize, usize);

/// How many bytes the messages, the map, the header and the session take.
type Rooms = (usize, usize, usize, usize);

fn writers(alloc: Global, rooms: Rooms) -> Drips {
    Drips {
        messages: Drip::new(alloc, rooms.0),
        rdl: Drip::new(alloc, rooms.1),
        header: Drip::new(alloc, rooms.2),
        session: Drip::new(alloc, rooms.3),
    }
}

fn run_into(alloc: Global, calls: Calls, drips: &mut Drips) -> Result<Status, RunFault> {
    let options = Options {
        top: None,
        history: 10_000,
        session: true,
        edited: false,
    };
    let mut map = Trickle {
        calls: calls.0,
        rest: THREE.as_bytes(),
    };
    let mut script = Trickle {
        calls: calls.1,
        rest: SCRIPT.as_bytes(),
    };
    run(
        alloc,
        &mut map,
        &mut script,
        &options,
        &mut drips.rdl,
        &mut drips.header,
        &mut drips.session,
        &mut drips.messages,
    )
}

/// Asserts that an output holds the first so many bytes of the whole text.
fn assert_front(rt: &impl Abort, drip: &Drip, whole: &[u8], len: usize) {
    assert!(rt; drip.taken.len() == len);
    assert!(rt; whole.starts_with(drip.taken.as_slice()));
}

/// Asserts how a run ends, and how many bytes its outputs then hold.
fn assert_holds(
    rt: &impl Abort,
    alloc: Global,
    whole: &Written,
    run: (Calls, Rooms),
    ends: Result<Status, RunFault>,
    held: Rooms,
) {
    let mut drips = writers(alloc, run.1);
    assert!(rt; run_into(alloc, run.0, &mut drips) == ends);
    assert_front(rt, &drips.messages, whole.messages.as_slice(), held.0);
    assert_front(rt, &drips.rdl, whole.rdl.as_slice(), held.1);
    assert_front(rt, &drips.header, whole.header.as_slice(), held.2);
    assert_front(rt, &drips.session, whole.session.as_slice(), held.3);
}

const READ: Calls = (MANY, MANY);

const TAKEN: Rooms = (MANY, MANY, MANY, MANY);

const NOTHING: Rooms = (0, 0, 0, 0);

fn lens(whole: &Written) -> Rooms {
    (
        whole.messages.len(),
        whole.rdl.len(),
        whole.header.len(),
        whole.session.len(),
    )
}

fn whole(rt: &impl Abort, alloc: Global) -> Result<Written, Fail> {
    let whole = write(alloc, THREE, SCRIPT)?;
    assert_ends(rt, &whole, THREE, Status::Accepted, FOUR_LINES)?;
    assert_same(rt, whole.rdl()?, FOUR_WRITTEN, THREE);
    Ok(whole)
}

// A reader answers once more, at its end.
#[test]
fn at_no_read_of_one_byte(rt: HostRuntime) -> Result<(), Fail> {
    let whole = whole(&rt, rt.alloc())?;
    let read = (THREE.len() + 1, SCRIPT.len() + 1);
    let held = lens(&whole);
    assert_holds(
        &rt,
        rt.alloc(),
        &whole,
        (read, held),
        Ok(Status::Accepted),
        held,
    );
    Ok(())
}

#[test]
fn at_each_read_of_the_map(rt: HostRuntime) -> Result<(), Fail> {
    let whole = whole(&rt, rt.alloc())?;
    for calls in 0..THREE.len() + 1 {
        let run = ((calls, MANY), TAKEN);
        assert_holds(&rt, rt.alloc(), &whole, run, Err(RunFault::Read), NOTHING);
    }
    Ok(())
}

#[test]
fn at_each_read_of_the_script(rt: HostRuntime) -> Result<(), Fail> {
    let whole = whole(&rt, rt.alloc())?;
    for calls in 0..SCRIPT.len() + 1 {
        let run = ((MANY, calls), TAKEN);
        assert_holds(&rt, rt.alloc(), &whole, run, Err(RunFault::Read), NOTHING);
    }
    Ok(())
}

#[test]
fn at_each_write_of_the_messages(rt: HostRuntime) -> Result<(), Fail> {
    let whole = whole(&rt, rt.alloc())?;
    let all = lens(&whole);
    for room in 0..all.0 {
        let run = (READ, (room, MANY, MANY, MANY));
        let held = (room, 0, 0, 0);
        assert_holds(&rt, rt.alloc(), &whole, run, Err(RunFault::Write), held);
    }
    Ok(())
}

#[test]
fn at_each_write_of_the_map(rt: HostRuntime) -> Result<(), Fail> {
    let whole = whole(&rt, rt.alloc())?;
    let all = lens(&whole);
    for room in 0..all.1 {
        let run = (READ, (MANY, room, MANY, MANY));
        let held = (all.0, room, 0, 0);
        assert_holds(&rt, rt.alloc(), &whole, run, Err(RunFault::Write), held);
    }
    Ok(())
}

#[test]
fn at_each_write_of_the_header(rt: HostRuntime) -> Result<(), Fail> {
    let whole = whole(&rt, rt.alloc())?;
    let all = lens(&whole);
    for room in 0..all.2 {
        let run = (READ, (MANY, MANY, room, MANY));
        let held = (all.0, all.1, room, 0);
        assert_holds(&rt, rt.alloc(), &whole, run, Err(RunFault::Write), held);
    }
    Ok(())
}

#[test]
fn at_each_write_of_the_session(rt: HostRuntime) -> Result<(), Fail> {
    let whole = whole(&rt, rt.alloc())?;
    let all = lens(&whole);
    for room in 0..all.3 {
        let run = (READ, (MANY, MANY, MANY, room));
        let held = (all.0, all.1, all.2, room);
        assert_holds(&rt, rt.alloc(), &whole, run, Err(RunFault::Write), held);
    }
    Ok(())
}

fn run_interrupted(alloc: Global, interrupts: Rooms) -> Result<Status, RunFault> {
    let mut drips = writers(alloc, TAKEN);
    drips.messages.interrupts = interrupts.0;
    drips.rdl.interrupts = interrupts.1;
    drips.header.interrupts = interrupts.2;
    drips.session.interrupts = interrupts.3;
    run_into(alloc, READ, &mut drips)
}

// Each output may be interrupted 1,000 times.
#[test]
fn at_too_many_interruptions(rt: HostRuntime) {
    let alloc = rt.alloc();
    assert!(rt; run_interrupted(alloc, (1_000, 1_000, 1_000, 1_000)) == Ok(Status::Accepted));
    let cases = [
        (1_001, 0, 0, 0),
        (0, 1_001, 0, 0),
        (0, 0, 1_001, 0),
        (0, 0, 0, 1_001),
    ];
    for interrupts in cases {
        assert!(rt; run_interrupted(alloc, interrupts) == Err(RunFault::Write));
    }
}

fn run_into_narrow(alloc: Global, rooms: Rooms) -> Result<Status, RunFault> {
    let mut drips = writers(alloc, rooms);
    drips.messages.fails = false;
    drips.rdl.fails = false;
    drips.header.fails = false;
    drips.session.fails = false;
    run_into(alloc, READ, &mut drips)
}

// Each output takes one byte at least, and then nothing where it has no more room.
#[test]
fn at_writes_that_take_nothing(rt: HostRuntime) {
    let alloc = rt.alloc();
    assert!(rt; run_into_narrow(alloc, TAKEN) == Ok(Status::Accepted));
    let cases = [
        (1, MANY, MANY, MANY),
        (MANY, 1, MANY, MANY),
        (MANY, MANY, 1, MANY),
        (MANY, MANY, MANY, 1),
    ];
    for rooms in cases {
        assert!(rt; run_into_narrow(alloc, rooms) == Err(RunFault::Write));
    }
}
