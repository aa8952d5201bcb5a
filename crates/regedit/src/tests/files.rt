//! The program on files.
use super::{MAP, THREE, assert_same};
use crate::command::command;
use std::alloc::AllocError;
use std::process::Abort;
use std::test::Fail;
use std::{env, fs, process, str};

pub(super) const SCRIPT: &str = "add /$top last reg { field {} g; } b;\nundo\nredo\nlist\n";

pub(super) const MESSAGES: &str = "0x0 addrmap top size 0x8
0x0 reg top.a size 0x4
[7:0] field top.a.f reset 0x5
0x4 reg top.b size 0x4
[0:0] field top.b.g
";

pub(super) const WRITTEN: &str = "addrmap top {
    reg {
        field {
        } f[8] = 0x5;
    } a;
    reg {
        field {
        } g;
    } b;
};
";

pub(super) const HEADER: &str = "#ifndef top_H
#define top_H
#define top__a_base 0x0
#define top__a_offset 0x0
#define top__a_size 0x4
#define top__a__f_bm 0xFF
#define top__a__f_bp 0
#define top__a__f_bw 8
#define top__a__f_reset 0x5
#define top__b_base 0x4
#define top__b_offset 0x4
#define top__b_size 0x4
#define top__b__g_bm 0x1
#define top__b__g_bp 0
#define top__b__g_bw 1
#endif
";

/// A map in which the last of the macros has the name of the one before.
const CLASH: &str = "addrmap top { reg { field {} c; } a__b; reg { field {} b__c; } a; };";

const CLASH_MESSAGE: &str = "header: H1 two macros with one name: top__a__b__c_bm\n";

const CLASH_WRITTEN: &str = "addrmap top {
    reg {
        field {
        } c;
    } a__b;
    reg {
        field {
        } b__c;
    } a;
};
";

/// An empty map, with a register that can be redone.
const AHEAD: &str = "regedit session 1
map 17
addrmap top {
};
undo 0
redo 1
back 1
insert 0.0 32
reg {
    field {
    } f;
} a;
end
";

/// The map with that register, which can be undone.
const BEHIND: &str = "regedit session 1
map 65
addrmap top {
    reg {
        field {
        } f;
    } a;
};
undo 1
back 1
delete 0.0
redo 0
end
";

const REDONE: &str = "0x0 addrmap top size 0x4
0x0 reg top.a size 0x4
[0:0] field top.a.f
";

/// A folder of a test's own.
#[derive(Drop)]
pub(super) struct Folder {
    path: String,
}

impl Folder {
    pub(super) fn new(rt: &HostRuntime, test: &str) -> Result<Folder, Fail> {
        let above = env::temp_dir(rt)?;
        let number = process::id(rt.process());
        let path = format!(in rt.alloc(); "{}/regedit-{test}-{number}", above.as_path().display())?;
        fs::create_dir(rt, path.as_str())?;
        Ok(Folder { path })
    }

    pub(super) fn file(&self, rt: &HostRuntime, name: &str) -> Result<String, AllocError> {
        format!(in rt.alloc(); "{}/{name}", self.path)
    }

    pub(super) fn write(&self, rt: &HostRuntime, name: &str, text: &str) -> Result<(), Fail> {
        let file = self.file(rt, name)?;
        fs::write(rt, file.as_str(), text)?;
        Ok(())
    }

    fn read(&self, rt: &HostRuntime, name: &str) -> Result<String, Fail> {
        let file = self.file(rt, name)?;
        Ok(fs::read_to_string(rt, file.as_str())?)
    }

    /// How many files there are.
    pub(super) fn count(&self, rt: &HostRuntime) -> Result<usize, Fail> {
        let mut count = 0usize;
        for entry in fs::read_dir(rt, self.path.as_str())? {
            let _ = entry?;
            count = count.saturating_add(1);
        }
        Ok(count)
    }

    pub(super) fn remove(self, rt: &HostRuntime) -> Result<(), Fail> {
        fs::remove_dir_all(rt, self.path.as_str())?;
        Ok(())
    }
}

/// What the program answers and writes.
#[derive(Drop)]
pub(super) struct Said {
    pub(super) status: u8,
    messages: Vec<u8>,
    errors: Vec<u8>,
}

impl Said {
    pub(super) fn messages(&self) -> Result<&str, Fail> {
        Ok(str::from_utf8(self.messages.as_slice())?)
    }

    pub(super) fn errors(&self) -> Result<&str, Fail> {
        Ok(str::from_utf8(self.errors.as_slice())?)
    }
}

pub(super) fn run_words(rt: &HostRuntime, words: &[&str]) -> Said {
    let mut messages = Vec::new(rt.alloc());
    let mut errors = Vec::new(rt.alloc());
    let status = command(rt, rt.alloc(), words, &mut messages, &mut errors);
    Said {
        status,
        messages,
        errors,
    }
}

/// The files of a run: the map and the script, and where the map and the header are written.
type Names = (&'static str, &'static str, &'static str, &'static str);

const NAMES: Names = ("map.rdl", "script.txt", "out.rdl", "out.h");

/// Runs on these files, with an option that has no value.
fn run_in(
    rt: &HostRuntime,
    folder: &Folder,
    names: Names,
    option: &'static str,
) -> Result<Said, Fail> {
    let map = folder.file(rt, names.0)?;
    let script = folder.file(rt, names.1)?;
    let rdl = folder.file(rt, names.2)?;
    let header = folder.file(rt, names.3)?;
    let words = [
        map.as_str(),
        script.as_str(),
        "--rdl",
        rdl.as_str(),
        "--header",
        header.as_str(),
        option,
    ];
    Ok(run_words(rt, &words))
}

/// The exit status, the messages and the errors.
type Saying = (u8, &'static str, &'static str);

fn assert_says(rt: &impl Abort, said: &Said, want: Saying) -> Result<(), Fail> {
    assert_same(rt, said.errors()?, want.2, "the errors");
    assert_same(rt, said.messages()?, want.1, "the messages");
    assert!(rt; said.status == want.0);
    Ok(())
}

fn assert_holds(
    abort: &impl Abort,
    rt: &HostRuntime,
    folder: &Folder,
    name: &str,
    want: &str,
) -> Result<(), Fail> {
    let text = folder.read(rt, name)?;
    assert_same(abort, text.as_str(), want, name);
    Ok(())
}

pub(super) type Texts = &'static [(&'static str, &'static str)];

pub(super) fn write_each(rt: &HostRuntime, folder: &Folder, texts: Texts) -> Result<(), Fail> {
    for (name, text) in texts {
        folder.write(rt, name, text)?;
    }
    Ok(())
}

pub(super) fn assert_each_holds(
    abort: &impl Abort,
    rt: &HostRuntime,
    folder: &Folder,
    texts: Texts,
) -> Result<(), Fail> {
    for (name, text) in texts {
        assert_holds(abort, rt, folder, name, text)?;
    }
    Ok(())
}

/// Asserts what a run over these files says, and what then stands in others.
fn assert_run_in(
    abort: &impl Abort,
    rt: &HostRuntime,
    folder: &Folder,
    before: Texts,
    want: Saying,
    behind: Texts,
) -> Result<(), Fail> {
    write_each(rt, folder, before)?;
    let said = run_in(rt, folder, NAMES, "--quiet")?;
    assert_says(abort, &said, want)?;
    assert_each_holds(abort, rt, folder, behind)
}

fn assert_run(
    abort: &impl Abort,
    rt: &HostRuntime,
    test: &str,
    before: Texts,
    want: Saying,
    behind: Texts,
) -> Result<(), Fail> {
    let folder = Folder::new(rt, test)?;
    assert_run_in(abort, rt, &folder, before, want, behind)?;
    folder.remove(rt)
}

#[test]
fn are_written(rt: HostRuntime) -> Result<(), Fail> {
    let before = &[("map.rdl", MAP), ("script.txt", SCRIPT), ("out.h", "old")];
    let behind = &[("out.rdl", WRITTEN), ("out.h", HEADER)];
    assert_run(&rt, &rt, "written", before, (0, MESSAGES, ""), behind)
}

#[test]
fn are_written_where_a_line_is_refused(rt: HostRuntime) -> Result<(), Fail> {
    let before = &[("map.rdl", "addrmap top {};"), ("script.txt", "undo")];
    let said = (1, "script:1: J2 nothing to undo\n", "");
    let behind = &[("out.rdl", "addrmap top {\n};\n")];
    assert_run(&rt, &rt, "refused", before, said, behind)
}

/// A register is added to three, undone and redone.
const ADD: &str = "add /$top after a reg { field {} g; } x;\nundo\nredo\nlist\n";

const FOUR_LINES: &str = "0x0 addrmap top size 0x10
0x0 reg top.a size 0x4
[7:0] field top.a.f reset 0x5
0x4 reg top.x size 0x4
[0:0] field top.x.g
0x8 reg top.b size 0x4
[0:0] field top.b.f
0xC reg top.c size 0x4
[7:4] field top.c.f
";

const FOUR_WRITTEN: &str = "addrmap top {
    reg {
        field {
        } f[8] = 0x5;
    } a;
    reg {
        field {
        } g;
    } x;
    reg {
        field {
        } f;
    } b;
    reg {
        field {
        } f[7:4];
    } c;
};
";

/// One register of three is removed, and its removal undone; then another one is removed, and nothing can be redone.
const REMOVE: &str = "undo\nremove /$top/c\nundo\nremove /$top/b\nredo\n";

const REMOVE_MESSAGES: &str = "script:1: J2 nothing to undo\nscript:5: J3 nothing to redo\n";

const TWO_WRITTEN: &str = "addrmap top {
    reg {
        field {
        } f[8] = 0x5;
    } a;
    reg {
        field {
        } f[7:4];
    } c;
};
";

#[test]
fn are_written_behind_an_addition(rt: HostRuntime) -> Result<(), Fail> {
    let before = &[("map.rdl", THREE), ("script.txt", ADD)];
    let behind = &[("out.rdl", FOUR_WRITTEN)];
    assert_run(&rt, &rt, "added", before, (0, FOUR_LINES, ""), behind)
}

#[test]
fn are_written_where_nothing_can_be_redone(rt: HostRuntime) -> Result<(), Fail> {
    let before = &[("map.rdl", THREE), ("script.txt", REMOVE)];
    let behind = &[("out.rdl", TWO_WRITTEN)];
    assert_run(&rt, &rt, "redone", before, (1, REMOVE_MESSAGES, ""), behind)
}

#[test]
fn stay_where_the_map_is_refused(rt: HostRuntime) -> Result<(), Fail> {
    let before = &[
        ("map.rdl", "addrmap top { reg {"),
        ("script.txt", SCRIPT),
        ("out.rdl", "old map"),
        ("out.h", "old header"),
    ];
    let said = (2, "map:1:20: S10 unexpected end\n", "");
    let behind = &[("out.rdl", "old map"), ("out.h", "old header")];
    assert_run(&rt, &rt, "stay", before, said, behind)
}

// The map is written, and the header's file stays as it was.
#[test]
fn of_headers_stay_where_two_macros_have_one_name(rt: HostRuntime) -> Result<(), Fail> {
    let before = &[
        ("map.rdl", CLASH),
        ("script.txt", ""),
        ("out.h", "old header"),
    ];
    let behind = &[("out.rdl", CLASH_WRITTEN), ("out.h", "old header")];
    assert_run(&rt, &rt, "clash", before, (3, CLASH_MESSAGE, ""), behind)
}

fn assert_written_in_place(
    abort: &impl Abort,
    rt: &HostRuntime,
    folder: &Folder,
) -> Result<(), Fail> {
    write_each(rt, folder, &[("map.rdl", MAP), ("script.txt", SCRIPT)])?;
    let names = ("map.rdl", "script.txt", "map.rdl", "out.h");
    let said = run_in(rt, folder, names, "--quiet")?;
    assert_says(abort, &said, (0, MESSAGES, ""))?;
    assert_holds(abort, rt, folder, "map.rdl", WRITTEN)
}

#[test]
fn may_be_the_map_itself(rt: HostRuntime) -> Result<(), Fail> {
    let folder = Folder::new(&rt, "same")?;
    assert_written_in_place(&rt, &rt, &folder)?;
    folder.remove(&rt)
}

fn assert_refused(abort: &impl Abort, rt: &HostRuntime, words: &[&str]) -> Result<(), Fail> {
    let said = run_words(rt, words);
    assert!(abort; !said.errors()?.is_empty());
    assert!(abort; said.messages()?.is_empty());
    assert!(abort; said.status == 5);
    Ok(())
}

#[test]
fn are_untouched_by_other_words(rt: HostRuntime) -> Result<(), Fail> {
    let cases: [&[&str]; 6] = [
        &[],
        &["map", "script"],
        &["map", "script", "--rdl", "out"],
        &["--rdl", "out", "--header", "out", "map"],
        &["map", "script", "--rdl", "out", "--header"],
        &["map", "script", "--rdl", "out", "--header", "out", "more"],
    ];
    for words in cases {
        assert_refused(&rt, &rt, words)?;
    }
    Ok(())
}

/// Runs on these files, with the session in another.
fn run_saving(rt: &HostRuntime, folder: &Folder, map: &str, script: &str) -> Result<Said, Fail> {
    let map = folder.file(rt, map)?;
    let script = folder.file(rt, script)?;
    let rdl = folder.file(rt, "out.rdl")?;
    let header = folder.file(rt, "out.h")?;
    let session = folder.file(rt, "out.session")?;
    let words = [
        map.as_str(),
        script.as_str(),
        "--rdl",
        rdl.as_str(),
        "--header",
        header.as_str(),
        "--session",
        session.as_str(),
        "--quiet",
    ];
    Ok(run_words(rt, &words))
}

fn assert_saved(abort: &impl Abort, rt: &HostRuntime, folder: &Folder) -> Result<(), Fail> {
    write_each(
        rt,
        folder,
        &[
            ("old.session", AHEAD),
            ("redo.txt", "redo\nlist\n"),
            ("no.txt", ""),
        ],
    )?;
    let said = run_saving(rt, folder, "old.session", "redo.txt")?;
    assert_says(abort, &said, (0, REDONE, ""))?;
    assert_holds(abort, rt, folder, "out.session", BEHIND)?;
    let said = run_saving(rt, folder, "no.txt", "no.txt")?;
    assert_says(abort, &said, (2, "map:1:1: E13 no top\n", ""))?;
    assert_holds(abort, rt, folder, "out.session", BEHIND)?;
    let said = run_saving(rt, folder, "out.session", "no.txt")?;
    assert_says(abort, &said, (0, "", ""))?;
    assert_holds(abort, rt, folder, "out.session", BEHIND)
}

// The session may be read from the file to which it is written, and stays where the map is refused.
#[test]
fn of_sessions_are_written(rt: HostRuntime) -> Result<(), Fail> {
    let folder = Folder::new(&rt, "session")?;
    assert_saved(&rt, &rt, &folder)?;
    folder.remove(&rt)
}

/// Adds a register where another one stands.
const MEETING: &str = "add /$top last reg { field {} g; } y @ 0x0;\n";

const MEETING_MESSAGE: &str =
    "script:1: X9 the edited map has a fault: E20 address overlap at item 0.1\n";

/// What is told of that line besides, of a map and a script of these paths.
fn meeting_told(rt: &HostRuntime, map: &str, script: &str) -> Result<String, AllocError> {
    format!(in rt.alloc();
        "{script}:1:38: E20 address overlap: y at 0x0 to 0x3 meets a at 0x0 to 0x3
  add /$top last reg {{ field {{}} g; }} y @ 0x0;
                                       ^~~~~
  /$top/a stands at {map}:1:44; the next free address in /$top is 0x4
"
    )
}

fn assert_explained(abort: &impl Abort, rt: &HostRuntime, folder: &Folder) -> Result<(), Fail> {
    write_each(rt, folder, &[("map.rdl", MAP), ("script.txt", MEETING)])?;
    let map = folder.file(rt, "map.rdl")?;
    let script = folder.file(rt, "script.txt")?;
    let told = meeting_told(rt, map.as_str(), script.as_str())?;
    let said = run_in(rt, folder, NAMES, "--strict")?;
    assert_same(abort, said.errors()?, told.as_str(), "the explanation");
    assert_same(abort, said.messages()?, MEETING_MESSAGE, "the messages");
    assert!(abort; said.status == 1);
    Ok(())
}

// Without `--quiet` standard error says what a refused line means, and standard output says what it always says.
#[test]
fn that_meet_are_explained(rt: HostRuntime) -> Result<(), Fail> {
    let folder = Folder::new(&rt, "explained")?;
    assert_explained(&rt, &rt, &folder)?;
    folder.remove(&rt)
}
