//! The faults of a session, a header or an edited text. tools/check-faults --write makes this file of docs/faults.txt.
ghost use Rattle.std.specs.Prelude.{codes, IfSome};
ghost use Rattle.rdl_faults.specs.Titles.{Titles};

fn z1() -> &'static str
    ensures { Titles (codes "Z1") result.now }
{
    "Z1 not a session
MAP begins with the line `regedit session 1`, and what follows is none: it was cut off or changed by
hand. A text in it may have a fault S.
Example: the map
    regedit session 1
    map 3
Cure: Take the file that a run has written, whole. Edit a session by a script, not by hand.\n"
}

fn z2() -> &'static str
    ensures { Titles (codes "Z2") result.now }
{
    "Z2 a patch does not fit
A step of the session can't be taken, as it was changed by hand. `undo 1` is the next one that would
be undone.
Example: the map
    regedit session 1
    map 55
    addrmap top {
        reg {
        } a;
        reg {
        } b;
    };
    undo 1
    back 1
    delete 0.7
    redo 0
    end
Cure: As that of Z1.\n"
}

fn z3() -> &'static str
    ensures { Titles (codes "Z3") result.now }
{
    "Z3 a place does not elaborate
A map to which the session leads has a fault, which the message has too. Where that is E13, the name
of `--top` isn't there: a session doesn't keep it.
Example: the map
    regedit session 1
    map 26
    addrmap a {
    };
    reg b {
    };
    undo 0
    redo 0
    end
and the words
    --top top
Cure: Give the `--top` of the run that wrote the session. Else as that of Z1.\n"
}

fn z4() -> &'static str
    ensures { Titles (codes "Z4") result.now }
{
    "Z4 session too long
The session would have over 67,108,864 bytes, so none is written. All other files are.
Example: none, as it would have 64 MiB
Cure: Give a smaller `--history` to the run, or begin a new history with the edited map as MAP.\n"
}

fn h1() -> &'static str
    ensures { Titles (codes "H1") result.now }
{
    "H1 two macros with one name
The names of two paths are the same once they are joined by `__`. No header is written; all other
files are.
Example: the map
    addrmap top {
        reg { field {} c; } a__b;
        reg { field {} b__c; } a;
    };
Cure: Rename one of them. The message has the name that was there before, here `top__a__b__c_bm`.\n"
}

fn k1() -> &'static str
    ensures { Titles (codes "K1") result.now }
{
    "K1 edited text too long
The text of `--edited` would have over 67,108,864 bytes, so it isn't written.
Example: none, as it would have 64 MiB
Cure: Shorten the comments of the map, or take the map of `--rdl`, which has none.\n"
}

fn k2() -> &'static str
    ensures { Titles (codes "K2") result.now }
{
    "K2 edited text not woven
The text of `--edited` was made, looked at, and found not to be the map of `--rdl`, or not to keep
what no edit touched. The file stays as it was.
Example: none, as this is a defect of the program and no run is known that ends so
Cure: Take `--rdl`, and send us the map and the script.\n"
}

fn k3() -> &'static str
    ensures { Titles (codes "K3") result.now }
{
    "K3 no source text in the session
MAP is a session of runs without `--edited`, which keeps no comments and no spelling, so there is no
text to weave the edits into.
Example: the map
    regedit session 1
    map 17
    addrmap top {
    };
    undo 0
    redo 0
    end
and the words
    --edited edited.rdl
Cure: Give the map itself as MAP, or leave `--edited` out.\n"
}

fn k4() -> &'static str
    ensures { Titles (codes "K4") result.now }
{
    "K4 session without its source text
The session is to keep the text of the first map, since `--edited` is given or the session MAP kept
it, and both together would have over 67,108,864 bytes. The session is written without that text, so
a later run can undo and redo, and makes no edited text.
Example: none, as it would have 64 MiB
Cure: Take a smaller `--history`, or begin anew with the edited map as MAP.\n"
}

/// The entry of the fault of this number, if it is one of these.
pub(crate) fn explained(number: &str) -> Option<&'static str>
    ensures { IfSome result (λ text. Titles number.now text.now) }
{
    match number {
        "Z1" => Some(z1()),
        "Z2" => Some(z2()),
        "Z3" => Some(z3()),
        "Z4" => Some(z4()),
        "H1" => Some(h1()),
        "K1" => Some(k1()),
        "K2" => Some(k2()),
        "K3" => Some(k3()),
        "K4" => Some(k4()),
        _ => None,
    }
}
