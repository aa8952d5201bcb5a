//! The faults of a line of a script. tools/check-faults --write makes this file of docs/faults.txt.
ghost use Rattle.std.specs.Prelude.{codes, IfSome};
ghost use Rattle.rdl_faults.specs.Titles.{Titles};

fn c1() -> &'static str
    ensures { Titles (codes "C1") result.now }
{
    "C1 unknown command
The first word of the line is no command. Capitals count.
Example: the map
    addrmap top { reg { field {} f; } a; reg { field {} g; } b; };
and the script
    delete /$top/b
Cure: Write a command, here `remove /$top/b`. A definition for `add` stands on one line, as each
line is a command.\n"
}

fn c2() -> &'static str
    ensures { Titles (codes "C2") result.now }
{
    "C2 bad operands
An operand is missing, is left over, or hasn't its form. The forms are

    add PATH PLACE TEXT           address PATH N         set PATH PROP VALUE
    remove PATH                   stride PATH N          clear PATH PROP
    rename PATH NAME              align PATH N           default PATH PROP VALUE
    move PATH PLACE               reset PATH N           nodefault PATH PROP
    resize PATH [n]               undo                   assign PATH TARGET PROP VALUE
    bits PATH [high:low]          redo                   unassign PATH TARGET PROP
                                  list

PATH begins with `/`. PLACE is `first`, `last`, `before NAME` or `after NAME`, and names no path.
`none` stands for no size, no bits and no number. VALUE is written, `true` too, and a string has
quotes.
Example: the map
    addrmap top { reg { field {} f; } a; };
and the script
    set /$top/a desc Transmit
Cure: Write the line in its form, here `set /$top/a desc \"Transmit\"`. If the line looks right, a
shell may have taken a `$` or quotes out of it: put it into a file, or into single quotes.\n"
}

fn c3() -> &'static str
    ensures { Titles (codes "C3") result.now }
{
    "C3 not UTF-8
The line is no text.
Example: the map
    addrmap top { reg { field {} f; } a; };
and the script
    set /$top/a desc \"5 <B5>s\"
Cure: Save the script as UTF-8.\n"
}

fn c4() -> &'static str
    ensures { Titles (codes "C4") result.now }
{
    "C4 text refused
TEXT of an `add` isn't one statement of the language. The message has the fault, and its column in
TEXT, from 1.
Example: the map
    addrmap top { reg { field {} f; } a; };
and the script
    add /$top last reg { field {} g } b;
Cure: As that of the fault that it names, here S9: a `;` is missing after `g`. TEXT stands on one
line, and ends with `;`.\n"
}

fn p1() -> &'static str
    ensures { Titles (codes "P1") result.now }
{
    "P1 no such name
A name of the path isn't there, or the path has over 17 names. `$NAME` is a definition, `NAME` an
instance.
Example: the map
    addrmap uart { reg { field {} divisor[16]; } baud; };
and the script
    remove /$uart/buad
Cure: Write the name as it is in the map. The first name of a path is that of a definition, with a
`$`.\n"
}

fn p2() -> &'static str
    ensures { Titles (codes "P2") result.now }
{
    "P2 through a named type
The path goes into an instance whose body isn't its own: it is that of a type, and others may use
it.
Example: the map
    reg status_t { field {} busy; };
    addrmap uart { status_t status; };
and the script
    set /$uart/status/busy sw r
Cure: For all instances of the type write the type's path, `set /$status_t/busy sw r`; for this one
`assign /$uart status.busy sw r`.\n"
}

fn x1() -> &'static str
    ensures { Titles (codes "X1") result.now }
{
    "X1 no such path
The path of the line leads nowhere. P1 or P2 after it says why.
Example: the map
    addrmap uart { reg { field {} divisor[16]; } baud; };
and the script
    remove /uart/baud
Cure: As that of P1 or P2. Here a `$` is missing: `remove /$uart/baud`.\n"
}

fn x2() -> &'static str
    ensures { Titles (codes "X2") result.now }
{
    "X2 no such sibling
The item of `before` or `after` isn't in this body, or is the one that is to be moved.
Example: the map
    addrmap top { reg { field {} f; } a; reg { field {} g; } b; };
and the script
    move /$top/b before c
Cure: Write an item of the same body by its name alone, as `before a`; a definition as `before $t`.\n"
}

fn x3() -> &'static str
    ensures { Titles (codes "X3") result.now }
{
    "X3 name taken
An instance of this body has the name; or, for a definition, a definition anywhere in the map. To
rename an item to its own name is refused as well.
Example: the map
    addrmap top { reg { field {} f; } a; reg { field {} g; } b; };
and the script
    rename /$top/b a
Cure: Take another name. To exchange two names, rename one of them to a third one first.\n"
}

fn x4() -> &'static str
    ensures { Titles (codes "X4") result.now }
{
    "X4 reserved name
The new name is a word of the language.
Example: the map
    addrmap top { reg { field {} f; } a; };
and the script
    rename /$top/a signal
Cure: Take another name.\n"
}

fn x5() -> &'static str
    ensures { Titles (codes "X5") result.now }
{
    "X5 definition in use
What is to be removed is the type of an instance.
Example: the map
    reg status_t { field {} busy; };
    addrmap top { status_t a; };
and the script
    remove /$status_t
Cure: Remove its instances first. `rename` changes the name of a type and all its uses.\n"
}

fn x6() -> &'static str
    ensures { Titles (codes "X6") result.now }
{
    "X6 not set
There is nothing to take out: this body has no such assignment or default of its own.
Example: the map
    addrmap top { default sw = r; reg { field {} f; } a; };
and the script
    clear /$top/a/f sw
Cure: Look where the value comes from. Of a `default` around it take `nodefault PATH PROP`, of an
assignment with `->` `unassign PATH TARGET PROP`, and of a reset `= N` of the instance `reset PATH
none`.\n"
}

fn x7() -> &'static str
    ensures { Titles (codes "X7") result.now }
{
    "X7 not an instance
The command needs an instance and the path is that of a definition; or it needs an item and the path
is `/`.
Example: the map
    reg status_t { field {} busy; };
    addrmap top { status_t a; };
and the script
    address /$status_t 0x10
Cure: Write the path of an instance, here `/$top/a`.\n"
}

fn x8() -> &'static str
    ensures { Titles (codes "X8") result.now }
{
    "X8 only definitions and instances are added
TEXT of an `add` is a property, a default or an assignment with `->`.
Example: the map
    addrmap top { reg { field {} f; } a; };
and the script
    add /$top/a/f last sw = r;
Cure: Write `set` for a property of the component, here `set /$top/a/f sw r`; `default` for a
default; `assign` for an assignment with `->`.\n"
}

fn x9() -> &'static str
    ensures { Titles (codes "X9") result.now }
{
    "X9 the edited map has a fault
The line is in order, and the map that it would make has a fault E, which the message has too. Its
item is told by numbers: docs/GUIDE.md says how to find it. The map stays as it was.
Example: the map
    addrmap top { reg { field {} f; } a; reg { field {} g; } b; };
and the script
    address /$top/b 0x2
Cure: As that of the fault, here E20. Where several lines are needed to get there, write them in an
order in which each map between them is right: first make room, then use it.\n"
}

fn j1() -> &'static str
    ensures { Titles (codes "J1") result.now }
{
    "J1 history full
As many edits can be undone as `--history` says, so no further one is taken.
Example: the map
    addrmap top { reg { field {} f; } a; reg { field {} g; } b; };
and the script
    rename /$top/a c
    rename /$top/b d
and the words
    --history 1
Cure: Give a greater `--history`, up to 1000000; or begin a new history with the edited map as MAP.\n"
}

fn j2() -> &'static str
    ensures { Titles (codes "J2") result.now }
{
    "J2 nothing to undo
No accepted edit is left that could be undone.
Example: the map
    addrmap top { reg { field {} f; } a; };
and the script
    undo
Cure: Take the line out. Edits of an earlier run can be undone if MAP is the session that it wrote.\n"
}

fn j3() -> &'static str
    ensures { Titles (codes "J3") result.now }
{
    "J3 nothing to redo
Nothing was undone, or an edit has been accepted since: it drops what could be redone.
Example: the map
    addrmap top { reg { field {} f; } a; reg { field {} g; } b; };
and the script
    rename /$top/a c
    undo
    rename /$top/b d
    redo
Cure: Write the edit anew.\n"
}

/// The entry of the fault of this number, if it is one of these.
pub(crate) fn explained(number: &str) -> Option<&'static str>
    ensures { IfSome result (λ text. Titles number.now text.now) }
{
    match number {
        "C1" => Some(c1()),
        "C2" => Some(c2()),
        "C3" => Some(c3()),
        "C4" => Some(c4()),
        "P1" => Some(p1()),
        "P2" => Some(p2()),
        "X1" => Some(x1()),
        "X2" => Some(x2()),
        "X3" => Some(x3()),
        "X4" => Some(x4()),
        "X5" => Some(x5()),
        "X6" => Some(x6()),
        "X7" => Some(x7()),
        "X8" => Some(x8()),
        "X9" => Some(x9()),
        "J1" => Some(j1()),
        "J2" => Some(j2()),
        "J3" => Some(j3()),
        _ => None,
    }
}
